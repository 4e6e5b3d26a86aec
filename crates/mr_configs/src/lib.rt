//! Configurations of migrations, which operators hand over as JSON, read in one fixed order of checks; and what follows from
//! one: the plan of a request, the timeline, and the digest of its JSON.
#![tactic(auto)]

mod advice;
mod chain;
mod config;
mod defaults;
mod digest;
mod error;
pub mod fields;
pub mod laws;
mod migration;
mod names;
mod planning;
mod pools;
mod route;
mod times;

pub use advice::{Advice, Standing, advise};
pub use config::{Config, Draft, draft_of, json_of};
pub use defaults::DEFAULT_INTERVAL;
pub use digest::config_digest;
pub use error::PlanError;
pub use names::{is_among, is_node_name};
pub use planning::{RequestPlan, plan};
pub use route::name_pointed_to;
pub use times::{ChainTimes, NewOnlyTime, PhaseTimes, Span, timeline};
