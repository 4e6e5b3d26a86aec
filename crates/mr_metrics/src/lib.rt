//! What a running node or proxy tells of itself, as the text that is scraped from it.
#![tactic(auto)]

mod counts;
mod exposition;
mod families;
mod label;
pub mod laws;
mod links;
mod node;
mod number;
mod proxy;
mod service;
mod times;

pub use counts::{AnswerCount, AnswerKind, Command, RequestCount};
pub use links::LinkCount;
pub use node::{NodeSnapshot, node_metrics};
pub use proxy::{ProxySnapshot, proxy_metrics};
pub use service::ServiceSnapshot;
pub use times::{Bucket, Times};
