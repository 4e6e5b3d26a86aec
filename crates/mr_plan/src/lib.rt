//! What operators and engineers hand over as JSON, by one name: configurations, and what follows from one; scripts of a
//! fleet's events; and the transcripts of their plays, which anyone can check.
#![tactic(auto)]

pub use mr_configs::{
    Advice, ChainTimes, Config, DEFAULT_INTERVAL, NewOnlyTime, PhaseTimes, PlanError, RequestPlan,
    Span, Standing, advise, plan, timeline,
};
pub use mr_scripts::{
    MAX_EVENTS, MAX_HELD, MAX_PROXIES, MAX_SCRIPT, Script, read_events, upgrade_script,
};
pub use mr_shown::{Format, KeptVerdict, MAX_DATA_ONE};
pub use mr_transcripts::{Checked, Outcome, check_transcript, write_transcript};
