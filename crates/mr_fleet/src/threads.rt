//! The threads of a fleet.
mod clients;
mod links;
mod proxies;

pub(crate) use clients::Started;
pub(crate) use proxies::{Underway, join_all, start_all};
