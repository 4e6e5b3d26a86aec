//! What is heard of a scraper's request, and what it is answered; and what is asked of services, and given of their answers.
#![tactic(auto)]

mod error;
mod fetch;
mod heard;
mod pieces;
mod reading;
mod received;
mod response;
mod scrape;

pub use error::FetchFault;
pub use fetch::{ask_stats, fetch_metrics};
pub use heard::MAX_FIELDS;
pub use pieces::{MAX_RESPONSE, MAX_STATS};
pub use reading::MAX_HEAD;
pub use scrape::{ScrapeFault, Tells, serve_scrape};
