//! What the tests of several crates are made of: values and texts, pools, names of requests, a reader of either stream, a
//! writer that fails in the middle of a piece, and marks of where memory may be refused. Nothing here asserts.
#![tactic(auto)]

mod making;
mod ops;
mod pools;
mod reading;
mod refusing;
mod rules;
mod takes_half;

pub use making::{add_repeated, first_cell, repeated_keys, reply_text, request_text};
pub use ops::{FIRST, FOURTH, OTHER_FIRST, OTHER_SECOND, SECOND, THIRD};
pub use pools::{pool, routing};
pub use reading::{Reader, Texts, add_answers, add_some_answers, answers_in_two};
pub use refusing::{grant_memory, refuse_memory};
pub use rules::{Rule, bytes_of_rule, equal_bytes};
pub use takes_half::TakesHalf;
