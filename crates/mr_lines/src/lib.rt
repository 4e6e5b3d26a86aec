//! What stands in the bytes of a text of lines: where a line ends, its words, the numbers that words are, and whether a block
//! ends as it has to.
#![tactic(auto)]

mod blocks;
mod lines;
mod numbers;
mod words;

pub use blocks::{BlockEnd, block_end};
pub use lines::{place_of_byte, without_carriage_return};
pub use numbers::{number_up_to, signed_number};
pub use words::{is_text, next_word};
