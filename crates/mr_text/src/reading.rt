//! How requests and replies are read: a reader keeps what it hasn't read of its stream, and what a line said of which
//! the block isn't whole. It finds the next item in them without taking memory.

mod begun_item;
mod begun_set;
mod blocks;
mod commands;
mod kept;
mod lines;
mod replies;
mod reply_lines;
mod reply_reader;
mod request_reader;
mod requests;
mod spelled;
mod stream;
mod unfinished_reply;

pub use reply_reader::ReplyReader;
pub use request_reader::RequestReader;
