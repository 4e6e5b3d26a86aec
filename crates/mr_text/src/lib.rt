//! The classic memcached text protocol: requests and replies, read from a stream in any pieces and written canonically.
#![tactic(auto)]

mod block;
mod cause;
mod cause_text;
mod devices;
mod error;
mod item;
mod item_list;
mod key;
mod key_list;
pub mod laws;
mod limits;
mod line;
mod reading;
mod reply;
mod request;
mod writing;

pub use block::Block;
pub use cause::Cause;
pub use devices::{
    FailsAt, GhostBytes, GhostCount, GhostLeast, OverReader, OverWriter, Sink, Source,
};
pub use error::{ReadFault, TextError, WriteFault};
pub use item::Item;
pub use item_list::ItemList;
pub use key::Key;
pub use key_list::KeyList;
pub use limits::{FIXED_BUFFER, MAX_BLOCK, MAX_ERROR_TEXT, MAX_ITEMS, MAX_KEY, MAX_LINE};
pub use line::Line;
pub use reading::{ReplyReader, RequestReader};
pub use reply::Reply;
pub use request::Request;
pub use writing::{
    FixedBuffer, put_end, put_get, put_item, put_key, put_line_end, send_delete, send_get,
    send_reply, send_server_error, send_set, write_reply, write_request,
};
