//! The laws of the text, which hold of every request and every reply that the types of this crate can hold.
ghost use Rattle.std.specs.Prelude.{◌≡◌, ◌+◌, ◌<◌, ◌↔◌, ℕ, List, [], ◌++◌, length, false, Some, Ok, Err, All};
ghost use Rattle.mr_text.specs.declared.request.Request.{Request};
ghost use Rattle.mr_text.specs.declared.reply.Reply.{Reply};
ghost use Rattle.mr_text.specs.declared.error.TextError.{TextError};
ghost use Rattle.mr_text.specs.declared.error.TextError.TheVariants.{UnknownCommand};
ghost use Rattle.mr_text.specs.Commands.{IsExptime};
ghost use Rattle.mr_text.specs.Key.{IsKey};
ghost use Rattle.mr_text.specs.Limits.{MAX_LINE, MAX_BLOCK};
ghost use Rattle.mr_text.specs.Canonical.{canonical_request, canonical_reply};
ghost use Rattle.mr_text.specs.Requests.{SpellsRequest, RefusesRequest, SkipsLine, is_quit};
ghost use Rattle.mr_text.specs.Stream.{ReaderView, StandsFor, IsUnfinished, NextIs, unread};
ghost use Rattle.mr_text.specs.Replies.{SpellsReply, RefusesReply};
ghost use Rattle.mr_text.specs.Valid.{IsFlags, IsValidRequest, IsValidItem, IsValidCause, IsValidReply};

use crate::cause::Cause;
use crate::item::Item;
use crate::key::Key;
use crate::reply::Reply;
use crate::request::Request;

/// No request's spelling is a proper prefix of another's, and no bytes spell two requests.
pub fn requests_are_prefix_free()
    ensures { (bytes after : List ℕ) (request other : Request)
        → SpellsRequest bytes request → SpellsRequest (bytes ++ after) other
        → (after ≡ []) × (request ≡ other) }
{}

/// What begins with a request's spelling is refused nothing.
pub fn no_request_is_refused()
    ensures { (bytes after : List ℕ) (request : Request) (refusal : TextError)
        → SpellsRequest bytes request → ¬ RefusesRequest refusal (bytes ++ after) }
{}

/// No bytes get two refusals of a request.
pub fn requests_have_one_refusal()
    ensures { (bytes : List ℕ) (refusal other : TextError)
        → RefusesRequest refusal bytes → RefusesRequest other bytes → refusal ≡ other }
{}

/// No reply's spelling is a proper prefix of another's, and no bytes spell two replies.
pub fn replies_are_prefix_free()
    ensures { (bytes after : List ℕ) (reply other : Reply)
        → SpellsReply bytes reply → SpellsReply (bytes ++ after) other
        → (after ≡ []) × (reply ≡ other) }
{}

/// What begins with a reply's spelling is refused nothing.
pub fn no_reply_is_refused()
    ensures { (bytes after : List ℕ) (reply : Reply) (refusal : TextError)
        → SpellsReply bytes reply → ¬ RefusesReply refusal (bytes ++ after) }
{}

/// No bytes get two refusals of a reply.
pub fn replies_have_one_refusal()
    ensures { (bytes : List ℕ) (refusal other : TextError)
        → RefusesReply refusal bytes → RefusesReply other bytes → refusal ≡ other }
{}

/// Every reader stands for some rest, of as many bytes as it has still to read.
pub fn readers_stand_for_a_rest()
    ensures { (reader : ReaderView) → (rest : List ℕ) × StandsFor reader rest × (unread reader ≡ length rest) }
{}

/// A request that a reader gives leaves it fewer bytes to read, so that a loop over requests ends.
pub fn requests_leave_less()
    ensures { (old new : ReaderView) (rest : List ℕ) (request : Request) → StandsFor old rest
        → NextIs SpellsRequest RefusesRequest SkipsLine is_quit old new rest (Ok (Some request))
        → unread new < unread old }
{}

/// A line that a reader skips leaves it fewer bytes to read.
pub fn skipped_lines_leave_less()
    ensures { (old new : ReaderView) (rest : List ℕ) → StandsFor old rest
        → NextIs SpellsRequest RefusesRequest SkipsLine is_quit old new rest (Err (UnknownCommand false))
        → unread new < unread old }
{}

/// A line is skipped exactly where the bytes get the refusal of an unknown command that doesn't close.
pub fn skipped_lines_are_refused()
    ensures { (bytes : List ℕ)
        → ((after : List ℕ) × SkipsLine bytes after) ↔ RefusesRequest (UnknownCommand false) bytes }
{}

/// Nothing holds neither a request nor a refusal.
pub fn nothing_is_unfinished()
    ensures { IsUnfinished SpellsRequest RefusesRequest [] }
{}

/// Bytes that hold neither a request nor a refusal are fewer than the longest line and the longest block have with
/// their ends: a reader of requests that is read out after each piece keeps no more.
pub fn unfinished_requests_are_short()
    ensures { (bytes : List ℕ) → IsUnfinished SpellsRequest RefusesRequest bytes → length bytes < MAX_LINE + 2 + MAX_BLOCK + 2 }
{}

/// The canonical text of a request spells that request: a reader that comes to it gives it, whatever follows.
pub fn canonical_request_is_read()
    ensures { (request : Request) → IsValidRequest request
        → SpellsRequest (canonical_request request) request }
{}

/// The canonical text of a reply spells that reply: a reader that comes to it gives it, whatever follows.
pub fn canonical_reply_is_read()
    ensures { (reply : Reply) → IsValidReply reply
        → SpellsReply (canonical_reply reply) reply }
{}

/// Every request is one that the laws speak of.
pub fn request_is_valid(request: &Request)
    ensures { IsValidRequest request.now }
{
    match request {
        Request::Get { keys } => each_is_key(keys.as_slice()),
        Request::Set {
            key,
            flags,
            exptime,
            block,
            ..
        } => {
            key.as_bytes();
            are_flags(*flags);
            is_exptime(*exptime);
            block.as_bytes();
        }
        Request::Delete { key, .. } => {
            key.as_bytes();
        }
        Request::Quit => {}
    }
}

/// Every reply is one that the laws speak of.
pub fn reply_is_valid(reply: &Reply)
    ensures { IsValidReply reply.now }
{
    match reply {
        Reply::Items(items) => each_is_item(items.as_slice()),
        Reply::ClientError(cause) => is_cause(cause),
        Reply::ServerError(cause) => is_cause(cause),
        Reply::Stored => {}
        Reply::Deleted => {}
        Reply::NotFound => {}
        Reply::Error => {}
    }
}

/// What a list of keys holds are keys.
fn each_is_key(keys: &[Key])
    ensures { All IsKey keys.now }
{
    for key in keys {
        key.as_bytes();
    }
}

/// Flags fit their field.
fn are_flags(flags: u32)
    ensures { IsFlags flags }
{}

/// The moment at which an item expires fits its field.
fn is_exptime(exptime: i64)
    ensures { IsExptime exptime }
{}

/// An item's parts are what they must be.
fn is_item(item: &Item)
    ensures { IsValidItem item.now }
{
    item.key.as_bytes();
    are_flags(item.flags);
    item.block.as_bytes();
}

/// What a list of items holds are items.
fn each_is_item(items: &[Item])
    ensures { All IsValidItem items.now }
{
    for item in items {
        is_item(item);
    }
}

/// A cause is named, or its text is no name.
fn is_cause(cause: &Cause)
    ensures { IsValidCause cause.now }
{
    if let Cause::Other(text) = cause {
        text.as_bytes();
    }
}
