//! Replies by which a node says that it doesn't know what it was asked.
ghost use Rattle.std.specs.Prelude.{◌≡◌};
ghost use Rattle.mr_loop.specs.Returning.{is_complaint};

use mr_text::Reply;

/// Whether the node doesn't know what it was asked.
pub(crate) fn is_complaint(reply: &Reply) -> bool
    ensures { result ≡ is_complaint reply.now }
{
    match reply {
        Reply::Items(_) => false,
        Reply::Stored => false,
        Reply::Deleted => false,
        Reply::NotFound => false,
        Reply::Error => true,
        Reply::ClientError(_) => true,
        Reply::ServerError(_) => false,
    }
}
