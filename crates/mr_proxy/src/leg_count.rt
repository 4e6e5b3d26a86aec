//! How many legs a request has.
ghost use Rattle.std.specs.Prelude.{◌≡◌};
ghost use Rattle.mr_proxy.specs.Sheets.{legs_of};

use mr_text::Request;

/// How many legs a request has, of which a delete goes to so many sides: a get has one for each key, a set has one, and a quit none.
pub fn legs_of(request: &Request, sides: usize) -> usize
    ensures { result ≡ legs_of request.now sides }
{
    match request {
        Request::Get { keys } => keys.as_slice().len(),
        Request::Set { .. } => 1,
        Request::Delete { .. } => sides,
        Request::Quit => 0,
    }
}
