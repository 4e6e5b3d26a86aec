//! The tokens of events: that of the mail, then those of the links, then those of the clients.
ghost use Rattle.std.specs.Prelude.{ℕ, ◌≡◌, ◌+◌, ◌<◌, ◌^◌};
ghost use Rattle.mr_driver.specs.declared.tokens.Origin.{Origin};
ghost use Rattle.mr_driver.specs.Tokens.{origin_of};

/// Where an event comes from.
#[derive(Clone, Copy, Debug, PartialEq, Eq)]
pub(crate) enum Origin {
    /// There is mail.
    Mail,
    /// The link to a node.
    Link(usize),
    /// The client of a place.
    Client(usize),
}

/// The token of the event that says that there is mail.
pub(crate) fn mail_token() -> usize
    ensures { (links : ℕ) → origin_of links result ≡ Origin.Mail }
{
    0
}

/// The token of the events of a link.
pub(crate) fn link_token(number: usize) -> usize
    ensures { (links : ℕ) → number < links → links < 2 ^ 64 → origin_of links result ≡ Origin.Link number }
{
    number.saturating_add(1)
}

/// The token of the events of a client, beside so many links.
pub(crate) fn client_token(links: usize, place: usize) -> usize
    ensures { links + place + 1 < 2 ^ 64 → origin_of links result ≡ Origin.Client place }
{
    links.saturating_add(place).saturating_add(1)
}

/// Where an event comes from, beside so many links.
pub(crate) fn origin_of(links: usize, token: usize) -> Origin
    ensures { result ≡ origin_of links token }
{
    if token == 0 {
        Origin::Mail
    } else if token <= links {
        Origin::Link(token - 1)
    } else {
        Origin::Client(token - 1 - links)
    }
}
