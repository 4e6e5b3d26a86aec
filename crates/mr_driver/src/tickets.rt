//! By which clients who are held back stand in lists.
ghost use Rattle.std.specs.Prelude.{◌≡◌};
ghost use Rattle.mr_driver.specs.Tickets.{is_cluttered};

/// By which a client who is held back stands in a list. It is void once the client has left, has gone on or has another one: so who
/// comes to the same place later isn't taken for it.
#[derive(Clone, Copy, Debug, PartialEq, Eq)]
pub(crate) struct Ticket {
    /// The client's place.
    pub(crate) place: usize,
    /// The ticket's number, from 1. No other one has it.
    pub(crate) number: u64,
}

/// Whether a list of so many tickets has many void ones, beside so many clients, of whom each has one that isn't void at most.
pub(crate) fn is_cluttered(tickets: usize, clients: usize) -> bool
    ensures { result ≡ is_cluttered tickets clients }
{
    tickets / 2 > clients
}
