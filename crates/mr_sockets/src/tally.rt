//! How many clients of a service ended without a fault, counted by tickets, of which each client has one.
ghost use Rattle.std.specs.Prelude.{◌≡◌, ℕ, ◌+◌, ◌^◌, ◌<◌, ◌≤◌};

use std::marker::Brand;
use std::sync::ledger::{Book, Ledger, Share};

/// A ledger that has a ticket for each client of a service.
pub(crate) trait Clients: Ledger {
    /// How many clients there are.
    ghost clients: { ℕ };
}

impl Clients for Brand {
    ghost clients = { 0 };
}

/// A ticket for each client of a service.
#[derive(Drop)]
pub(crate) struct Tickets<C: Clients> {
    clients: u64,
    share: Share<C>,
    ghost all: { clients ≡ C.clients },
    ghost parts: { share.parts ≡ clients },
    ghost amount: { share.amount ≡ clients },
}

impl<C: Clients> Tickets<C> {
    /// The tickets that this share is.
    pub(crate) fn of(clients: u64, share: Share<C>) -> Tickets<C>
        requires all { clients ≡ C.clients }
        requires parts { share.parts ≡ clients }
        requires amount { share.amount ≡ clients }
    {
        Tickets { clients, share }
    }

    /// How many clients there are, and the share.
    pub(crate) fn into_share(self) -> (u64, Share<C>)
        ensures all { result.0 ≡ C.clients }
        ensures parts { result.1.parts ≡ C.clients }
        ensures amount { result.1.amount ≡ C.clients }
    {
        let Tickets { clients, share } = self;
        (clients, share)
    }
}

/// The ticket of a client that wasn't counted yet.
#[derive(Drop)]
pub(crate) struct Ticket<C: Clients> {
    share: Share<C>,
    ghost counts: { 0 < share.amount },
}

impl<C: Clients> Ticket<C> {
    /// The ticket that this share is.
    pub(crate) fn of(share: Share<C>) -> Ticket<C>
        requires { 0 < share.amount }
    {
        Ticket { share }
    }
}

/// How many clients were counted. There is a ticket for each other one.
#[derive(Drop)]
pub(crate) struct Tally<C: Clients> {
    count: u64,
    tickets: Book<C>,
    ghost adds_up: { count + tickets.total ≡ C.clients },
    ghost fits: { C.clients < 2 ^ 64 },
}

impl<C: Clients> Tally<C> {
    /// Nobody was counted yet, and there is a ticket for each client.
    pub(crate) fn new(tickets: Book<C>) -> Tally<C>
        requires all { tickets.total ≡ C.clients }
        requires fits { C.clients < 2 ^ 64 }
    {
        Tally { count: 0, tickets }
    }

    /// Counts the client of a ticket, which is gone then.
    pub(crate) fn count(&mut self, ticket: Ticket<C>) {
        let Ticket { mut share } = ticket;
        let Tally { count, tickets } = self;
        tickets.sub(&mut share, 1);
        *count += 1;
    }

    /// How many were counted. These tickets are left, so it was nobody of theirs.
    pub(crate) fn into_count(self, left: &mut Share<C>) -> u64
        ensures { result + left.old.amount ≤ C.clients }
    {
        let Tally { count, mut tickets } = self;
        tickets.audit(left);
        count
    }
}
