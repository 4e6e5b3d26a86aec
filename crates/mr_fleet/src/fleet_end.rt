//! How a proxy of a fleet ended.
ghost use Rattle.std.specs.Prelude.{◌≡◌, map, vec_len};
ghost use Rattle.mr_desks.specs.Closing.{ClosesSo};

use crate::client_end::ClientEnd;
use crate::ending::Ending;
use mr_clock::Clock;
use mr_desks::{Book, Carrier, CloseError, RecordedProxy, Share, close};
use mr_proxy::{Answer, ProxyCore};
use mr_text::{Sink, Source};
use std::alloc::Global;
use std::snapshot::Snapshot;

/// How a proxy of a fleet ended: its book, closed with the shares and the answers beside it, and the ends of its clients.
/// There is one share, one list of answers and one end for each client, in the order of the clients.
#[derive(Drop)]
pub struct FleetEnd<C: Carrier, K: Clock, S: Source, W: Sink> {
    /// Its book, which stands with what its clients did; else the book that differs, or, where memory for closing it was
    /// refused, the proxy as it was.
    pub book: Result<Book, CloseError<C>>,
    /// How many requests each client issued.
    pub shares: Vec<Share>,
    /// The answers that each client took.
    pub answers: Vec<Vec<Answer>>,
    /// How each client ended.
    pub ends: Vec<ClientEnd<C, K, S, W>>,
    /// The proxy as it was at first, as contracts see it.
    pub opening: Snapshot<ProxyCore>,

    /// The book was held against these shares and these answers.
    pub ghost closed: { ∥ ClosesSo opening.value shares.items (map (λ session. session.items) answers.items) book ∥₁ },

    /// There is one of each for a client, and they are those that its end speaks of.
    pub ghost as_many_shares: { vec_len shares ≡ vec_len ends },
    pub ghost as_many_answers: { vec_len answers ≡ vec_len ends },
    pub ghost issued: { map (λ end. end.issued.value) ends.items ≡ shares.items },
    pub ghost took: { map (λ end. end.took.value.items) ends.items ≡ map (λ session. session.items) answers.items },
}

impl<C: Carrier, K: Clock, S: Source, W: Sink> FleetEnd<C, K, S, W> {
    /// Closes the book of a proxy by what its clients came to.
    pub(crate) fn of(
        alloc: Global,
        desk: RecordedProxy<C>,
        ending: Ending<C, K, S, W>,
    ) -> FleetEnd<C, K, S, W>
        ensures opening { result.opening.value ≡ desk }
        ensures ends { vec_len result.ends ≡ vec_len ending.ends }
    {
        let Ending {
            limit: _,
            shares,
            answers,
            ends,
        } = ending;
        let opening = Snapshot::of(desk.opening());
        let book = close(alloc, desk, &shares, &answers);
        FleetEnd {
            book,
            shares,
            answers,
            ends,
            opening,
        }
    }
}
