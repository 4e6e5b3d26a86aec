//! What the clients of one proxy came to, as far as they were waited for.
ghost use Rattle.std.specs.Prelude.{◌≡◌, ◌+◌, ◌≤◌, ◌<◌, map, IfOk, vec_len, vec_capacity};

use crate::client_end::ClientEnd;
use crate::finished_client::FinishedClient;
use mr_clock::Clock;
use mr_desks::{Carrier, Share};
use mr_proxy::Answer;
use mr_text::{Sink, Source};
use std::alloc::{AllocError, Global};

/// What the clients of one proxy came to, in order, and the room for all of them.
#[derive(Drop)]
pub(crate) struct Ending<C: Carrier, K: Clock, S: Source, W: Sink> {
    /// How many clients there is room for.
    pub(crate) limit: usize,
    /// How many requests each of them issued.
    pub(crate) shares: Vec<Share>,
    /// The answers that each of them took.
    pub(crate) answers: Vec<Vec<Answer>>,
    /// How each of them ended.
    pub(crate) ends: Vec<ClientEnd<C, K, S, W>>,

    /// There is room for all.
    pub ghost room_for_shares: { limit ≤ vec_capacity shares },
    pub ghost room_for_answers: { limit ≤ vec_capacity answers },
    pub ghost room_for_ends: { limit ≤ vec_capacity ends },

    /// There is one of each for a client, and they are those that its end speaks of.
    pub ghost as_many_shares: { vec_len shares ≡ vec_len ends },
    pub ghost as_many_answers: { vec_len answers ≡ vec_len ends },
    pub ghost issued: { map (λ end. end.issued.value) ends.items ≡ shares.items },
    pub ghost took: { map (λ end. end.took.value.items) ends.items ≡ map (λ session. session.items) answers.items },
}

impl<C: Carrier + Drop, K: Clock + Drop, S: Source + Drop, W: Sink + Drop> Ending<C, K, S, W> {
    /// The room for so many clients.
    pub(crate) fn with_room(alloc: Global, limit: usize) -> Result<Ending<C, K, S, W>, AllocError>
        ensures limit { IfOk result (λ ending. ending.limit ≡ limit) }
        ensures unused { IfOk result (λ ending. vec_len ending.ends ≡ 0) }
    {
        Ok(Ending {
            limit,
            shares: Vec::with_capacity(alloc, limit)?,
            answers: Vec::with_capacity(alloc, limit)?,
            ends: Vec::with_capacity(alloc, limit)?,
        })
    }

    /// Puts in what the next client came to.
    pub(crate) fn push(&mut self, one: FinishedClient<C, K, S, W>)
        requires { vec_len self.old.ends < self.old.limit }
        ensures ends { vec_len self.new.ends ≡ vec_len self.old.ends + 1 }
        ensures limit { self.new.limit ≡ self.old.limit }
    {
        let FinishedClient {
            end,
            share,
            answers,
        } = one;
        self.shares.push_reserved(share);
        self.answers.push_reserved(answers);
        self.ends.push_reserved(end);
    }
}
