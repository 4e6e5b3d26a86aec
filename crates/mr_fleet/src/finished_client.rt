//! What a client's thread hands over.
ghost use Rattle.std.specs.Prelude.{◌≡◌, ◌≢◌, true};
ghost use Rattle.mr_sessions.specs.Asking.{desk_rules};
ghost use Rattle.mr_fleet.specs.ClientEnd.{HadSession, EndStands, client_end};

use crate::client_end::ClientEnd;
use mr_clock::Clock;
use mr_desks::{Carrier, Share, WorkerError};
use mr_node::Ended;
use mr_proxy::Answer;
use mr_text::{Sink, Source};
use std::snapshot::Snapshot;

/// What a client's thread hands over: how the client ended, and what its proxy's book is held against.
#[derive(Drop)]
pub(crate) struct FinishedClient<C: Carrier, K: Clock, S: Source, W: Sink> {
    /// How it ended.
    pub end: ClientEnd<C, K, S, W>,
    /// How many requests it issued.
    pub share: Share,
    /// The answers that it took.
    pub answers: Vec<Answer>,

    /// They are those that its end speaks of.
    pub ghost issued: { end.issued.value ≡ share },
    pub ghost took: { end.took.value.items ≡ answers.items },
}

impl<C: Carrier, K: Clock, S: Source, W: Sink> FinishedClient<C, K, S, W> {
    /// What a client came to.
    pub(crate) fn of(
        ended: Result<Ended, WorkerError>,
        reader: S,
        writer: W,
        turns: u64,
        share: Share,
        answers: Vec<Answer>,
    ) -> FinishedClient<C, K, S, W>
        requires { EndStands (desk_rules K.reads K.failures C.gave true) turns
            (client_end (S.told reader) (W.told writer) share answers.items ended) }
        ensures ended { result.end.result ≡ ended }
        ensures turns { result.end.turns ≡ turns }
    {
        let issued = Snapshot::of(&share);
        let took = Snapshot::of(&answers);
        FinishedClient {
            end: ClientEnd::of(ended, reader, writer, turns, issued, took),
            share,
            answers,
        }
    }

    /// What a client came to that had a session.
    pub(crate) fn after_session(
        ended: Result<Ended, WorkerError>,
        reader: S,
        writer: W,
        turns: u64,
        share: Share,
        answers: Vec<Answer>,
    ) -> FinishedClient<C, K, S, W>
        requires { HadSession (desk_rules K.reads K.failures C.gave true) turns
            (client_end (S.told reader) (W.told writer) share answers.items ended) }
        ensures ended { result.end.result ≢ Err WorkerError.NoThread }
        ensures turns { result.end.turns ≡ turns }
    {
        FinishedClient::of(ended, reader, writer, turns, share, answers)
    }
}
