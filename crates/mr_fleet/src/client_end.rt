//! How a client of a fleet ended.
ghost use Rattle.std.specs.Prelude.{◌≡◌, true};
ghost use Rattle.mr_sessions.specs.Asking.{desk_rules};
ghost use Rattle.mr_fleet.specs.ClientEnd.{EndStands, client_end};

use mr_clock::Clock;
use mr_desks::{Carrier, Share, WorkerError};
use mr_node::Ended;
use mr_proxy::Answer;
use mr_text::{Sink, Source};
use std::marker::PhantomData;
use std::snapshot::Snapshot;

/// How a client of a fleet ended. Its type keeps all that is said of a session, of one that began with a reader of which
/// nothing was read and a writer to which nothing was written: what was read, what was written, and how it ended. Only where
/// no thread could be made was there no session; then nothing was read or written.
#[derive(Drop)]
pub struct ClientEnd<C: Carrier, K: Clock, S: Source, W: Sink> {
    /// How its session ended, or why it ended early. NoThread where none could be made for it.
    pub result: Result<Ended, WorkerError>,
    /// What it was read by.
    pub reader: S,
    /// What it was answered by.
    pub writer: W,
    /// How many reads its session could make at most.
    pub turns: u64,
    /// How many requests were issued, as contracts see it.
    pub issued: Snapshot<Share>,
    /// The answers that were taken, as contracts see them.
    pub took: Snapshot<Vec<Answer>>,
    carrier: PhantomData<C>,
    clock: PhantomData<K>,

    /// It had a session, and this is its end; or it had no thread.
    pub ghost stands: { ∥ EndStands (desk_rules K.reads K.failures C.gave true) turns
        (client_end (S.told reader) (W.told writer) issued.value took.value.items result) ∥₁ },
}

impl<C: Carrier, K: Clock, S: Source, W: Sink> ClientEnd<C, K, S, W> {
    /// The end of a client whose session issued and took this.
    pub(crate) fn of(
        ended: Result<Ended, WorkerError>,
        reader: S,
        writer: W,
        turns: u64,
        issued: Snapshot<Share>,
        took: Snapshot<Vec<Answer>>,
    ) -> ClientEnd<C, K, S, W>
        requires { ∥ EndStands (desk_rules K.reads K.failures C.gave true) turns
            (client_end (S.told reader) (W.told writer) issued.value took.value.items ended) ∥₁ }
        ensures ended { result.result ≡ ended }
        ensures turns { result.turns ≡ turns }
        ensures issued { result.issued ≡ issued }
        ensures took { result.took ≡ took }
    {
        ClientEnd {
            result: ended,
            reader,
            writer,
            turns,
            issued,
            took,
            carrier: PhantomData,
            clock: PhantomData,
        }
    }
}
