//! A client of a fleet.
ghost use Rattle.std.specs.Prelude.{◌≡◌, ◌≢◌};
ghost use Rattle.mr_fleet.specs.ClientEnd.{IsUnread, IsUnwritten};

use crate::finished_client::FinishedClient;
use crate::link_carriers::LinkCarriers;
use crate::links::Links;
use mr_clock::Clock;
use mr_desks::{Carrier, Desk, RecordedProxy, WorkerError};
use mr_sessions::{Served, serve_client};
use mr_text::{Sink, Source};
use std::alloc::Global;
use std::sync::Wait;

/// A client that wasn't served yet.
#[derive(Drop)]
pub struct FleetClient<K: Clock, S: Source, W: Sink> {
    /// The clock at whose readings its requests are issued.
    pub clock: K,
    /// What its requests are read from.
    pub reader: S,
    /// What its answers are written to.
    pub writer: W,
    /// How many reads its session makes at most.
    pub turns: u64,

    /// Nothing was read yet.
    pub ghost unread: { IsUnread (S.told reader) },

    /// Nothing was written yet.
    pub ghost unwritten: { IsUnwritten (W.told writer) },
}

impl<K: Clock, S: Source, W: Sink> FleetClient<K, S, W> {
    /// A client whose session makes at most `turns` reads.
    pub fn new(clock: K, reader: S, writer: W, turns: u64) -> FleetClient<K, S, W>
        requires unread { IsUnread (S.told reader) }
        requires unwritten { IsUnwritten (W.told writer) }
        ensures clock { result.clock ≡ clock }
        ensures reader { result.reader ≡ reader }
        ensures writer { result.writer ≡ writer }
        ensures turns { result.turns ≡ turns }
    {
        FleetClient {
            clock,
            reader,
            writer,
            turns,
        }
    }
}

impl<K: Clock + Drop, S: Source, W: Sink> FleetClient<K, S, W> {
    /// Serves the client over these links.
    pub(crate) fn serve<C: Carrier, R: Wait>(
        self,
        rt: &R,
        alloc: Global,
        desk: &RecordedProxy<C>,
        links: Links<C>,
    ) -> FinishedClient<C, K, S, W>
        ensures ended { result.end.result ≢ Err WorkerError.NoThread }
        ensures turns { result.end.turns ≡ self.turns }
    {
        let Self {
            mut clock,
            mut reader,
            mut writer,
            turns,
        } = self;
        let mut carriers = LinkCarriers::new(rt, alloc, links);
        let Served {
            ended,
            share,
            answers,
        } = serve_client(
            rt,
            alloc,
            desk,
            &mut clock,
            &mut reader,
            &mut writer,
            &mut carriers,
            turns,
        );
        FinishedClient::after_session(ended, reader, writer, turns, share, answers)
    }

    /// Ends a client for which no thread could be made. It takes no memory.
    pub(crate) fn without_thread<C: Carrier>(
        self,
        alloc: Global,
        desk: &RecordedProxy<C>,
    ) -> FinishedClient<C, K, S, W>
        ensures ended { result.end.result ≡ Err WorkerError.NoThread }
        ensures turns { result.end.turns ≡ self.turns }
    {
        let Self {
            clock: _,
            reader,
            writer,
            turns,
        } = self;
        let ended = Err(WorkerError::NoThread);
        FinishedClient::of(ended, reader, writer, turns, desk.share(), Vec::new(alloc))
    }
}
