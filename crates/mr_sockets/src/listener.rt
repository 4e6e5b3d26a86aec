//! What connections are accepted from.
ghost use Rattle.std.specs.Prelude.{◌≡◌, MatchResult};
ghost use Rattle.mr_sockets.specs.Listener.{ListenerView, accepted_one, failed_once};

use crate::patience::bound_waits;
use mr_text::GhostCount;
use std::net::{TcpListener, TcpStream};
use std::time::Duration;
use thiserror::Error;

/// A connection couldn't be accepted.
#[derive(Clone, Copy, Debug, PartialEq, Eq, Error)]
#[error("no connection could be accepted")]
pub struct AcceptFault;

/// What connections are accepted from, whose contract tells how many were and how often that failed.
pub trait Listener {
    /// What came of it so far.
    ghost told: { Self → ListenerView };

    /// Waits for the next client, and accepts its connection.
    fn accept(&mut self) -> Result<TcpStream, AcceptFault>
        ensures { MatchResult result
            (λ _. told self.new ≡ accepted_one (told self.old))
            (λ _. told self.new ≡ failed_once (told self.old)) };
}

/// A socket of std that listens, as a `Listener`. Each call is one call of the socket. The connections send small packets
/// without delay, and each of their reads and writes waits so long at most, where that is bounded.
#[derive(Drop)]
pub struct OverListener {
    inner: TcpListener,
    wait: Option<Duration>,
    accepted: GhostCount,
    failures: GhostCount,
}

impl OverListener {
    ghost use Rattle.std.specs.Prelude.{◌≡◌};

    /// A listener over a socket, from which nothing was accepted yet.
    pub fn new(inner: TcpListener) -> OverListener
        ensures { ⟦<OverListener as Listener>⟧.told result ≡ record { accepted = 0; failures = 0 } }
    {
        OverListener::within(inner, None)
    }

    /// The same, each of whose connections' reads and writes waits so long at most, where that is bounded.
    pub fn within(inner: TcpListener, wait: Option<Duration>) -> OverListener
        ensures { ⟦<OverListener as Listener>⟧.told result ≡ record { accepted = 0; failures = 0 } }
    {
        OverListener {
            inner,
            wait,
            accepted: GhostCount::new(),
            failures: GhostCount::new(),
        }
    }
}

impl Listener for OverListener {
    ghost told = { λ l. record { accepted = l.accepted; failures = l.failures } };

    fn accept(&mut self) -> Result<TcpStream, AcceptFault> {
        match self.inner.accept() {
            Ok((stream, _)) => {
                self.accepted.add_one();
                let _ = stream.set_nodelay(true);
                bound_waits(&stream, self.wait);
                Ok(stream)
            }
            Err(_) => {
                self.failures.add_one();
                Err(AcceptFault)
            }
        }
    }
}
