//! The service of those that scrape metrics. No contract speaks of what it does with time and threads.

use crate::moments::moment_after;
use crate::until::UntilThen;
use mr_http::{Tells, serve_scrape};
use mr_text::{OverReader, OverWriter};
use std::alloc::Global;
use std::io::Read;
use std::net::{Shutdown, TcpListener, TcpStream};
use std::sync::Wait;
use std::sync::atomic::{AtomicU64, Ordering};
use std::thread;
use std::thread::{Scope, Threads};
use std::time::{Clock, Duration};

/// How often it is looked whether a scraper came, and whether the service has ended, in milliseconds.
const LOOK_MILLIS: u64 = 5;

/// How long a scraper is served at most, in milliseconds, however slowly it asks or reads.
const SCRAPE_MILLIS: u64 = 5_000;

/// How many scrapers are served at once. Who comes beside them is turned away.
const MOST_SCRAPERS: u64 = 64;

/// How many reads are made at most of what a scraper sends behind its request.
const MOST_IDLE_READS: u64 = 64;

/// Whether a service has ended, and how many scrapers it serves now.
pub(crate) struct ScrapeState {
    ended: AtomicU64,
    served: AtomicU64,
}

impl Drop for ScrapeState {
    fn drop(self) {
        let Self {
            ended: _,
            served: _,
        } = self;
    }
}

impl ScrapeState {
    /// It goes on, and serves no scraper yet.
    pub(crate) fn new() -> ScrapeState {
        ScrapeState {
            ended: AtomicU64::new(0),
            served: AtomicU64::new(0),
        }
    }

    /// From now on no scraper is served any more.
    pub(crate) fn end(&self) {
        self.ended.store(1, Ordering::SeqCst);
    }

    /// Whether no scraper is served any more.
    pub(crate) fn has_ended(&self) -> bool {
        self.ended.load(Ordering::SeqCst) != 0
    }

    /// Whether there is room for one more scraper, who has it then.
    fn begin(&self) -> bool {
        let before = self.served.fetch_add(1, Ordering::SeqCst);
        if before >= MOST_SCRAPERS {
            self.leave();
            return false;
        }
        true
    }

    /// A scraper is served no more.
    fn leave(&self) {
        self.served.fetch_sub(1, Ordering::SeqCst);
    }
}

/// Reads what a scraper sends behind its request, so that its end doesn't take the answer along.
fn read_rest<R: Clock>(mut rest: UntilThen<'_, R>) {
    let mut idle = [0u8; 1024];
    for _ in 0..MOST_IDLE_READS {
        match rest.read(&mut idle) {
            Ok(0) | Err(_) => return,
            Ok(_) => {}
        }
    }
}

/// Serves a scraper, for a bounded time.
fn serve_scraper<T: Tells, R: Clock>(rt: &R, alloc: Global, stream: &TcpStream, teller: &T) {
    let Some(until) = moment_after(rt, SCRAPE_MILLIS) else {
        return;
    };
    let mut reader = OverReader::new(UntilThen { rt, stream, until });
    let mut writer = OverWriter::new(UntilThen { rt, stream, until });
    if serve_scrape(alloc, teller, &mut reader, &mut writer).is_err() {
        return;
    }
    let _ = stream.shutdown(Shutdown::Write);
    read_rest(UntilThen { rt, stream, until });
}

/// Serves scrapers, each in a thread of its own, until the service has ended.
fn accept_scrapers<'s, 'e, T: Tells + Sync, R: Threads + Wait + Clock + Sync>(
    rt: &'s R,
    scope: &'s Scope<'s, &'e ()>,
    alloc: Global,
    listener: TcpListener,
    teller: &'s T,
    state: &'s ScrapeState,
) {
    for _ in rt.forever() {
        if state.has_ended() {
            return;
        }
        let Ok((stream, _)) = listener.accept() else {
            thread::sleep(rt, Duration::from_millis(LOOK_MILLIS));
            continue;
        };
        if state.begin() {
            let begun = scope.spawn(move || {
                serve_scraper(rt, alloc, &stream, teller);
                state.leave();
            });
            if begun.is_err() {
                state.leave();
            }
        }
    }
}

/// Serves scrapers until the service has ended, and each of them to its end. Where the socket can't be asked without waiting none
/// is served, since the service could never end.
pub(crate) fn serve_scrapers<T: Tells + Sync, R: Threads + Wait + Clock + Sync>(
    rt: &R,
    alloc: Global,
    listener: TcpListener,
    teller: &T,
    state: &ScrapeState,
) {
    if listener.set_nonblocking(true).is_err() {
        return;
    }
    thread::scope(thread::scope_env(), rt, move |scope| {
        accept_scrapers(rt, scope, alloc, listener, teller, state)
    })
}
