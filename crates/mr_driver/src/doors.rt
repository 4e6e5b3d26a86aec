//! What loops are told by other threads, and asked.

use crate::loads::load_of;
use crate::tokens::mail_token;
use crossbeam_channel::{Receiver, SendError, Sender, unbounded};
use mio::{Poll, Token, Waker};
use std::alloc::{AllocError, Global};
use std::io;
use std::net::{Net, TcpStream};
use std::sync::atomic::{AtomicBool, AtomicU64, Ordering};
use std::sync::{Arc, Wait};
use std::time::{Clock, Duration, Instant};

/// For how many milliseconds an answer of the loops is waited for.
const ANSWER_MILLIS: u64 = 1_000;

/// What a loop is told.
#[derive(Drop)]
pub(crate) enum Mail<T> {
    /// One more client, whose socket never waits.
    Client(TcpStream),
    /// It is to tell of itself there. A place there is kept for the answer, so that nobody waits for who asked.
    Tell(Sender<T>),
}

/// What a loop and its door tell each other by what both see at any time.
pub(crate) struct Tally {
    /// How many clients were handed to the loop and haven't left it, those among them that it wasn't told of yet.
    clients: AtomicU64,
    /// How many have left it in order.
    served: AtomicU64,
    /// No more clients come.
    are_all: AtomicBool,
    /// The loop takes no more clients.
    has_ended: AtomicBool,
}

impl Drop for Tally {
    fn drop(self) {
        let Self {
            clients: _,
            served: _,
            are_all: _,
            has_ended: _,
        } = self;
    }
}

impl Tally {
    /// Nobody, yet.
    fn new() -> Tally {
        Tally {
            clients: AtomicU64::new(0),
            served: AtomicU64::new(0),
            are_all: AtomicBool::new(false),
            has_ended: AtomicBool::new(false),
        }
    }

    /// A client is the loop's no more.
    pub(crate) fn remove(&self) {
        self.clients.fetch_sub(1, Ordering::SeqCst);
    }

    /// A client leaves in order.
    pub(crate) fn add_served(&self) {
        self.served.fetch_add(1, Ordering::SeqCst);
    }

    /// Whether no more clients come, and all that came have left. Whoever was handed over before no more came is counted by then.
    pub(crate) fn is_over(&self) -> bool {
        self.are_all.load(Ordering::SeqCst) && self.clients.load(Ordering::SeqCst) == 0
    }

    /// The loop takes no more clients.
    pub(crate) fn end(&self) {
        self.has_ended.store(true, Ordering::SeqCst);
    }

    /// By how many clients it is known which loop gets the next one.
    fn load(&self) -> u64 {
        load_of(
            self.has_ended.load(Ordering::SeqCst),
            self.clients.load(Ordering::SeqCst),
        )
    }
}

/// A loop's end.
#[derive(Drop)]
pub(crate) struct Side<T> {
    pub(crate) poll: Poll,
    pub(crate) mail: Receiver<Mail<T>>,
    pub(crate) tally: Arc<Tally, Global>,
}

/// The other end.
#[derive(Drop)]
pub(crate) struct Door<T> {
    mail: Sender<Mail<T>>,
    waker: Waker,
    tally: Arc<Tally, Global>,
}

/// The two ends of what a loop is told.
pub(crate) fn open_door<R: Net, T: Drop>(rt: &R, alloc: Global) -> io::Result<(Side<T>, Door<T>)> {
    let poll = Poll::new(rt)?;
    let waker = Waker::new(poll.registry(), Token(mail_token()))?;
    let (to, from) = unbounded(alloc)?;
    let tally = Arc::new(alloc, Tally::new())?;
    let side = Side {
        poll,
        mail: from,
        tally: Arc::try_clone(&tally)?,
    };
    let door = Door {
        mail: to,
        waker,
        tally,
    };
    Ok((side, door))
}

impl<T: Drop> Door<T> {
    /// Puts something into the loop's mail, and wakes it: what is there already is taken with the next wake, if this one fails.
    fn tell<R: Wait>(&self, rt: &R, mail: Mail<T>) -> Result<(), SendError<Mail<T>>> {
        let sent = self.mail.send(rt, mail);
        let _ = self.waker.wake();
        sent
    }

    /// Hands the loop a client. It is closed where memory for that is refused, and where the loop has ended: that one counts as the
    /// fullest from then on.
    fn hand<R: Wait>(&self, rt: &R, stream: TcpStream) -> Result<(), AllocError> {
        self.tally.clients.fetch_add(1, Ordering::SeqCst);
        match self.tell(rt, Mail::Client(stream)) {
            Ok(()) => Ok(()),
            Err(SendError::Disconnected(_)) => {
                self.tally.end();
                Ok(())
            }
            Err(SendError::OutOfMemory(_)) => {
                self.tally.remove();
                Err(AllocError)
            }
        }
    }

    /// Asks the loop to tell of itself. The answer comes at what is given back; none comes of one that has ended.
    fn ask<R: Wait>(&self, rt: &R, alloc: Global) -> Result<Receiver<T>, AllocError> {
        let (to, from) = unbounded(alloc)?;
        let _ = self.tell(rt, Mail::Tell(to));
        Ok(from)
    }

    /// Tells the loop that no more clients come, which takes no memory.
    fn close(&self) {
        self.tally.are_all.store(true, Ordering::SeqCst);
        let _ = self.waker.wake();
    }
}

/// By which loops are told of clients, and asked what they tell of themselves. Threads may share it.
#[derive(Drop)]
pub struct Doors<T> {
    doors: Vec<Door<T>>,
    full: AtomicBool,
}

impl<T: Drop> Doors<T> {
    /// The doors of these loops.
    pub(crate) fn new(doors: Vec<Door<T>>) -> Doors<T> {
        Doors {
            doors,
            full: AtomicBool::new(false),
        }
    }

    /// What each loop tells of itself, in order. One that has ended or doesn't answer within a second is left out.
    pub fn ask<R: Wait + Clock>(&self, rt: &R, alloc: Global) -> Result<Vec<T>, AllocError> {
        let mut answers = Vec::with_capacity(alloc, self.doors.len())?;
        for door in &self.doors {
            answers.push(door.ask(rt, alloc)?)?;
        }
        let mut reports = Vec::with_capacity(alloc, answers.len())?;
        let begun = Instant::now(rt);
        for answer in &answers {
            if let Ok(report) = answer.recv_timeout(rt, rest_of(rt, &begun)) {
                reports.push(report)?;
            }
        }
        Ok(reports)
    }

    /// Whether clients are kept in the backlog, since as many are served as may be.
    pub fn is_full(&self) -> bool {
        self.full.load(Ordering::SeqCst)
    }

    /// As many are served as may be, or fewer. Whether that is news.
    pub(crate) fn note_full(&self, is_full: bool) -> bool {
        self.full.swap(is_full, Ordering::SeqCst) != is_full
    }

    /// Whether there is no loop.
    pub(crate) fn is_empty(&self) -> bool {
        self.doors.is_empty()
    }

    /// Puts how many clients each loop has in place of what stands there.
    pub(crate) fn weigh(&self, loads: &mut Vec<u64>) -> Result<(), AllocError> {
        loads.clear();
        for door in &self.doors {
            loads.push(door.tally.load())?;
        }
        Ok(())
    }

    /// Hands a client to the loop of this number. It is closed where there is none, and where memory is refused.
    pub(crate) fn hand<R: Wait>(
        &self,
        rt: &R,
        number: usize,
        stream: TcpStream,
    ) -> Result<(), AllocError> {
        match self.doors.get(number) {
            Some(door) => door.hand(rt, stream),
            None => Ok(()),
        }
    }

    /// Tells each loop that no more clients come.
    pub(crate) fn close(&self) {
        for door in &self.doors {
            door.close();
        }
    }

    /// How many clients have left the loops in order.
    pub(crate) fn served(&self) -> u64 {
        let mut served: u64 = 0;
        for door in &self.doors {
            served = served.saturating_add(door.tally.served.load(Ordering::SeqCst));
        }
        served
    }
}

/// How long may still be waited for the loops' answers, since this moment. Nothing more where the clock gives no reading.
fn rest_of<R: Clock>(rt: &R, begun: &io::Result<Instant>) -> Duration {
    match (begun, Instant::now(rt)) {
        (Ok(begun), Ok(now)) => {
            Duration::from_millis(ANSWER_MILLIS).saturating_sub(now.saturating_duration_since(
                *begun,
            ))
        }
        _ => Duration::ZERO,
    }
}
