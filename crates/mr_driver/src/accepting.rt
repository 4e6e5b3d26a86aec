//! The thread that accepts.

use crate::doors::Doors;
use crate::hearing::{Hears, LoopEvent, want_of};
use crate::links::number_of;
use crate::loads::{clients_in, least_loaded};
use crate::serving::DriverBounds;
use std::alloc::{AllocError, Global};
use std::net::{Net, SocketAddrV4, TcpListener, TcpStream};
use std::sync::Wait;
use std::time::{Clock, Duration};
use std::{io, thread};

/// For how many milliseconds nothing is accepted after a connection that couldn't be, as where no descriptor is left.
const PAUSE_MILLIS: u64 = 100;

/// After how many milliseconds it is looked again whether one of as many clients as may be has left.
const LOOK_MILLIS: u64 = 7;

/// A socket that listens at an address with the longest queue that the system allows, and whose `accept` waits.
pub fn listen_at<R: Net>(rt: &R, address: SocketAddrV4) -> io::Result<TcpListener> {
    let listener = TcpListener::from(mio::net::TcpListener::bind(rt, address.into())?);
    listener.set_nonblocking(false)?;
    Ok(listener)
}

/// Hands a client to the loop that has the fewest. It is closed where that isn't possible, as where memory is refused.
fn hand_over<R: Wait, T: Drop>(
    rt: &R,
    doors: &Doors<T>,
    loads: &mut Vec<u64>,
    stream: TcpStream,
) -> Result<(), AllocError> {
    let _ = stream.set_nodelay(true);
    if stream.set_nonblocking(true).is_err() {
        return Ok(());
    }
    doors.weigh(loads)?;
    match least_loaded(loads) {
        Some(number) => doors.hand(rt, number, stream),
        None => Ok(()),
    }
}

/// Whether one more client may be accepted. It is heard where clients begin to wait.
fn may_come<E: Hears, T: Drop>(
    doors: &Doors<T>,
    loads: &mut Vec<u64>,
    most: u64,
    ears: &E,
) -> Result<bool, AllocError> {
    doors.weigh(loads)?;
    let is_full = clients_in(loads) >= most;
    if doors.note_full(is_full) && is_full {
        ears.hear(LoopEvent::ClientsWait);
    }
    Ok(!is_full)
}

/// A client couldn't be accepted: there is a pause, unless it was the client that gave up.
fn pause_after<R: Clock, E: Hears>(rt: &R, error: &io::Error, ears: &E) {
    match error.kind() {
        io::ErrorKind::ConnectionAborted | io::ErrorKind::Interrupted => {}
        _ => {
            if let Some(want) = want_of(number_of(error)) {
                ears.hear(want);
            }
            thread::sleep(rt, Duration::from_millis(PAUSE_MILLIS));
        }
    }
}

/// Accepts one client, if one more may come; else it is looked again a moment later. Whether one was accepted, who counts also where
/// memory to hand it over is refused.
fn accept_one<R: Wait + Clock, E: Hears, T: Drop>(
    rt: &R,
    listener: &TcpListener,
    doors: &Doors<T>,
    loads: &mut Vec<u64>,
    most: u64,
    ears: &E,
) -> Result<bool, AllocError> {
    if !may_come(doors, loads, most, ears)? {
        thread::sleep(rt, Duration::from_millis(LOOK_MILLIS));
        return Ok(false);
    }
    match listener.accept() {
        Ok((stream, _)) => {
            if hand_over(rt, doors, loads, stream).is_err() {
                ears.hear(LoopEvent::NoMemory);
            }
            Ok(true)
        }
        Err(error) => {
            pause_after(rt, &error, ears);
            Ok(false)
        }
    }
}

/// Accepts as many clients as the bounds say, and hands each to the loop that has the fewest then.
pub(crate) fn accept_all<R: Wait + Clock, E: Hears, T: Drop>(
    rt: &R,
    alloc: Global,
    listener: &TcpListener,
    doors: &Doors<T>,
    bounds: DriverBounds,
    ears: &E,
) {
    let mut loads = Vec::new(alloc);
    let mut accepted: u64 = 0;
    for _ in rt.forever() {
        if accepted == bounds.clients {
            return;
        }
        match accept_one(rt, listener, doors, &mut loads, bounds.most_clients, ears) {
            Ok(true) => accepted = accepted.saturating_add(1),
            Ok(false) => {}
            Err(_) => {
                ears.hear(LoopEvent::NoMemory);
                thread::sleep(rt, Duration::from_millis(PAUSE_MILLIS));
            }
        }
    }
}
