//! A machine whose random source fails.
use super::super::expect_run;
use super::run;
use std::io;
use std::net::{Net, SocketAddr, TcpListener, TcpStream};
use std::random::RandomSource;
use std::sync::Wait;
use std::thread::Threads;
use std::time::{Clock, Duration};

/// A machine of which all but the random source is as it is.
#[derive(Clone, Copy)]
struct Seedless<'a, R: Sync>(&'a R);

impl<R: Wait + Sync> Wait for Seedless<'_, R> {}

impl<R: Threads + Sync> Threads for Seedless<'_, R> {}

impl<R: Clock + Sync> Clock for Seedless<'_, R> {
    fn monotonic(&self) -> io::Result<Duration> {
        self.0.monotonic()
    }

    fn since_1970(&self) -> io::Result<Duration> {
        self.0.since_1970()
    }

    fn sleep(&self, duration: Duration) {
        self.0.sleep(duration)
    }
}

impl<R: Net<Listener = TcpListener, Stream = TcpStream> + Sync> Net for Seedless<'_, R> {
    type Stream = TcpStream;

    type Listener = TcpListener;

    fn bind(&self, address: SocketAddr) -> io::Result<TcpListener> {
        self.0.bind(address)
    }

    fn connect(&self, address: SocketAddr) -> io::Result<TcpStream> {
        self.0.connect(address)
    }
}

impl<R: Sync> RandomSource for Seedless<'_, R> {
    fn fill_bytes(&self, _buffer: &mut [u8]) -> io::Result<()> {
        Err(io::Error::from(io::ErrorKind::Other))
    }
}

/// Words for a node at an address that is none, and what they leave where no seed can be had.
type Row = (&'static [&'static str], &'static [u8]);

static ROWS: [Row; 2] = [
    // The seed is looked for before the socket, and behind the capacity.
    (&["node", "--listen", "nowhere"], b"migctl: input\n"),
    (
        &["node", "--listen", "nowhere", "--capacity", "0"],
        b"migctl: node 1 ZeroCapacity\n",
    ),
];

#[test]
fn a_seed_that_cannot_be_had_has_a_line(rt: HostRuntime) {
    for (words, line) in ROWS.iter() {
        let ran = run(&Seedless(&rt), rt.alloc(), &[], words);
        expect_run(&rt, &ran, 1, b"", line);
    }
}
