//! The socket of the link to a node.
ghost use Rattle.std.specs.Prelude.{◌≡◌, ◌&&◌, not};
ghost use Rattle.mr_driver.specs.Stages.{is_up_in};

use crate::flow::Flow;
use crate::stages::Progress;
use mio::net::TcpStream;
use mio::{Interest, Registry, Token};
use std::io;
use std::net::{Net, Shutdown, SocketAddrV4};

/// The socket of the link to a node. One that broke is kept until the node is dialled again: so its descriptor is there for the new
/// one, even where clients have all others.
#[derive(Drop)]
pub(crate) struct Link {
    node: Option<SocketAddrV4>,
    pub(crate) stream: Option<TcpStream>,
    pub(crate) progress: Progress,
    pub(crate) flow: Flow,
    /// It stands among those that are to be read.
    pub(crate) is_ready: bool,
    /// It stands among those that may have places for legs again.
    pub(crate) is_freed: bool,
}

/// Begins to connect to a node. The events of the socket have this token.
fn connect<R: Net>(
    rt: &R,
    registry: &Registry,
    token: Token,
    node: SocketAddrV4,
) -> io::Result<TcpStream> {
    let mut stream = TcpStream::connect(rt, node.into())?;
    let _ = stream.set_nodelay(true);
    registry.register(&mut stream, token, Interest::READABLE | Interest::WRITABLE)?;
    Ok(stream)
}

impl Link {
    /// The link to a node that wasn't dialled yet. One without an address never is.
    pub(crate) fn new(node: Option<SocketAddrV4>) -> Link {
        Link {
            node,
            stream: None,
            progress: Progress::new(),
            flow: Flow::new(),
            is_ready: false,
            is_freed: false,
        }
    }

    /// Whether time does something to it: a pause ends, or a node doesn't answer.
    pub(crate) fn is_timed(&self) -> bool {
        self.node.is_some() && !self.progress.is_up()
    }

    /// Whether the node is to be dialled now.
    pub(crate) fn is_due(&self, now: u64) -> bool {
        self.node.is_some() && self.progress.is_due(now)
    }

    /// Whether it is to be read.
    pub(crate) fn is_to_be_read(&self) -> bool
        ensures { result ≡ (is_up_in self.now.progress && self.now.flow.has_more) }
    {
        self.progress.is_up() && self.flow.has_more
    }

    /// Whether it takes bytes.
    pub(crate) fn is_open(&self) -> bool
        ensures { result ≡ (is_up_in self.now.progress && not self.now.flow.is_blocked) }
    {
        self.progress.is_up() && !self.flow.is_blocked
    }

    /// Dials the node. What it was connected by before is gone.
    pub(crate) fn dial<R: Net>(
        &mut self,
        rt: &R,
        registry: &Registry,
        token: Token,
        now: u64,
    ) -> io::Result<()> {
        let Some(node) = self.node else {
            return Ok(());
        };
        self.stream = None;
        self.flow = Flow::new();
        match connect(rt, registry, token, node) {
            Ok(stream) => {
                self.stream = Some(stream);
                self.progress.dial(now);
                Ok(())
            }
            Err(error) => {
                self.progress.refuse(now);
                Err(error)
            }
        }
    }

    /// It is no more. The node is dialled again after a pause.
    pub(crate) fn end(&mut self, now: u64) {
        if let Some(stream) = &self.stream {
            let _ = stream.shutdown(Shutdown::Both);
        }
        self.progress.end(now);
    }

    /// What became of a node that was dialled. None where that isn't known yet.
    pub(crate) fn is_answered(&self) -> Option<bool> {
        let Some(stream) = &self.stream else {
            return Some(false);
        };
        match stream.take_error() {
            Ok(None) => {}
            _ => return Some(false),
        }
        match stream.peer_addr() {
            Ok(_) => Some(true),
            Err(error) if error.kind() == io::ErrorKind::NotConnected => None,
            Err(_) => Some(false),
        }
    }
}
