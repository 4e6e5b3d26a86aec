//! What a service answers that is asked for its metrics.
ghost use Rattle.std.specs.Prelude.{◌≡◌, IfOk, option_map};
ghost use Rattle.mr_watch.specs.Told.{node_said, proxy_said, said};
ghost use Rattle.mr_looks.specs.Posts.{answer_shown, proxy_shown, said_by, told_by_node, told_by_proxy};

use mr_servers::HostServers;
use mr_watch::{NodeTold, ProxySeen, ProxyTold, Told, read_told};
use std::alloc::{AllocError, Global};
use std::net::{Net, TcpListener, TcpStream};
use std::random::RandomSource;
use std::sync::Wait;
use std::thread::Threads;
use std::time;

/// What came of asking a service. There is none of one that wasn't asked: `fetch` alone makes it.
#[derive(Debug, Drop)]
pub struct Answer<'a> {
    /// Where the service was asked.
    address: &'a str,
    /// The whole answer, if there was one.
    text: Option<Vec<u8>>,
    /// When the service was asked, in milliseconds.
    asked: u64,
    /// When its answer was there, or wasn't waited for any more.
    answered: u64,
}

impl<'a> Answer<'a> {
    /// Asks the service at this address for its metrics.
    pub fn fetch<
        R: Net<Listener = TcpListener, Stream = TcpStream>
            + Threads
            + Wait
            + time::Clock
            + RandomSource
            + Sync,
    >(
        alloc: Global,
        servers: &HostServers<'_, R>,
        address: &'a str,
    ) -> Result<Answer<'a>, AllocError>
        ensures { IfOk result (λ answer. answer.address ≡ address.entry) }
    {
        let asked = servers.milliseconds();
        let text = servers.metrics_at(alloc, address)?;
        let answered = servers.milliseconds();
        Ok(Answer {
            address,
            text,
            asked,
            answered,
        })
    }

    /// What the service told.
    pub fn told(&self) -> Option<Told<'_>>
        ensures { option_map said result ≡ said_by self.now }
    {
        match &self.text {
            Some(text) => read_told(text.as_slice()),
            None => None,
        }
    }

    /// What it told, where it is a proxy.
    fn of_proxy(&self) -> Option<ProxyTold<'_>>
        ensures { option_map proxy_said result ≡ told_by_proxy (said_by self.now) }
    {
        match self.told() {
            Some(Told::Proxy(told)) => Some(told),
            _ => None,
        }
    }

    /// What it told, where it is a node.
    pub fn of_node(&self) -> Option<NodeTold<'_>>
        ensures { option_map node_said result ≡ told_by_node (said_by self.now) }
    {
        match self.told() {
            Some(Told::Node(told)) => Some(told),
            _ => None,
        }
    }

    /// What is seen by this answer of a service that is known to be a proxy, or isn't.
    pub fn seen(&self, known: bool) -> ProxySeen<'_>
        ensures { proxy_shown result ≡ answer_shown known self.now }
    {
        ProxySeen {
            address: self.address,
            told: self.of_proxy(),
            known,
            asked: self.asked,
            answered: self.answered,
        }
    }
}
