//! The services that a watch asks for their metrics, with what they told at this look and at the one before.
ghost use Rattle.std.specs.Prelude.{◌≡◌, map, IfOk, OnErr, OnOk, option_map};
ghost use Rattle.std.specs.List.{AllZip};
ghost use Rattle.mr_watch.specs.Told.{node_said};
ghost use Rattle.mr_looks.specs.Posts.{AreUnasked, IsAsked, IsAskedAsOther, IsAskedAsProxy, IsUnasked, addresses_of, addresses_of_unreached, all_shown, begun, earlier_proxies, node_among, node_told, proxies_now, proxy_shown, shown_by, silence_shown, unreached_addresses};

use crate::answers::Answer;
use crate::last_lines::Unreached;
use mr_servers::HostServers;
use mr_watch::{NodeTold, ProxySeen, Told};
use std::alloc::{AllocError, Global};
use std::net::{Net, TcpListener, TcpStream};
use std::random::RandomSource;
use std::sync::Wait;
use std::thread::Threads;
use std::time;

/// What a service is, by what it told last.
#[derive(Clone, Copy, Debug, PartialEq, Eq)]
pub enum Kind {
    /// It told nothing yet that a service tells.
    Unknown,
    /// A proxy.
    Proxy,
    /// A node.
    Node,
}

/// A service that is asked for its metrics.
#[derive(Debug, Drop)]
pub struct Post<'a> {
    /// Where it is to tell.
    pub address: &'a str,
    /// What it is.
    pub kind: Kind,
    /// What it answered at this look, where it was asked.
    pub answer: Option<Answer<'a>>,
    /// What it answered at the look before, where it was asked.
    pub earlier: Option<Answer<'a>>,
}

impl<'a> Post<'a> {
    /// A service at this address, which wasn't asked yet.
    fn new(address: &'a str) -> Post<'a>
        ensures address { result.address.now ≡ address.entry.now }
        ensures unasked { IsUnasked result }
    {
        Post {
            address,
            kind: Kind::Unknown,
            answer: None,
            earlier: None,
        }
    }

    /// What it is.
    fn kind(&self) -> Kind
        ensures { result ≡ self.now.kind }
    {
        self.kind
    }

    /// What it answered at the last look is of the look before from now on.
    fn begin_look(&mut self)
        ensures { self.new ≡ begun self.old }
    {
        self.earlier = self.answer.take();
    }

    /// Asks it. Nothing is changed where memory is refused.
    fn ask<
        R: Net<Listener = TcpListener, Stream = TcpStream>
            + Threads
            + Wait
            + time::Clock
            + RandomSource
            + Sync,
    >(&mut self, alloc: Global, servers: &HostServers<'_, R>) -> Result<(), AllocError>
        ensures asked { OnOk result (IsAsked self.old self.new) }
        ensures kept { OnErr result (self.new ≡ self.old) }
    {
        let answer = Answer::fetch(alloc, servers, self.address)?;
        match answer.told() {
            Some(Told::Proxy(_)) => self.kind = Kind::Proxy,
            Some(Told::Node(_)) => self.kind = Kind::Node,
            None => {}
        }
        self.answer = Some(answer);
        Ok(())
    }

    /// Asks it, where it isn't known to be a proxy. Nothing is changed where memory is refused.
    fn ask_as_other<
        R: Net<Listener = TcpListener, Stream = TcpStream>
            + Threads
            + Wait
            + time::Clock
            + RandomSource
            + Sync,
    >(&mut self, alloc: Global, servers: &HostServers<'_, R>) -> Result<(), AllocError>
        ensures asked { OnOk result (IsAskedAsOther self.old self.new) }
        ensures kept { OnErr result (self.new ≡ self.old) }
    {
        match self.kind {
            Kind::Proxy => Ok(()),
            Kind::Unknown | Kind::Node => self.ask(alloc, servers),
        }
    }

    /// Asks it, where it is known to be a proxy. Nothing is changed where memory is refused.
    fn ask_as_proxy<
        R: Net<Listener = TcpListener, Stream = TcpStream>
            + Threads
            + Wait
            + time::Clock
            + RandomSource
            + Sync,
    >(&mut self, alloc: Global, servers: &HostServers<'_, R>) -> Result<(), AllocError>
        ensures asked { OnOk result (IsAskedAsProxy self.old self.new) }
        ensures kept { OnErr result (self.new ≡ self.old) }
    {
        match self.kind {
            Kind::Proxy => self.ask(alloc, servers),
            Kind::Unknown | Kind::Node => Ok(()),
        }
    }

    /// What is seen of it where it wasn't asked.
    fn unseen(&self) -> ProxySeen<'_>
        ensures { proxy_shown result ≡ silence_shown self.now }
    {
        ProxySeen {
            address: self.address,
            told: None,
            known: self.kind() == Kind::Proxy,
            asked: 0,
            answered: 0,
        }
    }

    /// What this look saw of it, as a proxy.
    fn seen(&self) -> ProxySeen<'_>
        ensures { proxy_shown result ≡ shown_by self.now self.now.answer }
    {
        match &self.answer {
            Some(answer) => answer.seen(self.kind() == Kind::Proxy),
            None => self.unseen(),
        }
    }

    /// What the look before saw of it, as a proxy.
    fn seen_before(&self) -> ProxySeen<'_>
        ensures { proxy_shown result ≡ shown_by self.now self.now.earlier }
    {
        match &self.earlier {
            Some(answer) => answer.seen(self.kind() == Kind::Proxy),
            None => self.unseen(),
        }
    }
}

/// The services at these addresses, of which none was asked yet.
pub fn posts_at<'a>(alloc: Global, addresses: &[&'a str]) -> Result<Vec<Post<'a>>, AllocError>
    ensures addresses { IfOk result (λ posts. addresses_of posts.items ≡ map (λ address. address.now) addresses.now) }
    ensures unasked { IfOk result (λ posts. AreUnasked posts.items) }
{
    let mut posts = Vec::new(alloc);
    for address in addresses {
        posts.push(Post::new(address))?;
    }
    Ok(posts)
}

/// What services answered at the last look is of the look before from now on.
pub fn begin_look(posts: &mut [Post<'_>])
    ensures { posts.new ≡ map begun posts.old }
{
    for post in posts.iter_mut() {
        post.begin_look();
    }
}

/// Asks the services that aren't known to be proxies, each at its own address, until memory is refused.
pub fn ask_others<
    R: Net<Listener = TcpListener, Stream = TcpStream>
        + Threads
        + Wait
        + time::Clock
        + RandomSource
        + Sync,
>(alloc: Global, servers: &HostServers<'_, R>, posts: &mut [Post<'_>]) -> Result<(), AllocError>
    ensures asked { OnOk result (AllZip IsAskedAsOther posts.old posts.new) }
    ensures addresses { addresses_of posts.new ≡ addresses_of posts.old }
{
    for post in posts.iter_mut() {
        post.ask_as_other(alloc, servers)?;
    }
    Ok(())
}

/// Asks the services that are known to be proxies, each at its own address, until memory is refused.
pub fn ask_proxies<
    R: Net<Listener = TcpListener, Stream = TcpStream>
        + Threads
        + Wait
        + time::Clock
        + RandomSource
        + Sync,
>(alloc: Global, servers: &HostServers<'_, R>, posts: &mut [Post<'_>]) -> Result<(), AllocError>
    ensures asked { OnOk result (AllZip IsAskedAsProxy posts.old posts.new) }
    ensures addresses { addresses_of posts.new ≡ addresses_of posts.old }
{
    for post in posts.iter_mut() {
        post.ask_as_proxy(alloc, servers)?;
    }
    Ok(())
}

/// The proxies as this look saw them: all services but nodes.
pub fn proxies_in<'b>(
    alloc: Global,
    posts: &'b [Post<'_>],
) -> Result<Vec<ProxySeen<'b>>, AllocError>
    ensures { IfOk result (λ proxies. all_shown proxies.items ≡ proxies_now posts.now) }
{
    let mut proxies = Vec::new(alloc);
    for post in posts {
        if post.kind() != Kind::Node {
            proxies.push(post.seen())?;
        }
    }
    Ok(proxies)
}

/// The same as the look before saw them; none where this is the first one.
pub fn earlier_in<'b>(
    alloc: Global,
    first: bool,
    posts: &'b [Post<'_>],
) -> Result<Vec<ProxySeen<'b>>, AllocError>
    ensures { IfOk result (λ proxies. all_shown proxies.items ≡ earlier_proxies first posts.now) }
{
    let mut proxies = Vec::new(alloc);
    if first {
        return Ok(proxies);
    }
    for post in posts {
        if post.kind() != Kind::Node {
            proxies.push(post.seen_before())?;
        }
    }
    Ok(proxies)
}

/// What a service told at this look, where it is a node of this name.
fn node_at<'b>(post: &'b Post<'_>, name: &str) -> Option<NodeTold<'b>>
    ensures { option_map node_said result ≡ node_told name.now post.now }
{
    if post.kind() != Kind::Node {
        return None;
    }
    let Some(answer) = &post.answer else {
        return None;
    };
    match answer.of_node() {
        Some(told) if told.address == name.as_bytes() => Some(told),
        _ => None,
    }
}

/// What a node of this name told of itself at this look, where one of the services is that node.
pub fn node_in<'b>(posts: &'b [Post<'_>], name: &str) -> Option<NodeTold<'b>>
    ensures { option_map node_said result ≡ node_among name.now posts.now }
{
    for post in posts {
        if let Some(told) = node_at(post, name) {
            return Some(told);
        }
    }
    None
}

/// The services that never told anything that a service tells.
pub fn unreached_in<'a>(alloc: Global, posts: &[Post<'a>]) -> Result<Vec<Unreached<'a>>, AllocError>
    ensures { IfOk result (λ services. addresses_of_unreached services.items ≡ unreached_addresses posts.now) }
{
    let mut services = Vec::new(alloc);
    for post in posts {
        if post.kind() == Kind::Unknown {
            services.push(Unreached {
                address: post.address,
            })?;
        }
    }
    Ok(services)
}
