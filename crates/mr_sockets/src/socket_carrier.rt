//! A carrier that reaches its node by a socket.
ghost use Rattle.std.specs.Prelude.{◌≡◌, ◌+◌, [], ◌∷◌, ◌++◌, false, Some, None, IfSome, IfOk, MatchResult, option_map};
ghost use Rattle.mr_desks.specs.Local.{IsReplyOfKind};
ghost use Rattle.mr_sockets.specs.Address.{IsNodeAddress};
ghost use Rattle.mr_sockets.specs.SocketCarrier.{fresh_carrier, reach, IsKeptTo, IsNewConnection, IsNewLink, CarriesOver, CarriesTo, CarriesFrom, CarriesSo, SocketCarries};

use crate::address::node_address;
use crate::dialling::{Dials, HostDials};
use mr_desks::{Carrier, WorkerError};
use mr_join::LegReply;
use mr_pools::NodeName;
use mr_proxy::LegSheet;
use mr_sessions::NodeLink;
use mr_text::{GhostCount, OverReader, OverWriter};
use std::alloc::{AllocError, Global};
use std::io::{Read, Write};
use std::marker::Model;
use std::net::{Net, OpenStream, SocketAddrV4};
use std::snapshot::Snapshot;
use std::time::Duration;

/// A connection, with the address that it was made to as contracts see it.
struct Connection<S: Read + Write> {
    peer: Snapshot<SocketAddrV4>,
    link: NodeLink<OverReader<S>, OverWriter<S>>,
}

impl<S: Read + Write + Drop> Drop for Connection<S> {
    fn drop(self) {
        let Self { peer: _, link: _ } = self;
    }
}

impl<S: Read + Write> Model for Connection<S> {
    ghost use Rattle.mr_sockets.specs.SocketCarrier.{ConnectionView};

    ghost Value = { ConnectionView };

    ghost view = { λ c. record { peer = c.peer.value; link = c.link } };
}

/// A carrier to the node of one name, which is the address that it connects to, as `node_address` reads it. It connects at its
/// first leg, and again at the first leg after a fault. A leg is lost where no connection can be made, and each leg is where
/// the name is no address of a node.
pub struct SocketCarrier<N: Net + Copy> {
    dials: HostDials<N>,
    alloc: Global,
    name: NodeName,
    turns: u64,
    connection: Option<Connection<N::Stream>>,
    faults: GhostCount,
}

impl<N: Net + Copy> Drop for SocketCarrier<N> {
    fn drop(self) {
        let Self {
            dials: _,
            alloc: _,
            name: _,
            turns: _,
            connection: _,
            faults: _,
        } = self;
    }
}

impl<N: Net + Copy> Model for SocketCarrier<N> {
    ghost use Rattle.std.specs.Prelude.{option_map, IfSome};
    ghost use Rattle.mr_sockets.specs.SocketCarrier.{SocketView, reach, IsKeptTo};

    ghost Value = { SocketView };

    ghost view = { λ c. record {
      reach = record {
        name = c.name;
        turns = c.turns;
        dialled = c.dials;
        connection = option_map (λ connection. connection) c.connection;
      };
      faults = c.faults;
    } };

    ghost invariant = { λ c. IfSome c.connection (IsKeptTo c.name) };
}

/// A link by a connection, which reads by a second handle of it.
fn link_by<S: Read + Write + OpenStream + Drop>(
    alloc: Global,
    stream: S,
    turns: u64,
) -> Option<NodeLink<OverReader<S>, OverWriter<S>>>
    ensures { IfSome result (IsNewLink turns) }
{
    let Ok(reader) = stream.try_clone() else {
        return None;
    };
    Some(NodeLink::new(
        alloc,
        OverReader::new(reader),
        OverWriter::new(stream),
        turns,
    ))
}

/// A new connection to this address, which is dialled once. None where none can be made.
fn connect<D: Dials>(
    dials: &mut D,
    alloc: Global,
    address: SocketAddrV4,
    turns: u64,
) -> Option<Connection<D::Stream>>
    ensures new { IfSome result (IsNewConnection address turns) }
    ensures dialled { D.dialled dials.new ≡ D.dialled dials.old ++ address ∷ [] }
{
    let stream = dials.dial(address)?;
    let link = link_by(alloc, stream, turns)?;
    Some(Connection {
        peer: Snapshot::of(&address),
        link,
    })
}

impl<S: Read + Write + Drop> Connection<S> {
    /// Carries a leg over this connection to the node of this name. It is handed back where its link isn't broken then.
    fn carry(
        self,
        name: &NodeName,
        sheet: &LegSheet,
    ) -> (Result<LegReply, WorkerError>, Option<Connection<S>>)
        requires { IsKeptTo name.now self }
        ensures carried { CarriesOver sheet.now.command self result.0 (option_map (λ c. c) result.1) }
        ensures gave { IfOk result.0 (λ reply. IsReplyOfKind sheet.now reply) }
        ensures kept { IfSome result.1 (IsKeptTo name.now) }
    {
        let Self { peer, mut link } = self;
        match link.carry(sheet) {
            Ok(reply) => (Ok(reply), Some(Connection { peer, link })),
            Err(fault) => (Err(fault), None),
        }
    }
}

/// Carries a leg over a new connection to this address, which the name of the node is. LinkBroken where none could be made.
fn carry_to<D: Dials>(
    dials: &mut D,
    alloc: Global,
    name: &NodeName,
    address: SocketAddrV4,
    turns: u64,
    sheet: &LegSheet,
) -> (Result<LegReply, WorkerError>, Option<Connection<D::Stream>>)
    requires { IsNodeAddress name.now address }
    ensures carried { CarriesTo address sheet.now.command turns result.0 (option_map (λ c. c) result.1) }
    ensures dialled { D.dialled dials.new ≡ D.dialled dials.old ++ address ∷ [] }
    ensures gave { IfOk result.0 (λ reply. IsReplyOfKind sheet.now reply) }
    ensures kept { IfSome result.1 (IsKeptTo name.now) }
{
    match connect(dials, alloc, address, turns) {
        Some(connection) => connection.carry(name, sheet),
        None => (Err(WorkerError::LinkBroken), None),
    }
}

/// Carries a leg over this connection, or where there is none over a new one to the address that the name of the node is. The
/// connection is handed back where its link isn't broken then. LinkBroken where none could be made.
fn carry_from<D: Dials>(
    dials: &mut D,
    alloc: Global,
    name: &NodeName,
    turns: u64,
    connection: Option<Connection<D::Stream>>,
    sheet: &LegSheet,
) -> (Result<LegReply, WorkerError>, Option<Connection<D::Stream>>)
    requires { IfSome connection (IsKeptTo name.now) }
    ensures carried { CarriesFrom sheet.now.command
        (reach name.now turns (D.dialled dials.old) (option_map (λ c. c) connection)) result.0
        (reach name.now turns (D.dialled dials.new) (option_map (λ c. c) result.1)) }
    ensures gave { IfOk result.0 (λ reply. IsReplyOfKind sheet.now reply) }
    ensures kept { IfSome result.1 (IsKeptTo name.now) }
{
    match connection {
        Some(connection) => connection.carry(name, sheet),
        None => match node_address(name.as_str()) {
            Some(address) => carry_to(dials, alloc, name, address, turns, sheet),
            None => (Err(WorkerError::LinkBroken), None),
        },
    }
}

impl<N: Net + Copy> SocketCarrier<N> {
    /// A carrier to the node of this name, which makes at most `turns` reads for a leg. It isn't connected yet.
    pub fn new(
        net: N,
        alloc: Global,
        name: &NodeName,
        turns: u64,
    ) -> Result<SocketCarrier<N>, AllocError>
        ensures { IfOk result (λ carrier. carrier ≡ fresh_carrier turns name.now) }
    {
        SocketCarrier::within(net, alloc, name, turns, None)
    }

    /// The same, whose connecting, each of whose reads and each of whose writes wait so long at most, where that is bounded. A
    /// leg that would wait longer isn't carried, as where the connection broke.
    #[tactic(auto, unfolding(crate::specs::SocketCarrier::fresh_carrier))]
    pub fn within(
        net: N,
        alloc: Global,
        name: &NodeName,
        turns: u64,
        wait: Option<Duration>,
    ) -> Result<SocketCarrier<N>, AllocError>
        ensures { IfOk result (λ carrier. carrier ≡ fresh_carrier turns name.now) }
    {
        Ok(SocketCarrier {
            dials: HostDials::new(net, wait),
            alloc,
            name: name.copy()?,
            turns,
            connection: None,
            faults: GhostCount::new(),
        })
    }

    /// Carries a leg, as `carry` does.
    fn carry_so(&mut self, sheet: &LegSheet) -> Result<LegReply, WorkerError>
        ensures gave { IfOk result (λ reply. IsReplyOfKind sheet.now reply) }
        ensures carried { CarriesSo sheet.now.command self.old result self.new }
    {
        let kept = self.connection.take();
        let (result, kept) = carry_from(
            &mut self.dials,
            self.alloc,
            &self.name,
            self.turns,
            kept,
            sheet,
        );
        self.connection = kept;
        if result.is_err() {
            self.faults.add_one();
        }
        result
    }
}

impl<N: Net + Copy> Carrier for SocketCarrier<N> {
    ghost gave = { IsReplyOfKind };

    ghost faults = { λ c. c.faults };

    ghost carries = { SocketCarries };

    ghost loses = { λ _. tt };

    /// Carries a leg over the connection that there is, or over a new one, and gives the node's reply. After a fault there is
    /// no connection, so each leg after a fault makes one new connection.
    ///
    /// LinkBroken where no connection could be made, and where the input ended before the reply or in it. The other faults are
    /// those of `NodeLink`.
    #[tactic(auto, using(crate::proofs::CarrierLemmas::carries_by, crate::proofs::CarrierLemmas::counted_by))]
    fn carry(&mut self, sheet: &LegSheet) -> Result<LegReply, WorkerError>
        ensures gave { IfOk result (λ reply. IsReplyOfKind sheet.now reply) }
        ensures carries { MatchResult result
            (λ reply. SocketCarries self.old sheet.now (Some reply) self.new)
            (λ _. SocketCarries self.old sheet.now None self.new) }
        ensures faults { MatchResult result
            (λ _. self.new.faults ≡ self.old.faults)
            (λ _. self.new.faults ≡ self.old.faults + 1) }
        ensures carried { CarriesSo sheet.now.command self.old result self.new }
    {
        self.carry_so(sheet)
    }
}
