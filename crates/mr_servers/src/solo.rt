//! A loop of links alone, to nodes of which the addresses are told as texts.
ghost use Rattle.std.specs.Prelude.{◌≡◌, ◌≢◌, map, IfOk, IfErr};
ghost use Rattle.mr_driver.specs.Going.{GoesOn};
ghost use Rattle.mr_sockets.specs.Address.{GivesNodeAddresses};
ghost use Rattle.mr_servers.specs.declared.fault.OpenFault.{OpenFault};

use crate::driving::fault_of;
use crate::fault::OpenFault;
use mr_counting::ClockWatch;
use mr_driver::{Linked, Solo};
use mr_sockets::node_address;
use std::alloc::{AllocError, Global};
use std::net::{Net, SocketAddrV4};
use std::time::Clock;

/// The addresses that these texts are, in order. None for one that is no address of a node.
fn addresses_of(alloc: Global, texts: &[&str]) -> Result<Vec<Option<SocketAddrV4>>, AllocError>
    ensures { IfOk result (λ addresses. GivesNodeAddresses (map (λ text. text.now) texts.now) addresses.items) }
{
    let mut addresses = Vec::new(alloc);
    for text in texts {
        addresses.push(node_address(text))?;
    }
    Ok(addresses)
}

/// A loop of a machine whose links lead to these addresses, as `Solo::open` makes it. OutOfMemory where memory is refused, Net where it
/// can't be opened for anything else, as for want of descriptors.
pub(crate) fn open_solo<'a, R: Net + Clock, M: Linked>(
    rt: &'a R,
    alloc: Global,
    machine: M,
    addresses: &[&str],
    dial_millis: u64,
    watch: &'a ClockWatch,
) -> Result<Solo<'a, R, M>, OpenFault>
    ensures begun { IfOk result (λ solo. solo.now ≡ 0) }
    ensures machine { IfOk result (λ solo. GoesOn M.link_steps machine solo.machine) }
    ensures fault { IfErr result (λ fault. fault ≢ OpenFault.Metrics) }
{
    let Ok(nodes) = addresses_of(alloc, addresses) else {
        return Err(OpenFault::OutOfMemory);
    };
    match Solo::open(rt, alloc, machine, nodes.as_slice(), dial_millis, watch) {
        Ok(solo) => Ok(solo),
        Err(error) => Err(fault_of(error.kind())),
    }
}
