//! The addresses that names of nodes are.
ghost use Rattle.std.specs.Prelude.{◌≡◌, ◌≢◌, true, false, length, slice_index, IfOk, MatchOption, decimal};
ghost use Rattle.std.specs.List.{flat_map};
ghost use Rattle.std.specs.declared.net.ipv4_addr.Ipv4Addr.{Ipv4Addr};
ghost use Rattle.mr_sockets.specs.Address.{IsHost, GivesAddress, GivesNodeAddress, GivesNodeAddresses};
ghost use Rattle.mr_sockets.specs.steps.Digits.{BeginsOddly, IsNoPort};

use mr_pools::{Pool, Routing};
use std::alloc::{AllocError, Global};
use std::net::{Ipv4Addr, SocketAddrV4};

/// The host that a text is. `localhost` is 127.0.0.1, whatever the machine's tables say.
fn host_of(text: &str) -> Option<Ipv4Addr>
    ensures { MatchOption result ((host : Ipv4Addr) → ¬ IsHost text.now host) (IsHost text.now) }
{
    if text == "localhost" {
        return Some(Ipv4Addr::new(127, 0, 0, 1));
    }
    match text.parse::<Ipv4Addr>() {
        Ok(host) => Some(host),
        Err(_) => None,
    }
}

/// Whether a text begins as a number's digits do: with no sign, and with a zero only where that is all.
fn begins_plainly(digits: &str) -> bool
    ensures sign { result ≡ true → slice_index digits.now 0 ≢ 43 }
    ensures zero { result ≡ true → slice_index digits.now 0 ≡ 48 → length digits.now ≡ 1 }
    ensures others { result ≡ false → BeginsOddly digits.now }
{
    match digits.as_bytes() {
        [b'+', ..] => false,
        [b'0', _, ..] => false,
        _ => true,
    }
}

/// The port whose decimal digits a text is: it has no sign and no leading zero.
fn port_of(digits: &str) -> Option<u16>
    ensures { MatchOption result (IsNoPort digits.now) (λ port. digits.now ≡ decimal port) }
{
    if !begins_plainly(digits) {
        return None;
    }
    match digits.parse::<u16>() {
        Ok(port) => Some(port),
        Err(_) => None,
    }
}

/// The address that a text is: an IPv4 address in dotted form or `localhost`, one colon, and a decimal port of at most 65,535
/// without sign and leading zeros. No name is looked up. None where it is no address.
pub fn address_of(text: &str) -> Option<SocketAddrV4>
    ensures { GivesAddress text.now result }
{
    let Some((host, digits)) = text.split_once(':') else {
        return None;
    };
    let Some(host) = host_of(host) else {
        return None;
    };
    match port_of(digits) {
        Some(port) => Some(SocketAddrV4::new(host, port)),
        None => None,
    }
}

/// The address that a node's name is, which `address_of` gives and whose port isn't 0. None where it is no address of a node.
pub fn node_address(name: &str) -> Option<SocketAddrV4>
    ensures { GivesNodeAddress name.now result }
{
    match address_of(name) {
        Some(address) if address.port() > 0 => Some(address),
        _ => None,
    }
}

/// The addresses that the names of a pool's nodes are, in order.
fn pool_addresses(alloc: Global, pool: &Pool) -> Result<Vec<Option<SocketAddrV4>>, AllocError>
    ensures { IfOk result (λ addresses. GivesNodeAddresses pool.now addresses.items) }
{
    let mut addresses = Vec::new(alloc);
    for name in pool.names() {
        addresses.push(node_address(name.as_str()))?;
    }
    Ok(addresses)
}

/// The addresses that the names of a routing's nodes are, pool by pool, in the order of each pool. None for one that is no address of a
/// node.
pub fn node_addresses(
    alloc: Global,
    routing: &Routing,
) -> Result<Vec<Option<SocketAddrV4>>, AllocError>
    ensures { IfOk result (λ addresses. GivesNodeAddresses (flat_map (λ names. names) routing.now.pools) addresses.items) }
{
    let mut addresses = Vec::new(alloc);
    for pool in routing.pools() {
        let more = pool_addresses(alloc, pool)?;
        addresses.extend_from_slice(more.as_slice())?;
    }
    Ok(addresses)
}
