//! What the texts of services tell. Lines that aren't known are passed over, and so are texts of which a known line has no number.
ghost use Rattle.std.specs.Prelude.{◌≡◌, option_copied, option_map};
ghost use Rattle.mr_watch.specs.Told.{is_one, phase_head, tells_phase, phase_in, hop_in, next_phase_in, place_in, requests_in, hits_in, lost_in, held_back_in, traffic_in, digest_in, clock_in, steps_back_in, proxy_said, proxy_in, address_in, node_items_in, node_hits_in, node_said, node_in, said, said_in};

use crate::lines::{label_of, number_of, perhaps_number_of, sum_of};
use crate::told::{NodeTold, Place, ProxyTold, Told, Traffic};
use mr_phases::PhaseName;

/// The head of a phase's sample.
fn phase_head(phase: PhaseName) -> &'static [u8]
    ensures { result.now ≡ phase_head phase }
{
    match phase {
        PhaseName::OldOnly => b"migctl_proxy_phase{phase=\"old-only\"} ",
        PhaseName::BothReadOld => b"migctl_proxy_phase{phase=\"both-read-old\"} ",
        PhaseName::BothReadNew => b"migctl_proxy_phase{phase=\"both-read-new\"} ",
        PhaseName::NewOnly => b"migctl_proxy_phase{phase=\"new-only\"} ",
    }
}

/// Whether a number is there, and 1.
fn is_one(number: Option<u64>) -> bool
    ensures { result ≡ is_one number }
{
    match number {
        Some(number) => number == 1,
        None => false,
    }
}

/// Whether this phase is told to be the one in force.
fn tells_phase(bytes: &[u8], phase: PhaseName) -> bool
    ensures { result ≡ tells_phase bytes.now phase }
{
    is_one(number_of(phase_head(phase), bytes))
}

/// The phase in force.
fn phase_in(bytes: &[u8]) -> Option<PhaseName>
    ensures { result ≡ phase_in bytes.now }
{
    if tells_phase(bytes, PhaseName::OldOnly) {
        Some(PhaseName::OldOnly)
    } else if tells_phase(bytes, PhaseName::BothReadOld) {
        Some(PhaseName::BothReadOld)
    } else if tells_phase(bytes, PhaseName::BothReadNew) {
        Some(PhaseName::BothReadNew)
    } else if tells_phase(bytes, PhaseName::NewOnly) {
        Some(PhaseName::NewOnly)
    } else {
        None
    }
}

/// The migration in force.
fn hop_in(bytes: &[u8]) -> Option<u64>
    ensures { result ≡ hop_in bytes.now }
{
    number_of(b"migctl_proxy_hop ", bytes)
}

/// When the next phase begins; it may not be told.
fn next_phase_in(bytes: &[u8]) -> Option<Option<u64>>
    ensures { result ≡ next_phase_in bytes.now }
{
    perhaps_number_of(b"migctl_proxy_next_phase_seconds ", bytes)
}

/// Where a proxy stands in the schedule.
fn place_in(bytes: &[u8]) -> Option<Place>
    ensures { result ≡ place_in bytes.now }
{
    Some(Place {
        hop: hop_in(bytes)?,
        phase: phase_in(bytes)?,
        next_phase: next_phase_in(bytes)?,
    })
}

/// Requests that were issued, in all phases.
fn requests_in(bytes: &[u8]) -> Option<u64>
    ensures { result ≡ requests_in bytes.now }
{
    sum_of(b"migctl_proxy_requests_total{", bytes)
}

/// Keys that were found.
fn hits_in(bytes: &[u8]) -> Option<u64>
    ensures { result ≡ hits_in bytes.now }
{
    number_of(b"migctl_proxy_answers_total{kind=\"hit\"} ", bytes)
}

/// Answers that a leg was lost.
fn lost_in(bytes: &[u8]) -> Option<u64>
    ensures { result ≡ lost_in bytes.now }
{
    number_of(b"migctl_proxy_answers_total{kind=\"leg lost\"} ", bytes)
}

/// How often a request was held back; it may not be told.
fn held_back_in(bytes: &[u8]) -> Option<Option<u64>>
    ensures { result ≡ held_back_in bytes.now }
{
    perhaps_number_of(b"migctl_proxy_requests_held_back_total ", bytes)
}

/// What a proxy did.
fn traffic_in(bytes: &[u8]) -> Option<Traffic>
    ensures { result ≡ traffic_in bytes.now }
{
    Some(Traffic {
        requests: requests_in(bytes)?,
        hits: hits_in(bytes)?,
        lost: lost_in(bytes)?,
        held_back: held_back_in(bytes)?,
    })
}

/// The digest of a proxy's configuration.
fn digest_in(bytes: &[u8]) -> Option<&[u8]>
    ensures { option_copied result ≡ digest_in bytes.now }
{
    label_of(b"migctl_proxy_config_info{sha256=\"", bytes)
}

/// What the clock said; it may not be told.
fn clock_in(bytes: &[u8]) -> Option<Option<u64>>
    ensures { result ≡ clock_in bytes.now }
{
    perhaps_number_of(b"migctl_clock_seconds ", bytes)
}

/// How often the clock gave a reading before the one that it gave last.
fn steps_back_in(bytes: &[u8]) -> Option<u64>
    ensures { result ≡ steps_back_in bytes.now }
{
    number_of(b"migctl_clock_steps_back_total ", bytes)
}

/// What a proxy of this digest tells.
fn proxy_in<'a>(digest: &'a [u8], bytes: &[u8]) -> Option<ProxyTold<'a>>
    ensures { option_map proxy_said result ≡ proxy_in digest.now bytes.now }
{
    Some(ProxyTold {
        digest,
        clock: clock_in(bytes)?,
        steps_back: steps_back_in(bytes)?,
        place: place_in(bytes)?,
        traffic: traffic_in(bytes)?,
    })
}

/// Where clients of a node connect.
fn address_in(bytes: &[u8]) -> Option<&[u8]>
    ensures { option_copied result ≡ address_in bytes.now }
{
    label_of(b"migctl_node_info{address=\"", bytes)
}

/// How many items a node holds.
fn node_items_in(bytes: &[u8]) -> Option<u64>
    ensures { result ≡ node_items_in bytes.now }
{
    number_of(b"migctl_node_items ", bytes)
}

/// How many keys a node was asked for and had.
fn node_hits_in(bytes: &[u8]) -> Option<u64>
    ensures { result ≡ node_hits_in bytes.now }
{
    number_of(b"migctl_node_gets_total{result=\"hit\"} ", bytes)
}

/// What a node of this address tells.
fn node_in<'a>(address: &'a [u8], bytes: &[u8]) -> Option<NodeTold<'a>>
    ensures { option_map node_said result ≡ node_in address.now bytes.now }
{
    Some(NodeTold {
        address,
        items: node_items_in(bytes)?,
        hits: node_hits_in(bytes)?,
    })
}

/// What the text of a service tells: of a proxy where it has the digest of a configuration, and else of a node where it has an
/// address. None where it has neither, or where a number is missing that has to be there, or isn't one of 64 bits. What stands
/// behind the last line end isn't read.
pub fn read_told(bytes: &[u8]) -> Option<Told<'_>>
    ensures { option_map said result ≡ said_in bytes.now }
{
    if let Some(digest) = digest_in(bytes) {
        return match proxy_in(digest, bytes) {
            Some(told) => Some(Told::Proxy(told)),
            None => None,
        };
    }
    match address_in(bytes) {
        Some(address) => match node_in(address, bytes) {
            Some(told) => Some(Told::Node(told)),
            None => None,
        },
        None => None,
    }
}
