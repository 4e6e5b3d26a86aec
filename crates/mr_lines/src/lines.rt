//! Where a byte is, and how a line ends.
ghost use Rattle.std.specs.Prelude.{◌≡◌, ◌<◌, ◌≤◌, ◌==◌, length, take, not, IfSome};
ghost use Rattle.std.specs.List.{prefix_len};
ghost use Rattle.mr_lines.specs.Lines.{byte_place, without_carriage_return};

use memchr::memchr;
use std::simd::prelude::*;

/// How many bytes are compared at once.
const LANES: usize = 16;

/// How many of the first 16 bytes stand before the first such one: all 16 where none of them is one.
#[inline(always)]
fn run_before(wanted: u8, bytes: &[u8]) -> usize
    requires { 16 ≤ length bytes.now }
    ensures { result ≡ prefix_len (λ byte. not (byte == wanted)) (take 16 bytes.now) }
{
    let found = u8x16::from_slice(bytes)
        .simd_eq(u8x16::splat(wanted))
        .to_bitmask();
    if found == 0 {
        LANES
    } else {
        found.trailing_zeros() as usize
    }
}

/// The place of the first such byte.
pub fn place_of_byte(wanted: u8, bytes: &[u8]) -> Option<usize>
    ensures place { result ≡ byte_place wanted bytes.now }
    ensures within { IfSome result (λ place. place < length bytes.now) }
{
    if bytes.len() < LANES {
        return memchr(wanted, bytes);
    }
    let run = run_before(wanted, bytes);
    if run < LANES {
        return Some(run);
    }
    match memchr(wanted, &bytes[LANES..]) {
        Some(place) => Some(LANES + place),
        None => None,
    }
}

/// The bytes without the one carriage return at their end, if there is one.
#[inline(always)]
pub fn without_carriage_return(bytes: &[u8]) -> &[u8]
    ensures { result.now ≡ without_carriage_return bytes.now }
{
    match bytes {
        [front @ .., b'\r'] => front,
        _ => bytes,
    }
}
