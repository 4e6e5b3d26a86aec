//! Worked values of one proxy: its old pool is 7001 and 7002, its new one 7101 to 7103, its hash the sum of a key's
//! bytes, and its migration starts at 1000 with an interval of 100 seconds.
mod answers;
mod asking;
mod legs;
mod memory;
mod scripts;
mod values;

ghost use Rattle.std.specs.Prelude.{◌≢◌};
ghost use Rattle.mr_text.specs.declared.request.Request.{Request};

use super::leg_replies::{Came, reply_of};
use super::{are, bytes_of_rule, count_is, holds, is, number_is, says};
use crate::tests::must;
use mr_history::OpId;
use mr_phases::Schedule;
use mr_pools::NamedHash;
use mr_proxy::{Answer, Issued, LegId, ProxyCore, Taken};
use mr_test_support::{Rule, routing};
use mr_text::{Block, Key, KeyList, Request};
use std::alloc::Global;
use std::process::Abort;

fn core_of(rt: &impl Abort, alloc: Global, incarnation: u64, room: u64) -> ProxyCore {
    let schedule = must(rt, Schedule::new(1000, 100));
    let new: [&[u8]; 3] = [b"7101", b"7102", b"7103"];
    let routing = must(rt, routing(alloc, &new, NamedHash::Sum));
    ProxyCore::new(alloc, 0, incarnation, routing, schedule, room)
}

/// What a client asks for, by keys of one byte.
#[derive(Clone, Copy)]
enum Asked {
    /// A get of a key for each byte.
    Get(&'static [u8]),
    /// A set of one byte that is expired at once.
    Set(u8),
    Delete(u8),
    /// A delete whose answer isn't wanted.
    SilentDelete(u8),
}

fn key_of(rt: &impl Abort, alloc: Global, byte: u8) -> Key {
    must(rt, Key::new(alloc, &[byte]))
}

fn get_of(rt: &impl Abort, alloc: Global, bytes: &[u8]) -> Request
    ensures { result ≢ Request.Quit }
{
    let mut keys = Vec::new(alloc);
    for byte in bytes {
        must(rt, keys.push(key_of(rt, alloc, *byte)));
    }
    Request::Get {
        keys: must(rt, KeyList::new(keys)),
    }
}

fn set_of(rt: &impl Abort, alloc: Global, byte: u8) -> Request
    ensures { result ≢ Request.Quit }
{
    Request::Set {
        key: key_of(rt, alloc, byte),
        flags: 5,
        exptime: -1,
        block: must(rt, Block::new(alloc, b"v")),
        noreply: false,
    }
}

fn delete_of(rt: &impl Abort, alloc: Global, byte: u8, noreply: bool) -> Request
    ensures { result ≢ Request.Quit }
{
    let key = key_of(rt, alloc, byte);
    Request::Delete { key, noreply }
}

fn request_of(rt: &impl Abort, alloc: Global, asked: Asked) -> Request
    ensures { result ≢ Request.Quit }
{
    match asked {
        Asked::Get(bytes) => get_of(rt, alloc, bytes),
        Asked::Set(byte) => set_of(rt, alloc, byte),
        Asked::Delete(byte) => delete_of(rt, alloc, byte, false),
        Asked::SilentDelete(byte) => delete_of(rt, alloc, byte, true),
    }
}

/// Whether this is what the client asked for.
fn is_asked(rt: &impl Abort, alloc: Global, request: &Request, asked: Asked) -> bool {
    request.same_as(&request_of(rt, alloc, asked))
}

/// Issues a request that has to be accepted.
fn issue(
    rt: &impl Abort,
    alloc: Global,
    core: &mut ProxyCore,
    reading: u64,
    asked: Asked,
) -> Issued {
    must(rt, core.issue(reading, request_of(rt, alloc, asked)))
}

/// The answer to a request, once these replies came; it is given up where they leave a leg open.
fn answer_after(
    rt: &impl Abort,
    alloc: Global,
    core: &mut ProxyCore,
    op: OpId,
    replies: &[(u32, Came)],
) -> Answer {
    for (place, came) in replies {
        let id = LegId { op, place: *place };
        if let Taken::Answered(answer) = core.take_reply(id, reply_of(rt, alloc, *came)) {
            return answer;
        }
    }
    must(rt, core.give_up(op))
}

/// The same, of a request at a reading.
fn answer_to(
    rt: &impl Abort,
    alloc: Global,
    reading: u64,
    asked: Asked,
    replies: &[(u32, Came)],
) -> Answer {
    let mut core = core_of(rt, alloc, 0, 4);
    let op = issue(rt, alloc, &mut core, reading, asked).op;
    answer_after(rt, alloc, &mut core, op, replies)
}
