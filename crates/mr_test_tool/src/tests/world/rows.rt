//! A worked row as calls, its history compared whole: two clocks an interval apart, and a delete that holds.
use super::fleets::Fleet;
use super::moves::{DELETE, GET, Move, SET};
use super::playing::{Run, Shown, goes};
use super::telling::Told;
use mr_history::Author;
use mr_phases::Side;
use mr_test_support::{FIRST, OTHER_FIRST, OTHER_SECOND};
use mr_world::Note;

/// The second proxy sets the key, the first deletes it from both pools, the second gets it.
pub static NEAR_CLOCKS: Run = Run {
    fleet: Fleet {
        proxies: &[(1000, 1000), (1000, 1100)],
        room: 4,
        capacity: 4,
        holders: &[],
    },
    rows: &[
        (
            Move::Client(1, SET),
            Ok(Note::Issued {
                op: OTHER_FIRST,
                first: 0,
                count: 1,
            }),
        ),
        (Move::Deliver(0, 1), Ok(Note::Performed { reply: 0 })),
        (Move::Return(0), Ok(Note::Answered { op: OTHER_FIRST })),
        (
            Move::Client(0, DELETE),
            Ok(Note::Issued {
                op: FIRST,
                first: 1,
                count: 2,
            }),
        ),
        (Move::Deliver(1, 1), Ok(Note::Performed { reply: 1 })),
        (Move::Return(1), Ok(Note::Waiting)),
        (Move::Deliver(2, 1), Ok(Note::Performed { reply: 2 })),
        (Move::Return(2), Ok(Note::Answered { op: FIRST })),
        (
            Move::Client(1, GET),
            Ok(Note::Issued {
                op: OTHER_SECOND,
                first: 3,
                count: 1,
            }),
        ),
        (Move::Deliver(3, 1), Ok(Note::Performed { reply: 3 })),
        (Move::Return(3), Ok(Note::Answered { op: OTHER_SECOND })),
    ],
    shown: Shown {
        told: &[
            Told::Set(OTHER_FIRST, b'k', b'v'),
            Told::Stored(Author::By(OTHER_FIRST), b'k', b'v'),
            Told::Answered(OTHER_FIRST, "STORED"),
            Told::Deleted(FIRST, b'k'),
            Told::Removed(FIRST, Side::Old, b'k'),
            Told::Removed(FIRST, Side::New, b'k'),
            Told::Answered(FIRST, "NOT_FOUND"),
            Told::Got(OTHER_SECOND, b'k'),
            Told::Answered(OTHER_SECOND, "END"),
        ],
        premises: (true, true, true, true),
        verdict: (None, None),
        sent: (4, 4),
    },
};

#[test]
fn near_clocks_keep_an_acknowledged_delete(rt: HostRuntime) {
    goes(&rt, rt.alloc(), &NEAR_CLOCKS);
}
