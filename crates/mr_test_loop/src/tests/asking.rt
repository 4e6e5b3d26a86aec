//! What nodes are asked, and in which order clients are told.
use super::WIDE;
use super::playing::Step::{self, *};
use super::playing::play;
use mr_loop::{LinkEnd, Pause};

/// A get of keys of three nodes, which answer in another order.
static MANY_KEYS: [Step; 10] = [
    Reads(1300),
    Sends(0, b"get a b c\r\n", Pause::NeedsBytes),
    Asked(3, b"get a\r\n"),
    Asked(4, b"get b\r\n"),
    Asked(2, b"get c\r\n"),
    Says(2, b"VALUE c 0 1\r\n3\r\nEND\r\n", LinkEnd::Whole),
    Says(4, b"END\r\n", LinkEnd::Whole),
    Told(0, b""),
    Says(3, b"VALUE a 7 2\r\n11\r\nEND\r\n", LinkEnd::Whole),
    Told(0, b"VALUE a 7 2\r\n11\r\nVALUE c 0 1\r\n3\r\nEND\r\n"),
];

#[test]
fn items_come_in_the_order_of_the_keys(rt: HostRuntime) {
    let _ = play(&rt, rt.alloc(), 8, WIDE, &MANY_KEYS);
}

/// Requests of all kinds, sent at once; their nodes answer in another order.
static PIPELINE: [Step; 15] = [
    Reads(1300),
    Sends(
        0,
        b"get a\r\nset b 5 0 1\r\nx\r\nnonsense\r\ndelete c\r\nget b\r\n",
        Pause::NeedsBytes,
    ),
    Asked(3, b"get a\r\n"),
    Asked(4, b"set b 5 0 1\r\nx\r\nget b\r\n"),
    Asked(2, b"delete c\r\n"),
    Says(4, b"STORED\r\nVALUE b 5 1\r\nx\r\nEND\r\n", LinkEnd::Whole),
    Told(0, b""),
    Says(2, b"NOT_FOUND\r\n", LinkEnd::Whole),
    Told(0, b""),
    IsFinished(0, false),
    Ends(0, Pause::IsDone),
    IsFinished(0, false),
    Says(3, b"END\r\n", LinkEnd::Whole),
    Told(
        0,
        b"END\r\nSTORED\r\nERROR\r\nNOT_FOUND\r\nVALUE b 5 1\r\nx\r\nEND\r\n",
    ),
    IsFinished(0, true),
];

#[test]
fn answers_come_in_the_order_of_the_requests(rt: HostRuntime) {
    let _ = play(&rt, rt.alloc(), 8, WIDE, &PIPELINE);
}

/// In the two phases between, a delete goes to both pools; it is answered once both replied, by the worse reply.
static BOTH_POOLS: [Step; 7] = [
    Reads(1000),
    Sends(0, b"delete k\r\n", Pause::NeedsBytes),
    Asked(1, b"delete k\r\n"),
    Asked(4, b"delete k\r\n"),
    Says(4, b"DELETED\r\n", LinkEnd::Whole),
    Told(0, b""),
    Says(1, b"NOT_FOUND\r\n", LinkEnd::Whole),
];

#[test]
fn delete_awaits_both_pools(rt: HostRuntime) {
    let mut run = play(&rt, rt.alloc(), 8, WIDE, &BOTH_POOLS);
    super::playing::is_told(&rt, 7, &mut run.proxy, 0, b"NOT_FOUND\r\n");
}

/// Nodes are asked for an answer that the client doesn't want, so that each leg has a reply.
static SILENT: [Step; 8] = [
    Sends(
        0,
        b"set k 0 0 1 noreply\r\nx\r\ndelete k 0 noreply\r\nget k\r\n",
        Pause::NeedsBytes,
    ),
    Asked(1, b"set k 0 0 1\r\nx\r\ndelete k\r\nget k\r\n"),
    Says(1, b"STORED\r\nDELETED\r\n", LinkEnd::Whole),
    Told(0, b""),
    Says(1, b"END\r\n", LinkEnd::Whole),
    Told(0, b"END\r\n"),
    Sends(0, b"set k 0 0 1 noreply\r\nx\r\nquit\r\n", Pause::IsDone),
    IsFinished(0, false),
];

#[test]
fn client_that_wants_no_answer_is_told_none(rt: HostRuntime) {
    let _ = play(&rt, rt.alloc(), 8, WIDE, &SILENT);
}

/// A quit ends what is read, and its client is closed once it was told all.
static QUIT: [Step; 8] = [
    Sends(0, b"get k\r\nquit\r\nget a\r\n", Pause::IsDone),
    Asked(1, b"get k\r\n"),
    IsFinished(0, false),
    Sends(0, b"get a\r\n", Pause::IsDone),
    Says(1, b"END\r\n", LinkEnd::Whole),
    IsFinished(0, false),
    Told(0, b"END\r\n"),
    IsFinished(0, true),
];

#[test]
fn quit_ends_what_is_read(rt: HostRuntime) {
    let _ = play(&rt, rt.alloc(), 8, WIDE, &QUIT);
}

/// A text that can't be read on is answered, in its turn, and nothing behind it is read.
static UNREADABLE: [Step; 6] = [
    Sends(0, b"get k\r\nget\r\nget a\r\n", Pause::IsDone),
    Asked(1, b"get k\r\n"),
    Told(0, b""),
    Says(1, b"END\r\n", LinkEnd::Whole),
    Told(0, b"END\r\nCLIENT_ERROR wrong words\r\n"),
    IsFinished(0, true),
];

#[test]
fn unreadable_text_is_answered_in_its_turn(rt: HostRuntime) {
    let _ = play(&rt, rt.alloc(), 8, WIDE, &UNREADABLE);
}
