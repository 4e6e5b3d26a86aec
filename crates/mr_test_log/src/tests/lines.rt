//! The texts of lines, byte by byte.
use crate::tests::{is, must};
use mr_log::{Happening, Said, Service, Trouble, line_of};
use mr_phases::PhaseName;
use mr_pools::{Pool, Routing};
use mr_test_support::{at_last, pool};
use std::alloc::{AllocError, Global};
use std::env::Env;
use std::process::Abort;

/// What happened, how many more of its kind came, when the line of it is said, and its text without the line end.
struct Row {
    happening: Happening,
    more: u64,
    at: Option<u64>,
    text: &'static str,
}

static ROWS: [Row; 21] = [
    Row {
        happening: Happening::Listens { loops: 4 },
        more: 0,
        at: Some(1_795_925_106),
        text: "2026-11-29T04:05:06Z listens at 127.0.0.1:9000, loops 4, configuration 5f70bf18a08660, version 0.10.0",
    },
    Row {
        happening: Happening::PhaseEntered {
            hop: 0,
            phase: PhaseName::OldOnly,
        },
        more: 0,
        at: Some(1_795_925_106),
        text: "2026-11-29T04:05:06Z the clock is in phase old-only of hop 0",
    },
    Row {
        happening: Happening::PhaseEntered {
            hop: 3,
            phase: PhaseName::BothReadNew,
        },
        more: 0,
        at: Some(1_795_925_106),
        text: "2026-11-29T04:05:06Z the clock is in phase both-read-new of hop 3",
    },
    Row {
        happening: Happening::LinkDown {
            node: 0,
            why: Trouble::Ended,
        },
        more: 3,
        at: Some(1_795_925_106),
        text: "2026-11-29T04:05:06Z link to 127.0.0.1:7001 of pool 0 is down: it ended the connection (3 more)",
    },
    Row {
        happening: Happening::LinkDown {
            node: 1,
            why: Trouble::Broken,
        },
        more: 0,
        at: Some(1_795_925_106),
        text: "2026-11-29T04:05:06Z link to 127.0.0.1:7002 of pool 0 is down: the connection broke",
    },
    Row {
        happening: Happening::LinkDown {
            node: 2,
            why: Trouble::Silent,
        },
        more: 0,
        at: Some(1_795_925_106),
        text: "2026-11-29T04:05:06Z link to 127.0.0.1:7101 of pool 1 is down: it was silent for too long",
    },
    Row {
        happening: Happening::LinkDown {
            node: 3,
            why: Trouble::BadReply,
        },
        more: 0,
        at: Some(1_795_925_106),
        text: "2026-11-29T04:05:06Z link to 127.0.0.1:7102 of pool 1 is down: it sent what is no reply",
    },
    Row {
        happening: Happening::LinkDown {
            node: 4,
            why: Trouble::NotReached,
        },
        more: 0,
        at: Some(1_795_925_106),
        text: "2026-11-29T04:05:06Z link to 127.0.0.1:7103 of pool 1 is down: it can't be reached",
    },
    Row {
        happening: Happening::LinkDown {
            node: 5,
            why: Trouble::Ended,
        },
        more: 0,
        at: Some(1_795_925_106),
        text: "2026-11-29T04:05:06Z link to node 5 is down: it ended the connection",
    },
    Row {
        happening: Happening::LinkUp { node: 1 },
        more: 1,
        at: Some(1_795_925_106),
        text: "2026-11-29T04:05:06Z link to 127.0.0.1:7002 of pool 0 is up (1 more)",
    },
    Row {
        happening: Happening::LinkUp { node: 2 },
        more: 0,
        at: Some(1_835_481_599),
        text: "2028-02-29T23:59:59Z link to 127.0.0.1:7101 of pool 1 is up",
    },
    Row {
        happening: Happening::LinkUp { node: usize::MAX },
        more: 0,
        at: Some(1_795_925_106),
        text: "2026-11-29T04:05:06Z link to node 18446744073709551615 is up",
    },
    Row {
        happening: Happening::ClientsHeldBack,
        more: 12,
        at: Some(1_795_925_106),
        text: "2026-11-29T04:05:06Z requests of clients are held back until there is room (12 more)",
    },
    Row {
        happening: Happening::ClientsWait { most: 10_000 },
        more: 0,
        at: Some(1_795_925_106),
        text: "2026-11-29T04:05:06Z new clients wait: 10000 are served, as many as may be",
    },
    Row {
        happening: Happening::NoMemory,
        more: u64::MAX,
        at: Some(1_795_925_106),
        text: "2026-11-29T04:05:06Z memory is short (18446744073709551615 more)",
    },
    Row {
        happening: Happening::NoDescriptors,
        more: 0,
        at: Some(0),
        text: "1970-01-01T00:00:00Z descriptors are short",
    },
    Row {
        happening: Happening::NoClock,
        more: 0,
        at: None,
        text: "- the clock gives no reading",
    },
    Row {
        happening: Happening::ClockWentBack {
            from: 1_200,
            to: 1_100,
        },
        more: 0,
        at: Some(1_100),
        text: "1970-01-01T00:18:20Z the clock went back from 1200 to 1100",
    },
    Row {
        happening: Happening::NoMemory,
        more: 0,
        at: Some(253_402_207_200),
        text: "9999-12-30T22:00:00Z memory is short",
    },
    Row {
        happening: Happening::NoMemory,
        more: 0,
        at: Some(253_402_207_201),
        text: "@253402207201 memory is short",
    },
    Row {
        happening: Happening::NoMemory,
        more: 0,
        at: Some(u64::MAX),
        text: "@18446744073709551615 memory is short",
    },
];

/// A line of a node, which has no configuration.
static OF_A_NODE: Row = Row {
    happening: Happening::Listens { loops: 2 },
    more: 0,
    at: None,
    text: "- listens at 127.0.0.1:11211, loops 2, version 0.13.0",
};

/// The pools of 7001 and 7002, and of 7101 to 7103.
fn pools(rt: &impl Abort, alloc: Global) -> [Pool; 2] {
    let old = pool(alloc, &[b"127.0.0.1:7001", b"127.0.0.1:7002"]);
    let new = pool(
        alloc,
        &[b"127.0.0.1:7101", b"127.0.0.1:7102", b"127.0.0.1:7103"],
    );
    [must(rt, old), must(rt, new)]
}

/// Asserts the text of a row's line.
fn reads(rt: &impl Abort, row: usize, line: &[u8], it: &Row) {
    is(rt, row, line.strip_suffix(b"\n"), Some(it.text.as_bytes()));
}

/// A service whose nodes are those of the pools.
fn service(pools: &[Pool]) -> Service<'_> {
    Service {
        version: "0.10.0",
        address: "127.0.0.1:9000",
        config: Some("5f70bf18a08660"),
        pools,
    }
}

#[test]
fn a_node_has_no_configuration(rt: HostRuntime) {
    let node = Service {
        version: "0.13.0",
        address: "127.0.0.1:11211",
        config: None,
        pools: &[],
    };
    let said = Said {
        happening: OF_A_NODE.happening,
        more: OF_A_NODE.more,
    };
    let line = must(&rt, line_of(rt.alloc(), &said, OF_A_NODE.at, &node));
    reads(&rt, 0, &line, &OF_A_NODE);
}

#[test]
fn lines_have_their_texts(rt: HostRuntime) {
    let pools = pools(&rt, rt.alloc());
    for (row, it) in ROWS.iter().enumerate() {
        let said = Said {
            happening: it.happening,
            more: it.more,
        };
        let line = must(&rt, line_of(rt.alloc(), &said, it.at, &service(&pools)));
        reads(&rt, row, &line, it);
    }
}

#[test]
fn refused_memory_makes_a_line_later(rt: HostRuntime) {
    let pools = pools(&rt, rt.alloc());
    let said = Said {
        happening: ROWS[3].happening,
        more: ROWS[3].more,
    };
    let service = service(&pools);
    let line = at_last!(
        &rt,
        line_of(rt.alloc(), &said, ROWS[3].at, &service),
        Err(AllocError)
    );
    reads(&rt, 3, &must(&rt, line), &ROWS[3]);
}
