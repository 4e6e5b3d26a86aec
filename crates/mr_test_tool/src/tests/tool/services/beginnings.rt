//! Services that can't begin.
use super::super::PLACES;
use super::{expect_run, run, word_of};
use crate::tests::must;
use std::net::TcpListener;

#[test]
fn a_port_in_use_has_a_line(rt: HostRuntime) {
    let alloc = rt.alloc();
    let taken = must(&rt, TcpListener::bind(&rt, "127.0.0.1:0"));
    let address = must(&rt, word_of(alloc, must(&rt, taken.local_addr())));
    let line = must(&rt, format!(in alloc; "migctl: net {address}\n"));
    let words = ["node", "--listen", address.as_str()];
    let ran = run(&rt, alloc, &[], &words);
    expect_run(&rt, &ran, 1, b"", line.as_bytes());
    let words = [
        "proxy",
        "--config",
        "fleet.json",
        "--listen",
        address.as_str(),
    ];
    let ran = run(&rt, alloc, PLACES.as_slice(), &words);
    expect_run(&rt, &ran, 1, b"", line.as_bytes());
}
