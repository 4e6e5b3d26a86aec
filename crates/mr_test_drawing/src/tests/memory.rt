//! Refused memory: the same call made again gives what it gives with ample memory.
use super::drawn::picture;
use super::run::play;
use super::{holds, must};
use mr_drawing::{node_names, push_shown};
use mr_test_support::{at_last, grant_memory, refuse_memory};
use std::alloc::AllocError;
use std::process::Abort;

#[test]
fn refused_memory_shows_bytes_later(rt: HostRuntime) {
    let mut text = Vec::new(rt.alloc());
    refuse_memory(&rt);
    let first = push_shown(&mut text, b"<k>");
    grant_memory(&rt);
    if first.is_err() {
        text.clear();
        must(&rt, push_shown(&mut text, b"<k>"));
    }
    holds(
        &rt,
        text.as_slice() == b"&lt;k&gt;".as_slice(),
        "what is shown",
    );
}

#[test]
fn refused_memory_names_nodes_later(rt: HostRuntime) {
    let run = play(&rt, rt.alloc());
    let names = must(
        &rt,
        at_last!(
            &rt,
            node_names(rt.alloc(), run.proxies.as_slice()),
            Err(AllocError)
        ),
    );
    holds(&rt, names.len() == 5, "five nodes");
}

#[test]
fn refused_memory_draws_later(rt: HostRuntime) {
    let run = play(&rt, rt.alloc());
    let drawn = at_last!(&rt, picture(&rt, rt.alloc(), &run), None);
    let again = picture(&rt, rt.alloc(), &run);
    match (drawn, again) {
        (Some(one), Some(other)) => holds(&rt, one.as_slice() == other.as_slice(), "one picture"),
        _ => rt.panic("there is no picture"),
    }
}
