//! Serves a proxy or a node on loops: `mr_test_driver proxy LISTEN LOOPS CLIENTS MOST_CLIENTS ROOM START INTERVAL LEG_MILLIS
//! CLIENT_SECONDS MOST_LEGS MOST_UNREAD OLD NEW`, or `mr_test_driver node LISTEN LOOPS CLIENTS MOST_CLIENTS CAPACITY CLIENT_SECONDS
//! MOST_UNREAD`.
//! LISTEN is an address; LOOPS and CLIENTS how many there are, and MOST_CLIENTS how many clients at a time, 0 for any number; ROOM how
//! many requests of a loop are under way at most; START and INTERVAL those of the migration, in seconds; LEG_MILLIS and CLIENT_SECONDS
//! how long a node and a client may be silent, 0 for as long as they like; MOST_LEGS how many legs a link's queue has at most, and
//! MOST_UNREAD how many bytes of answers a client may leave unread; OLD and NEW the names of the pools' nodes, with commas between them;
//! CAPACITY how many items the cache of a node holds, which all its loops share.
//! Each line of the input is a question: what was heard of the loops since the last one is printed, and what they tell of themselves.
//! Once all clients and the input have ended, it prints how many clients did without a fault.
#![tactic(auto)]

mod answers;
mod asked;
mod node_answers;
mod nodes;
mod notes;
mod proxies;

use answers::answer_of_proxy;
use asked::{Asked, Misuse};
use crossbeam_channel::unbounded;
use mr_counting::ClockWatch;
use mr_driver::{listen_at, serve};
use mr_sockets::address_of;
use node_answers::answer_of_node;
use nodes::{cache_of, open_node};
use notes::Notes;
use proxies::open_proxy;
use std::{env, thread};

fn main(rt: HostRuntime) -> Result<(), Misuse> {
    let alloc = rt.alloc();
    let mut words: Vec<String> = Vec::new(alloc);
    for word in env::args(&rt)? {
        words.push(word)?;
    }
    let asked = Asked::of(words.as_slice())?;
    let Some(address) = address_of(asked.listen()) else {
        return Err(Misuse::Words);
    };
    let listener = listen_at(&rt, address)?;
    let (to, heard) = unbounded(alloc)?;
    let ears = Notes::new(rt.clone()?, to);
    let watch = ClockWatch::new();
    let host = &rt;
    let listener = &listener;
    let heard = &heard;
    let ears = &ears;
    let watch = &watch;
    let bounds = asked.bounds();
    let served = match asked {
        Asked::Proxy(asked) => {
            let (loops, doors) = open_proxy(host, alloc, &asked)?;
            let doors = &doors;
            thread::scope(thread::scope_env(), host, move |scope| {
                let _ = scope.spawn(move || answer_of_proxy(host, alloc, doors, heard));
                serve(host, alloc, listener, loops, doors, bounds, watch, ears)
            })
        }
        Asked::Node(asked) => {
            let cache = cache_of(alloc, &asked)?;
            let cache = &cache;
            let (loops, doors) = open_node(host, alloc, cache, &asked)?;
            let doors = &doors;
            thread::scope(thread::scope_env(), host, move |scope| {
                let _ = scope.spawn(move || answer_of_node(host, alloc, doors, cache, heard));
                serve(host, alloc, listener, loops, doors, bounds, watch, ears)
            })
        }
    };
    println!(rt; "served {served}")?;
    Ok(())
}
