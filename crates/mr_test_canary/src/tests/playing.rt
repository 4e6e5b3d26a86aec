//! Steps that are played to a judge.
use super::must;
use mr_canary::{Answer, Conviction, Judge};
use std::alloc::Global;
use std::process::Abort;

/// What a client notes. Requests are known by their order: the first one is 0, whoever issued it.
#[derive(Clone, Copy)]
pub enum Step {
    /// The client issues a get of the key.
    Get(u32, usize),
    /// The client issues a set of the key.
    Set(u32, usize),
    /// The client issues a delete of the key.
    Delete(u32, usize),
    /// This request is answered.
    Told(usize, Answer),
}

/// What was convicted: the value, and the delete and the get by their order.
pub type Found = Option<(u64, usize, usize)>;

/// A judge, and the numbers of the requests that were issued.
#[derive(Drop)]
pub struct Played {
    judge: Judge,
    numbers: Vec<u64>,
}

/// The place of a number.
fn order_of(numbers: &[u64], number: u64) -> usize {
    match numbers.iter().position(|other| *other == number) {
        Some(place) => place,
        None => numbers.len(),
    }
}

/// What the judge found, by the order of requests.
fn found(numbers: &[u64], conviction: Option<Conviction>) -> Found {
    let conviction = conviction?;
    Some((
        conviction.value,
        order_of(numbers, conviction.delete.number),
        order_of(numbers, conviction.get.number),
    ))
}

impl Played {
    pub fn new(rt: &impl Abort, alloc: Global, keys: usize, room: usize) -> Played {
        Played {
            judge: must(rt, Judge::new(alloc, keys, room)),
            numbers: Vec::new(alloc),
        }
    }

    /// Plays one step.
    pub fn step(&mut self, rt: &impl Abort, step: Step) -> Found {
        let number = match step {
            Step::Get(client, key) => must(rt, self.judge.issue_get(client, 7, key)).number,
            Step::Set(client, key) => must(rt, self.judge.issue_set(client, 7, key)).0.number,
            Step::Delete(client, key) => must(rt, self.judge.issue_delete(client, 7, key)).number,
            Step::Told(order, answer) => return self.told(rt, order, answer),
        };
        must(rt, self.numbers.push(number));
        None
    }

    /// A request is answered.
    fn told(&mut self, rt: &impl Abort, order: usize, answer: Answer) -> Found {
        let number = match self.numbers.get(order) {
            Some(number) => *number,
            None => rt.panic("there is no such request"),
        };
        let conviction = must(rt, self.judge.answered(number, answer));
        found(self.numbers.as_slice(), conviction)
    }

    /// How many values of the key are kept.
    pub fn kept(&self, key: usize) -> usize {
        self.judge.kept(key)
    }
}
