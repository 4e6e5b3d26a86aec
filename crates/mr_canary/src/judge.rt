//! The judge of what a canary's clients know. It takes notes one by one, and forgets what can convict no more.
ghost use Rattle.std.specs.Prelude.{◌≡◌, ◌↔◌, ◌≤◌, IsTrue, ℕ, [], MatchResult, OnOk, OnErr, IfOk, IfErr, length, replicate, slice_index, Option, List};
ghost use Rattle.mr_canary.specs.declared.note.Answer.TheVariants.{Hit, Stored};
ghost use Rattle.mr_canary.specs.declared.note.Asked.TheVariants.{Get, Set, Delete};
ghost use Rattle.mr_canary.specs.declared.error.CanaryError.TheVariants.{OutOfMemory};
ghost use Rattle.mr_canary.specs.declared.note.Note.TheVariants.{Answered};
ghost use Rattle.mr_canary.specs.declared.waiting.Waiting.TheVariants as waits;
ghost use Rattle.mr_canary.specs.Notes.{Acknowledges, IsWaiting, sets_of};
ghost use Rattle.mr_canary.specs.JudgeView.{Issues, JudgesAnswer, OtherVerdictsStand, RefusesAnswer, RefusesIssue, VerdictsStand, with_note};
ghost use Rattle.mr_canary.specs.steps.Knowing.{IsNext, JudgesRequest, StaysKnown};
ghost use Rattle.mr_canary.specs.steps.Watched.{fresh_watched};

use crate::error::CanaryError;
use crate::note::{Answer, Asked, Conviction, Note, Probe};
use crate::past::Past;
use crate::waiting::{Waiting, wait};
use crate::watched::Watched;
use std::alloc::{AllocError, Global};
use std::collections::HashMap;
use std::marker::Model;

/// What is kept of the notes that were taken: of each key at most so many values as there is room for, and the requests that wait for
/// an answer.
#[derive(Drop)]
pub struct Judge {
    /// What is kept of each key.
    keys: Vec<Watched>,
    /// The requests that wait, by their number.
    waiting: HashMap<u64, Waiting>,
    /// How many notes were taken.
    count: u64,
    /// How many values of a key are kept at most.
    room: usize,
    /// All notes that were taken.
    past: Past,
}

impl Model for Judge {
    ghost use Rattle.std.specs.Prelude.{vec_len};
    ghost use Rattle.mr_canary.specs.JudgeView.{JudgeView};
    ghost use Rattle.mr_canary.specs.steps.Knowing.{Knows};
    ghost use Rattle.mr_canary.specs.steps.Watched.{kept_of};

    ghost Value = { JudgeView };

    ghost view = { λ j. record { notes = j.past; keys = vec_len j.keys; kept = kept_of j.keys.items; room = j.room } };

    ghost invariant = { λ j. Knows j.past j.keys.items j.waiting j.count j.room };
}

/// So many keys without sets and deletes.
fn fresh_keys(alloc: Global, keys: usize) -> Result<Vec<Watched>, AllocError>
    ensures { IfOk result (λ fresh. fresh.items ≡ replicate keys fresh_watched) }
{
    let mut fresh = Vec::with_capacity(alloc, keys)?;
    for _ in 0..keys {
        fresh.push(Watched::new(alloc))?;
    }
    Ok(fresh)
}

/// What STORED says of the set's key, with so many notes before.
fn note_stored(keys: &mut [Watched], set: Probe, value: u64, place: u64)
    ensures known { StaysKnown (waits.Set set value) Stored place keys.old keys.new }
    ensures many { length keys.new ≡ length keys.old }
{
    if set.key < keys.len() {
        keys[set.key].mark(value, place);
    }
}

/// What an acknowledgement says of the delete's key.
fn note_acknowledged(keys: &mut [Watched], delete: Probe)
    ensures known { (answer : Answer) (place : ℕ) → Acknowledges answer
        → StaysKnown (waits.Delete delete) answer place keys.old keys.new }
    ensures many { length keys.new ≡ length keys.old }
{
    if delete.key < keys.len() {
        keys[delete.key].acknowledge(delete);
    }
}

/// Whether the answer acknowledges a delete.
fn acknowledges(answer: Answer) -> bool
    ensures { IsTrue result ↔ Acknowledges answer }
{
    match answer {
        Answer::Deleted | Answer::NotFound => true,
        _ => false,
    }
}

/// The conviction by a hit of this value.
fn judge_hit(watched: &Watched, get: Probe, value: u64) -> Option<Conviction>
    ensures { JudgesRequest (waits.Get get watched.now) (Hit value) result }
{
    match watched.convicting(value) {
        Some(delete) => Some(Conviction { value, delete, get }),
        None => None,
    }
}

/// What an answer to the get says.
fn answer_get(watched: &Watched, get: Probe, answer: Answer) -> Option<Conviction>
    ensures { JudgesRequest (waits.Get get watched.now) answer result }
{
    match answer {
        Answer::Hit { value } => judge_hit(watched, get, value),
        _ => None,
    }
}

/// What an answer to the set says of its key, with so many notes before.
fn answer_set(keys: &mut [Watched], set: Probe, value: u64, answer: Answer, place: u64)
    ensures known { StaysKnown (waits.Set set value) answer place keys.old keys.new }
    ensures many { length keys.new ≡ length keys.old }
{
    match answer {
        Answer::Stored => note_stored(keys, set, value, place),
        _ => {}
    }
}

/// What an answer to the delete says of its key.
fn answer_delete(keys: &mut [Watched], delete: Probe, answer: Answer)
    ensures known { (place : ℕ) → StaysKnown (waits.Delete delete) answer place keys.old keys.new }
    ensures many { length keys.new ≡ length keys.old }
{
    if acknowledges(answer) {
        note_acknowledged(keys, delete);
    }
}

/// What an answer to the request says, with so many notes before: whether it convicts, and what is kept from now on.
fn take_answer(
    keys: &mut [Watched],
    request: &Waiting,
    answer: Answer,
    place: u64,
) -> Option<Conviction>
    ensures known { StaysKnown request.now answer place keys.old keys.new }
    ensures judged { JudgesRequest request.now answer result }
    ensures many { length keys.new ≡ length keys.old }
{
    match request {
        Waiting::Get { probe, watched } => answer_get(watched, *probe, answer),
        Waiting::Set { probe, value } => {
            answer_set(keys, *probe, *value, answer, place);
            None
        }
        Waiting::Delete { probe } => {
            answer_delete(keys, *probe, answer);
            None
        }
    }
}

impl Judge {
    /// A judge without notes, of keys with the numbers below `keys`, which keeps at most `room` values of each.
    pub fn new(alloc: Global, keys: usize, room: usize) -> Result<Judge, CanaryError>
        ensures ok { IfOk result (λ judge. judge ≡ record { notes = []; keys = keys; kept = replicate keys 0; room = room }) }
        ensures err { IfErr result (λ e. e ≡ OutOfMemory) }
    {
        Ok(Judge {
            keys: fresh_keys(alloc, keys)?,
            waiting: HashMap::new(alloc),
            count: 0,
            room,
            past: Past::new(),
        })
    }

    /// How many values of the key are kept; none of a key that isn't there.
    pub fn kept(&self, key: usize) -> usize
        ensures kept { result ≡ slice_index self.now.kept key }
        ensures bounded { result ≤ self.now.room }
    {
        match self.keys.get(key) {
            Some(watched) => watched.kept(),
            None => 0,
        }
    }

    /// A client is about to send a get of the key.
    pub fn issue_get(&mut self, client: u32, time: u64, key: usize) -> Result<Probe, CanaryError>
        ensures issued { MatchResult result
            (λ probe. Issues self.old client time key Get probe self.new)
            (λ e. RefusesIssue self.old key e × (self.new ≡ self.old)) }
        ensures verdicts { VerdictsStand self.old.notes self.new.notes }
    {
        let (probe, next) = self.next_probe(client, time, key)?;
        let watched = self.keys[key].copy()?;
        wait(
            &mut self.waiting,
            probe.number,
            Waiting::Get { probe, watched },
        )?;
        self.count = next;
        self.past.add(Note::Issued {
            probe,
            asked: Asked::Get,
        });
        Ok(probe)
    }

    /// A client is about to send a set of the key. It is to have the value that comes with it, which no other set of the key has.
    pub fn issue_set(
        &mut self,
        client: u32,
        time: u64,
        key: usize,
    ) -> Result<(Probe, u64), CanaryError>
        ensures issued { MatchResult result
            (λ issued. Issues self.old client time key (Set issued.1) issued.0 self.new)
            (λ e. RefusesIssue self.old key e × (self.new ≡ self.old)) }
        ensures verdicts { VerdictsStand self.old.notes self.new.notes }
        ensures value { IfOk result (λ issued. issued.1 ≡ sets_of self.old.notes key) }
    {
        let (probe, next) = self.next_probe(client, time, key)?;
        let value = self.keys[key].sets();
        if self.keys[key].kept() >= self.room {
            return Err(CanaryError::KeyIsFull);
        }
        wait(
            &mut self.waiting,
            probe.number,
            Waiting::Set { probe, value },
        )?;
        match self.keys[key].add_set() {
            Ok(()) => {
                self.count = next;
                self.past.add(Note::Issued {
                    probe,
                    asked: Asked::Set { value },
                });
                Ok((probe, value))
            }
            Err(e) => {
                self.waiting.remove(&probe.number);
                Err(CanaryError::from(e))
            }
        }
    }

    /// A client is about to send a delete of the key.
    pub fn issue_delete(&mut self, client: u32, time: u64, key: usize) -> Result<Probe, CanaryError>
        ensures issued { MatchResult result
            (λ probe. Issues self.old client time key Delete probe self.new)
            (λ e. RefusesIssue self.old key e × (self.new ≡ self.old)) }
        ensures verdicts { VerdictsStand self.old.notes self.new.notes }
    {
        let (probe, next) = self.next_probe(client, time, key)?;
        wait(&mut self.waiting, probe.number, Waiting::Delete { probe })?;
        self.count = next;
        self.past.add(Note::Issued {
            probe,
            asked: Asked::Delete,
        });
        Ok(probe)
    }

    /// The answer to the request of this number came, or it is clear that none will. Says whether it is a hit that convicts. It takes
    /// no memory.
    pub fn answered(
        &mut self,
        number: u64,
        answer: Answer,
    ) -> Result<Option<Conviction>, CanaryError>
        ensures noted { MatchResult result
            (λ _. self.new ≡ record (with_note self.old (Answered number answer)) { kept = self.new.kept })
            (λ e. RefusesAnswer self.old number e × (self.new ≡ self.old)) }
        ensures waited { OnOk result (IsWaiting self.old.notes number) }
        ensures judged { IfOk result (JudgesAnswer self.new.notes number) }
        ensures verdicts { OtherVerdictsStand self.old.notes number self.new.notes }
    {
        let Some(next) = self.count.checked_add(1) else {
            return Err(CanaryError::NumbersUsedUp);
        };
        let Some(request) = self.waiting.remove(&number) else {
            return Err(CanaryError::NotWaiting);
        };
        let found = take_answer(&mut self.keys, &request, answer, self.count);
        self.count = next;
        self.past.add(Note::Answered { number, answer });
        Ok(found)
    }

    /// The request that is issued next, and the number after it.
    fn next_probe(&self, client: u32, time: u64, key: usize) -> Result<(Probe, u64), CanaryError>
        ensures { MatchResult result
            (λ next. IsNext self.now client time key next.0 next.1)
            (RefusesIssue self.now key) }
    {
        if key >= self.keys.len() {
            return Err(CanaryError::NoSuchKey);
        }
        match self.count.checked_add(1) {
            Some(next) => Ok((
                Probe {
                    number: self.count,
                    client,
                    time,
                    key,
                },
                next,
            )),
            None => Err(CanaryError::NumbersUsedUp),
        }
    }
}
