//! What is noted and counted of requests and answers.
ghost use Rattle.std.specs.Prelude.{◌≡◌, ◌≤◌, ◌<◌, ◌↔◌, ◌+◌, [], ◌∷◌, ◌++◌, ◌⊎◌, ℕ, List, count_by, nat_lt, length, drop, slice_get, slice_index, vec_len, vec_capacity, IsTrue, IfOk, IfErr, IfSome, MatchOption, MatchResult, None, Some};
ghost use Rattle.std.specs.Option.{option_copied};
ghost use Rattle.mr_canary.specs.Notes.{IsConvicted, Tells, sets_of};
ghost use Rattle.mr_probes.specs.declared.notebook.Found.{Found};
ghost use Rattle.mr_canary.specs.JudgeView.{RefusesIssue};
ghost use Rattle.mr_canary.specs.declared.note.Probe.{Probe};
ghost use Rattle.mr_sightings.specs.Tally.{no_tally};
ghost use Rattle.mr_probes.specs.NotebookView.{IssuesSo, TakesAnswer, fresh_notebook, keys_set, NeverSetBetween, IsFirstSet, first_of, found_after, came_back_after, left_after, kept_with, JudgesSo, TakesNone};
ghost use Rattle.mr_probes.specs.steps.Judging.{AreTold, AreZero, Counts, IsFirstPositive, IsOfSame};
ghost use Rattle.mr_probes.specs.Said.{answer_of};

use crate::answering::Said;
use crate::client::Asking;
use crate::stamp::Stamp;
use crate::wish::{Kind, Wish};
use mr_canary::{CanaryError, Conviction, Judge, Probe};
use mr_counting::one_more;
use mr_sightings::Tally;
use mr_text::Key;
use std::alloc::{AllocError, Global};
use std::marker::Model;

/// How many values of a key the judge keeps at most.
pub(crate) const ROOM: usize = 64;

/// How many convictions are kept at most until they are taken.
const MOST_FOUND: usize = 64;

/// A hit that shows what an acknowledged delete should have taken away.
#[derive(Clone, Copy, Debug, PartialEq, Eq)]
pub struct Found {
    /// The value, the delete and the get.
    pub conviction: Conviction,
    /// What the value's data says: it names the client that set it, and when.
    pub stamp: Stamp,
}

/// What is noted and counted of the requests of a run.
#[derive(Drop)]
pub struct Notebook {
    /// The number of the run, by which its keys and its values are told from those of others.
    run: u64,
    /// The keys, by their numbers.
    keys: Vec<Key>,
    /// The judge of all notes.
    judge: Judge,
    /// How many sets of each key there were.
    sets: Vec<u64>,
    /// What was counted since it was last asked.
    second: Tally,
    /// The convictions that weren't taken yet, the first one first.
    found: Vec<Found>,
    /// How many there were.
    came_back: u64,
    /// How many keys were set whose last delete wasn't acknowledged.
    left: usize,
}

impl Model for Notebook {
    ghost use Rattle.mr_probes.specs.NotebookView.{NotebookView};

    ghost Value = { NotebookView };

    ghost use Rattle.mr_probes.specs.steps.Notebook.{notebook_of, IsNotebook};

    ghost view = { notebook_of };

    ghost invariant = { IsNotebook };
}

/// Keeps one more conviction, where fewer than so many are kept.
fn keep_one(found: &mut Vec<Found>, one: Found)
    requires { 64 ≤ vec_capacity found.old }
    ensures found { found.new.items ≡ kept_with one found.old.items }
    ensures room { vec_capacity found.new ≡ vec_capacity found.old }
{
    if found.len() < MOST_FOUND {
        found.push_reserved(one);
    }
}

/// Keeps a conviction, if there is one, and what the data of the hit said.
fn keep(found: &mut Vec<Found>, convicted: Option<Conviction>, said: Said)
    requires { 64 ≤ vec_capacity found.old }
    ensures found { found.new.items ≡ found_after convicted said found.old.items }
    ensures room { vec_capacity found.new ≡ vec_capacity found.old }
{
    if let (Some(conviction), Said::Hit(stamp)) = (convicted, said) {
        keep_one(found, Found { conviction, stamp });
    }
}

/// What the judge says of what came of a request.
fn judged(judge: &mut Judge, asking: &Asking, said: Said) -> Option<Conviction>
    ensures judged { JudgesSo judge.old asking.now.probe.number (answer_of said) result judge.new
        ⊎ TakesNone judge.old asking.now.probe.number result judge.new }
    ensures same { IsOfSame judge.old judge.new }
    ensures counts { (count : ℕ) → Counts count judge.old.notes → Counts (came_back_after result count) judge.new.notes }
    ensures told { (found : List Found) → AreTold judge.old.notes found → AreTold judge.new.notes (found_after result said found) }
{
    match judge.answered(asking.probe.number, said.answer()) {
        Ok(convicted) => convicted,
        Err(_) => None,
    }
}

/// How many convictions there were, with this one.
fn came_back_after(convicted: Option<Conviction>, count: u64) -> u64
    ensures { result ≡ came_back_after convicted count }
{
    match convicted {
        Some(_) => one_more(count),
        None => count,
    }
}

/// How many keys are left behind what came of a request.
fn left_after(left: usize, asking: &Asking, said: Said) -> usize
    ensures { result ≡ left_after asking.now.cleans said left }
{
    if asking.cleans && said.acknowledges() {
        left.saturating_sub(1)
    } else {
        left
    }
}

/// The place of the first count from this one on that isn't 0.
fn first_positive(counts: &[u64], from: usize) -> Option<usize>
    ensures { MatchOption result (AreZero counts.now from (length counts.now)) (IsFirstPositive counts.now from) }
{
    for place in from..counts.len() {
        if counts[place] > 0 {
            return Some(place);
        }
    }
    None
}

/// Of how many keys there was a set.
fn set_count(sets: &[u64]) -> usize
    ensures { result ≡ count_by (nat_lt 0) sets.now }
{
    sets.iter().filter(|sets| **sets > 0).count()
}

impl Notebook {
    /// Of a run with these keys, with nothing noted.
    pub(crate) fn new(alloc: Global, run: u64, keys: Vec<Key>) -> Result<Notebook, AllocError>
        ensures { IfOk result (λ notebook. notebook ≡ fresh_notebook run keys.items) }
    {
        let judge = match Judge::new(alloc, keys.len(), ROOM) {
            Ok(judge) => judge,
            Err(_) => return Err(AllocError),
        };
        Ok(Notebook {
            run,
            judge,
            sets: vec![in alloc; 0; keys.len()]?,
            keys,
            second: Tally::NONE,
            found: Vec::with_capacity(alloc, MOST_FOUND)?,
            came_back: 0,
            left: 0,
        })
    }

    /// The number of the run.
    pub(crate) fn run(&self) -> u64
        ensures { result ≡ self.now.run }
    {
        self.run
    }

    /// How many keys there are.
    pub(crate) fn key_count(&self) -> usize
        ensures { result ≡ length self.now.keys }
    {
        self.keys.len()
    }

    /// The key of a number.
    pub(crate) fn key(&self, number: usize) -> Option<&Key>
        ensures { option_copied result ≡ slice_get self.now.keys number }
    {
        self.keys.get(number)
    }

    /// How many sets of the key there were; none of a key that isn't there.
    pub(crate) fn sets(&self, key: usize) -> u64
        ensures { result ≡ sets_of self.now.judge.notes key }
    {
        match self.sets.get(key) {
            Some(sets) => *sets,
            None => 0,
        }
    }

    /// Whether the judge keeps as many values of the key as it may.
    pub(crate) fn is_full(&self, key: usize) -> bool
        ensures { IsTrue result ↔ (64 ≤ slice_index self.now.judge.kept key) }
    {
        self.judge.kept(key) >= ROOM
    }

    /// The first key from this one on of which there was a set.
    pub(crate) fn first_set(&self, from: usize) -> Option<usize>
        ensures { MatchOption result (NeverSetBetween self.now.judge.notes from self.now.judge.keys)
            (IsFirstSet self.now.judge from) }
    {
        first_positive(&self.sets, from)
    }

    /// A client is about to send this. For want of memory nothing changes.
    pub(crate) fn issue(&mut self, client: u32, now: u64, wish: Wish) -> Result<Probe, CanaryError>
        ensures { MatchResult result (λ probe. IssuesSo self.old client now wish probe self.new)
            (λ e. RefusesIssue self.old.judge wish.key e × (self.new ≡ self.old)) }
    {
        match wish.kind {
            Kind::Get => self.judge.issue_get(client, now, wish.key),
            Kind::Delete => self.judge.issue_delete(client, now, wish.key),
            Kind::Set => self.issue_set(client, now, wish),
        }
    }

    /// A client is about to send a set.
    fn issue_set(&mut self, client: u32, now: u64, wish: Wish) -> Result<Probe, CanaryError>
        requires { wish.kind ≡ Kind.Set }
        ensures { MatchResult result (λ probe. IssuesSo self.old client now wish probe self.new)
            (λ e. RefusesIssue self.old.judge wish.key e × (self.new ≡ self.old)) }
    {
        let Some(sets) = self.sets.get(wish.key) else {
            return Err(CanaryError::NoSuchKey);
        };
        let Some(more) = sets.checked_add(1) else {
            return Err(CanaryError::NumbersUsedUp);
        };
        let (probe, _) = self.judge.issue_set(client, now, wish.key)?;
        self.sets[wish.key] = more;
        Ok(probe)
    }

    /// This came of a request.
    pub(crate) fn take(&mut self, asking: &Asking, said: Said, now: u64)
        ensures { TakesAnswer asking.now said now self.old self.new }
    {
        let micros = now.saturating_sub(asking.probe.time);
        self.second.add(said.outcome(), micros);
        self.left = left_after(self.left, asking, said);
        let convicted = judged(&mut self.judge, asking, said);
        self.came_back = came_back_after(convicted, self.came_back);
        keep(&mut self.found, convicted, said);
    }

    /// From now on each key that was set is to be deleted once more.
    pub(crate) fn begin_cleaning(&mut self)
        ensures { self.new ≡ record self.old { left = keys_set self.old.judge } }
    {
        self.left = set_count(&self.sets);
    }

    /// What was counted since this was last asked.
    pub(crate) fn take_second(&mut self) -> Tally
        ensures second { result ≡ self.old.second }
        ensures anew { self.new ≡ record self.old { second = no_tally } }
    {
        let second = self.second;
        self.second = Tally::NONE;
        second
    }

    /// The first conviction that wasn't taken yet.
    pub(crate) fn take_found(&mut self) -> Option<Found>
        ensures first { result ≡ first_of self.old.found }
        ensures told { IfSome result (λ one. Tells self.old.judge.notes one.conviction) }
        ensures taken { self.new ≡ record self.old { found = drop 1 self.old.found } }
    {
        if self.found.is_empty() {
            None
        } else {
            Some(self.found.remove(0))
        }
    }

    /// How many convictions there were.
    pub(crate) fn came_back(&self) -> u64
        ensures count { result ≡ self.now.came_back }
        ensures none { (result ≡ 0) ↔ ((get : Probe) → ¬ IsConvicted self.now.judge.notes get) }
    {
        self.came_back
    }

    /// How many keys were set whose last delete wasn't acknowledged.
    pub(crate) fn left(&self) -> usize
        ensures { result ≡ self.now.left }
    {
        self.left
    }
}
