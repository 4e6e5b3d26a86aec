//! A canary: what happens to it, and what it then does.
ghost use Rattle.std.specs.Prelude.{◌≡◌, ◌↔◌, IsTrue, IfOk, IfSome, length, drop, replicate, slice_get};
ghost use Rattle.std.specs.Option.{option_copied};
ghost use Rattle.std.specs.List.{range_with_len};
ghost use Rattle.mr_canary.specs.Notes.{IsConvicted, Tells};
ghost use Rattle.mr_canary.specs.declared.note.Probe.{Probe};
ghost use Rattle.mr_sightings.specs.Tally.{no_tally};
ghost use Rattle.mr_sightings.specs.declared.trouble.Trouble.TheVariants.{BrokeOff};
ghost use Rattle.mr_probes.specs.CanaryView.{GivesUpThrough, HearsAt, IsOver, IssuesDue, Settles, TakesBytes, Ticks, begun_cleaning, fresh_canary, written, output_at, is_up_at};
ghost use Rattle.mr_probes.specs.NotebookView.{first_of};
ghost use Rattle.mr_probes.specs.declared.answering.Said.TheVariants.{Failed};
ghost use Rattle.mr_probes.specs.declared.client.Client.TheVariants.{Down, Idle};

use crate::answering::Said;
use crate::client::{Client, Hearing};
use crate::course::Course;
use crate::dice::Dice;
use crate::notebook::{Found, Notebook};
use crate::pace::Pace;
use crate::round::{give_up_late, is_done, issue_due, settle};
use mr_sightings::{Tally, Trouble};
use mr_text::{FixedBuffer, Key};
use std::alloc::{AllocError, Global};
use std::marker::Model;

/// Whether a connection is used on.
#[derive(Clone, Copy, Debug, PartialEq, Eq)]
pub enum Goes {
    /// It is.
    On,
    /// It isn't to be used any more.
    Off,
}

/// What a canary is to do.
#[derive(Drop)]
pub struct Plan {
    /// The number of its run, by which its keys and its values are told from those of others.
    pub run: u64,
    /// The keys, by their numbers.
    pub keys: Vec<Key>,
    /// How many clients there are.
    pub clients: usize,
    /// How many requests are issued in a second at most: one to a million.
    pub rate: u64,
    /// After so many microseconds without a reply a request is given up.
    pub give_up: u64,
}

/// Clients that send gets, sets and deletes of some keys, each over a connection of its own with at most one request under way, and the
/// judge of what they are told. Times are in microseconds, by a clock that never goes back.
#[derive(Drop)]
pub struct Canary {
    alloc: Global,
    /// What a request is gathered in.
    buffer: Box<FixedBuffer>,
    /// The clients, by their places.
    clients: Vec<Client>,
    /// What is noted and counted.
    notebook: Notebook,
    /// How the asking goes on.
    course: Course,
}

impl Model for Canary {
    ghost use Rattle.mr_probes.specs.CanaryView.{CanaryView};

    ghost Value = { CanaryView };

    ghost view = { λ c. record { clients = c.clients.items; notebook = c.notebook; course = c.course } };
}

/// What requests are gathered in.
fn fresh_buffer(alloc: Global) -> Result<Box<FixedBuffer>, AllocError> {
    Ok(Box::new(alloc, FixedBuffer::new())?)
}

/// So many clients without connections.
fn fresh_clients(alloc: Global, clients: usize) -> Result<Vec<Client>, AllocError>
    ensures { IfOk result (λ fresh. fresh.items ≡ replicate clients Down) }
{
    let mut fresh = Vec::with_capacity(alloc, clients)?;
    for _ in 0..clients {
        fresh.push(Client::Down)?;
    }
    Ok(fresh)
}

impl Canary {
    /// A canary of which no client has a connection.
    pub fn new(alloc: Global, plan: Plan) -> Result<Canary, AllocError>
        ensures { IfOk result (λ canary. canary ≡ fresh_canary plan) }
    {
        let Plan {
            run,
            keys,
            clients,
            rate,
            give_up,
        } = plan;
        Ok(Canary {
            alloc,
            buffer: fresh_buffer(alloc)?,
            clients: fresh_clients(alloc, clients)?,
            notebook: Notebook::new(alloc, run, keys)?,
            course: Course {
                pace: Pace::new(rate),
                dice: Dice { state: run },
                turn: 0,
                cleaning: None,
                give_up,
            },
        })
    }

    /// How many clients there are.
    pub fn clients(&self) -> usize
        ensures { result ≡ length self.now.clients }
    {
        self.clients.len()
    }

    /// The key of a number.
    pub fn key(&self, number: usize) -> Option<&Key>
        ensures { option_copied result ≡ slice_get self.now.notebook.keys number }
    {
        self.notebook.key(number)
    }

    /// Whether the client of this place has a connection.
    pub fn is_up(&self, client: usize) -> bool
        ensures { result ≡ is_up_at self.now client }
    {
        match self.clients.get(client) {
            Some(client) => client.is_up(),
            None => false,
        }
    }

    /// What is to be written over the connection of the client of this place: what isn't written yet of its request.
    pub fn output(&self, client: usize) -> &[u8]
        ensures { result.now ≡ output_at self.now client }
    {
        match self.clients.get(client) {
            Some(client) => client.output(),
            None => &[],
        }
    }

    /// So many bytes of that were written.
    pub fn on_written(&mut self, client: usize, count: usize)
        ensures { self.new ≡ written client count self.old }
    {
        if client < self.clients.len() {
            self.clients[client].advance(count);
        }
    }

    /// The client of this place has a new connection. What it waited for over an earlier one broke off.
    pub fn on_up(&mut self, client: usize, now: u64)
        ensures { Settles client now (Failed BrokeOff) Idle self.old self.new }
    {
        self.settle(client, now, Said::Failed(Trouble::BrokeOff), Client::Idle);
    }

    /// The connection of the client of this place broke. What it waited for broke off.
    pub fn on_broken(&mut self, client: usize, now: u64)
        ensures { Settles client now (Failed BrokeOff) Down self.old self.new }
    {
        self.settle(client, now, Said::Failed(Trouble::BrokeOff), Client::Down);
    }

    /// Bytes came over the connection of the client of this place. What they say is noted and counted, and behind a reply what is due is
    /// asked.
    pub fn on_bytes(&mut self, client: usize, now: u64, bytes: &[u8]) -> Goes
        ensures { TakesBytes client now bytes.now self.old result self.new }
    {
        match self.hear(client, bytes) {
            Hearing::Part => Goes::On,
            Hearing::Says { said, is_all: true } => {
                self.settle(client, now, said, Client::Idle);
                self.issue_due(now);
                Goes::On
            }
            Hearing::Says {
                said,
                is_all: false,
            } => {
                self.settle(client, now, said, Client::Down);
                Goes::Off
            }
            Hearing::Nonsense | Hearing::NoMemory => {
                self.settle(client, now, Said::Failed(Trouble::NoReply), Client::Down);
                Goes::Off
            }
        }
    }

    /// Time went by. Requests that wait for too long are given up, and their clients are down then; what is due is asked.
    pub fn on_tick(&mut self, now: u64)
        ensures { Ticks now self.old self.new }
    {
        self.give_up_late(now);
        self.issue_due(now);
    }

    /// From now on nothing is asked but one delete of each key that was ever set.
    pub fn clean(&mut self)
        ensures { self.new ≡ begun_cleaning self.old }
    {
        if self.course.cleaning.is_none() {
            self.course.cleaning = Some(0);
            self.notebook.begin_cleaning();
        }
    }

    /// Whether each of those deletes was asked, and no client waits for a reply.
    pub fn is_over(&self) -> bool
        ensures { IsTrue result ↔ IsOver self.now }
    {
        is_done(&self.clients, &self.notebook, &self.course)
    }

    /// How many keys were set whose last delete wasn't acknowledged; none before the canary cleans.
    pub fn left(&self) -> usize
        ensures { result ≡ self.now.notebook.left }
    {
        self.notebook.left()
    }

    /// What was counted since this was last asked.
    pub fn take_second(&mut self) -> Tally
        ensures second { result ≡ self.old.notebook.second }
        ensures anew { self.new ≡ record self.old { notebook = record self.old.notebook { second = no_tally } } }
    {
        self.notebook.take_second()
    }

    /// The first conviction that wasn't taken yet, with what the data of the hit said.
    pub fn take_conviction(&mut self) -> Option<Found>
        ensures first { result ≡ first_of self.old.notebook.found }
        ensures told { IfSome result (λ one. Tells self.old.notebook.judge.notes one.conviction) }
        ensures taken { self.new ≡ record self.old { notebook = record self.old.notebook { found = drop 1 self.old.notebook.found } } }
    {
        self.notebook.take_found()
    }

    /// How many hits were convicted: none exactly where no get is, by all that was noted.
    pub fn came_back(&self) -> u64
        ensures count { result ≡ self.now.notebook.came_back }
        ensures none { (result ≡ 0) ↔ ((get : Probe) → ¬ IsConvicted self.now.notebook.judge.notes get) }
    {
        self.notebook.came_back()
    }

    /// What bytes come to.
    fn hear(&mut self, client: usize, bytes: &[u8]) -> Hearing
        ensures { HearsAt client bytes.now self.old result self.new }
    {
        if client >= self.clients.len() {
            return Hearing::Nonsense;
        }
        self.clients[client].hear(self.alloc, &self.notebook, bytes)
    }

    /// This came of the request of the client of this place, where it waits for a reply. It stands so then.
    fn settle(&mut self, client: usize, now: u64, said: Said, next: Client)
        ensures { Settles client now said next self.old self.new }
    {
        settle(
            &mut self.clients,
            &mut self.notebook,
            client,
            now,
            said,
            next,
        );
    }

    /// The requests are given up that wait for too long.
    fn give_up_late(&mut self, now: u64)
        ensures { GivesUpThrough now (range_with_len 0 (length self.old.clients)) self.old self.new }
    {
        give_up_late(
            &mut self.clients,
            &mut self.notebook,
            self.course.give_up,
            now,
        );
    }

    /// What is due is asked.
    fn issue_due(&mut self, now: u64)
        ensures { IssuesDue now self.old self.new }
    {
        issue_due(
            self.alloc,
            &mut self.buffer,
            &mut self.clients,
            &mut self.notebook,
            &mut self.course,
            now,
        );
    }
}
