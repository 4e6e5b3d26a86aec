//! A request under way.
ghost use Rattle.std.specs.Prelude.{◌≡◌, ◌↔◌, Some, true, IsTrue, IfOk, is_some, unwrap_or, length, vec_capacity, count_by};
ghost use Rattle.mr_proxy.specs.Slots.{is_open};

use crate::room::room_for;
use crate::slot::{Slot, same_slots};
use mr_history::OpId;
use mr_join::LegReply;
use mr_text::{Item, Request};
use std::alloc::AllocError;
use std::marker::Model;

/// A request with its legs, and with the room that its answer needs. How many of its legs may answer yet is
/// counted, so that no reply walks over them.
#[derive(Debug, Drop)]
pub(crate) struct Pending {
    op: OpId,
    request: Request,
    reading: u64,
    slots: Vec<Slot>,
    awaited: usize,
    items: Vec<Item>,
}

impl Model for Pending {
    ghost use Rattle.std.specs.Prelude.{◌≡◌, count_by, vec_capacity};
    ghost use Rattle.mr_proxy.specs.Slots.{is_open};
    ghost use Rattle.mr_proxy.specs.Pending.{PendingView};
    ghost use Rattle.mr_proxy.specs.steps.Room.{HasRoomFor};

    ghost Value = { PendingView };

    ghost view = { λ p. record { op = p.op; request = p.request; reading = p.reading; slots = p.slots.items } };

    ghost invariant = { λ p. HasRoomFor p.request p.items.items (vec_capacity p.items)
        × (p.awaited ≡ count_by is_open p.slots.items) };
}

impl Pending {
    ghost use Rattle.mr_proxy.specs.Pending.{with_reply};
    ghost use Rattle.mr_proxy.specs.steps.Room.{HasRoomFor};
    ghost use Rattle.mr_proxy.specs.steps.Noted.{noted_as};

    /// A request whose legs were just sent. The room is made by the caller.
    #[inline(always)]
    pub(crate) fn new(
        op: OpId,
        request: Request,
        reading: u64,
        slots: Vec<Slot>,
        items: Vec<Item>,
    ) -> Pending
        requires sent { count_by is_open slots.items ≡ length slots.items }
        requires room { HasRoomFor request items.items (vec_capacity items) }
        ensures { result ≡ record { op = op; request = request; reading = reading; slots = slots.items } }
    {
        let awaited = slots.len();
        Pending {
            op,
            request,
            reading,
            slots,
            awaited,
            items,
        }
    }

    /// The request's name.
    #[inline(always)]
    pub(crate) fn op(&self) -> OpId
        ensures { result ≡ self.now.op }
    {
        self.op
    }

    /// The request.
    #[inline(always)]
    pub(crate) fn request(&self) -> &Request
        ensures { result.now ≡ self.now.request }
    {
        &self.request
    }

    /// The reading by which the request was judged, in seconds since the epoch.
    pub(crate) fn reading(&self) -> u64
        ensures { result ≡ self.now.reading }
    {
        self.reading
    }

    /// The legs in order of place.
    #[inline(always)]
    pub(crate) fn slots(&self) -> &[Slot]
        ensures { result.now ≡ self.now.slots }
    {
        self.slots.as_slice()
    }

    /// How many legs may answer yet.
    pub(crate) fn open_legs(&self) -> usize
        ensures { result ≡ count_by is_open self.now.slots }
    {
        self.awaited
    }

    /// Whether the leg of that place awaits the reply.
    #[inline(always)]
    fn awaits(&self, place: u32, reply: &LegReply) -> bool
        ensures { result ≡ is_some (with_reply self.now place reply.now) }
    {
        let place = place as usize;
        place < self.slots.len() && self.slots[place].awaits(reply)
    }

    /// Notes a reply that the leg of that place awaits.
    #[inline(always)]
    fn note(&mut self, place: u32, reply: LegReply)
        requires { is_some (with_reply self.old place reply) ≡ true }
        ensures { with_reply self.old place reply ≡ Some self.new }
    {
        let slot = &mut self.slots[place as usize];
        slot.reply = Some(reply);
        self.awaited -= 1;
    }

    /// Notes a reply that the leg of that place awaits, and says whether no leg is left that may answer. It hands any other back, and
    /// nothing changes.
    #[inline(always)]
    #[tactic(auto, using(crate::proofs::OpenLemmas::noted_last))]
    pub(crate) fn take(&mut self, place: u32, reply: LegReply) -> Result<bool, LegReply>
        ensures noted { result ≡ noted_as reply (with_reply self.old place reply) }
        ensures state { self.new ≡ unwrap_or (with_reply self.old place reply) self.old }
    {
        if !self.awaits(place, &reply) {
            return Err(reply);
        }
        self.note(place, reply);
        Ok(self.awaited == 0)
    }

    /// The request, the legs, and the room for the items of the answer.
    pub(crate) fn into_parts(self) -> (Request, Vec<Slot>, Vec<Item>)
        ensures request { result.0 ≡ self.request }
        ensures slots { result.1.items ≡ self.slots }
        ensures room { HasRoomFor result.0 result.2.items (vec_capacity result.2) }
    {
        (self.request, self.slots, self.items)
    }

    /// Whether the other request under way is equal.
    pub(crate) fn same_as(&self, other: &Pending) -> bool
        ensures { IsTrue result ↔ (self.now ≡ other.now) }
    {
        self.op == other.op
            && self.reading == other.reading
            && self.request.same_as(&other.request)
            && same_slots(&self.slots, &other.slots)
    }

    /// An equal request under way, with room of its own.
    pub(crate) fn copy(&self) -> Result<Pending, AllocError>
        ensures { IfOk result (λ pending. pending ≡ self.now) }
    {
        let alloc = *self.slots.allocator();
        let mut slots = Vec::with_capacity(alloc, self.slots.len())?;
        for slot in &self.slots {
            slots.push(slot.copy()?)?;
        }
        let request = self.request.copy()?;
        let items = room_for(Vec::new(alloc), &request)?;
        Ok(Pending {
            op: self.op,
            request,
            reading: self.reading,
            slots,
            awaited: self.awaited,
            items,
        })
    }
}
