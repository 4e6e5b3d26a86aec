//! One proxy: the requests under way, and what each step does to them.
ghost use Rattle.std.specs.Prelude.{◌≡◌, ◌≢◌, ◌-◌, ◌^◌, ◌≤◌, ◌<◌, ◌↔◌, length, All, Some, None, IsTrue, IsOk, OnOk, OnErr, IfOk, IfErr, IfSome, is_some};
ghost use Rattle.std.specs.Option.{option_copied};
ghost use Rattle.mr_text.specs.declared.request.Request.{Request};
ghost use Rattle.mr_phases.specs.Schedule.{IsSchedule};
ghost use Rattle.mr_pools.specs.Routing.{IsRouting};

use crate::answer::Answer;
use crate::error::ProxyError;
use crate::issued::Issued;
use crate::leg::Leg;
use crate::leg_count::legs_of;
use crate::legs_draft::LegsDraft;
use crate::lists::Lists;
use crate::outstanding::Outstanding;
use crate::pending::Pending;
use crate::room::room_for;
use crate::sheet::{LegId, LegSheet};
use crate::taken::Taken;
use mr_history::OpId;
use mr_join::LegReply;
use mr_phases::{RequestKind, Schedule, judge};
use mr_pools::Routing;
use mr_text::Request;
use std::alloc::{AllocError, Global};
use std::marker::Model;

/// The core of one proxy. A request that it accepts becomes legs; the legs' replies become its answer.
#[derive(Debug, Drop)]
pub struct ProxyCore {
    outstanding: Outstanding,
    lists: Lists,
    next: u64,
    last: Option<u64>,
    routing: Routing,
    schedule: Schedule,
    room: u64,
}

impl Model for ProxyCore {
    ghost use Rattle.mr_proxy.specs.ProxyView.{ProxyView};

    ghost Value = { ProxyView };

    ghost view = { λ p. record {
      number = p.outstanding.proxy;
      incarnation = p.outstanding.incarnation;
      next = p.next;
      last = p.last;
      outstanding = p.outstanding.list;
      routing = p.routing;
      schedule = p.schedule;
      room = p.room;
    } };

    ghost use Rattle.mr_proxy.specs.Sound.{IsSound};

    ghost invariant = { λ p. IsSound (record {
      number = p.outstanding.proxy;
      incarnation = p.outstanding.incarnation;
      next = p.next;
      last = p.last;
      outstanding = p.outstanding.list;
      routing = p.routing;
      schedule = p.schedule;
      room = p.room;
    }) };
}

/// Does nothing but tell the prover what the types of both keep: no node stands in two pools of a routing, and the
/// phases of a schedule follow one another.
fn are_sound(routing: &Routing, schedule: &Schedule)
    ensures routing { IsRouting routing.now }
    ensures schedule { IsSchedule schedule.now }
{
    let _hash = routing.hash();
    let _hops = schedule.hops();
}

impl ProxyCore {
    ghost use Rattle.mr_proxy.specs.ProxyView.{fresh_proxy, opening_of, oldest_of, IsFresh, AreAlike};
    ghost use Rattle.mr_proxy.specs.Issue.{next_op, used_reading, sheets_of, refusal_of, IsRefusal, after_issue};
    ghost use Rattle.mr_proxy.specs.Transitions.{open_sheet, open_legs_of, taken_of, after_take, given_up_of, after_give_up, after_restart};
    ghost use Rattle.mr_proxy.specs.Answer.{AnswerView};
    ghost use Rattle.mr_proxy.specs.Sheets.{IsPlaced, HaveAsManyHops};
    ghost use Rattle.mr_proxy.specs.Sound.{IsSound, IsSoundAnswer};

    /// A proxy that accepted no request yet. It takes no memory before the first one. Its routing has one pool more than
    /// its schedule has hops.
    pub fn new(
        alloc: Global,
        number: u32,
        incarnation: u64,
        routing: Routing,
        schedule: Schedule,
        room: u64,
    ) -> ProxyCore
        requires { HaveAsManyHops routing schedule }
        ensures { result ≡ fresh_proxy number incarnation routing schedule room }
    {
        are_sound(&routing, &schedule);
        ProxyCore {
            outstanding: Outstanding::new(alloc, number, incarnation),
            lists: Lists::new(alloc),
            next: 0,
            last: None,
            routing,
            schedule,
            room,
        }
    }

    /// The larger of a reading and the last one.
    #[inline(always)]
    fn reading_used(&self, reading: u64) -> u64
        ensures { result ≡ used_reading self.now.last reading }
    {
        match self.last {
            None => reading,
            Some(last) => last.max(reading),
        }
    }

    /// Why the next request would be refused, memory aside: NumbersSpent where no number is left for it, or else NoRoom
    /// where as many requests are under way as there is room for. None where it would be accepted.
    #[inline(always)]
    pub fn refusal(&self) -> Option<ProxyError>
        ensures { result ≡ refusal_of self.now }
    {
        if self.next == u64::MAX {
            Some(ProxyError::NumbersSpent)
        } else if self.room <= self.outstanding.len() as u64 {
            Some(ProxyError::NoRoom)
        } else {
            None
        }
    }

    /// The name that the next request gets.
    #[inline(always)]
    fn next_op(&self) -> OpId
        ensures { result ≡ next_op self.now }
    {
        self.outstanding.op(self.next)
    }

    /// Accepts a request at a reading of the proxy's clock, in seconds since the epoch. Its legs go by the larger of
    /// that reading and the last one used. A refusal hands the request back and changes nothing; refusals are tried in
    /// the order NumbersSpent, NoRoom, OutOfMemory. Its cost grows with the legs, and not with the requests under way.
    pub fn issue(&mut self, reading: u64, request: Request) -> Result<Issued, (ProxyError, Request)>
        requires { request ≢ Request.Quit }
        ensures accepted { OnOk result (refusal_of self.old ≡ None) }
        ensures state { OnOk result (self.new ≡ after_issue self.old reading request) }
        ensures op { IfOk result (λ issued. issued.op ≡ next_op self.old) }
        ensures legs { IfOk result (λ issued. issued.legs.items ≡ sheets_of self.old reading request) }
        ensures has_leg { IfOk result (λ issued. 1 ≤ length issued.legs.items) }
        ensures nodes { IfOk result (λ issued. All (IsPlaced self.old.routing) issued.legs.items) }
        ensures refused { IfErr result (λ back. IsRefusal (refusal_of self.old) back.0) }
        ensures unchanged { IfErr result (λ back. (self.new ≡ self.old) × (back.1 ≡ request)) }
    {
        if let Some(refusal) = self.refusal() {
            return Err((refusal, request));
        }
        let op = self.next_op();
        let used = self.reading_used(reading);
        let Ok(draft) = LegsDraft::of(
            &mut self.lists,
            &self.routing,
            self.schedule,
            op,
            used,
            &request,
        ) else {
            return Err((ProxyError::OutOfMemory, request));
        };
        let Ok(items) = room_for(self.lists.take_items(), &request) else {
            return Err((ProxyError::OutOfMemory, request));
        };
        if self.outstanding.reserve().is_err() {
            return Err((ProxyError::OutOfMemory, request));
        }
        let (slots, legs) = draft.into_parts();
        self.outstanding
            .add(Pending::new(op, request, used, slots, items));
        self.next += 1;
        self.last = Some(used);
        Ok(Issued { op, legs })
    }

    /// A list of legs comes back that an issue gave, and what is left in it is dropped. The next request takes no memory for its
    /// own list then, unless it has more legs.
    pub fn give_legs_back(&mut self, legs: Vec<Leg>)
        ensures { self.new ≡ self.old }
    {
        self.lists.keep_legs(legs);
    }

    /// An answer comes back that isn't needed any more, and is dropped. The next request takes no memory for its own lists then, as
    /// with `give_legs_back`.
    pub fn give_answer_back(&mut self, answer: Answer)
        ensures { self.new ≡ self.old }
    {
        let (slots, items) = answer.into_lists();
        self.lists.keep_slots(slots);
        self.lists.keep_items(items);
    }

    /// Takes the reply of a leg. A reply that no leg awaits is a stranger, and changes nothing. The legs of an answer
    /// are those of the reading by which its request was judged. The last reply of a request looks for its number by halves
    /// among those under way, and moves the numbers on the shorter side of it by one place; any other costs the same,
    /// whatever is under way.
    pub fn take_reply(&mut self, id: LegId, reply: LegReply) -> Taken
        ensures taken { result ≡ taken_of self.old id reply }
        ensures state { self.new ≡ after_take self.old id reply }
        ensures sound { (answer : AnswerView) → result ≡ Taken.Answered answer → IsSoundAnswer self.old answer }
    {
        match self.outstanding.take(id, reply) {
            Err(stranger) => Taken::Stranger(stranger),
            Ok(None) => Taken::Waiting,
            Ok(Some(pending)) => Taken::Answered(Answer::of(pending, false)),
        }
    }

    /// Gives a request up: each leg that didn't answer counts as lost. NoSuchOp where it isn't under way. It costs what a
    /// last reply does.
    pub fn give_up(&mut self, op: OpId) -> Result<Answer, ProxyError>
        ensures answer { IfOk result (λ answer. given_up_of self.old op ≡ Some answer) }
        ensures sound { IfOk result (λ answer. IsSoundAnswer self.old answer) }
        ensures unknown { IfErr result (λ e. (given_up_of self.old op ≡ None) × (e ≡ ProxyError.NoSuchOp)) }
        ensures state { self.new ≡ after_give_up self.old op }
        ensures unchanged { OnErr result (self.new ≡ self.old) }
    {
        match self.outstanding.remove(op) {
            None => Err(ProxyError::NoSuchOp),
            Some(pending) => Ok(Answer::of(pending, true)),
        }
    }

    /// Drops all requests under way and begins the next incarnation. NumbersSpent where there is none.
    pub fn restart(&mut self) -> Result<(), ProxyError>
        ensures accepted { IsOk result ↔ (self.old.incarnation ≢ 2 ^ 64 - 1) }
        ensures state { OnOk result (self.new ≡ after_restart self.old) }
        ensures spent { IfErr result (λ e. (e ≡ ProxyError.NumbersSpent) × (self.new ≡ self.old)) }
    {
        if self.outstanding.incarnation() == u64::MAX {
            return Err(ProxyError::NumbersSpent);
        }
        self.outstanding.restart();
        self.next = 0;
        self.last = None;
        Ok(())
    }

    /// The proxy's number in its fleet.
    pub fn number(&self) -> u32
        ensures { result ≡ self.now.number }
    {
        self.outstanding.proxy()
    }

    /// How often the proxy was restarted.
    pub fn incarnation(&self) -> u64
        ensures { result ≡ self.now.incarnation }
    {
        self.outstanding.incarnation()
    }

    /// The number of the next request: how many this incarnation accepted.
    pub fn next(&self) -> u64
        ensures { result ≡ self.now.next }
    {
        self.next
    }

    /// The reading by which the last request was judged, in seconds since the epoch; None since the beginning.
    pub fn last(&self) -> Option<u64>
        ensures { result ≡ self.now.last }
    {
        self.last
    }

    /// The pools, and the hash that places keys in them.
    #[inline(always)]
    pub fn routing(&self) -> &Routing
        ensures { result.now ≡ self.now.routing }
    {
        &self.routing
    }

    /// When the migration goes from phase to phase.
    #[inline(always)]
    pub fn schedule(&self) -> Schedule
        ensures { result ≡ self.now.schedule }
    {
        self.schedule
    }

    /// The most requests under way.
    pub fn room(&self) -> u64
        ensures { result ≡ self.now.room }
    {
        self.room
    }

    /// How many requests are under way. Whoever holds a proxy knows that it is sound.
    #[inline(always)]
    pub fn outstanding(&self) -> usize
        ensures count { result ≡ length self.now.outstanding }
        ensures sound { IsSound self.now }
    {
        self.outstanding.len()
    }

    /// The name of the request under way that was issued first, which has the least number of them; None where nothing is
    /// under way. It takes no memory, and looks at that one alone.
    pub fn oldest(&self) -> Option<OpId>
        ensures first { result ≡ oldest_of self.now }
        ensures least { IfSome result (λ op. All (λ pending. op.number ≤ pending.op.number) self.now.outstanding) }
    {
        self.outstanding.oldest()
    }

    /// Whether the request of this op is under way.
    pub fn is_outstanding(&self, op: OpId) -> bool
        ensures { result ≡ is_some (given_up_of self.now op) }
    {
        self.outstanding.find(op).is_some()
    }

    /// How many legs may answer yet. Every request may have many, so the count is wider than that of requests. It looks at
    /// each request under way.
    pub fn open_legs(&self) -> u128
        ensures { result ≡ open_legs_of self.now }
    {
        self.outstanding.open_legs()
    }

    /// Whether nothing is under way, no reading was used, and no number given out.
    pub fn is_fresh(&self) -> bool
        ensures { IsTrue result ↔ IsFresh self.now }
    {
        self.outstanding.len() == 0 && self.last.is_none() && self.next == 0
    }

    /// Whether the other proxy has the same number, incarnation, routing, schedule and room, whatever is under way.
    pub fn alike(&self, other: &ProxyCore) -> bool
        ensures { IsTrue result ↔ AreAlike self.now other.now }
    {
        self.number() == other.number()
            && self.incarnation() == other.incarnation()
            && self.routing.same_as(&other.routing)
            && self.schedule.same_as(&other.schedule)
            && self.room == other.room
    }

    /// How many legs an issue would make, or why it would be refused: NumbersSpent, or else NoRoom.
    #[tactic(auto, using(crate::proofs::DraftLemmas::sheets_count))]
    pub fn would_issue(&self, reading: u64, request: &Request) -> Result<u64, ProxyError>
        requires { request.now ≢ Request.Quit }
        ensures legs { IfOk result
            (λ legs. (refusal_of self.now ≡ None) × (legs ≡ length (sheets_of self.now reading request.now))) }
        ensures refused { IfErr result (λ e. refusal_of self.now ≡ Some e) }
    {
        if let Some(refusal) = self.refusal() {
            return Err(refusal);
        }
        let judged = judge(self.schedule, self.reading_used(reading));
        let sides = judged.sides(RequestKind::Delete);
        Ok(legs_of(request, sides.count()) as u64)
    }

    /// Lends the sheet of a leg that may answer yet.
    pub fn sheet_of(&self, id: LegId) -> Option<&LegSheet>
        ensures { option_copied result ≡ open_sheet self.now id }
    {
        let pending = self.outstanding.find(id.op)?;
        let slot = pending.slots().get(id.place as usize)?;
        if slot.is_open() {
            Some(&slot.sheet)
        } else {
            None
        }
    }

    /// The fresh proxy of the same number, incarnation, routing, schedule and room.
    pub fn opening(&self, alloc: Global) -> Result<ProxyCore, AllocError>
        ensures { IfOk result (λ core. core ≡ opening_of self.now) }
    {
        let routing = self.routing.copy()?;
        Ok(ProxyCore::new(
            alloc,
            self.number(),
            self.incarnation(),
            routing,
            self.schedule,
            self.room,
        ))
    }
}
