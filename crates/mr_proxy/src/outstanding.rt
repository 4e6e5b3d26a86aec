//! The requests under way: found by name, and known in order of issue.
ghost use Rattle.std.specs.Prelude.{◌≡◌, ◌≢◌, ◌+◌, ◌-◌, ◌^◌, ◌≤◌, ◌<◌, ◌++◌, ◌↔◌, [], ◌∷◌, length, remove, slice_get, sum_by, count_by, All, IsTrue, OnOk};
ghost use Rattle.std.specs.Option.{option_copied, option_map};
ghost use Rattle.mr_proxy.specs.Slots.{is_open};
ghost use Rattle.mr_proxy.specs.Pending.{PendingView};
ghost use Rattle.mr_proxy.specs.Transitions.{place_of_op, pending_with};
ghost use Rattle.mr_proxy.specs.steps.Outstanding.{named, noted_in, list_noted, list_settled, settled_as};
ghost use Rattle.mr_proxy.specs.steps.Noted.{noted_as};

use crate::pending::Pending;
use crate::sheet::LegId;
use mr_history::OpId;
use mr_join::LegReply;
use std::alloc::{AllocError, Global};
use std::collections::{HashMap, VecDeque};
use std::marker::Model;

/// The requests under way of one incarnation of a proxy. A request is found by its name in a map; the numbers stand beside
/// it in order of issue, and so in their own order, by which they are searched.
#[derive(Debug, Drop)]
pub(crate) struct Outstanding {
    proxy: u32,
    incarnation: u64,
    numbers: VecDeque<u64>,
    pendings: HashMap<OpId, Pending>,
}

impl Model for Outstanding {
    ghost use Rattle.std.specs.Prelude.{◌-◌, min};
    ghost use Rattle.std.specs.HashMap.{get, spare};
    ghost use Rattle.std.specs.VecDeque.{deque_len, deque_capacity};
    ghost use Rattle.mr_proxy.specs.steps.Outstanding.{OutstandingView, IsKept, is_equal, listed};

    ghost Value = { OutstandingView };

    ghost view = { λ o. record {
      proxy = o.proxy;
      incarnation = o.incarnation;
      list = listed (get is_equal o.pendings) o.proxy o.incarnation o.numbers.items;
      spare = min (deque_capacity o.numbers - deque_len o.numbers) (spare o.pendings);
    } };

    ghost invariant = { λ o. IsKept (get is_equal o.pendings) o.proxy o.incarnation o.numbers.items };
}

impl Outstanding {
    /// No request is under way. It takes no memory.
    pub(crate) fn new(alloc: Global, proxy: u32, incarnation: u64) -> Outstanding
        ensures proxy { result.proxy ≡ proxy }
        ensures incarnation { result.incarnation ≡ incarnation }
        ensures list { result.list ≡ [] }
    {
        Outstanding {
            proxy,
            incarnation,
            numbers: VecDeque::new(alloc),
            pendings: HashMap::new(alloc),
        }
    }

    /// The proxy's number in its fleet.
    pub(crate) fn proxy(&self) -> u32
        ensures { result ≡ self.now.proxy }
    {
        self.proxy
    }

    /// How often the proxy was restarted.
    pub(crate) fn incarnation(&self) -> u64
        ensures { result ≡ self.now.incarnation }
    {
        self.incarnation
    }

    /// How many requests are under way.
    #[inline(always)]
    pub(crate) fn len(&self) -> usize
        ensures { result ≡ length self.now.list }
    {
        self.numbers.len()
    }

    /// The name of the request of this number.
    #[inline(always)]
    pub(crate) fn op(&self, number: u64) -> OpId
        ensures { result ≡ named self.now.proxy self.now.incarnation number }
    {
        OpId {
            proxy: self.proxy,
            incarnation: self.incarnation,
            number,
        }
    }

    /// The name of the request that was issued first. Its cost doesn't grow with the number of requests.
    pub(crate) fn oldest(&self) -> Option<OpId>
        ensures { result ≡ option_map (λ pending. pending.op) (slice_get self.now.list 0) }
    {
        let number = *self.numbers.front()?;
        Some(self.op(number))
    }

    /// The request of this name. Its cost doesn't grow with the number of requests.
    pub(crate) fn find(&self, op: OpId) -> Option<&Pending>
        ensures { option_copied result ≡ pending_with self.now.list op }
    {
        self.pendings.get(&op)
    }

    /// The request of a place in order of issue.
    fn at(&self, place: usize) -> Option<&Pending>
        ensures { option_copied result ≡ slice_get self.now.list place }
    {
        let number = *self.numbers.get(place)?;
        self.pendings.get(&self.op(number))
    }

    /// How many legs may answer yet. It looks at each request.
    pub(crate) fn open_legs(&self) -> u128
        ensures { result ≡ sum_by (λ pending. count_by is_open pending.slots) self.now.list }
    {
        let mut total = 0u128;
        for place in 0..self.len() {
            if let Some(pending) = self.at(place) {
                total += pending.open_legs() as u128;
            }
        }
        total
    }

    /// Makes room for one more request, in both parts before either is changed.
    #[inline(always)]
    pub(crate) fn reserve(&mut self) -> Result<(), AllocError>
        ensures proxy { self.new.proxy ≡ self.old.proxy }
        ensures incarnation { self.new.incarnation ≡ self.old.incarnation }
        ensures list { self.new.list ≡ self.old.list }
        ensures room { OnOk result (1 ≤ self.new.spare) }
    {
        self.numbers.reserve(1)?;
        self.pendings.reserve(1)?;
        Ok(())
    }

    /// Adds a request, which was issued after all others and for which there is room.
    #[inline(always)]
    pub(crate) fn add(&mut self, pending: Pending)
        requires room { 1 ≤ self.old.spare }
        requires name { pending.op ≡ named self.old.proxy self.old.incarnation pending.op.number }
        requires later { All (λ earlier. earlier.op.number < pending.op.number) self.old.list }
        ensures proxy { self.new.proxy ≡ self.old.proxy }
        ensures incarnation { self.new.incarnation ≡ self.old.incarnation }
        ensures list { self.new.list ≡ self.old.list ++ pending ∷ [] }
    {
        let op = pending.op();
        self.numbers.push_back_reserved(op.number);
        let _ = self.pendings.insert(op, pending);
    }

    /// Hands a reply to the request of its leg, which stays under way, and says whether no leg of it is left that may answer. A reply
    /// that no leg awaits comes back, and nothing changes.
    #[inline(always)]
    fn note(&mut self, id: LegId, reply: LegReply) -> Result<bool, LegReply>
        ensures noted { result ≡ noted_as reply (noted_in self.old.list id reply) }
        ensures proxy { self.new.proxy ≡ self.old.proxy }
        ensures incarnation { self.new.incarnation ≡ self.old.incarnation }
        ensures list { self.new.list ≡ list_noted self.old.list id reply }
    {
        match self.pendings.get_mut(&id.op) {
            Some(pending) => pending.take(id.place, reply),
            None => Err(reply),
        }
    }

    /// Hands a reply to the request of its leg, which leaves with its last one. A reply that no leg awaits comes back, and nothing
    /// changes. The last one costs as a removal does, any other as much whatever the number of requests.
    #[inline(always)]
    pub(crate) fn take(&mut self, id: LegId, reply: LegReply) -> Result<Option<Pending>, LegReply>
        ensures settled { result ≡ settled_as reply (noted_in self.old.list id reply) }
        ensures proxy { self.new.proxy ≡ self.old.proxy }
        ensures incarnation { self.new.incarnation ≡ self.old.incarnation }
        ensures list { self.new.list ≡ list_settled self.old.list id reply }
    {
        if self.note(id, reply)? {
            Ok(self.remove(id.op))
        } else {
            Ok(None)
        }
    }

    /// Takes a request out. Its number is searched by halves, and the numbers on the shorter side of it move by one place:
    /// none where it was issued first or last.
    #[inline(always)]
    pub(crate) fn remove(&mut self, op: OpId) -> Option<Pending>
        ensures value { result ≡ pending_with self.old.list op }
        ensures proxy { self.new.proxy ≡ self.old.proxy }
        ensures incarnation { self.new.incarnation ≡ self.old.incarnation }
        ensures list { self.new.list ≡ remove self.old.list (place_of_op self.old.list op) }
    {
        let pending = self.pendings.remove(&op)?;
        let Ok(place) = self.numbers.binary_search(&op.number) else {
            unreachable!()
        };
        let _ = self.numbers.remove(place);
        Some(pending)
    }

    /// Drops all requests and begins the next incarnation.
    pub(crate) fn restart(&mut self)
        requires { self.old.incarnation ≢ 2 ^ 64 - 1 }
        ensures proxy { self.new.proxy ≡ self.old.proxy }
        ensures incarnation { self.new.incarnation ≡ self.old.incarnation + 1 }
        ensures list { self.new.list ≡ [] }
    {
        self.incarnation += 1;
        self.numbers.clear();
        self.pendings.clear();
    }
}
