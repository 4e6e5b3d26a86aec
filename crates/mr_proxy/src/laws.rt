//! What is known of a proxy's legs, answers and names, whatever steps it made.
ghost use Rattle.std.specs.Prelude.{◌≡◌, ℕ, ◌+◌, ◌≤◌, List, length, Some, All, Contains, slice_get, Bool};
ghost use Rattle.mr_text.specs.declared.item.Item.{Item};
ghost use Rattle.mr_text.specs.declared.request.Request.{Request};
ghost use Rattle.mr_text.specs.declared.request.Request.TheVariants.{Get, Delete};
ghost use Rattle.mr_text.specs.declared.reply.Reply.TheVariants.{Items};
ghost use Rattle.mr_history.specs.declared.op_id.OpId.{OpId};
ghost use Rattle.mr_join.specs.declared.leg_reply.LegReply.{LegReply};
ghost use Rattle.mr_join.specs.Join.{Acknowledges};
ghost use Rattle.mr_phases.specs.Schedule.{Hop, IsSchedule};
ghost use Rattle.mr_phases.specs.Pools.{delete_pools};
ghost use Rattle.mr_pools.specs.Routing.{RoutingView, IsRouting};
ghost use Rattle.mr_proxy.specs.declared.sheet.LegId.{LegId};
ghost use Rattle.mr_proxy.specs.declared.sheet.LegSheet.{LegSheet};
ghost use Rattle.mr_proxy.specs.declared.slot.Slot.{Slot};
ghost use Rattle.mr_proxy.specs.Pending.{PendingView};
ghost use Rattle.mr_proxy.specs.declared.taken.Taken.TheVariants.{Answered};
ghost use Rattle.mr_proxy.specs.Answer.{AnswerView, reply_of};
ghost use Rattle.mr_proxy.specs.ProxyView.{ProxyView, fresh_proxy};
ghost use Rattle.mr_proxy.specs.Issue.{next_op, sheets_of, after_issue};
ghost use Rattle.mr_proxy.specs.Transitions.{open_legs_of, noted_by, taken_of, after_take, given_up_of, after_give_up};
ghost use Rattle.mr_proxy.specs.Sheets.{pool_at, sheets_by, HaveAsManyHops, IsSheetOf, GoesBy, DeletesIn, AsksFor};
ghost use Rattle.mr_proxy.specs.Whole.{IsWholeAnswer};
ghost use Rattle.mr_proxy.specs.Sound.{ProxyStep, IsSound, IsSoundAnswer, WasGivenOut, HasFound, WasDeleted};

use mr_join::laws::{acknowledged_by_all, items_are_hits};

/// The sheet of each place is a command of the request, to a side that the reading gives in the hop in force.
pub fn sheets_say()
    ensures { (routing : RoutingView) (hops : List Hop) (op : OpId)
        (u : ℕ) (request : Request) (place : ℕ) (sheet : LegSheet)
        → slice_get (sheets_by routing hops op u request) place ≡ Some sheet → IsSheetOf routing hops op u request place sheet }
{}

/// The pool of each sheet is one that the reading gives for the sheet's command.
pub fn pools_by_reading()
    ensures { (routing : RoutingView) (hops : List Hop) (op : OpId)
        (u : ℕ) (request : Request) (place : ℕ) (sheet : LegSheet)
        → slice_get (sheets_by routing hops op u request) place ≡ Some sheet → GoesBy hops u (pool_at sheet) sheet.command }
{}

/// A delete has a leg in each pool that its reading deletes from.
pub fn delete_goes()
    ensures { (routing : RoutingView) (hops : List Hop) (op : OpId) (u : ℕ) (key : List ℕ) (noreply : Bool) (pool : ℕ)
        → Contains (delete_pools hops u) pool
        → DeletesIn (sheets_by routing hops op u (Delete key noreply)) op pool key }
{}

/// Each leg of a get asks for the key of its place.
pub fn gets_ask_in_order()
    ensures { (routing : RoutingView) (hops : List Hop) (op : OpId)
        (u : ℕ) (keys : List (List ℕ)) (place : ℕ) (sheet : LegSheet)
        → slice_get (sheets_by routing hops op u (Get keys)) place ≡ Some sheet → AsksFor keys place sheet }
{}

/// A fresh proxy is sound.
pub fn fresh_is_sound()
    ensures { (number incarnation : ℕ) (routing : RoutingView) (hops : List Hop) (room : ℕ)
        → IsRouting routing → IsSchedule hops → HaveAsManyHops routing hops
        → IsSound (fresh_proxy number incarnation routing hops room) }
{}

/// Each step leaves a sound proxy sound: what is noted is of its leg's own kind.
pub fn steps_keep_sound()
    ensures { (old new : ProxyView) → IsSound old → ProxyStep old new → IsSound new }
{}

/// The answer that a last reply brings is sound: each of its legs answered.
pub fn last_reply_answers()
    ensures { (p : ProxyView) (id : LegId) (reply : LegReply) (answer : AnswerView) → IsSound p
        → taken_of p id reply ≡ Answered answer → IsSoundAnswer p answer }
{}

/// The answer to a request that is given up is sound: one of its legs at least didn't answer.
pub fn given_up_early()
    ensures { (p : ProxyView) (op : OpId) (answer : AnswerView) → IsSound p
        → given_up_of p op ≡ Some answer → IsSoundAnswer p answer }
{}

/// Each item of a get's answer is a hit that was noted for a leg of that get and of that key.
pub fn items_were_found()
    ensures { (answer : AnswerView) (items : List Item) → IsWholeAnswer answer
        → reply_of answer ≡ Items items → All (HasFound answer.slots) items }
{
    items_are_hits();
}

/// The answer to a delete is Deleted or NotFound only where each leg's reply is.
pub fn acknowledged_by_legs()
    ensures { (answer : AnswerView) (key : List ℕ) (noreply : Bool) → IsWholeAnswer answer
        → answer.request ≡ Delete key noreply → Acknowledges (reply_of answer) → All WasDeleted answer.slots }
{
    acknowledged_by_all();
}

/// The next op wasn't given out before.
pub fn next_op_is_new()
    ensures { (p : ProxyView) → WasGivenOut p (next_op p) → ⊥ }
{}

/// An issue gives the next op out.
pub fn issue_gives_next_op()
    ensures { (p : ProxyView) (t : ℕ) (request : Request) → WasGivenOut (after_issue p t request) (next_op p) }
{}

/// What was given out stays so: no number and no incarnation comes back.
pub fn given_out_for_good()
    ensures { (old new : ProxyView) (op : OpId) → WasGivenOut old op → ProxyStep old new → WasGivenOut new op }
{}

/// An issue opens the legs that it sends.
pub fn issue_opens()
    ensures { (p : ProxyView) (t : ℕ) (request : Request)
        → open_legs_of (after_issue p t request) ≡ open_legs_of p + length (sheets_of p t request) }
{}

/// A reply that is noted closes one leg.
pub fn take_closes_one()
    ensures { (p : ProxyView) (id : LegId) (reply : LegReply) (noted : PendingView) → noted_by p id reply ≡ Some noted
        → open_legs_of (after_take p id reply) + 1 ≡ open_legs_of p }
{}

/// Giving a request up closes its open legs, of which there is one at least.
pub fn give_up_closes()
    ensures { (p : ProxyView) (op : OpId) (answer : AnswerView) → IsSound p → given_up_of p op ≡ Some answer
        → open_legs_of (after_give_up p op) + 1 ≤ open_legs_of p }
{}
