//! The legs of a request, made before the proxy changes.
ghost use Rattle.std.specs.Prelude.{◌≡◌, ◌≢◌, ◌+◌, ◌<◌, ◌^◌, [], ◌∷◌, ◌++◌, length, map, IfOk, OnOk};
ghost use Rattle.mr_phases.specs.Sides.{sides_in};
ghost use Rattle.mr_node.specs.declared.command.NodeCommand.TheVariants.{Get, Set, Delete};
ghost use Rattle.mr_proxy.specs.Slots.{open_slot};
ghost use Rattle.mr_proxy.specs.Sound.{HasLegs};
ghost use Rattle.mr_phases.specs.Schedule.{hop_of};
ghost use Rattle.mr_proxy.specs.Sheets.{sheet_at, sheets_from, sheets_by, targets_of, HasHop, HaveAsManyHops};

use crate::leg::Leg;
use crate::leg_count::legs_of;
use crate::lists::Lists;
use crate::sheet::{LegId, LegSheet};
use crate::slot::Slot;
use mr_history::OpId;
use mr_node::NodeCommand;
use mr_phases::{RequestKind, Schedule, Side, judge};
use mr_pools::Routing;
use mr_text::{Block, Key, Request};
use std::alloc::AllocError;
use std::marker::Model;

/// What the node is told for a set.
#[inline(always)]
fn set_command(
    key: &Key,
    flags: u32,
    exptime: i64,
    block: &Block,
) -> Result<NodeCommand, AllocError>
    ensures { IfOk result (λ command. command ≡ Set key.now flags exptime block.now) }
{
    Ok(NodeCommand::Set {
        key: key.copy()?,
        flags,
        exptime,
        block: block.copy()?,
    })
}

/// The legs of a request, each beside the slot in which its reply will be noted.
#[derive(Drop)]
pub(crate) struct LegsDraft {
    slots: Vec<Slot>,
    legs: Vec<Leg>,
}

impl Model for LegsDraft {
    ghost use Rattle.std.specs.Prelude.{◌≡◌, map};
    ghost use Rattle.mr_proxy.specs.Slots.{open_slot};
    ghost use Rattle.std.specs.Prelude.{List};
    ghost use Rattle.mr_proxy.specs.declared.sheet.LegSheet.{LegSheet};

    ghost Value = { List LegSheet };

    ghost view = { λ d. d.legs.items };

    ghost invariant = { λ d. d.slots.items ≡ map open_slot d.legs.items };
}

impl LegsDraft {
    /// No legs yet, and room for so many.
    #[inline(always)]
    fn new(lists: &mut Lists, count: usize) -> Result<LegsDraft, AllocError>
        ensures { IfOk result (λ draft. draft ≡ []) }
    {
        let mut slots = lists.take_slots();
        let mut legs = lists.take_legs();
        slots.clear();
        legs.clear();
        slots.reserve_exact(count)?;
        legs.reserve_exact(count)?;
        Ok(LegsDraft { slots, legs })
    }

    /// Adds the next leg. The slot's sheet and the leg's are two, since the leg travels.
    #[inline(always)]
    fn add(
        &mut self,
        routing: &Routing,
        hop: u32,
        op: OpId,
        side: Side,
        command: NodeCommand,
    ) -> Result<(), AllocError>
        requires room { length self.old < 2 ^ 32 }
        requires hop { HasHop routing.now hop }
        ensures { OnOk result (self.new ≡ self.old
            ++ sheet_at routing.now hop op (length self.old) (record { side = side; command = command }) ∷ []) }
    {
        self.legs.reserve(1)?;
        self.slots.reserve(1)?;
        let place = self.legs.len() as u32;
        let sheet = LegSheet::for_leg(routing, hop, LegId { op, place }, side, command);
        let leg = Leg::of(sheet.copy()?);
        self.legs.push_reserved(leg);
        self.slots.push_reserved(Slot::open(sheet));
        Ok(())
    }

    /// A get's legs, in an empty draft: one for each key.
    #[tactic(auto, using(crate::proofs::DraftLemmas::get_count))]
    fn of_gets(
        mut draft: LegsDraft,
        routing: &Routing,
        hop: u32,
        op: OpId,
        side: Side,
        keys: &[Key],
    ) -> Result<LegsDraft, AllocError>
        requires empty { draft ≡ [] }
        requires room { length keys.now < 2 ^ 32 }
        requires hop { HasHop routing.now hop }
        ensures { IfOk result
            (λ draft. draft ≡ sheets_from routing.now hop op 0 (targets_of (side ∷ []) (map Get keys.now))) }
    {
        for key in keys {
            draft.add(routing, hop, op, side, NodeCommand::Get(key.copy()?))?;
        }
        Ok(draft)
    }

    /// The one leg of a command that goes to one side, in an empty draft.
    #[inline(always)]
    fn of_one(
        mut draft: LegsDraft,
        routing: &Routing,
        hop: u32,
        op: OpId,
        side: Side,
        command: NodeCommand,
    ) -> Result<LegsDraft, AllocError>
        requires empty { draft ≡ [] }
        requires hop { HasHop routing.now hop }
        ensures { IfOk result (λ draft. draft ≡ sheets_from routing.now hop op 0 (targets_of (side ∷ []) (command ∷ []))) }
    {
        draft.add(routing, hop, op, side, command)?;
        Ok(draft)
    }

    /// A delete's legs, in an empty draft: one for each side.
    #[tactic(auto, using(crate::proofs::DraftLemmas::delete_count))]
    fn of_deletes(
        mut draft: LegsDraft,
        routing: &Routing,
        hop: u32,
        op: OpId,
        sides: &[Side],
        key: &Key,
    ) -> Result<LegsDraft, AllocError>
        requires empty { draft ≡ [] }
        requires room { length sides.now < 2 ^ 32 }
        requires hop { HasHop routing.now hop }
        ensures { IfOk result
            (λ draft. draft ≡ sheets_from routing.now hop op 0 (targets_of sides.now (Delete key.now ∷ []))) }
    {
        for side in sides {
            draft.add(routing, hop, op, *side, NodeCommand::Delete(key.copy()?))?;
        }
        Ok(draft)
    }

    /// The legs of a request that is judged by this reading.
    #[tactic(auto, using(crate::proofs::DraftLemmas::few_keys))]
    pub(crate) fn of(
        lists: &mut Lists,
        routing: &Routing,
        schedule: Schedule,
        op: OpId,
        reading: u64,
        request: &Request,
    ) -> Result<LegsDraft, AllocError>
        requires { HaveAsManyHops routing.now schedule }
        ensures sheets { IfOk result (λ draft. draft ≡ sheets_by routing.now schedule op reading request.now) }
        ensures hop { HasHop routing.now (hop_of schedule reading) }
        ensures legs { OnOk result (request.now ≢ Request.Quit → HasLegs request.now) }
    {
        let judged = judge(schedule, reading);
        let hop = judged.hop();
        let sides = judged.sides(RequestKind::Delete);
        let draft = LegsDraft::new(lists, legs_of(request, sides.count()))?;
        match request {
            Request::Get { keys } => {
                LegsDraft::of_gets(draft, routing, hop, op, judged.read_side(), keys.as_slice())
            }
            Request::Set {
                key,
                flags,
                exptime,
                block,
                noreply: _,
            } => {
                let command = set_command(key, *flags, *exptime, block)?;
                LegsDraft::of_one(draft, routing, hop, op, judged.read_side(), command)
            }
            Request::Delete { key, noreply: _ } => {
                LegsDraft::of_deletes(draft, routing, hop, op, sides.as_slice(), key)
            }
            Request::Quit => Ok(draft),
        }
    }

    /// The slots, and the legs.
    #[inline(always)]
    pub(crate) fn into_parts(self) -> (Vec<Slot>, Vec<Leg>)
        ensures slots { result.0.items ≡ map open_slot self }
        ensures legs { result.1.items ≡ self }
    {
        (self.slots, self.legs)
    }
}
