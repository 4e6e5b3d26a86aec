//! What holds of a fleet, whatever happens.
ghost use Rattle.std.specs.Prelude.{◌↔◌, List, All};
ghost use Rattle.mr_proxy.specs.Sound.{IsSound};
ghost use Rattle.mr_world.specs.declared.event.Event.{Event};
ghost use Rattle.mr_world.specs.declared.note.Note.{Note};
ghost use Rattle.mr_world.specs.Facts.{Facts, IsFaithfulWorld};
ghost use Rattle.mr_world.specs.Grounded.{StaysSecured};
ghost use Rattle.mr_world.specs.Headline.{AllHold, StandsOnGround, IsPlan, PremisesHold};
ghost use Rattle.mr_world.specs.Premises.{premises_of, PremisesAtFirst, PremisesAfter};
ghost use Rattle.mr_world.specs.Setup.{SetupView, Begins};
ghost use Rattle.mr_world.specs.Steps.{WorldStep, WorldRun};
ghost use Rattle.mr_world.specs.Tracked.{IsTracked};
ghost use Rattle.mr_world.specs.WorldView.{WorldView};

use mr_clock::laws::{lowering_is_told, spread_is_least, spread_is_told};
use mr_history::laws::{fitting_entry_keeps_form, fresh_grows, safe_grows};
use mr_node::laws::recency_step_is_cache_step;
use mr_phases::laws::{
    deletes_stay_before_start, deletes_up, hop_within, overlap, read_up, reads_stay_before_middle,
};
use mr_pools::laws::names_stand_once;
use mr_proxy::laws::{
    acknowledged_by_legs, delete_goes, given_out_for_good, given_up_early, issue_gives_next_op,
    items_were_found, last_reply_answers, next_op_is_new, pools_by_reading, sheets_say,
    steps_keep_sound,
};

/// Each step keeps a fleet in order: names are given out once, messages go to nodes that are there, and what the
/// history gains fits.
pub fn steps_keep_tracked()
    ensures { (old new : WorldView) (event : Event) (note : Note)
        → IsTracked old → WorldStep old event note new → IsTracked new }
{
    spread_is_least();
    steps_keep_sound();
    next_op_is_new();
    issue_gives_next_op();
    given_out_for_good();
    sheets_say();
    hop_within();
    fitting_entry_keeps_form();
}

/// Each step keeps what every fleet shows, and what that rests on.
pub fn steps_keep_faithful()
    ensures { (old new : WorldView) (event : Event) (note : Note) → IsTracked old → IsTracked new
        → IsFaithfulWorld old → WorldStep old event note new → IsFaithfulWorld new }
{
    sheets_say();
    last_reply_answers();
    given_up_early();
    acknowledged_by_legs();
    items_were_found();
}

/// After every run of a fleet in order each acknowledged delete was performed on the side of each of its legs, what
/// was stored was set and what was removed was deleted, and each item of an answer came back from a node.
pub fn runs_show_facts()
    ensures { (old new : WorldView) (events : List Event) → IsTracked old
        → IsFaithfulWorld old → WorldRun old events new → Facts new }
{
    steps_keep_tracked();
    steps_keep_faithful();
}

/// A fleet shows all that at the beginning.
pub fn setups_begin_faithful()
    ensures { (setup : SetupView) (world : WorldView) → Begins setup world → IsFaithfulWorld world }
{}

/// A fleet whose proxies are sound is in order at the beginning.
pub fn setups_begin_tracked()
    ensures { (setup : SetupView) (world : WorldView) → Begins setup world
        → All IsSound world.proxies → IsTracked world }
{
    spread_is_least();
}

/// The premises of a fleet at the beginning are those of its setup.
pub fn setups_tell_premises()
    ensures { (setup : SetupView) (world : WorldView) → Begins setup world → PremisesAtFirst setup (premises_of world) }
{
    spread_is_least();
}

/// The premises after a run are those before it, as far as its events keep them.
pub fn runs_tell_premises()
    ensures { (old new : WorldView) (events : List Event) → IsTracked old
        → WorldRun old events new → PremisesAfter old events (premises_of new) }
{
    spread_is_least();
    lowering_is_told();
    spread_is_told();
}

/// All premises that a fleet tells after a run hold exactly where those of its setup and of the run's events do.
pub fn runs_decide_premises()
    ensures { (setup : SetupView) (first last : WorldView) (events : List Event)
        → Begins setup first → WorldRun first events last
        → AllHold (premises_of last) ↔ PremisesHold setup events }
{
    spread_is_least();
    lowering_is_told();
    spread_is_told();
    setups_tell_premises();
}

/// As long as the premises hold each step keeps what acknowledged deletes rest on.
pub fn steps_keep_secured()
    ensures { (old new : WorldView) (event : Event) (note : Note) → IsTracked old
        → IsTracked new → IsFaithfulWorld old → IsFaithfulWorld new
        → StaysSecured old → WorldStep old event note new → StaysSecured new }
{
    runs_tell_premises();
    sheets_say();
    pools_by_reading();
    delete_goes();
    hop_within();
    overlap();
    read_up();
    deletes_up();
    recency_step_is_cache_step();
    names_stand_once();
    fresh_grows();
    safe_grows();
}

/// So does every run.
pub fn runs_keep_secured()
    ensures { (old new : WorldView) (events : List Event) → IsTracked old
        → IsFaithfulWorld old → StaysSecured old → WorldRun old events new → StaysSecured new }
{
    steps_keep_tracked();
    steps_keep_faithful();
    steps_keep_secured();
}

/// So a fleet shows each of the facts that the headline rests on, as long as the premises hold.
pub fn secured_fleets_show_ground()
    ensures { (world : WorldView) → StaysSecured world → StandsOnGround world }
{
    deletes_stay_before_start();
    reads_stay_before_middle();
}

/// A fleet stands on that at the beginning.
pub fn setups_begin_secured()
    ensures { (setup : SetupView) (world : WorldView) → Begins setup world
        → All (λ proxy. IsPlan proxy.routing proxy.schedule) world.proxies → StaysSecured world }
{
    recency_step_is_cache_step();
}
