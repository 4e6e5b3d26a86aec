//! The laws by which a fleet whose clocks differ by at most the least interval keeps its deletes. They hold of
//! every chain of migrations, and speak of pools, numbered from 0 in the order of the migrations.
ghost use Rattle.std.specs.Prelude.{◌≡◌, ℕ, ◌+◌, ◌<◌, ◌≤◌, ◌↔◌, List, length, Some, slice_get, Contains};
ghost use Rattle.mr_phases.specs.declared.phase_name.PhaseName.{PhaseName};
ghost use Rattle.mr_phases.specs.Schedule.{Hop, most_hops, phase_in, StandsIn, hop_of, phase_of, IsChain, least_interval};
ghost use Rattle.mr_phases.specs.InForce.{StandsAt};
ghost use Rattle.mr_phases.specs.Pools.{read_pool, delete_pools, SomeFrom};

use crate::schedule::MAX_HOPS;

/// The public limit is that of the definitions.
pub fn limits()
    ensures { MAX_HOPS ≡ most_hops }
{}

/// The pool that one clock reads is among those that another clock deletes from.
pub fn overlap()
    ensures { (hops : List Hop) (t u : ℕ) → IsChain hops
        → t ≤ u + least_interval hops → u ≤ t + least_interval hops
        → Contains (delete_pools hops u) (read_pool hops t) }
{}

/// The pool of gets and sets never falls as time goes on.
pub fn read_up()
    ensures { (hops : List Hop) (t u : ℕ) → IsChain hops → t ≤ u
        → read_pool hops t ≤ read_pool hops u }
{}

/// The highest pool of deletes never falls as time goes on.
pub fn deletes_up()
    ensures { (hops : List Hop) (t u pool : ℕ) → IsChain hops → t ≤ u
        → Contains (delete_pools hops t) pool → SomeFrom (delete_pools hops u) pool }
{}

/// Of one migration, a reading is in the phase in whose range it stands, and in no other.
pub fn phase_ranges()
    ensures { (h : Hop) (t : ℕ) (phase : PhaseName) → (phase_in h t ≡ phase) ↔ StandsIn phase h t }
{}

/// Of several migrations the last whose start is reached is in force, or the first where none is; a reading is in
/// the phase of that one in whose range it stands, and in no other.
pub fn phase_in_force()
    ensures { (hops : List Hop) (t number : ℕ) (phase : PhaseName) → IsChain hops → 0 < length hops
        → ((hop_of hops t ≡ number) × (phase_of hops t ≡ phase)) ↔ StandsAt hops t number phase }
{}

/// Before a migration's start no delete goes to its new pool or to one after that.
pub fn deletes_stay_before_start()
    ensures { (hops : List Hop) (t number pool : ℕ) (hop : Hop) → IsChain hops → slice_get hops number ≡ Some hop
        → t < hop.start → Contains (delete_pools hops t) pool → pool ≤ number }
{}

/// Before a migration's middle gets and sets go to its old pool or to one before that.
pub fn reads_stay_before_middle()
    ensures { (hops : List Hop) (t number : ℕ) (hop : Hop) → IsChain hops → slice_get hops number ≡ Some hop
        → t < hop.start + hop.interval → read_pool hops t ≤ number }
{}

/// The migration in force is one of the schedule's.
pub fn hop_within()
    ensures { (hops : List Hop) (t : ℕ) → 0 < length hops → hop_of hops t < length hops }
{}
