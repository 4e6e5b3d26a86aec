//! What is known of findings and of spreads.
ghost use Rattle.std.specs.Prelude.{◌≡◌, ◌*◌, ◌<◌, ◌≤◌, ◌++◌, ◌∷◌, ℕ, List, All};
ghost use Rattle.mr_phases.specs.Schedule.{Hop};
ghost use Rattle.mr_watch.specs.Judging.{findings_after};
ghost use Rattle.mr_watch.specs.Laws.{StaysBroken, TellsOnly, AreWithin, greatest_distance};
ghost use Rattle.mr_watch.specs.Premises.{same_after};
ghost use Rattle.mr_watch.specs.Spread.{apart_at_least, apart_at_most, greatest_of_pairs, near_after, spread_in};
ghost use Rattle.mr_watch.specs.declared.finding.Finding.{Finding};
ghost use Rattle.mr_watch.specs.declared.finding.Findings.{Findings};
ghost use Rattle.mr_watch.specs.declared.look.Look.{Look};
ghost use Rattle.mr_watch.specs.declared.look.ProxySeen.{ProxySeen};
ghost use Rattle.mr_watch.specs.declared.spread.Ahead.{Ahead};

/// A premise that was seen broken stays broken, whatever later looks show.
pub fn broken_stays_broken()
    ensures { (before : Findings) (earlier : List ProxySeen) (look : Look) (expected : List ℕ) (hops : List Hop)
        → StaysBroken before (findings_after before earlier look expected hops) }
{}

/// Where all proxies are found to have one configuration after a look, each that answered told the watcher's digest.
pub fn same_is_the_watchers()
    ensures { (before : Finding) (expected : List ℕ) (proxies : List ProxySeen)
        → same_after before expected proxies ≡ Finding.Holds → All (TellsOnly expected) proxies }
{}

/// Where each clock is ahead by what stands within its bounds, the two that are furthest apart are so at least as far as is told.
pub fn no_closer_than_told()
    ensures { (aheads : List Ahead) (clocks : List ℕ) → AreWithin aheads clocks
        → greatest_of_pairs apart_at_least aheads ≤ greatest_distance clocks }
{}

/// And they are no further apart than is told.
pub fn no_further_than_told()
    ensures { (aheads : List Ahead) (clocks : List ℕ) → AreWithin aheads clocks
        → greatest_distance clocks ≤ greatest_of_pairs apart_at_most aheads }
{}

/// Where clocks are found near by one look alone, no two differ by more than the interval, wherever each is within its bounds.
pub fn near_is_near()
    ensures { (interval : ℕ) (aheads : List Ahead) (clocks : List ℕ) → AreWithin aheads clocks
        → near_after Finding.Unseen interval (spread_in aheads) ≡ Finding.Holds → greatest_distance clocks ≤ interval * 1000 }
{}

/// And where they are found too far apart, two of them are.
pub fn far_is_far()
    ensures { (interval : ℕ) (aheads : List Ahead) (clocks : List ℕ) → AreWithin aheads clocks
        → near_after Finding.Unseen interval (spread_in aheads) ≡ Finding.Broken → interval * 1000 < greatest_distance clocks }
{}

/// A spread is the same wherever in the order a clock stands, so it doesn't depend on the order.
pub fn order_is_nothing()
    ensures least { (front back : List Ahead) (one : Ahead)
        → greatest_of_pairs apart_at_least (front ++ one ∷ back) ≡ greatest_of_pairs apart_at_least (one ∷ (front ++ back)) }
    ensures most { (front back : List Ahead) (one : Ahead)
        → greatest_of_pairs apart_at_most (front ++ one ∷ back) ≡ greatest_of_pairs apart_at_most (one ∷ (front ++ back)) }
{}
