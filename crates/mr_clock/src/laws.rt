//! What the greatest difference and the lowering of readings say of the ticks that made them.
ghost use Rattle.std.specs.Prelude.{◌≡◌, ◌↔◌, ℕ, ◌≤◌, false, fold, List};
ghost use Rattle.mr_clock.specs.Readings.{ReadingsView, Tick, AreWithin, spread_of, readings_after};
ghost use Rattle.mr_clock.specs.Clocks.{NeverGoesBack, StayWithin};

/// The greatest difference is at most this exactly where no two readings differ by more.
pub fn spread_is_least()
    ensures { (most : ℕ) (readings : List ℕ) → (spread_of readings ≤ most) ↔ AreWithin most readings }
{}

/// After ticks no reading was ever lowered exactly where none was before, and no tick lowered one.
pub fn lowering_is_told()
    ensures { (view : ReadingsView) (ticks : List Tick)
        → ((fold readings_after view ticks).went_back ≡ false) ↔ ((view.went_back ≡ false) × NeverGoesBack view.standing ticks) }
{}

/// After ticks the greatest difference is at most this exactly where it was before, and the ticks kept it.
pub fn spread_is_told()
    ensures { (most : ℕ) (view : ReadingsView) (ticks : List Tick) → AreWithin view.spread view.standing
        → ((fold readings_after view ticks).spread ≤ most) ↔ ((view.spread ≤ most) × StayWithin most view.standing ticks) }
{}
