//! What is known of percentiles and of the table.
ghost use Rattle.std.specs.Prelude.{◌≡◌, ℕ, ◌+◌, ◌*◌, ◌<◌, ◌≤◌, List, Some, None, length, sum};
ghost use Rattle.mr_sightings.specs.Laws.{answers_before, HasRoom};
ghost use Rattle.mr_sightings.specs.Percentile.{percentile_of};
ghost use Rattle.mr_sightings.specs.Table.{table_head, row_text};
ghost use Rattle.mr_sightings.specs.declared.table.Row.{Row};

/// So many percent of all answers at least lie in the bucket that is told or before it, and fewer lie before it.
pub fn percentile_is_reached()
    ensures reached { (percent place : ℕ) (counts : List ℕ) → percentile_of percent counts ≡ Some place
        → sum counts * percent ≤ 100 * answers_before (place + 1) counts }
    ensures first { (percent place : ℕ) (counts : List ℕ) → 0 < percent → percentile_of percent counts ≡ Some place
        → 100 * answers_before place counts < sum counts * percent }
{}

/// Where no bucket is told there was no answer.
pub fn answers_have_percentiles()
    ensures { (percent : ℕ) (counts : List ℕ) → percent ≤ 100 → percentile_of percent counts ≡ None → sum counts ≡ 0 }
{}

/// A line of the table has 78 columns and its end, where the numbers fit.
pub fn tables_are_narrow()
    ensures head { length table_head ≡ 79 }
    ensures row { (row : Row) → HasRoom row → length (row_text row) ≡ 79 }
{}
