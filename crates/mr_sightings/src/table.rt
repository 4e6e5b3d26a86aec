//! What was counted in each phase.
ghost use Rattle.std.specs.Prelude.{◌≡◌, ◌+◌, ◌++◌, ◌<◌, [], position, length, decimal, OnOk, OnErr, IfOk};
ghost use Rattle.mr_phases.specs.PhaseText.{phase_text};
ghost use Rattle.mr_sightings.specs.Table.{is_same_phase, is_of, with_tally, with_more, percent_text, rate_text, slowest_cell, table_head, times_cells, place_cells, gets_cells, row_text, rows_text, table_text};
ghost use Rattle.mr_sightings.specs.Percentile.{bound_said, percentile_of};
ghost use Rattle.mr_sightings.specs.Shown.{right};

use crate::percentile::{bound_said, percentile_of, slowest_of};
use crate::shown::{push_left, push_millis, push_right};
use crate::tally::Tally;
use itoa::Buffer;
use mr_phases::PhaseName;
use std::alloc::{AllocError, Global};
use std::marker::Model;

/// What was counted in a phase.
#[derive(Clone, Copy, Debug, PartialEq, Eq)]
pub struct Row {
    /// The migration in force, counted from 0.
    pub hop: u32,
    /// The phase in force.
    pub phase: PhaseName,
    /// What was counted.
    pub tally: Tally,
}

/// Whether both are the same phase.
fn is_same_phase(one: PhaseName, other: PhaseName) -> bool
    ensures { result ≡ is_same_phase one other }
{
    one == other
}

impl Row {
    /// Whether it is of this migration and phase.
    fn is_of(&self, hop: u32, phase: PhaseName) -> bool
        ensures { result ≡ is_of hop phase self.now }
    {
        self.hop == hop && is_same_phase(self.phase, phase)
    }
}

/// What was counted in each phase, in the order in which they came.
#[derive(Drop)]
pub struct Table {
    rows: Vec<Row>,
}

impl Model for Table {
    ghost use Rattle.std.specs.Prelude.{List};
    ghost use Rattle.mr_sightings.specs.declared.table.Row.{Row};

    ghost Value = { List Row };

    ghost view = { λ table. table.rows.items };
}

/// The first of these rows that is of this migration and phase.
fn place_of(rows: &[Row], hop: u32, phase: PhaseName) -> Option<usize>
    ensures { result ≡ position (is_of hop phase) rows.now }
{
    rows.iter().position(|row| row.is_of(hop, phase))
}

/// Adds to one of these rows.
fn add_at(rows: &mut [Row], place: usize, tally: &Tally)
    requires { place < length rows.old }
    ensures { rows.new ≡ with_more place tally.now rows.old }
{
    let mut row = rows[place];
    row.tally.plus(tally);
    rows[place] = row;
}

impl Table {
    /// No row.
    pub fn new(alloc: Global) -> Table
        ensures { result ≡ [] }
    {
        Table {
            rows: Vec::new(alloc),
        }
    }

    /// The rows, in the order in which their phases came.
    pub fn rows(&self) -> &[Row]
        ensures { result.now ≡ self.now }
    {
        self.rows.as_slice()
    }

    /// Adds what was counted in a phase: to its row, or in a new one.
    pub fn add(&mut self, hop: u32, phase: PhaseName, tally: &Tally) -> Result<(), AllocError>
        ensures ok { OnOk result (self.new ≡ with_tally hop phase tally.now self.old) }
        ensures err { OnErr result (self.new ≡ self.old) }
    {
        match place_of(self.rows.as_slice(), hop, phase) {
            Some(place) => {
                add_at(&mut self.rows, place, tally);
                Ok(())
            }
            None => {
                self.rows.push(Row {
                    hop,
                    phase,
                    tally: *tally,
                })?;
                Ok(())
            }
        }
    }
}

/// Adds of how many gets how many found a value, in percent.
#[tactic(auto, unfolding(crate::specs::Table::percent_text))]
fn push_percent(text: &mut Vec<u8>, hits: u64, gets: u128) -> Result<(), AllocError>
    requires { 0 < gets }
    ensures { OnOk result (text.new.items ≡ text.old.items ++ percent_text hits gets) }
{
    let tenths = u128::from(hits) * 1000 / gets;
    let mut buffer = Buffer::new();
    text.extend_from_slice(buffer.format(tenths / 10).as_bytes())?;
    text.extend_from_slice(b".")?;
    text.extend_from_slice(buffer.format(tenths % 10).as_bytes())?;
    Ok(())
}

/// How many gets found a value, in percent.
fn rate_text(alloc: Global, hits: u64, misses: u64) -> Result<Vec<u8>, AllocError>
    ensures { IfOk result (λ text. text.items ≡ rate_text hits misses) }
{
    let gets = u128::from(hits) + u128::from(misses);
    let mut text = Vec::new(alloc);
    if gets == 0 {
        text.extend_from_slice(b"-")?;
    } else {
        push_percent(&mut text, hits, gets)?;
    }
    Ok(text)
}

/// How long the slowest answer took, in milliseconds.
fn slowest_cell(alloc: Global, slowest: Option<u64>) -> Result<Vec<u8>, AllocError>
    ensures { IfOk result (λ text. text.items ≡ slowest_cell slowest) }
{
    let mut text = Vec::new(alloc);
    match slowest {
        Some(micros) => push_millis(&mut text, micros)?,
        None => text.extend_from_slice(b"-")?,
    }
    Ok(text)
}

/// Adds a number at the right of so many columns.
fn push_count(text: &mut Vec<u8>, columns: usize, count: u64) -> Result<(), AllocError>
    ensures { OnOk result (text.new.items ≡ text.old.items ++ right columns (decimal count)) }
{
    let mut buffer = Buffer::new();
    push_right(text, columns, buffer.format(count).as_bytes())
}

/// Adds how long answers took.
#[tactic(auto, unfolding(crate::specs::Table::times_cells))]
fn push_times(alloc: Global, text: &mut Vec<u8>, tally: &Tally) -> Result<(), AllocError>
    ensures { OnOk result (text.new.items ≡ text.old.items ++ times_cells tally.now) }
{
    let median = percentile_of(&tally.times, 50);
    let slowest = slowest_cell(alloc, slowest_of(median, tally.greatest))?;
    push_right(text, 9, bound_said(median).as_bytes())?;
    text.extend_from_slice(b"  ")?;
    push_right(
        text,
        9,
        bound_said(percentile_of(&tally.times, 99)).as_bytes(),
    )?;
    text.extend_from_slice(b"  ")?;
    push_right(text, 12, slowest.as_slice())?;
    Ok(())
}

/// Adds of which phase a row is.
#[tactic(auto, unfolding(crate::specs::Table::place_cells))]
fn push_place(text: &mut Vec<u8>, row: &Row) -> Result<(), AllocError>
    ensures { OnOk result (text.new.items ≡ text.old.items ++ place_cells row.now) }
{
    push_count(text, 4, u64::from(row.hop))?;
    text.extend_from_slice(b"  ")?;
    push_left(text, 13, row.phase.as_str().as_bytes())?;
    text.extend_from_slice(b"  ")?;
    Ok(())
}

/// Adds how many requests there were, and what gets found.
#[tactic(auto, unfolding(crate::specs::Table::gets_cells))]
fn push_gets(alloc: Global, text: &mut Vec<u8>, tally: &Tally) -> Result<(), AllocError>
    ensures { OnOk result (text.new.items ≡ text.old.items ++ gets_cells tally.now) }
{
    let rate = rate_text(alloc, tally.hits, tally.misses)?;
    push_count(text, 12, tally.requests)?;
    text.extend_from_slice(b"  ")?;
    push_right(text, 7, rate.as_slice())?;
    text.extend_from_slice(b"  ")?;
    Ok(())
}

/// Adds the row of a phase.
#[tactic(auto, unfolding(crate::specs::Table::row_text))]
fn push_row(alloc: Global, text: &mut Vec<u8>, row: &Row) -> Result<(), AllocError>
    ensures { OnOk result (text.new.items ≡ text.old.items ++ row_text row.now) }
{
    push_place(text, row)?;
    push_gets(alloc, text, &row.tally)?;
    push_times(alloc, text, &row.tally)?;
    text.extend_from_slice(b"\n")?;
    Ok(())
}

/// Adds the rows.
fn push_rows(alloc: Global, text: &mut Vec<u8>, rows: &[Row]) -> Result<(), AllocError>
    ensures { OnOk result (text.new.items ≡ text.old.items ++ rows_text rows.now) }
{
    for row in rows {
        push_row(alloc, text, row)?;
    }
    Ok(())
}

/// Adds what stands above the rows.
#[tactic(auto, unfolding(crate::specs::Table::table_head))]
fn push_head(text: &mut Vec<u8>) -> Result<(), AllocError>
    ensures { OnOk result (text.new.items ≡ text.old.items ++ table_head) }
{
    text.extend_from_slice(
        b" hop  phase              requests   hits %     p50 ms     p99 ms        max ms\n",
    )?;
    Ok(())
}

/// What was counted in each phase, as a table of at most 80 columns where no number is too long for its own: a line above, and one for
/// each phase.
pub fn table_text(alloc: Global, table: &Table) -> Result<Vec<u8>, AllocError>
    ensures { IfOk result (λ text. text.items ≡ table_text table.now) }
{
    let mut text = Vec::new(alloc);
    push_head(&mut text)?;
    push_rows(alloc, &mut text, table.rows())?;
    Ok(text)
}
