//! What is told of a refusal.
ghost use Rattle.std.specs.Prelude.{◌≡◌, option_map, find, map};
ghost use Rattle.mr_words.specs.Explain.{told_by, told_in, is_of, lower_table, upper_table, explanation_of, IsComplete};

use crate::explanations::{LOWER_ROWS, Row, UPPER_ROWS};

/// What is told of a refusal.
#[derive(Clone, Copy, Debug)]
pub struct Explanation<'a> {
    /// The layer that refuses.
    pub layer: &'a str,
    /// The refusal's number in its layer.
    pub number: u64,
    /// The refusal's name.
    pub name: &'a str,
    /// What it means, and what to look at first.
    pub meaning: &'a str,
}

/// The rows of the lower layers.
#[tactic(auto, unfolding(crate::specs::Explain::lower_table))]
fn lower_rows() -> &'static [Row<'static>]
    ensures { map told_in result.now ≡ lower_table }
{
    &LOWER_ROWS
}

/// The rows of the upper layers.
#[tactic(auto, unfolding(crate::specs::Explain::upper_table))]
fn upper_rows() -> &'static [Row<'static>]
    ensures { map told_in result.now ≡ upper_table }
{
    &UPPER_ROWS
}

/// The first row of a refusal, by its layer and its number.
fn find_row<'a>(rows: &'a [Row<'a>], layer: &str, number: u64) -> Option<&'a Row<'a>>
    ensures { option_map (λ row. row.now) result ≡ find (λ row. is_of layer.now number (told_in row)) rows.now }
{
    rows.iter().find(|row| row.1 == number && row.0 == layer)
}

/// What the rows tell of a refusal.
fn told_among(
    rows: &'static [Row<'static>],
    layer: &str,
    number: u64,
) -> Option<Explanation<'static>>
    ensures { option_map told_by result ≡ find (is_of layer.now number) (map told_in rows.now) }
{
    match find_row(rows, layer, number) {
        Some(row) => Some(Explanation {
            layer: row.0,
            number: row.1,
            name: row.2,
            meaning: row.3,
        }),
        None => None,
    }
}

/// What is told of a refusal, by its layer and its number, where the layer has one of that number.
#[tactic(auto, using(crate::proofs::TableLemmas::table_complete))]
pub fn find_explanation(layer: &str, number: u64) -> Option<Explanation<'static>>
    ensures found { option_map told_by result ≡ explanation_of layer.now number }

    // Each refusal of each layer is told of, and nothing else.
    ensures complete { IsComplete explanation_of }
{
    match told_among(lower_rows(), layer, number) {
        Some(found) => Some(found),
        None => told_among(upper_rows(), layer, number),
    }
}
