//! What is drawn below everything else: the lanes in the colours of their phases, and the lines of legs and replies.
ghost use Rattle.std.specs.Prelude.{◌≡◌, ◌++◌, OnOk};
ghost use Rattle.mr_drawing.specs.Under.{lane_height, lane_box, leg_class, back_class, stub_text, under_text};

use crate::elements::{push_box, push_level, push_upright};
use crate::places::{
    Frame, LEFT, across, backs_height, cells, center, down, middle, node_height, plus, times,
};
use crate::shapes::Shape;
use mr_phases::PhaseName;
use std::alloc::AllocError;

/// The height of a lane of so many levels.
pub(crate) fn lane_height(levels: usize) -> usize
    ensures { result ≡ lane_height levels }
{
    times(24, levels).saturating_sub(2)
}

/// Adds a part of a lane, over so many columns and one more.
fn push_lane(
    text: &mut Vec<u8>,
    x: usize,
    more: usize,
    level: usize,
    height: usize,
    phase: PhaseName,
) -> Result<(), AllocError>
    ensures { OnOk result (text.new.items ≡ text.old.items ++ lane_box x more level height phase) }
{
    push_box(
        text,
        phase.as_str(),
        x,
        down(level),
        cells(plus(more, 1)),
        lane_height(height),
    )
}

/// The class of a leg's line.
fn leg_class(again: bool) -> &'static str
    ensures { result.now ≡ leg_class again }
{
    if again { "leg again" } else { "leg" }
}

/// The class of a reply's line.
fn back_class(again: bool) -> &'static str
    ensures { result.now ≡ back_class again }
{
    if again { "back again" } else { "back" }
}

/// Adds the line of a reply that is lost, which ends soon.
fn push_stub(text: &mut Vec<u8>, x: usize, y: usize) -> Result<(), AllocError>
    ensures { OnOk result (text.new.items ≡ text.old.items ++ stub_text x y) }
{
    push_upright(text, "back lost", x, y, y.saturating_sub(14))
}

/// Adds what of a shape is drawn below everything else.
pub(crate) fn push_under(text: &mut Vec<u8>, frame: Frame, shape: Shape) -> Result<(), AllocError>
    ensures { OnOk result (text.new.items ≡ text.old.items ++ under_text frame shape) }
{
    match shape {
        Shape::ProxyLane {
            level,
            height,
            more,
            phase,
            ..
        } => push_lane(text, LEFT, more, level, height, phase),
        Shape::Phase {
            column,
            more,
            level,
            height,
            phase,
            ..
        } => push_lane(text, across(column), more, level, height, phase),
        Shape::NodeLane { node } => push_level(
            text,
            "node",
            LEFT,
            across(frame.columns),
            node_height(frame, node),
        ),
        Shape::Leg {
            column,
            level,
            node,
            again,
            ..
        } => push_upright(
            text,
            leg_class(again),
            middle(column),
            center(level),
            node_height(frame, node),
        ),
        Shape::LostLeg {
            column,
            level,
            node,
        } => push_upright(
            text,
            "leg lost",
            middle(column),
            center(level),
            node_height(frame, node),
        ),
        Shape::Back {
            column,
            level,
            node,
            again,
            ..
        } => push_upright(
            text,
            back_class(again),
            middle(column),
            node_height(frame, node),
            center(level),
        ),
        Shape::LostBack { column, node } => {
            push_stub(text, plus(middle(column), 14), node_height(frame, node))
        }
        Shape::GivenUp { column, level } => push_upright(
            text,
            "leg",
            middle(column),
            center(level),
            backs_height(frame),
        ),
        _ => Ok(()),
    }
}
