//! What is drawn above the lines: bars, words and the columns' titles.
ghost use Rattle.std.specs.Prelude.{◌≡◌, ◌++◌, map, slice_get, OnOk, IfOk};
ghost use Rattle.mr_drawing.specs.Over.{bytes_at, text_at, name_at, label_of, mark_text, said_text, bar_class, ask_text, bar_box_text, bar_text, column_box_text, title_text, number_text, column_text, lost_leg_text, lost_back_text, node_break_text, proxy_break_text, node_name_text, proxy_name_text, told_view, request_text, way_text, over_text};

use crate::elements::{push, push_attribute, push_box, push_counted, push_opened, push_words};
use crate::escape::push_shown;
use crate::labels::{kind_text, outcome_text, phase_letter, request_label, shortened};
use crate::places::{
    CELL, Frame, LEFT, across, backs_height, cells, down, foot, legs_height, middle, node_height,
    plus, room_of,
};
use crate::shapes::Shape;
use crate::under::lane_height;
use mr_phases::PhaseName;
use mr_pools::NodeName;
use mr_world::Event;
use std::alloc::{AllocError, Global};

/// The texts that shapes tell.
#[derive(Clone, Copy)]
pub(crate) struct Told<'a> {
    /// The names of the nodes by their lanes.
    pub(crate) names: &'a [NodeName],
    /// The events by their columns.
    pub(crate) events: &'a [Event],
    /// The text of each of them.
    pub(crate) titles: &'a [&'a [u8]],
}

/// The text of this place, nothing where there is none.
fn bytes_at<'a>(texts: &'a [&'a [u8]], place: usize) -> &'a [u8]
    ensures { result.now ≡ bytes_at (slice_get texts.now place) }
{
    match texts.get(place) {
        Some(text) => text,
        None => &[],
    }
}

/// The title of this column, nothing where there is none.
fn title_at<'a>(titles: &'a [&'a [u8]], column: usize) -> &'a [u8]
    ensures { result.now ≡ text_at (map (λ title. title.now) titles.now) column }
{
    bytes_at(titles, column)
}

/// The name of this lane, nothing where there is none.
fn name_at(names: &[NodeName], lane: usize) -> &[u8]
    ensures { result.now ≡ name_at (slice_get names.now lane) }
{
    match names.get(lane) {
        Some(name) => name.as_bytes(),
        None => &[],
    }
}

/// What the event of this column asks, nothing where it isn't a client's.
fn label_of(alloc: Global, events: &[Event], column: usize) -> Result<Vec<u8>, AllocError>
    ensures { IfOk result (λ label. label.items ≡ label_of (slice_get events.now column)) }
{
    match events.get(column) {
        Some(Event::Client { request, .. }) => request_label(alloc, request),
        _ => Ok(Vec::new(alloc)),
    }
}

/// Adds the letter of a phase, with the number of its hop where that isn't the first.
fn push_mark(
    text: &mut Vec<u8>,
    x: usize,
    level: usize,
    phase: PhaseName,
    hop: u32,
) -> Result<(), AllocError>
    ensures { OnOk result (text.new.items ≡ text.old.items ++ mark_text x level phase hop) }
{
    let x = plus(x, 6);
    let y = plus(down(level), 17);
    let letter = phase_letter(phase);
    if hop == 0 {
        push_words(text, "mark", x, y, letter.as_bytes())
    } else {
        push_counted(text, "mark", x, y, letter, hop as usize)
    }
}

/// Adds a word in the middle of a column.
fn push_said(
    text: &mut Vec<u8>,
    class: &str,
    column: usize,
    y: usize,
    word: &str,
) -> Result<(), AllocError>
    ensures { OnOk result (text.new.items ≡ text.old.items ++ said_text class.now column y word.now) }
{
    push_words(text, class, middle(column), plus(y, 4), word.as_bytes())
}

/// The class of a request's bar.
fn bar_class(blamed: bool) -> &'static str
    ensures { result.now ≡ bar_class blamed }
{
    if blamed { "bar blamed" } else { "bar" }
}

/// Adds what a request asks, as far as its bar over so many columns has room.
fn push_ask(
    alloc: Global,
    text: &mut Vec<u8>,
    events: &[Event],
    column: usize,
    columns: usize,
    level: usize,
) -> Result<(), AllocError>
    ensures { OnOk result (text.new.items ≡ text.old.items ++ ask_text (slice_get events.now column) column columns level) }
{
    let label = label_of(alloc, events, column)?;
    let words = shortened(alloc, label.as_slice(), room_of(columns))?;
    push_words(
        text,
        "ask",
        plus(across(column), 9),
        plus(down(level), 16),
        words.as_slice(),
    )
}

/// Adds the box of a request over so many columns.
fn push_bar_box(
    text: &mut Vec<u8>,
    column: usize,
    columns: usize,
    level: usize,
    blamed: bool,
) -> Result<(), AllocError>
    ensures { OnOk result (text.new.items ≡ text.old.items ++ bar_box_text column columns level blamed) }
{
    push_box(
        text,
        bar_class(blamed),
        plus(across(column), 4),
        plus(down(level), 3),
        cells(columns).saturating_sub(8),
        18,
    )
}

/// Adds the bar of a request over so many columns.
fn push_bar(
    alloc: Global,
    text: &mut Vec<u8>,
    events: &[Event],
    column: usize,
    columns: usize,
    level: usize,
    blamed: bool,
) -> Result<(), AllocError>
    ensures { OnOk result (text.new.items ≡ text.old.items ++ bar_text (slice_get events.now column) column columns level blamed) }
{
    push_bar_box(text, column, columns, level, blamed)?;
    push_ask(alloc, text, events, column, columns, level)?;
    Ok(())
}

/// Adds the box over the whole height of a column, without its end.
fn push_column_box(text: &mut Vec<u8>, frame: Frame, column: usize) -> Result<(), AllocError>
    ensures { OnOk result (text.new.items ≡ text.old.items ++ column_box_text frame column) }
{
    push_opened(text, "rect", "event")?;
    push_attribute(text, "x", across(column))?;
    push_attribute(text, "y", 152)?;
    push_attribute(text, "width", CELL)?;
    push_attribute(text, "height", foot(frame).saturating_sub(152))?;
    Ok(())
}

/// Adds the event as it stands, over the whole height of its column.
fn push_title(
    text: &mut Vec<u8>,
    frame: Frame,
    column: usize,
    title: &[u8],
) -> Result<(), AllocError>
    ensures { OnOk result (text.new.items ≡ text.old.items ++ title_text frame column title.now) }
{
    push_column_box(text, frame, column)?;
    push(text, "><title>")?;
    push_shown(text, title)?;
    push(text, "</title></rect>\n")?;
    Ok(())
}

/// Adds the number of a column.
fn push_column_number(text: &mut Vec<u8>, column: usize) -> Result<(), AllocError>
    ensures { OnOk result (text.new.items ≡ text.old.items ++ number_text column) }
{
    push_counted(text, "number", middle(column), 166, "", column)
}

/// Adds the number of a column, and over its whole height the event as it stands.
fn push_column(
    text: &mut Vec<u8>,
    frame: Frame,
    column: usize,
    title: &[u8],
) -> Result<(), AllocError>
    ensures { OnOk result (text.new.items ≡ text.old.items ++ column_text frame column title.now) }
{
    push_column_number(text, column)?;
    push_title(text, frame, column, title)?;
    Ok(())
}

/// Adds that a leg was lost, in the middle of its line and at its node.
fn push_lost_leg(
    text: &mut Vec<u8>,
    frame: Frame,
    column: usize,
    node: usize,
) -> Result<(), AllocError>
    ensures { OnOk result (text.new.items ≡ text.old.items ++ lost_leg_text frame column node) }
{
    push_said(text, "said", column, legs_height(frame), "lost")?;
    push_said(text, "cross", column, node_height(frame, node), "x")
}

/// Adds that a reply was lost.
fn push_lost_back(
    text: &mut Vec<u8>,
    frame: Frame,
    column: usize,
    node: usize,
) -> Result<(), AllocError>
    ensures { OnOk result (text.new.items ≡ text.old.items ++ lost_back_text frame column node) }
{
    push_said(text, "said", column, backs_height(frame), "lost")?;
    let y = node_height(frame, node).saturating_sub(14);
    push_words(text, "cross", plus(middle(column), 14), y, b"x")
}

/// Adds the break of a node's lane.
fn push_node_break(
    text: &mut Vec<u8>,
    frame: Frame,
    column: usize,
    node: usize,
) -> Result<(), AllocError>
    ensures { OnOk result (text.new.items ≡ text.old.items ++ node_break_text frame column node) }
{
    let y = node_height(frame, node);
    let x = middle(column).saturating_sub(6);
    push_box(text, "gap", x, y.saturating_sub(4), 12, 8)?;
    push_said(text, "said", column, y.saturating_sub(12), "restart")
}

/// Adds the break of a proxy's lane.
fn push_proxy_break(
    text: &mut Vec<u8>,
    column: usize,
    level: usize,
    height: usize,
) -> Result<(), AllocError>
    ensures { OnOk result (text.new.items ≡ text.old.items ++ proxy_break_text column level height) }
{
    let x = middle(column).saturating_sub(3);
    push_box(text, "gap", x, down(level), 6, lane_height(height))?;
    push_said(text, "said", column, plus(down(level), 13), "restart")
}

/// Adds a lane's name.
fn push_node_name(
    alloc: Global,
    text: &mut Vec<u8>,
    frame: Frame,
    names: &[NodeName],
    node: usize,
) -> Result<(), AllocError>
    ensures { OnOk result (text.new.items ≡ text.old.items ++ node_name_text frame node (slice_get names.now node)) }
{
    let words = shortened(alloc, name_at(names, node), 22)?;
    push_words(
        text,
        "name",
        16,
        plus(node_height(frame, node), 4),
        words.as_slice(),
    )
}

/// Adds the name of a proxy's lane, and the letter of its first phase.
fn push_proxy_name(
    text: &mut Vec<u8>,
    proxy: usize,
    level: usize,
    phase: PhaseName,
    hop: u32,
) -> Result<(), AllocError>
    ensures { OnOk result (text.new.items ≡ text.old.items ++ proxy_name_text proxy level phase hop) }
{
    push_counted(text, "name", 16, plus(down(level), 17), "proxy ", proxy)?;
    push_mark(text, LEFT, level, phase, hop)
}

/// Adds what of a lane or a request is drawn above the lines.
fn push_request(
    alloc: Global,
    text: &mut Vec<u8>,
    told: &Told<'_>,
    frame: Frame,
    shape: Shape,
) -> Result<(), AllocError>
    ensures { OnOk result (text.new.items ≡ text.old.items ++ request_text (told_view told.now) frame shape) }
{
    match shape {
        Shape::ProxyLane {
            proxy,
            level,
            phase,
            hop,
            ..
        } => push_proxy_name(text, proxy, level, phase, hop),
        Shape::NodeLane { node } => push_node_name(alloc, text, frame, told.names, node),
        Shape::Column { column } => {
            push_column(text, frame, column, title_at(told.titles, column))
        }
        Shape::Phase {
            column,
            level,
            phase,
            hop,
            ..
        } => push_mark(text, across(column), level, phase, hop),
        Shape::Bar {
            column,
            more,
            level,
            blamed,
        } => push_bar(
            alloc,
            text,
            told.events,
            column,
            plus(more, 1),
            level,
            blamed,
        ),
        _ => Ok(()),
    }
}

/// Adds what of any other shape is drawn above the lines.
fn push_way(text: &mut Vec<u8>, frame: Frame, shape: Shape) -> Result<(), AllocError>
    ensures { OnOk result (text.new.items ≡ text.old.items ++ way_text frame shape) }
{
    let legs = legs_height(frame);
    let backs = backs_height(frame);
    match shape {
        Shape::Leg {
            column,
            kind,
            side,
            ..
        } => push_said(text, "said", column, legs, kind_text(kind, side)),
        Shape::LostLeg { column, node, .. } => push_lost_leg(text, frame, column, node),
        Shape::Back {
            column,
            outcome,
            ..
        } => push_said(text, "said", column, backs, outcome_text(outcome)),
        Shape::LostBack { column, node } => push_lost_back(text, frame, column, node),
        Shape::GivenUp { column, .. } => push_said(text, "said", column, backs, "gave up"),
        Shape::Quit { column, level } => {
            push_said(text, "said", column, plus(down(level), 13), "quit")
        }
        Shape::NodeBreak { column, node } => push_node_break(text, frame, column, node),
        Shape::ProxyBreak {
            column,
            level,
            height,
        } => push_proxy_break(text, column, level, height),
        Shape::Refused { column } => push_said(text, "said bad", column, legs, "refused"),
        Shape::Unplayed { column } => push_said(text, "said", column, legs, "-"),
        _ => Ok(()),
    }
}

/// Adds what of a shape is drawn above the lines.
pub(crate) fn push_over(
    alloc: Global,
    text: &mut Vec<u8>,
    told: &Told<'_>,
    frame: Frame,
    shape: Shape,
) -> Result<(), AllocError>
    ensures { OnOk result (text.new.items ≡ text.old.items ++ over_text (told_view told.now) frame shape) }
{
    push_request(alloc, text, told, frame, shape)?;
    push_way(text, frame, shape)
}
