//! The whole picture of a transcript.
ghost use Rattle.std.specs.Prelude.{◌≡◌, ◌++◌, ◌^◌, ◌<◌, length, map, take, OnOk, IfOk};
ghost use Rattle.mr_drawing.specs.Names.{names_of};
ghost use Rattle.mr_drawing.specs.Over.{told_view};
ghost use Rattle.mr_drawing.specs.Picture.{op_text, stale_text, invented_text, blame_text, lines_text, cut_text, start_text, view_text, style_text, ground_text, legend_text, begun_text, head_text, unders_text, overs_text, whole_text, frame_of, drawn_steps, shaped_text, drawn_text, picture_of, scene_view};

use crate::blame::blame_of;
use crate::elements::{
    push, push_attribute, push_box, push_counted, push_number, push_placed, push_words,
};
use crate::names::node_names;
use crate::over::{Told, push_over};
use crate::places::{Frame, foot, plus, times, whole_width};
use crate::rows::levels_of;
use crate::shapes::{Shape, shapes_of};
use crate::steps::{Reach, Step, steps_of};
use crate::style::{LEGEND, START, STYLE};
use crate::under::push_under;
use mr_history::{Entry, OpId};
use mr_pools::NodeName;
use mr_shown::KeptVerdict;
use mr_world::{Delivery, Event, Message, Note, ProxySetup};
use std::alloc::{AllocError, Global};

/// The most events that are drawn: the first ones.
pub const MOST_COLUMNS: usize = 2000;

/// What is drawn of a transcript.
#[derive(Clone, Copy)]
pub struct Scene<'a> {
    /// The proxies by their numbers, as they began.
    pub proxies: &'a [ProxySetup],
    /// The events, in order.
    pub events: &'a [Event],
    /// The text of each event.
    pub titles: &'a [&'a [u8]],
    /// What became of each event that was accepted, from the first on.
    pub notes: &'a [Note],
    /// Each message that was sent, by its number.
    pub sent: &'a [Message],
    /// Each delivery, by the number of its reply.
    pub replies: &'a [Delivery],
    /// The history.
    pub entries: &'a [Entry],
    /// What the judge says of it.
    pub verdict: &'a KeptVerdict,
    /// What is said at the top, three lines at most.
    pub said: &'a [&'a [u8]],
}

/// Adds the name of a request.
#[tactic(auto, unfolding(crate::specs::Picture::op_text))]
fn push_op(text: &mut Vec<u8>, op: OpId) -> Result<(), AllocError>
    ensures { OnOk result (text.new.items ≡ text.old.items ++ op_text op) }
{
    push_number(text, op.proxy as usize)?;
    push(text, ".")?;
    push_number(text, op.incarnation as usize)?;
    push(text, ".")?;
    push_number(text, op.number as usize)?;
    Ok(())
}

/// Adds the sentence that a get shows what a delete had removed.
#[tactic(auto, unfolding(crate::specs::Picture::stale_text))]
fn push_stale(text: &mut Vec<u8>, get: OpId, delete: OpId) -> Result<(), AllocError>
    ensures { OnOk result (text.new.items ≡ text.old.items ++ stale_text get delete) }
{
    push_placed(text, "plain bad", 16, 102)?;
    push(text, "get ")?;
    push_op(text, get)?;
    push(text, " shows what delete ")?;
    push_op(text, delete)?;
    push(text, " had removed</text>\n")?;
    Ok(())
}

/// Adds the sentence that a get shows what nothing had stored.
#[tactic(auto, unfolding(crate::specs::Picture::invented_text))]
fn push_invented(text: &mut Vec<u8>, get: OpId) -> Result<(), AllocError>
    ensures { OnOk result (text.new.items ≡ text.old.items ++ invented_text get) }
{
    push_placed(text, "plain bad", 16, 102)?;
    push(text, "get ")?;
    push_op(text, get)?;
    push(text, " shows what nothing had stored</text>\n")?;
    Ok(())
}

/// Adds the sentence of a verdict that a hit is bad.
fn push_blame(text: &mut Vec<u8>, verdict: &KeptVerdict) -> Result<(), AllocError>
    ensures { OnOk result (text.new.items ≡ text.old.items ++ blame_text verdict.now) }
{
    match verdict {
        KeptVerdict::Safe => Ok(()),
        KeptVerdict::Stale { get, delete, .. } => push_stale(text, *get, *delete),
        KeptVerdict::Invented { get, .. } => push_invented(text, *get),
    }
}

/// Adds the lines at the top.
fn push_lines(text: &mut Vec<u8>, said: &[&[u8]]) -> Result<(), AllocError>
    ensures { OnOk result (text.new.items ≡ text.old.items ++ lines_text 0 (map (λ line. line.now) said.now)) }
{
    for place in 0..said.len() {
        push_words(text, "plain", 16, plus(30, times(24, place)), said[place])?;
    }
    Ok(())
}

/// Adds how many events there are, where not all are drawn.
fn push_cut(text: &mut Vec<u8>, events: usize) -> Result<(), AllocError>
    ensures { OnOk result (text.new.items ≡ text.old.items ++ cut_text events) }
{
    if events <= MOST_COLUMNS {
        Ok(())
    } else {
        push_counted(text, "faint", 16, 146, "the first 2000 events of ", events)
    }
}

/// Adds what each picture begins with.
#[tactic(auto, unfolding(crate::specs::Picture::start_text))]
fn push_start(text: &mut Vec<u8>) -> Result<(), AllocError>
    ensures { OnOk result (text.new.items ≡ text.old.items ++ start_text) }
{
    push(text, START)
}

/// Adds the beginning of a picture of this width and this height.
#[tactic(auto, unfolding(crate::specs::Picture::view_text))]
fn push_view(text: &mut Vec<u8>, width: usize, height: usize) -> Result<(), AllocError>
    ensures { OnOk result (text.new.items ≡ text.old.items ++ view_text width height) }
{
    push_start(text)?;
    push_attribute(text, "width", width)?;
    push_attribute(text, "height", height)?;
    push(text, ">\n")?;
    Ok(())
}

/// Adds the colours.
#[tactic(auto, unfolding(crate::specs::Picture::style_text))]
fn push_style(text: &mut Vec<u8>) -> Result<(), AllocError>
    ensures { OnOk result (text.new.items ≡ text.old.items ++ style_text) }
{
    push(text, STYLE)
}

/// Adds what colours, letters and lines mean.
#[tactic(auto, unfolding(crate::specs::Picture::legend_text))]
fn push_legend(text: &mut Vec<u8>) -> Result<(), AllocError>
    ensures { OnOk result (text.new.items ≡ text.old.items ++ legend_text) }
{
    push_words(text, "faint", 16, 126, LEGEND.as_bytes())
}

/// Adds the ground.
fn push_ground(text: &mut Vec<u8>, frame: Frame) -> Result<(), AllocError>
    ensures { OnOk result (text.new.items ≡ text.old.items ++ ground_text frame) }
{
    push_box(text, "ground", 0, 0, whole_width(frame), foot(frame))
}

/// Adds the beginning of the picture, with its colours and its ground.
fn push_begun(text: &mut Vec<u8>, frame: Frame) -> Result<(), AllocError>
    ensures { OnOk result (text.new.items ≡ text.old.items ++ begun_text frame) }
{
    push_view(text, whole_width(frame), foot(frame))?;
    push_style(text)?;
    push_ground(text, frame)?;
    Ok(())
}

/// Adds what stands above the lanes.
fn push_head(text: &mut Vec<u8>, frame: Frame, scene: &Scene<'_>) -> Result<(), AllocError>
    ensures { OnOk result (text.new.items ≡ text.old.items ++ head_text frame (scene_view scene.now)) }
{
    push_begun(text, frame)?;
    push_lines(text, scene.said)?;
    push_blame(text, scene.verdict)?;
    push_legend(text)?;
    push_cut(text, scene.events.len())?;
    Ok(())
}

/// Adds what of the shapes is drawn below everything else.
fn push_unders(text: &mut Vec<u8>, frame: Frame, shapes: &[Shape]) -> Result<(), AllocError>
    ensures { OnOk result (text.new.items ≡ text.old.items ++ unders_text frame shapes.now) }
{
    for shape in shapes {
        push_under(text, frame, *shape)?;
    }
    Ok(())
}

/// Adds what of the shapes is drawn above the lines.
fn push_overs(
    alloc: Global,
    text: &mut Vec<u8>,
    told: &Told<'_>,
    frame: Frame,
    shapes: &[Shape],
) -> Result<(), AllocError>
    ensures { OnOk result (text.new.items ≡ text.old.items ++ overs_text (told_view told.now) frame shapes.now) }
{
    for shape in shapes {
        push_over(alloc, text, told, frame, *shape)?;
    }
    Ok(())
}

/// The lanes of the nodes of all messages, by their numbers.
fn targets_of(alloc: Global, sent: &[Message]) -> Result<Vec<usize>, AllocError>
    ensures { IfOk result (λ targets. targets.items ≡ map (λ message. message.node) sent.now) }
{
    sent.iter().map(|message| message.node).collect(alloc)
}

/// The text of a picture with these shapes.
fn whole_text(
    alloc: Global,
    frame: Frame,
    scene: &Scene<'_>,
    told: &Told<'_>,
    shapes: &[Shape],
) -> Result<Vec<u8>, AllocError>
    ensures { IfOk result (λ text. text.items ≡ whole_text frame (scene_view scene.now) (told_view told.now) shapes.now) }
{
    let mut text = Vec::new(alloc);
    push_head(&mut text, frame, scene)?;
    push_unders(&mut text, frame, shapes)?;
    push_overs(alloc, &mut text, told, frame, shapes)?;
    push(&mut text, "</svg>\n")?;
    Ok(text)
}

/// How much a picture of these steps has of everything.
fn frame_of(steps: &[Step], proxies: usize, nodes: usize) -> Frame
    ensures { result ≡ frame_of steps.now proxies nodes }
{
    Frame {
        columns: steps.len(),
        levels: levels_of(steps, proxies),
        nodes,
    }
}

/// The steps of these events of a scene.
#[tactic(auto, unfolding(crate::specs::Picture::drawn_steps))]
fn drawn_steps(
    alloc: Global,
    scene: &Scene<'_>,
    names: &[NodeName],
    drawn: &[Event],
) -> Result<Vec<Step>, AllocError>
    requires { names.now ≡ names_of scene.now.proxies.now }
    ensures { IfOk result (λ steps. steps.items ≡ drawn_steps (scene_view scene.now) drawn.now) }
{
    let reach = Reach {
        proxies: scene.proxies,
        names,
        sent: scene.sent,
        replies: scene.replies,
        blame: blame_of(scene.entries, scene.verdict),
    };
    steps_of(alloc, &reach, drawn, scene.notes)
}

/// The text of the picture of a scene with these steps and these shapes.
#[tactic(auto, unfolding(crate::specs::Picture::shaped_text))]
fn shaped_text(
    alloc: Global,
    scene: &Scene<'_>,
    names: &[NodeName],
    drawn: &[Event],
    steps: &[Step],
    shapes: &[Shape],
) -> Result<Vec<u8>, AllocError>
    ensures { IfOk result (λ text. text.items ≡ shaped_text (scene_view scene.now) names.now drawn.now steps.now shapes.now) }
{
    let told = Told {
        names,
        events: drawn,
        titles: scene.titles,
    };
    let frame = frame_of(steps, scene.proxies.len(), names.len());
    whole_text(alloc, frame, scene, &told, shapes)
}

/// The text of the picture of a scene of which these events are drawn.
#[tactic(auto, unfolding(crate::specs::Picture::drawn_text, crate::specs::Picture::drawn_shapes))]
fn drawn_text(
    alloc: Global,
    scene: &Scene<'_>,
    drawn: &[Event],
    whole: bool,
) -> Result<Vec<u8>, AllocError>
    requires { length scene.now.proxies.now < 2 ^ 32 }
    ensures { IfOk result (λ text. text.items ≡ drawn_text (scene_view scene.now) drawn.now whole) }
{
    let names = node_names(alloc, scene.proxies)?;
    let names = names.as_slice();
    let steps = drawn_steps(alloc, scene, names, drawn)?;
    let steps = steps.as_slice();
    let targets = targets_of(alloc, scene.sent)?;
    let targets = targets.as_slice();
    let shapes = shapes_of(alloc, scene.proxies, names.len(), steps, targets, whole)?;
    shaped_text(alloc, scene, names, drawn, steps, shapes.as_slice())
}

/// The first of the events, as many as are drawn.
fn first_events(events: &[Event]) -> &[Event]
    requires { 2000 < length events.now }
    ensures { result.now ≡ take 2000 events.now }
{
    let (first, _later) = events.split_at(MOST_COLUMNS);
    first
}

/// The picture of a scene as an SVG: of all its events, or of the first `MOST_COLUMNS`. It is whole in itself: no script, no
/// font and no file from elsewhere.
pub fn draw(alloc: Global, scene: &Scene<'_>) -> Result<Vec<u8>, AllocError>
    requires { length scene.now.proxies.now < 2 ^ 32 }
    ensures { IfOk result (λ text. text.items ≡ picture_of (scene_view scene.now)) }
{
    if scene.events.len() <= MOST_COLUMNS {
        drawn_text(alloc, scene, scene.events, true)
    } else {
        drawn_text(alloc, scene, first_events(scene.events), false)
    }
}
