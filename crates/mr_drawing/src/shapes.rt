//! The shapes of a picture: the lanes, and then those of each step, in order.
ghost use Rattle.std.specs.Prelude.{◌≡◌, ◌++◌, ◌^◌, ◌<◌, length, position, OnOk, IfOk};
ghost use Rattle.std.specs.List.{list_any};
ghost use Rattle.mr_drawing.specs.Shapes.{is_clock_of, ends, arrives, comes_back, until_clock, lasting, sends, is_lost, lost_at, lost_from, issue_shapes, leg_shape, lost_reply, arrival_shapes, back_shape, single_shape, shapes_of_step, shapes_from, lane_of, proxy_lanes, node_lanes, shapes_of};

use crate::rows::{base_of, height_of, level_of};
use crate::steps::{Back, Issue, Leg, Outcome, Step};
use mr_history::{OpId, is_same_op};
use mr_phases::{PhaseName, RequestKind, Side, judge};
use mr_world::ProxySetup;
use std::alloc::{AllocError, Global};

/// A thing to be drawn. Columns are those of the events, levels those of the proxies' lanes, and nodes the nodes' lanes, each
/// counted from 0.
#[derive(Clone, Copy, Debug, PartialEq, Eq)]
pub enum Shape {
    /// The lane of a proxy, in its first phase as far as its clock stays.
    ProxyLane {
        /// The proxy's number.
        proxy: usize,
        /// Its first level.
        level: usize,
        /// How many levels it has.
        height: usize,
        /// How many columns the first phase lasts.
        more: usize,
        /// The phase.
        phase: PhaseName,
        /// The hop in force.
        hop: u32,
    },
    /// The lane of a node.
    NodeLane {
        /// The lane.
        node: usize,
    },
    /// An event's column.
    Column {
        /// The column.
        column: usize,
    },
    /// A proxy's phase from an event on.
    Phase {
        /// The event's column.
        column: usize,
        /// How many further columns the phase lasts.
        more: usize,
        /// The first level of the proxy's lane.
        level: usize,
        /// How many levels that has.
        height: usize,
        /// The phase.
        phase: PhaseName,
        /// The hop in force.
        hop: u32,
    },
    /// A request, from its issue on.
    Bar {
        /// The column of its issue.
        column: usize,
        /// How many further columns it lasts.
        more: usize,
        /// Its level.
        level: usize,
        /// The verdict blames it.
        blamed: bool,
    },
    /// A leg that arrived.
    Leg {
        /// The column.
        column: usize,
        /// The level of its request.
        level: usize,
        /// The node's lane.
        node: usize,
        /// What the node is told to do.
        kind: RequestKind,
        /// The side whose pool has the node.
        side: Side,
        /// It had arrived before.
        again: bool,
    },
    /// A leg that never arrived.
    LostLeg {
        /// The column of its issue.
        column: usize,
        /// The level of its request.
        level: usize,
        /// The lane of its node.
        node: usize,
    },
    /// A reply that came back.
    Back {
        /// The column.
        column: usize,
        /// The level of its request.
        level: usize,
        /// The lane of its node.
        node: usize,
        /// What the node answered.
        outcome: Outcome,
        /// It had come before.
        again: bool,
    },
    /// A reply that never came back.
    LostBack {
        /// The column in which it was sent.
        column: usize,
        /// The lane of its node.
        node: usize,
    },
    /// A request that was given up.
    GivenUp {
        /// The column.
        column: usize,
        /// The level of the request.
        level: usize,
    },
    /// A quit.
    Quit {
        /// The column.
        column: usize,
        /// The first level of the proxy's lane.
        level: usize,
    },
    /// A node that began again.
    NodeBreak {
        /// The column.
        column: usize,
        /// The node's lane.
        node: usize,
    },
    /// A proxy that began again.
    ProxyBreak {
        /// The column.
        column: usize,
        /// The first level of its lane.
        level: usize,
        /// How many levels that has.
        height: usize,
    },
    /// An event that was refused.
    Refused {
        /// The column.
        column: usize,
    },
    /// An event behind one that was refused.
    Unplayed {
        /// The column.
        column: usize,
    },
}

/// Whether the step is a reading of this proxy's clock.
fn is_clock_of(step: &Step, proxy: usize) -> bool
    ensures { result ≡ is_clock_of proxy step.now }
{
    match step {
        Step::Clock { proxy: other, .. } => *other as usize == proxy,
        _ => false,
    }
}

/// Whether the step ends the request, if that was issued before it.
fn ends(step: &Step, op: OpId) -> bool
    ensures { result ≡ ends op step.now }
{
    match step {
        Step::Back(back) => back.answers && is_same_op(back.leg.op, op),
        Step::GiveUp { op: given } => is_same_op(*given, op),
        Step::ProxyRestart { proxy } => *proxy == op.proxy,
        _ => false,
    }
}

/// Whether the message of this number arrives by the step.
fn arrives(step: &Step, message: usize) -> bool
    ensures { result ≡ arrives message step.now }
{
    match step {
        Step::Arrive { leg, .. } => leg.message == message,
        _ => false,
    }
}

/// Whether the reply of this number comes back by the step.
fn comes_back(step: &Step, reply: usize) -> bool
    ensures { result ≡ comes_back reply step.now }
{
    match step {
        Step::Back(back) => back.reply == reply,
        _ => false,
    }
}

/// The first of these steps that is a reading of the proxy's clock.
fn first_clock(steps: &[Step], proxy: usize) -> Option<usize>
    ensures { result ≡ position (is_clock_of proxy) steps.now }
{
    steps.iter().position(|step| is_clock_of(step, proxy))
}

/// The first of these steps that ends the request.
fn first_end(steps: &[Step], op: OpId) -> Option<usize>
    ensures { result ≡ position (ends op) steps.now }
{
    steps.iter().position(|step| ends(step, op))
}

/// Whether the message of this number arrives by one of these steps.
fn has_arrived(steps: &[Step], message: usize) -> bool
    ensures { result ≡ list_any (arrives message) steps.now }
{
    steps.iter().any(|step| arrives(step, message))
}

/// Whether the reply of this number comes back by one of these steps.
fn has_come_back(steps: &[Step], reply: usize) -> bool
    ensures { result ≡ list_any (comes_back reply) steps.now }
{
    steps.iter().any(|step| comes_back(step, reply))
}

/// How many of these steps come before the proxy's clock shows another reading.
fn until_clock(steps: &[Step], proxy: usize) -> usize
    ensures { result ≡ until_clock steps.now proxy }
{
    match first_clock(steps, proxy) {
        Some(count) => count,
        None => steps.len(),
    }
}

/// How many of these steps the request lasts, with the one that ends it.
fn lasting(steps: &[Step], op: OpId) -> usize
    ensures { result ≡ lasting steps.now op }
{
    match first_end(steps, op) {
        Some(count) => count.saturating_add(1),
        None => steps.len(),
    }
}

/// Whether a message of this number is one of the request's.
fn sends(issue: Issue, message: usize) -> bool
    ensures { result ≡ sends issue message }
{
    issue.first <= message && message - issue.first < issue.count
}

/// Whether a message of this number is one of the request's and never arrives.
fn is_lost(steps: &[Step], issue: Issue, message: usize) -> bool
    ensures { result ≡ is_lost steps.now issue message }
{
    sends(issue, message) && !has_arrived(steps, message)
}

/// Adds the message of this number to this node's lane, if it is lost.
fn push_lost_at(
    shapes: &mut Vec<Shape>,
    steps: &[Step],
    column: usize,
    issue: Issue,
    message: usize,
    node: usize,
) -> Result<(), AllocError>
    ensures { OnOk result (shapes.new.items ≡ shapes.old.items ++ lost_at steps.now column issue message node) }
{
    if is_lost(steps, issue, message) {
        shapes.push(Shape::LostLeg {
            column,
            level: level_of(steps, issue.op),
            node,
        })?;
    }
    Ok(())
}

/// Adds the legs of a request that never arrive. The targets are the nodes' lanes of all messages.
fn push_lost(
    shapes: &mut Vec<Shape>,
    steps: &[Step],
    targets: &[usize],
    column: usize,
    issue: Issue,
) -> Result<(), AllocError>
    ensures { OnOk result (shapes.new.items ≡ shapes.old.items ++ lost_from steps.now column issue 0 targets.now) }
{
    for message in 0..targets.len() {
        push_lost_at(shapes, steps, column, issue, message, targets[message])?;
    }
    Ok(())
}

/// Adds the shapes of a request that was issued.
fn push_issue(
    shapes: &mut Vec<Shape>,
    steps: &[Step],
    targets: &[usize],
    column: usize,
    issue: Issue,
) -> Result<(), AllocError>
    requires { column < length steps.now }
    ensures { OnOk result (shapes.new.items ≡ shapes.old.items ++ issue_shapes steps.now targets.now column issue) }
{
    shapes.push(Shape::Bar {
        column,
        more: lasting(&steps[column + 1..], issue.op),
        level: level_of(steps, issue.op),
        blamed: issue.blamed,
    })?;
    push_lost(shapes, steps, targets, column, issue)
}

/// The shape of a leg that arrived.
fn leg_shape(steps: &[Step], column: usize, leg: Leg) -> Shape
    requires { column < length steps.now }
    ensures { result ≡ leg_shape steps.now column leg }
{
    Shape::Leg {
        column,
        level: level_of(steps, leg.op),
        node: leg.node,
        kind: leg.kind,
        side: leg.side,
        again: has_arrived(&steps[..column], leg.message),
    }
}

/// Adds that the reply to a leg is lost, if it is.
fn push_lost_reply(
    shapes: &mut Vec<Shape>,
    steps: &[Step],
    whole: bool,
    column: usize,
    reply: usize,
    leg: Leg,
) -> Result<(), AllocError>
    ensures { OnOk result (shapes.new.items ≡ shapes.old.items ++ lost_reply steps.now whole column reply leg) }
{
    if whole && !has_come_back(steps, reply) {
        shapes.push(Shape::LostBack {
            column,
            node: leg.node,
        })?;
    }
    Ok(())
}

/// Adds the shapes of a leg that arrived.
fn push_arrival(
    shapes: &mut Vec<Shape>,
    steps: &[Step],
    whole: bool,
    column: usize,
    reply: usize,
    leg: Leg,
) -> Result<(), AllocError>
    requires { column < length steps.now }
    ensures { OnOk result (shapes.new.items ≡ shapes.old.items ++ arrival_shapes steps.now whole column reply leg) }
{
    shapes.push(leg_shape(steps, column, leg))?;
    push_lost_reply(shapes, steps, whole, column, reply, leg)
}

/// The shape of a reply that came back.
fn back_shape(steps: &[Step], column: usize, back: Back) -> Shape
    requires { column < length steps.now }
    ensures { result ≡ back_shape steps.now column back }
{
    Shape::Back {
        column,
        level: level_of(steps, back.leg.op),
        node: back.leg.node,
        outcome: back.outcome,
        again: has_come_back(&steps[..column], back.reply),
    }
}

/// The shape of a step that is neither an issue nor an arrival.
fn single_shape(steps: &[Step], column: usize, step: Step) -> Shape
    requires { column < length steps.now }
    ensures { result ≡ single_shape steps.now column step }
{
    match step {
        Step::Clock { proxy, phase, hop } => Shape::Phase {
            column,
            more: until_clock(&steps[column + 1..], proxy as usize),
            level: base_of(steps, proxy),
            height: height_of(steps, proxy),
            phase,
            hop,
        },
        Step::Quit { proxy } => Shape::Quit {
            column,
            level: base_of(steps, proxy),
        },
        Step::Back(back) => back_shape(steps, column, back),
        Step::GiveUp { op } => Shape::GivenUp {
            column,
            level: level_of(steps, op),
        },
        Step::NodeRestart { node } => Shape::NodeBreak { column, node },
        Step::ProxyRestart { proxy } => Shape::ProxyBreak {
            column,
            level: base_of(steps, proxy),
            height: height_of(steps, proxy),
        },
        Step::Refused => Shape::Refused { column },
        Step::Issue(_) | Step::Arrive { .. } | Step::Unplayed => Shape::Unplayed { column },
    }
}

/// Adds the shapes of a step.
fn push_step(
    shapes: &mut Vec<Shape>,
    steps: &[Step],
    targets: &[usize],
    whole: bool,
    column: usize,
    step: Step,
) -> Result<(), AllocError>
    requires { column < length steps.now }
    ensures { OnOk result (shapes.new.items ≡ shapes.old.items ++ shapes_of_step steps.now targets.now whole column step) }
{
    match step {
        Step::Issue(issue) => {
            let lost: &[usize] = if whole { targets } else { &[] };
            push_issue(shapes, steps, lost, column, issue)
        }
        Step::Arrive { reply, leg } => push_arrival(shapes, steps, whole, column, reply, leg),
        _ => {
            shapes.push(single_shape(steps, column, step))?;
            Ok(())
        }
    }
}

/// Adds the shapes of each step, in order: its column, and then what it is.
fn push_steps(
    shapes: &mut Vec<Shape>,
    steps: &[Step],
    targets: &[usize],
    whole: bool,
) -> Result<(), AllocError>
    ensures { OnOk result (shapes.new.items ≡ shapes.old.items ++ shapes_from steps.now targets.now whole 0 steps.now) }
{
    for column in 0..steps.len() {
        shapes.push(Shape::Column { column })?;
        push_step(shapes, steps, targets, whole, column, steps[column])?;
    }
    Ok(())
}

/// The lane of a proxy.
fn lane_of(steps: &[Step], number: usize, proxy: &ProxySetup) -> Shape
    requires { number < 2 ^ 32 }
    ensures { result ≡ lane_of steps.now number proxy.now }
{
    let judged = judge(proxy.schedule, proxy.reading);
    Shape::ProxyLane {
        proxy: number,
        level: base_of(steps, number as u32),
        height: height_of(steps, number as u32),
        more: until_clock(steps, number),
        phase: judged.name(),
        hop: judged.hop(),
    }
}

/// Adds the lanes of the proxies.
fn push_proxy_lanes(
    shapes: &mut Vec<Shape>,
    steps: &[Step],
    proxies: &[ProxySetup],
) -> Result<(), AllocError>
    requires { length proxies.now < 2 ^ 32 }
    ensures { OnOk result (shapes.new.items ≡ shapes.old.items ++ proxy_lanes steps.now 0 proxies.now) }
{
    for number in 0..proxies.len() {
        shapes.push(lane_of(steps, number, &proxies[number]))?;
    }
    Ok(())
}

/// Adds the lanes of so many nodes.
fn push_node_lanes(shapes: &mut Vec<Shape>, nodes: usize) -> Result<(), AllocError>
    ensures { OnOk result (shapes.new.items ≡ shapes.old.items ++ node_lanes nodes) }
{
    for node in 0..nodes {
        shapes.push(Shape::NodeLane { node })?;
    }
    Ok(())
}

/// The shapes of a picture: the lane of each proxy and of each of so many nodes, and then the shapes of each step, in order.
/// The targets are the nodes' lanes of all messages by their numbers. Where the steps aren't the whole, nothing is shown as
/// lost, as it may arrive later.
pub fn shapes_of(
    alloc: Global,
    proxies: &[ProxySetup],
    nodes: usize,
    steps: &[Step],
    targets: &[usize],
    whole: bool,
) -> Result<Vec<Shape>, AllocError>
    requires { length proxies.now < 2 ^ 32 }
    ensures { IfOk result (λ shapes. shapes.items ≡ shapes_of proxies.now nodes steps.now targets.now whole) }
{
    let mut shapes = Vec::new(alloc);
    push_proxy_lanes(&mut shapes, steps, proxies)?;
    push_node_lanes(&mut shapes, nodes)?;
    push_steps(&mut shapes, steps, targets, whole)?;
    Ok(shapes)
}
