//! Events that JSON values are.
ghost use Rattle.std.specs.Prelude.{◌≡◌, Ok, Err, IfOk, IfErr, OnOk, IsOk, is_ok, map};
ghost use Rattle.serde_json.specs.View.{view};
ghost use Rattle.mr_scripts.specs.Events.{op_of_parts, op_of, clock_of, client_of, deliver_of, return_of, give_up_of, node_restart_of, proxy_restart_of, event_of, events_of};
ghost use Rattle.mr_scripts.specs.EventDraft.{event_drafted, IsEventReady};

use crate::node_names::{make_node_name, node_name_text};
use crate::numbers::small_number;
use crate::requests::{RequestDraft, request_draft};
use mr_configs::PlanError;
use mr_configs::fields::{check_object, field, list, text, whole_number};
use mr_history::OpId;
use mr_shown::Format;
use mr_world::Event;
use serde_json::Value;
use std::alloc::{AllocError, Global};

/// An event that was looked at whole, and is yet to be made.
#[derive(Clone, Copy)]
pub enum EventDraft<'a> {
    /// The clock of a proxy shows another reading.
    Clock {
        /// The proxy's number.
        proxy: u32,
        /// The reading, in seconds since the epoch.
        reading: u64,
    },
    /// A client sends a request to a proxy.
    Client {
        /// The proxy's number.
        proxy: u32,
        /// What is asked.
        request: RequestDraft<'a>,
    },
    /// A message reaches its node.
    Deliver {
        /// The message's number.
        message: usize,
        /// The reading of the node's clock, in seconds since the epoch.
        now: u64,
    },
    /// A node's reply reaches the proxy that sent the message.
    Return {
        /// The reply's number.
        reply: usize,
    },
    /// The proxy of a request gives it up.
    GiveUp {
        /// The request's name.
        op: OpId,
    },
    /// A node loses all that it holds.
    NodeRestart {
        /// The node's name.
        node: &'a str,
    },
    /// A proxy forgets all requests under way.
    ProxyRestart {
        /// The proxy's number.
        proxy: u32,
    },
}

/// The name of a request that a value is: the proxy, its incarnation and the request's number.
fn op_of(value: &Value) -> Result<OpId, PlanError>
    ensures { result ≡ op_of (view value.now) }
{
    match list(value)? {
        [proxy, incarnation, number] => Ok(OpId {
            proxy: small_number(proxy)?,
            incarnation: whole_number(incarnation)?,
            number: whole_number(number)?,
        }),
        _ => Err(PlanError::WrongKind),
    }
}

/// The event of a clock that a value is.
fn clock_of(value: &Value) -> Result<EventDraft<'_>, PlanError>
    ensures event { IfOk result (λ draft. clock_of (view value.now) ≡ Ok (event_drafted draft)) }
    ensures ready { IfOk result (λ draft. IsEventReady draft) }
    ensures refused { IfErr result (λ e. clock_of (view value.now) ≡ Err e) }
{
    check_object(value, &["do", "proxy", "reading"])?;
    let proxy = small_number(field(value, "proxy")?)?;
    let reading = whole_number(field(value, "reading")?)?;
    Ok(EventDraft::Clock { proxy, reading })
}

/// The request to a proxy that a value is.
fn client_of(format: Format, value: &Value) -> Result<EventDraft<'_>, PlanError>
    ensures event { IfOk result (λ draft. client_of format (view value.now) ≡ Ok (event_drafted draft)) }
    ensures ready { IfOk result (λ draft. IsEventReady draft) }
    ensures refused { IfErr result (λ e. client_of format (view value.now) ≡ Err e) }
{
    check_object(value, &["do", "proxy", "request"])?;
    let proxy = small_number(field(value, "proxy")?)?;
    match request_draft(format, field(value, "request")?) {
        Ok(request) => Ok(EventDraft::Client { proxy, request }),
        Err(refusal) => Err(refusal),
    }
}

/// The message's way to its node that a value is.
fn deliver_of(value: &Value) -> Result<EventDraft<'_>, PlanError>
    ensures event { IfOk result (λ draft. deliver_of (view value.now) ≡ Ok (event_drafted draft)) }
    ensures ready { IfOk result (λ draft. IsEventReady draft) }
    ensures refused { IfErr result (λ e. deliver_of (view value.now) ≡ Err e) }
{
    check_object(value, &["do", "message", "now"])?;
    let message = whole_number(field(value, "message")?)? as usize;
    let now = whole_number(field(value, "now")?)?;
    Ok(EventDraft::Deliver { message, now })
}

/// The reply's way back that a value is.
fn return_of(value: &Value) -> Result<EventDraft<'_>, PlanError>
    ensures event { IfOk result (λ draft. return_of (view value.now) ≡ Ok (event_drafted draft)) }
    ensures ready { IfOk result (λ draft. IsEventReady draft) }
    ensures refused { IfErr result (λ e. return_of (view value.now) ≡ Err e) }
{
    check_object(value, &["do", "reply"])?;
    let reply = whole_number(field(value, "reply")?)? as usize;
    Ok(EventDraft::Return { reply })
}

/// The end of a request that a value is.
fn give_up_of(value: &Value) -> Result<EventDraft<'_>, PlanError>
    ensures event { IfOk result (λ draft. give_up_of (view value.now) ≡ Ok (event_drafted draft)) }
    ensures ready { IfOk result (λ draft. IsEventReady draft) }
    ensures refused { IfErr result (λ e. give_up_of (view value.now) ≡ Err e) }
{
    check_object(value, &["do", "op"])?;
    let op = op_of(field(value, "op")?)?;
    Ok(EventDraft::GiveUp { op })
}

/// The restart of a node that a value is.
fn node_restart_of(value: &Value) -> Result<EventDraft<'_>, PlanError>
    ensures event { IfOk result (λ draft. node_restart_of (view value.now) ≡ Ok (event_drafted draft)) }
    ensures ready { IfOk result (λ draft. IsEventReady draft) }
    ensures refused { IfErr result (λ e. node_restart_of (view value.now) ≡ Err e) }
{
    check_object(value, &["do", "node"])?;
    let node = node_name_text(field(value, "node")?)?;
    Ok(EventDraft::NodeRestart { node })
}

/// The restart of a proxy that a value is.
fn proxy_restart_of(value: &Value) -> Result<EventDraft<'_>, PlanError>
    ensures event { IfOk result (λ draft. proxy_restart_of (view value.now) ≡ Ok (event_drafted draft)) }
    ensures ready { IfOk result (λ draft. IsEventReady draft) }
    ensures refused { IfErr result (λ e. proxy_restart_of (view value.now) ≡ Err e) }
{
    check_object(value, &["do", "proxy"])?;
    let proxy = small_number(field(value, "proxy")?)?;
    Ok(EventDraft::ProxyRestart { proxy })
}

/// Looks at an event whole, without taking memory, and tells the first refusal.
pub fn event_draft(format: Format, value: &Value) -> Result<EventDraft<'_>, PlanError>
    ensures event { IfOk result (λ draft. event_of format (view value.now) ≡ Ok (event_drafted draft)) }
    ensures ready { IfOk result (λ draft. IsEventReady draft) }
    ensures refused { IfErr result (λ e. event_of format (view value.now) ≡ Err e) }
{
    let kind = text(field(value, "do")?)?;
    if kind == "clock" {
        clock_of(value)
    } else if kind == "client" {
        client_of(format, value)
    } else if kind == "deliver" {
        deliver_of(value)
    } else if kind == "return" {
        return_of(value)
    } else if kind == "give_up" {
        give_up_of(value)
    } else if kind == "node_restart" {
        node_restart_of(value)
    } else if kind == "proxy_restart" {
        proxy_restart_of(value)
    } else {
        Err(PlanError::WrongKind)
    }
}

impl EventDraft<'_> {
    /// The event, made.
    pub fn make(&self, alloc: Global) -> Result<Event, AllocError>
        requires { IsEventReady self.now }
        ensures { IfOk result (λ event. event ≡ event_drafted self.now) }
    {
        Ok(match *self {
            EventDraft::Clock { proxy, reading } => Event::Clock { proxy, reading },
            EventDraft::Client { proxy, request } => Event::Client {
                proxy,
                request: request.make(alloc)?,
            },
            EventDraft::Deliver { message, now } => Event::Deliver { message, now },
            EventDraft::Return { reply } => Event::Return { reply },
            EventDraft::GiveUp { op } => Event::GiveUp { op },
            EventDraft::NodeRestart { node } => Event::NodeRestart {
                node: make_node_name(alloc, node)?,
            },
            EventDraft::ProxyRestart { proxy } => Event::ProxyRestart { proxy },
        })
    }
}

/// Whether the value is an event.
fn is_event(format: Format, value: &Value) -> bool
    ensures { result ≡ is_ok (event_of format (view value.now)) }
{
    event_draft(format, value).is_ok()
}

/// Looks at each event whole, without taking memory, and tells the index of the first that is none.
pub fn check_events(format: Format, values: &[Value]) -> Result<(), PlanError>
    ensures accepted { OnOk result (IsOk (events_of format 0 (map view values.now))) }
    ensures refused { IfErr result (λ e. events_of format 0 (map view values.now) ≡ Err e) }
{
    for (index, value) in values.iter().enumerate() {
        if !is_event(format, value) {
            return Err(PlanError::BadEvent(index));
        }
    }
    Ok(())
}

/// The event that a value is.
fn make_event(alloc: Global, format: Format, value: &Value) -> Result<Event, AllocError>
    requires { IsOk (event_of format (view value.now)) }
    ensures { IfOk result (λ event. event_of format (view value.now) ≡ Ok event) }
{
    match event_draft(format, value) {
        Ok(draft) => draft.make(alloc),
        Err(_) => unreachable!(),
    }
}

/// The events that values are.
pub fn make_events(
    alloc: Global,
    format: Format,
    values: &[Value],
) -> Result<Vec<Event>, AllocError>
    requires { IsOk (events_of format 0 (map view values.now)) }
    ensures { IfOk result (λ events. events_of format 0 (map view values.now) ≡ Ok events.items) }
{
    let mut events = Vec::with_capacity(alloc, values.len())?;
    for value in values {
        events.push(make_event(alloc, format, value)?)?;
    }
    Ok(events)
}
