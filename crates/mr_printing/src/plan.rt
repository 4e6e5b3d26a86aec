//! The text of a plan.
ghost use Rattle.std.specs.Prelude.{◌≡◌, ◌++◌, IfOk, OnOk, IsErrOf};
ghost use Rattle.std.specs.List.{All};
ghost use Rattle.mr_proxy.specs.Sheets.{IsPlaced};
ghost use Rattle.mr_printing.specs.PlanText.{leg_lines, plan_shown, plan_text};
ghost use Rattle.mr_words.specs.Printing.{WritesAtOnce};

use crate::line::{push_leg_line, push_phase_line, told_hop};
use mr_configs::{Config, RequestPlan};
use mr_pools::Routing;
use mr_proxy::LegSheet;
use mr_text::{Request, Sink};
use mr_words::{PrintFault, write_at_once};
use std::alloc::{AllocError, Global};

/// Adds the lines of the legs, in order.
fn push_leg_lines(
    text: &mut Vec<u8>,
    routing: &Routing,
    sheets: &[LegSheet],
) -> Result<(), AllocError>
    requires { All (IsPlaced routing.now) sheets.now }
    ensures { OnOk result (text.new.items ≡ text.old.items ++ leg_lines routing.now sheets.now) }
{
    for sheet in sheets {
        push_leg_line(text, routing, sheet)?;
    }
    Ok(())
}

/// The text of a plan, whole. The routing has its nodes.
fn text_of_plan(alloc: Global, config: &Config, plan: &RequestPlan) -> Result<Vec<u8>, AllocError>
    requires { All (IsPlaced config.now.routing) plan.now.sheets }
    ensures { IfOk result (λ text. text.items ≡ plan_text config.now plan.now) }
{
    let mut text = Vec::new(alloc);
    let hop = told_hop(config.schedule().hops(), plan.hop());
    push_phase_line(&mut text, plan.phase(), hop, plan.reading())?;
    push_leg_lines(&mut text, config.routing(), plan.sheets())?;
    Ok(text)
}

/// Writes where a request goes at a reading of a clock, in seconds since the epoch: the phase, with the hop that it is of
/// where there is more than one, and below it each leg with its place, its side and the name of its node. A quit has no
/// legs. The text is whole before the one call that writes it.
pub fn write_plan<W: Sink>(
    alloc: Global,
    config: &Config,
    at: u64,
    request: Request,
    writer: &mut W,
) -> Result<(), PrintFault>
    ensures plan { WritesAtOnce (plan_shown config.now at request) (W.told writer.old) result (W.told writer.new) }

    // The writer is not even touched where memory is refused.
    ensures memory { IsErrOf result PrintFault.Memory → writer.new ≡ writer.old }
{
    let Ok(plan) = mr_configs::plan(alloc, config, at, request) else {
        return Err(PrintFault::Memory);
    };
    let text = text_of_plan(alloc, config, &plan)?;
    write_at_once(text.as_slice(), writer)
}
