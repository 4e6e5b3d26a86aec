//! A look as text.
ghost use Rattle.std.specs.Prelude.{◌≡◌, ◌++◌, IfOk, OnOk};
ghost use Rattle.mr_watch.specs.Text.{seen_text, look_text};

use crate::next::push_schedule;
use crate::nodes::push_nodes;
use crate::premise_lines::push_premises;
use crate::proxies::push_proxies;
use crate::view::View;
use std::alloc::{AllocError, Global};

/// Adds the proxies, and the nodes of all pools.
#[tactic(auto, unfolding(crate::specs::Text::seen_text))]
fn push_seen(
    text: &mut Vec<u8>,
    colours: bool,
    view: &View<'_>,
    pools: u32,
) -> Result<(), AllocError>
    ensures { OnOk result (text.new.items ≡ text.old.items ++ seen_text colours view.now pools) }
{
    push_proxies(
        text,
        colours,
        view.at,
        view.moment,
        view.earlier,
        view.look.proxies,
    )?;
    text.extend_from_slice(b"\n")?;
    push_nodes(text, view.look.nodes, pools)?;
    Ok(())
}

/// Adds a look.
fn push_look(
    alloc: Global,
    text: &mut Vec<u8>,
    colours: bool,
    view: &View<'_>,
) -> Result<(), AllocError>
    ensures { OnOk result (text.new.items ≡ text.old.items ++ look_text colours view.now) }
{
    push_schedule(text, colours, &view.schedule, view.at)?;
    text.extend_from_slice(b"\n")?;
    push_seen(text, colours, view, view.schedule.hops() + 1)?;
    text.extend_from_slice(b"\n")?;
    push_premises(alloc, text, colours, view)?;
    Ok(())
}

/// A look as text of at most 80 columns: what the schedule says, a line for each proxy, a line for each node or each pool, and a line
/// for each premise.
pub fn look_text(alloc: Global, view: &View<'_>, colours: bool) -> Result<Vec<u8>, AllocError>
    ensures { IfOk result (λ text. text.items ≡ look_text colours view.now) }
{
    let mut text = Vec::new(alloc);
    push_look(alloc, &mut text, colours, view)?;
    Ok(text)
}
