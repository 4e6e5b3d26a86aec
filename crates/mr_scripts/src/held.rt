//! Items that nodes hold at the beginning, as JSON values are them.
ghost use Rattle.std.specs.Prelude.{◌≡◌, Ok, Err, IfOk, IfErr, OnOk, IsOk, map};
ghost use Rattle.serde_json.specs.View.{view};
ghost use Rattle.mr_scripts.specs.Lists.{all_of};
ghost use Rattle.mr_scripts.specs.Setups.{held_of};
ghost use Rattle.mr_scripts.specs.SetupDraft.{held_drafted, IsHeldReady};

use crate::blocks::{BlockDraft, block_draft};
use crate::node_names::{make_node_name, node_name_text};
use crate::numbers::small_number;
use crate::texts::{key_text, make_key};
use mr_configs::PlanError;
use mr_configs::fields::{check_object, field};
use mr_shown::Format;
use mr_world::HeldItem;
use serde_json::Value;
use std::alloc::{AllocError, Global};

/// An item that was looked at whole, and is yet to be made.
#[derive(Clone, Copy)]
pub struct HeldDraft<'a> {
    /// The node's name.
    pub node: &'a str,
    /// The text of the key.
    pub key: &'a str,
    /// The client's number.
    pub flags: u32,
    /// The block.
    pub block: BlockDraft<'a>,
}

/// Looks at an item whole, without taking memory, and tells the first refusal.
fn held_draft(format: Format, value: &Value) -> Result<HeldDraft<'_>, PlanError>
    ensures item { IfOk result (λ draft. held_of format (view value.now) ≡ Ok (held_drafted draft)) }
    ensures ready { IfOk result (λ draft. IsHeldReady draft) }
    ensures refused { IfErr result (λ e. held_of format (view value.now) ≡ Err e) }
{
    check_object(value, &["data", "flags", "key", "node"])?;
    let block = field(value, "data")?;
    let flags = field(value, "flags")?;
    let key = field(value, "key")?;
    let node = field(value, "node")?;
    Ok(HeldDraft {
        block: block_draft(format, block)?,
        flags: small_number(flags)?,
        key: key_text(key)?,
        node: node_name_text(node)?,
    })
}

impl HeldDraft<'_> {
    /// The item, made.
    fn make(&self, alloc: Global) -> Result<HeldItem, AllocError>
        requires { IsHeldReady self.now }
        ensures { IfOk result (λ item. item ≡ held_drafted self.now) }
    {
        Ok(HeldItem {
            node: make_node_name(alloc, self.node)?,
            key: make_key(alloc, self.key)?,
            flags: self.flags,
            block: self.block.make(alloc)?,
        })
    }
}

/// Looks at each item whole, without taking memory, and tells the first refusal.
pub fn check_held(format: Format, values: &[Value]) -> Result<(), PlanError>
    ensures accepted { OnOk result (IsOk (all_of (held_of format) (map view values.now))) }
    ensures refused { IfErr result (λ e. all_of (held_of format) (map view values.now) ≡ Err e) }
{
    for value in values {
        match held_draft(format, value) {
            Ok(_) => {}
            Err(refusal) => return Err(refusal),
        }
    }
    Ok(())
}

/// The item that a value is.
fn make_item(alloc: Global, format: Format, value: &Value) -> Result<HeldItem, AllocError>
    requires { IsOk (held_of format (view value.now)) }
    ensures { IfOk result (λ item. held_of format (view value.now) ≡ Ok item) }
{
    match held_draft(format, value) {
        Ok(draft) => draft.make(alloc),
        Err(_) => unreachable!(),
    }
}

/// The items that values are.
pub fn make_held(
    alloc: Global,
    format: Format,
    values: &[Value],
) -> Result<Vec<HeldItem>, AllocError>
    requires { IsOk (all_of (held_of format) (map view values.now)) }
    ensures { IfOk result (λ items. all_of (held_of format) (map view values.now) ≡ Ok items.items) }
{
    let mut items = Vec::with_capacity(alloc, values.len())?;
    for value in values {
        items.push(make_item(alloc, format, value)?)?;
    }
    Ok(items)
}
