//! The names of nodes that values of JSON are.
ghost use Rattle.std.specs.Prelude.{◌≡◌, Ok, Err, IfOk, IfErr};
ghost use Rattle.serde_json.specs.View.{view};
ghost use Rattle.mr_scripts.specs.Texts.{node_name_of_text, node_name_of};

use mr_configs::fields::text;
use mr_configs::{PlanError, is_node_name};
use mr_pools::{NodeName, PoolError};
use serde_json::Value;
use std::alloc::{AllocError, Global};

/// The text of the node's name that a value is.
pub fn node_name_text(value: &Value) -> Result<&str, PlanError>
    ensures name { IfOk result (λ text. node_name_of (view value.now) ≡ Ok text.now) }
    ensures stands { IfOk result (λ text. node_name_of_text text.now ≡ Ok text.now) }
    ensures refused { IfErr result (λ e. node_name_of (view value.now) ≡ Err e) }
{
    let text = text(value)?;
    if !is_node_name(text.as_bytes()) {
        return Err(PlanError::WrongKind);
    }
    Ok(text)
}

/// The name that a text is.
#[tactic(auto, using(crate::proofs::TextLemmas::node_name_made))]
pub fn make_node_name(alloc: Global, text: &str) -> Result<NodeName, AllocError>
    requires { node_name_of_text text.now ≡ Ok text.now }
    ensures { IfOk result (λ name. name ≡ text.now) }
{
    match NodeName::new(alloc, text.as_bytes()) {
        Ok(name) => Ok(name),
        Err(PoolError::OutOfMemory) => Err(AllocError),
        Err(_) => unreachable!(),
    }
}
