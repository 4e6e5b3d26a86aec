//! The pools of a configuration: objects that list the names of their nodes.
ghost use Rattle.std.specs.Prelude.{◌≡◌, true, [], ◌∷◌, Ok, Err, IfOk, IfErr, map};
ghost use Rattle.serde_json.specs.View.{view, members_view};
ghost use Rattle.mr_configs.specs.Pools.{are_node_names, have_no_repeat, stand_apart, pool_of_names, names_in, are_texts, pool_in, are_pools, pools_check};

use crate::error::PlanError;
use crate::fields::{check_object, field, list};
use crate::names::{is_among, is_node_name, name_in};
use mr_pools::{MAX_NODES, NodeName, Pool, PoolError};
use serde_json::{Map, Value};
use std::alloc::{AllocError, Global};

/// Whether each value is a text.
fn are_texts(values: &[Value]) -> bool
    ensures { result ≡ are_texts (map view values.now) }
{
    for value in values {
        if !value.is_string() {
            return false;
        }
    }
    true
}

/// Whether each value names a node.
fn are_node_names(values: &[Value]) -> bool
    ensures { result ≡ are_node_names (names_in (map view values.now)) }
{
    for value in values {
        if !is_node_name(name_in(value).as_bytes()) {
            return false;
        }
    }
    true
}

/// Whether no name stands among those after it.
fn have_no_repeat(values: &[Value]) -> bool
    ensures { result ≡ have_no_repeat (names_in (map view values.now)) }
{
    for (index, value) in values.iter().enumerate() {
        if is_among(&values[index + 1..], name_in(value)) {
            return false;
        }
    }
    true
}

/// Whether no name of these is one of the others.
pub fn stand_apart(values: &[Value], others: &[Value]) -> bool
    ensures { result ≡ stand_apart (names_in (map view values.now)) (names_in (map view others.now)) }
{
    for value in values {
        if is_among(others, name_in(value)) {
            return false;
        }
    }
    true
}

/// Why the names make no pool, in the order of the checks of a pool.
fn check_names(values: &[Value]) -> Result<(), PoolError>
    ensures accepted { IfOk result
        (λ _. pool_of_names (names_in (map view values.now)) ≡ Ok (names_in (map view values.now))) }
    ensures refused { IfErr result (λ e. pool_of_names (names_in (map view values.now)) ≡ Err (PlanError.BadPool e)) }
{
    if !are_node_names(values) {
        Err(PoolError::BadName)
    } else if values.is_empty() {
        Err(PoolError::EmptyPool)
    } else if values.len() > MAX_NODES {
        Err(PoolError::TooManyNodes)
    } else if !have_no_repeat(values) {
        Err(PoolError::RepeatedName)
    } else {
        Ok(())
    }
}

/// The names of the pool that a value is: each a text, and together a pool's.
pub fn names_of_pool(value: &Value) -> Result<&[Value], PlanError>
    ensures names { IfOk result (λ values. pool_in (view value.now) ≡ Ok (names_in (map view values.now))) }
    ensures pool { IfOk result
        (λ values. pool_of_names (names_in (map view values.now)) ≡ Ok (names_in (map view values.now))) }
    ensures refused { IfErr result (λ e. pool_in (view value.now) ≡ Err e) }
{
    check_object(value, &["servers"])?;
    let values = list(field(value, "servers")?)?;
    if !are_texts(values) {
        return Err(PlanError::WrongKind);
    }
    match check_names(values) {
        Ok(()) => Ok(values),
        Err(refusal) => Err(PlanError::BadPool(refusal)),
    }
}

/// Looks whether each member is a pool.
fn are_pools(members: &Map<String, Value>) -> Result<(), PlanError>
    ensures { result ≡ are_pools (members_view members.now.entries) }
{
    for (_, value) in members {
        names_of_pool(value)?;
    }
    Ok(())
}

/// Looks whether the value is an object of pools; the first in the order of their names that is none is told.
pub fn check_pools(value: &Value) -> Result<(), PlanError>
    ensures { result ≡ pools_check (view value.now) }
{
    are_pools(value.as_object().ok_or(PlanError::WrongKind)?)
}

/// The name of a node that a value holds.
#[tactic(auto, using(crate::proofs::PoolLemmas::name_made))]
fn make_name(alloc: Global, value: &Value) -> Result<NodeName, AllocError>
    requires { are_node_names (names_in (view value.now ∷ [])) ≡ true }
    ensures { IfOk result (λ name. names_in (view value.now ∷ []) ≡ name ∷ []) }
{
    match NodeName::new(alloc, name_in(value).as_bytes()) {
        Ok(name) => Ok(name),
        Err(PoolError::OutOfMemory) => Err(AllocError),
        Err(_) => unreachable!(),
    }
}

/// The names of nodes that the values hold.
fn make_names(alloc: Global, values: &[Value]) -> Result<Vec<NodeName>, AllocError>
    requires { are_node_names (names_in (map view values.now)) ≡ true }
    ensures { IfOk result (λ names. names.items ≡ names_in (map view values.now)) }
{
    let mut names = Vec::with_capacity(alloc, values.len())?;
    for value in values {
        names.push(make_name(alloc, value)?)?;
    }
    Ok(names)
}

/// The pool of names that make one.
#[tactic(auto, using(crate::proofs::PoolLemmas::pool_made, crate::proofs::PoolLemmas::names_made))]
pub fn make_pool(alloc: Global, values: &[Value]) -> Result<Pool, AllocError>
    requires { pool_of_names (names_in (map view values.now)) ≡ Ok (names_in (map view values.now)) }
    ensures { IfOk result (λ pool. pool ≡ names_in (map view values.now)) }
{
    match Pool::new(make_names(alloc, values)?) {
        Ok(pool) => Ok(pool),
        Err(_) => unreachable!(),
    }
}
