//! What became of events, the premises and the verdict as JSON.
ghost use Rattle.std.specs.Prelude.{◌≡◌, IfOk};
ghost use Rattle.serde_json.specs.Data.{array};
ghost use Rattle.serde_json.specs.View.{view};
ghost use Rattle.mr_shown.specs.Shown.{note_json, notes_json, premises_json, verdict_json};

use crate::arrays::{Shown, array_of};
use crate::objects::{Part, object_of, object_with};
use crate::verdict::KeptVerdict;
use mr_world::{Note, Premises};
use serde_json::Value;
use std::alloc::{AllocError, Global};

impl Shown for Note {
    type Style = ();

    ghost json = { λ _ note. note_json note };

    fn value(&self, alloc: Global, _style: ()) -> Result<Value, AllocError> {
        match self {
            Note::Nothing => Value::try_from_str(alloc, "nothing"),
            Note::Issued { op, first, count } => object_of(
                alloc,
                &[
                    ("issued", Part::Op(*op)),
                    ("messages", Part::Numbers(&[*first as u64, *count as u64])),
                ],
            ),
            Note::Performed { reply } => {
                object_of(alloc, &[("performed", Part::Number(*reply as u64))])
            }
            Note::Waiting => Value::try_from_str(alloc, "waiting"),
            Note::Answered { op } => object_of(alloc, &[("answered", Part::Op(*op))]),
            Note::Stranger => Value::try_from_str(alloc, "stranger"),
        }
    }
}

/// What became of each event.
pub fn notes_value(alloc: Global, notes: &[Note]) -> Result<Value, AllocError>
    ensures { IfOk result (λ value. view value ≡ array (notes_json notes.now)) }
{
    array_of(alloc, (), notes)
}

/// Which premises hold.
pub fn premises_value(alloc: Global, premises: Premises) -> Result<Value, AllocError>
    ensures { IfOk result (λ value. view value ≡ premises_json premises) }
{
    object_of(
        alloc,
        &[
            ("forward", Part::Flag(premises.forward)),
            ("near", Part::Flag(premises.near)),
            ("new_empty", Part::Flag(premises.new_empty)),
            ("same", Part::Flag(premises.same)),
        ],
    )
}

/// What the history says of its acknowledged deletes.
pub fn verdict_value(alloc: Global, verdict: &KeptVerdict) -> Result<Value, AllocError>
    ensures { IfOk result (λ value. view value ≡ verdict_json verdict.now) }
{
    match verdict {
        KeptVerdict::Safe => Value::try_from_str(alloc, "safe"),
        KeptVerdict::Stale { get, key, delete } => {
            let stale = object_of(
                alloc,
                &[
                    ("delete", Part::Op(*delete)),
                    ("get", Part::Op(*get)),
                    ("key", Part::Bytes(key.as_bytes())),
                ],
            );
            object_with(alloc, &[], "stale", stale)
        }
        KeptVerdict::Invented { get, key } => {
            let invented = object_of(
                alloc,
                &[
                    ("get", Part::Op(*get)),
                    ("key", Part::Bytes(key.as_bytes())),
                ],
            );
            object_with(alloc, &[], "invented", invented)
        }
    }
}
