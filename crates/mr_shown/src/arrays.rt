//! Arrays of what is shown: the one loop over them.
ghost use Rattle.std.specs.Prelude.{◌≡◌, IfOk, map};
ghost use Rattle.serde_json.specs.Data.{Data, array};
ghost use Rattle.serde_json.specs.View.{view, items_of};

use serde_json::Value;
use std::alloc::{AllocError, Global};

/// What is shown as JSON.
pub trait Shown {
    /// How it is shown: in a `Format` where it has data, and else in the one way that there is, `()`.
    type Style: Copy;

    ghost json: { Self.Style → Self → Data };

    /// The JSON.
    fn value(&self, alloc: Global, style: Self::Style) -> Result<Value, AllocError>
        ensures { IfOk result (λ value. view value ≡ json style self.now) };
}

/// The array of these, in order.
pub fn array_of<T: Shown>(alloc: Global, style: T::Style, all: &[T]) -> Result<Value, AllocError>
    ensures { IfOk result (λ value. view value ≡ array (items_of (map (T.Shown.json style) all.now))) }
{
    let mut values = Vec::with_capacity(alloc, all.len())?;
    for one in all {
        values.push(one.value(alloc, style)?)?;
    }
    Ok(Value::Array(values))
}
