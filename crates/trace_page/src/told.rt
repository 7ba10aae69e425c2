//! What has a value of JSON, and lists of that.

ghost use Rattle.std.specs.Prelude.{◌≡◌, ◌++◌, IfOk, OnOk, map};
ghost use Rattle.serde_json.specs.View.{view};
ghost use Rattle.trace_page.specs.Pieces.{list_by};

use serde_json::Value;
use std::alloc::{AllocError, Global};

/// What has a value of JSON.
pub trait Told {
    ghost use Rattle.serde_json.specs.Data.{Data};

    /// Its value.
    ghost json: { Self → Data };

    /// Returns its value.
    fn value(&self, alloc: Global) -> Result<Value, AllocError>
        ensures { IfOk result (λ v. view v ≡ json self.now) };
}

/// Returns the list of the values: `[3,1]` for 3 and 1.
pub fn list<T: Told>(alloc: Global, items: &[T]) -> Result<Value, AllocError>
    ensures { IfOk result (λ v. view v ≡ list_by T.json items.now) }
{
    let mut list = Vec::with_capacity(alloc, items.len())?;
    for item in items {
        list.push(item.value(alloc)?)?;
    }
    Ok(Value::Array(list))
}

/// Adds the values of items to others.
pub fn push_all<T: Told>(
    values: &mut Vec<Value>,
    alloc: Global,
    items: &[T],
) -> Result<(), AllocError>
    ensures { OnOk result
        (map view values.new.items ≡ map view values.old.items ++ map T.json items.now) }
{
    for item in items {
        values.push(item.value(alloc)?)?;
    }
    Ok(())
}

impl Told for u32 {
    ghost use Rattle.trace_page.specs.Pieces.{natural};

    ghost json = { natural };

    fn value(&self, _alloc: Global) -> Result<Value, AllocError> {
        Ok(Value::from(*self))
    }
}

impl Told for u64 {
    ghost use Rattle.trace_page.specs.Pieces.{natural};

    ghost json = { natural };

    fn value(&self, _alloc: Global) -> Result<Value, AllocError> {
        Ok(Value::from(*self))
    }
}

impl Told for usize {
    ghost use Rattle.trace_page.specs.Pieces.{natural};

    ghost json = { natural };

    fn value(&self, _alloc: Global) -> Result<Value, AllocError> {
        Ok(Value::from(*self))
    }
}

/// The largest number that a browser reads exactly.
const MOST_EXACT: i64 = 9_007_199_254_740_991;

impl Told for i64 {
    ghost use Rattle.trace_page.specs.Pieces.{value_json};

    ghost json = { value_json };

    fn value(&self, alloc: Global) -> Result<Value, AllocError> {
        if -MOST_EXACT <= *self && *self <= MOST_EXACT {
            return Ok(Value::from(*self));
        }
        let digits = format!(in alloc; "{self}")?;
        Ok(Value::String(digits))
    }
}
