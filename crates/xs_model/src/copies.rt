//! Copies of values.

ghost use Rattle.std.specs.Prelude.{◌≡◌, IfOk};

use crate::fields::Entries;
use crate::value::Value;
use std::alloc::{AllocError, Global};
use xs_data::Items;

/// An equal value.
pub fn copy(alloc: Global, value: &Value) -> Result<Value, AllocError>
    ensures { IfOk result (λ v. v ≡ value.now) }
{
    match value {
        Value::Null => Ok(Value::Null),
        Value::Bool(truth) => Ok(Value::Bool(*truth)),
        Value::Int(number) => Ok(Value::Int(*number)),
        Value::Text(text) => Ok(Value::Text(text.copy(alloc)?)),
        Value::List(members) => {
            let mut copies = Vec::with_capacity(alloc, members.len())?;
            for member in members.as_slice() {
                copies.push(copy(alloc, member)?)?;
            }
            Ok(Value::List(Items::from_vec(copies)))
        }
        Value::Map(members) => {
            let mut copies = Vec::with_capacity(alloc, members.len())?;
            for (key, member) in members.as_slice() {
                copies.push((key.copy(alloc)?, copy(alloc, member)?))?;
            }
            Ok(Value::Map(Entries::from_sorted(copies)))
        }
    }
}
