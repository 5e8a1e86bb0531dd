//! How deep a value nests.

ghost use Rattle.std.specs.Prelude.{◌≡◌, min};
ghost use Rattle.xs_model.specs.Compact.{nesting};

use crate::value::Value;

/// How deep a value nests: 0 for a scalar, 1 for an empty list or map; the greatest `u32` where it
/// is more. It takes no memory.
pub fn depth(value: &Value) -> u32
    ensures { result ≡ min (nesting value.now) u32.MAX }
{
    let mut deepest: u32 = 0;
    match value {
        Value::List(members) => {
            for member in members.as_slice() {
                deepest = depth(member).max(deepest);
            }
            deepest.saturating_add(1)
        }
        Value::Map(members) => {
            for (_, member) in members.as_slice() {
                deepest = depth(member).max(deepest);
            }
            deepest.saturating_add(1)
        }
        _ => 0,
    }
}
