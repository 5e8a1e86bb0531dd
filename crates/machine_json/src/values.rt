//! Values from JSON that is read already.

ghost use Rattle.std.specs.Prelude.{◌≡◌, IfOk};
ghost use Rattle.machine_json.specs.JsonValues.{json_value, pairs_of, put_each};

use ordered_json::OrderedJson;
use std::alloc::{AllocError, Global};
use std::collections::BTreeMap;
use xs_data::{Items, Text};
use xs_model::{Fields, Value};

/// The value that JSON gives where any JSON may stand. The cost is that of a copy, and for each
/// member of an object that of a look-up in an ordered map.
pub fn json_value(alloc: Global, json: &OrderedJson) -> Result<Value, AllocError>
    ensures { IfOk result (λ value. value ≡ json_value json.now) }
{
    match json {
        OrderedJson::Null { .. } => Ok(Value::Null),
        OrderedJson::Bool { value, .. } => Ok(Value::Bool(*value)),
        OrderedJson::Int { value, .. } => Ok(Value::Int(*value)),
        OrderedJson::Text { text, .. } => Ok(Value::Text(text.copy(alloc)?)),
        OrderedJson::List { items, .. } => {
            let mut values = Vec::with_capacity(alloc, items.len())?;
            for item in items.as_slice() {
                values.push(json_value(alloc, item)?)?;
            }
            Ok(Value::List(Items::from_vec(values)))
        }
        OrderedJson::Object { members, .. } => {
            let mut values = BTreeMap::new(alloc);
            for member in members.as_slice() {
                let value = json_value(alloc, &member.value)?;
                let key = String::from_str(alloc, member.key.as_str())?;
                let Ok(_) = values.insert(key, value) else {
                    return Err(AllocError);
                };
            }
            Ok(Value::Map(fields_by_key(alloc, values)?))
        }
    }
}

/// The members of a map, in the order of their keys, so that each is put behind the last one.
fn fields_by_key(alloc: Global, values: BTreeMap<String, Value>) -> Result<Fields, AllocError>
    ensures { IfOk result (λ fields. fields ≡ put_each (pairs_of values.entries)) }
{
    let mut fields = Fields::new(alloc);
    for (key, value) in values {
        let Ok(()) = fields.put(Text::from_string(key), value) else {
            return Err(AllocError);
        };
    }
    Ok(fields)
}
