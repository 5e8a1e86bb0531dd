//! Values, read from JSON and written as compact text.

ghost use Rattle.std.specs.Prelude.{◌≡◌, ◌≢◌, ◌++◌, IfOk, IfErr, OnOk};
ghost use Rattle.xs_model.specs.Compact.{compact_text};
ghost use Rattle.ordered_json.specs.Faults.{HasFault};
ghost use Rattle.ordered_json.specs.Meaning.{IsMeaningless};
ghost use Rattle.office_types.specs.JsonValues.{MeansValue, json_value};
ghost use Rattle.office_types.specs.Tokens.{tokens_of};

use json::Writer;
use ordered_json::{JsonFault, Member, OrderedJson};
use std::alloc::{AllocError, Global};
use xs_data::Items;
use xs_model::{Fields, Value};

/// Bytes, as they are written.
pub type Bytes = Items<u8>;

/// Reads a value from a JSON text. The cost is that of `ordered_json::read` and of a copy, and each
/// member of an object moves those with greater keys that stand before it.
pub fn read_value(alloc: Global, text: &[u8]) -> Result<Value, JsonFault>
    ensures ok { IfOk result (λ value. MeansValue text.now value) }
    ensures fault { IfErr result (λ fault. HasFault text.now fault) }
    ensures refused { IfErr result (λ fault. fault ≢ JsonFault.Memory → IsMeaningless text.now) }
{
    let json = ordered_json::read(alloc, text)?;
    match value_of(alloc, &json) {
        Ok(value) => Ok(value),
        Err(_) => Err(JsonFault::Memory),
    }
}

// The value that JSON means.
fn value_of(alloc: Global, json: &OrderedJson) -> Result<Value, AllocError>
    ensures { IfOk result (λ value. value ≡ json_value json.now) }
{
    match json {
        OrderedJson::Null { .. } => Ok(Value::Null),
        OrderedJson::Bool { value, .. } => Ok(Value::Bool(*value)),
        OrderedJson::Int { value, .. } => Ok(Value::Int(*value)),
        OrderedJson::Text { text, .. } => Ok(Value::Text(text.copy(alloc)?)),
        OrderedJson::List { items, .. } => {
            let mut values = Vec::with_capacity(alloc, items.len())?;
            for item in items.as_slice() {
                values.push(value_of(alloc, item)?)?;
            }
            Ok(Value::List(Items::from_vec(values)))
        }
        OrderedJson::Object { members, .. } => {
            let mut fields = Fields::new(alloc);
            for member in members.as_slice() {
                let value = value_of(alloc, &member.value)?;
                let Ok(()) = fields.put(member.key.copy(alloc)?, value) else {
                    return Err(AllocError);
                };
            }
            Ok(Value::Map(fields))
        }
    }
}

/// Writes a value as compact text, in one pass.
pub fn write_value(alloc: Global, value: &Value) -> Result<Bytes, AllocError>
    ensures { IfOk result (λ bytes. bytes ≡ compact_text value.now) }
{
    Ok(Bytes::from_vec(with_value(Vec::new(alloc), value)?))
}

/// The bytes, and behind them a value as compact text.
pub(crate) fn with_value(bytes: Vec<u8>, value: &Value) -> Result<Vec<u8>, AllocError>
    ensures { IfOk result (λ longer. longer.items ≡ bytes.items ++ compact_text value.now) }
{
    let mut writer = Writer::new(bytes);
    put_value(&mut writer, value)?;
    Ok(writer.into_inner())
}

// Writes the tokens of a value.
fn put_value(writer: &mut Writer, value: &Value) -> Result<(), AllocError>
    ensures before { writer.new.before ≡ writer.old.before }
    ensures tokens { OnOk result (writer.new.tokens ≡ writer.old.tokens ++ tokens_of value.now) }
{
    match value {
        Value::Null => writer.null(),
        Value::Bool(truth) => writer.boolean(*truth),
        Value::Int(number) => writer.i64(*number),
        Value::Text(text) => writer.string(text.as_str()),
        Value::List(members) => {
            writer.begin_array()?;
            for member in members.as_slice() {
                put_value(writer, member)?;
            }
            writer.end_array()
        }
        Value::Map(members) => {
            writer.begin_object()?;
            for (key, member) in members.as_slice() {
                writer.key(key.as_str())?;
                put_value(writer, member)?;
            }
            writer.end_object()
        }
    }
}
