//! Values as they stand in snapshots.

ghost use Rattle.std.specs.Prelude.{◌≡◌, ◌++◌, OnOk};
ghost use Rattle.snapshot_text.specs.Tokens.{data_tokens};
ghost use Rattle.snapshot_text.specs.ValueData.{value_data};

use json::Writer;
use std::alloc::AllocError;
use xs_model::Value;

/// Writes a value.
pub(crate) fn put_value(writer: &mut Writer, value: &Value) -> Result<(), AllocError>
    ensures before { writer.new.before ≡ writer.old.before }
    ensures tokens { OnOk result
        (writer.new.tokens ≡ writer.old.tokens ++ data_tokens (value_data value.now)) }
{
    match value {
        Value::Null => writer.null(),
        Value::Bool(truth) => writer.boolean(*truth),
        Value::Int(number) => writer.i64(*number),
        Value::Text(text) => writer.string(text.as_str()),
        Value::List(items) => {
            writer.begin_array()?;
            for item in items.as_slice() {
                put_value(writer, item)?;
            }
            writer.end_array()
        }
        Value::Map(members) => {
            writer.begin_object()?;
            for (key, member) in members.as_slice() {
                writer.key(key.as_str())?;
                put_value(writer, member)?;
            }
            writer.end_object()
        }
    }
}
