//! Members of maps: a key, and what stands under it.

ghost use Rattle.std.specs.Prelude.{◌≡◌, ◌++◌, OnOk};
ghost use Rattle.serde_json.specs.Data.{null, string};
ghost use Rattle.snapshot_text.specs.Tokens.{data_tokens, keyed_data_tokens};
ghost use Rattle.snapshot_text.specs.ValueData.{number_data, optional_data, value_data};

use crate::values::put_value;
use json::Writer;
use std::alloc::AllocError;
use xs_data::Text;
use xs_model::Value;

/// A member that is a number.
pub(crate) fn put_number(writer: &mut Writer, key: &str, number: u64) -> Result<(), AllocError>
    ensures before { writer.new.before ≡ writer.old.before }
    ensures tokens { OnOk result (writer.new.tokens
        ≡ writer.old.tokens ++ keyed_data_tokens (key.now, number_data number)) }
{
    writer.key(key)?;
    writer.u64(number)
}

/// A member that is a text.
pub(crate) fn put_text(writer: &mut Writer, key: &str, text: &str) -> Result<(), AllocError>
    ensures before { writer.new.before ≡ writer.old.before }
    ensures tokens { OnOk result (writer.new.tokens
        ≡ writer.old.tokens ++ keyed_data_tokens (key.now, string text.now)) }
{
    writer.key(key)?;
    writer.string(text)
}

/// A member that is a text, or null where there is none.
pub(crate) fn put_name(
    writer: &mut Writer,
    key: &str,
    name: &Option<Text>,
) -> Result<(), AllocError>
    ensures before { writer.new.before ≡ writer.old.before }
    ensures tokens { OnOk result (writer.new.tokens
        ≡ writer.old.tokens ++ keyed_data_tokens (key.now, optional_data string name.now)) }
{
    match name {
        Some(name) => put_text(writer, key, name.as_str()),
        None => put_null(writer, key),
    }
}

/// A member that is null.
pub(crate) fn put_null(writer: &mut Writer, key: &str) -> Result<(), AllocError>
    ensures before { writer.new.before ≡ writer.old.before }
    ensures tokens { OnOk result (writer.new.tokens
        ≡ writer.old.tokens ++ keyed_data_tokens (key.now, null)) }
{
    writer.key(key)?;
    writer.null()
}

/// A member that is a value.
pub(crate) fn put_under(writer: &mut Writer, key: &str, value: &Value) -> Result<(), AllocError>
    ensures before { writer.new.before ≡ writer.old.before }
    ensures tokens { OnOk result (writer.new.tokens
        ≡ writer.old.tokens ++ keyed_data_tokens (key.now, value_data value.now)) }
{
    writer.key(key)?;
    put_value(writer, value)
}
