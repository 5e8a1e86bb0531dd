//! Laws of the definitions that the contracts cite, as contracts of calls that change nothing and
//! answer nothing.

ghost use Rattle.std.specs.Prelude.{◌≡◌, ◌↔◌};
ghost use Rattle.xs_model.specs.Compact.{compact_text};
ghost use Rattle.xs_model.specs.Laws.{CompactTextIsInjective, EqualityIsOfValues, HasNumbersOf64Bits, LastPutWins};

use crate::value::Value;

/// The test of equality is true exactly where both values are the same, so `$eq` compares values.
pub fn equality_is_of_values()
    ensures { EqualityIsOfValues }
{}

/// Unequal values whose numbers are of 64 bits have unequal compact texts.
pub fn compact_text_is_injective()
    ensures { CompactTextIsInjective }
{}

/// The numbers of a value in a program are of 64 bits, however deep they stand. This call and the
/// next read the whole of what they are given, to no other end than to show what they ensure.
pub fn numbers_are_of_64_bits(value: &Value)
    ensures { HasNumbersOf64Bits value.now }
{
    match value {
        Value::Int(number) => {
            let _read = *number;
        }
        Value::List(members) => {
            for member in members.as_slice() {
                numbers_are_of_64_bits(member);
            }
        }
        Value::Map(members) => {
            for (_, member) in members.as_slice() {
                numbers_are_of_64_bits(member);
            }
        }
        _ => {}
    }
}

/// Two values in a program have the same compact text exactly where they are the same, so what
/// `same` and `$eq` answer is what a reader of the two texts sees.
pub fn compact_texts_tell_values_apart(a: &Value, b: &Value)
    ensures { (compact_text a.now ≡ compact_text b.now) ↔ (a.now ≡ b.now) }
{
    numbers_are_of_64_bits(a);
    numbers_are_of_64_bits(b);
}

/// Of what was put under a key the last counts, and nothing is changed under another key.
pub fn last_put_wins<T>()
    ensures { LastPutWins T }
{}
