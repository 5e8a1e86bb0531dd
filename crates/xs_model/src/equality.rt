//! Whether two values are equal.

ghost use Rattle.std.specs.Prelude.{◌≡◌, Decides};
ghost use Rattle.xs_model.specs.Equality.{same};

use crate::value::Value;

/// Whether two values are equal. It takes no memory, and looks at each of their bytes at most once.
pub fn same(a: &Value, b: &Value) -> bool
    ensures test { result ≡ same a.now b.now }
    ensures decides { Decides result (a.now ≡ b.now) }
{
    match (a, b) {
        (Value::Null, Value::Null) => true,
        (Value::Bool(x), Value::Bool(y)) => *x == *y,
        (Value::Int(x), Value::Int(y)) => *x == *y,
        (Value::Text(x), Value::Text(y)) => x.as_bytes() == y.as_bytes(),
        (Value::List(xs), Value::List(ys)) => {
            let ys = ys.as_slice();
            if xs.len() != ys.len() {
                return false;
            }
            for (place, x) in xs.as_slice().iter().enumerate() {
                if !same(x, &ys[place]) {
                    return false;
                }
            }
            true
        }
        (Value::Map(xs), Value::Map(ys)) => {
            let ys = ys.as_slice();
            if xs.len() != ys.len() {
                return false;
            }
            for (place, (key, x)) in xs.as_slice().iter().enumerate() {
                let (other, y) = &ys[place];
                if key.as_bytes() != other.as_bytes() || !same(x, y) {
                    return false;
                }
            }
            true
        }
        _ => false,
    }
}
