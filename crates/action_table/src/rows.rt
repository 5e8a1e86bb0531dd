//! The rows of named values by their places.

ghost use Rattle.std.specs.Prelude.{◌≡◌, ◌<◌, Some, length, slice_get};

use xs_model::Names;

/// The name and the value at a place.
pub(crate) fn row_at<T>(names: &Names<T>, place: usize) -> (&str, &T)
    requires { place < length names.now }
    ensures { slice_get names.now place ≡ Some (result.0.now, result.1.now) }
{
    match names.at(place) {
        Some(row) => row,
        None => unreachable!(),
    }
}
