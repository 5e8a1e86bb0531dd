//! Look-ups among an actor's children, which are pairs of an id and a number.

ghost use Rattle.std.specs.Prelude.{◌≡◌, ◌≤◌, ℕ, List, OnOk, filter, not};
ghost use Rattle.std.specs.Map.{lookup};
ghost use Rattle.std.specs.Str.{bytes_eq};
ghost use Rattle.office_books.specs.Books.{vec_room};
ghost use Rattle.actor_tree.specs.Kids.{and_numbers, id_among};

use std::alloc::AllocError;
use std::collections::BTreeSet;
use xs_data::Text;

/// The first child of an id.
pub(crate) fn child_among(kids: &[(Text, u64)], id: &[u8]) -> Option<u64>
    ensures { result ≡ lookup (bytes_eq id.now) kids.now }
{
    for (other, child) in kids {
        if id == other.as_bytes() {
            return Some(*child);
        }
    }
    None
}

/// The id of the first child of a number; the empty one where there is no such child.
pub(crate) fn id_among(kids: &[(Text, u64)], number: u64) -> &str
    ensures { result.now ≡ id_among kids.now number }
{
    for (id, child) in kids {
        if *child == number {
            return id.as_str();
        }
    }
    ""
}

/// Takes out the children of an id, which are at most one. Those after it move.
pub(crate) fn drop_kid(kids: &mut Vec<(Text, u64)>, id: &[u8])
    ensures kids { kids.new.items
        ≡ filter (λ (kid : List ℕ × ℕ). not (bytes_eq kid.0 id.now)) kids.old.items }
    ensures keeps_room { vec_room kids.old ≤ vec_room kids.new }
{
    kids.retain(|kid| kid.0.as_bytes() != id);
}

/// Puts the numbers of children among others, each in its place.
pub(crate) fn add_numbers(
    kids: &[(Text, u64)],
    numbers: &mut BTreeSet<u64>,
) -> Result<(), AllocError>
    ensures { OnOk result (numbers.new.keys ≡ and_numbers numbers.old.keys kids.now) }
{
    for (_, child) in kids {
        numbers.insert(*child)?;
    }
    Ok(())
}
