//! System names.

ghost use Rattle.std.specs.Prelude.{◌≡◌, ◌≢◌, ◌↔◌, AllPairs, IfOk, IsTrue, List, ℕ};
ghost use Rattle.office_types.specs.ValidOffice.{names_of};

use crate::validity::distinct::are_distinct;
use office_types::ActorRecord;
use std::alloc::{AllocError, Global};
use xs_data::Text;

/// Whether the names are those of the records that have one, in the order of their numbers.
pub(crate) fn are_names_of(actors: &[ActorRecord], names: &[(Text, u64)]) -> bool
    ensures { IsTrue result ↔ (names.now ≡ names_of actors.now) }
{
    let mut rest = names;
    for actor in actors {
        if let Some(name) = &actor.system {
            let Some((first, others)) = rest.split_first() else {
                return false;
            };
            if !first.0.same(name.as_bytes()) || first.1 != actor.number {
                return false;
            }
            rest = others;
        }
    }
    rest.is_empty()
}

/// Whether no name stands twice. It sorts them.
pub(crate) fn are_names_once(alloc: Global, names: &[(Text, u64)]) -> Result<bool, AllocError>
    ensures { IfOk result (λ once. IsTrue once
        ↔ AllPairs (λ (a b : List ℕ × ℕ). a.0 ≢ b.0) names.now) }
{
    let mut texts = Vec::with_capacity(alloc, names.len())?;
    for (name, _) in names {
        texts.push(name.as_bytes())?;
    }
    Ok(are_distinct(texts))
}
