//! Room that an actor brings when it is made.

ghost use Rattle.std.specs.Prelude.{◌≡◌, ◌≤◌, ℕ, OnOk};
ghost use Rattle.actor_tree.specs.Actors.{record_of};
ghost use Rattle.actor_tree.specs.HeldOffice.{kid_room, letter_room};

use crate::part::Newcomer;
use std::alloc::AllocError;

/// Makes room for so many letters and children more of an actor that is to be made.
pub(crate) fn reserve_newcomer(
    newcomer: &mut Newcomer,
    letters: u64,
    kids: u64,
) -> Result<(), AllocError>
    ensures record_is { (number : ℕ) → record_of number newcomer.new.actor
        ≡ record_of number newcomer.old.actor }
    ensures name { newcomer.new.name ≡ newcomer.old.name }
    ensures item { newcomer.new.item ≡ newcomer.old.item }
    ensures letter_room { OnOk result (letters ≤ letter_room newcomer.new.actor) }
    ensures kid_room { OnOk result (kids ≤ kid_room newcomer.new.actor) }
{
    newcomer.actor.mailbox.reserve(letters as usize)?;
    newcomer.actor.kids.reserve(kids as usize)
}
