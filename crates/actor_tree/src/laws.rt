//! What follows from the definitions of an office's actors.

ghost use Rattle.actor_tree.specs.Laws.{StepsAreEntries};

/// A step makes of an office what its entry in a journal means, the count of entries apart.
pub fn steps_are_entries()
    ensures { StepsAreEntries }
{}
