//! What follows from the definition of a macrostep: the contract of each function is a law, and its
//! body does nothing.

ghost use Rattle.macrostep.specs.Laws.{FirstMacrostepIsUnique, MacrostepIsUnique};

/// The same own part and event have one outcome.
pub fn macrostep_is_unique()
    ensures { MacrostepIsUnique }
{}

/// The first step of an actor with the same input has one outcome.
pub fn first_macrostep_is_unique()
    ensures { FirstMacrostepIsUnique }
{}
