//! What follows from the definitions of a step: the contract of each function is a law, and its
//! body does nothing.

ghost use Rattle.microstep.specs.Laws.{FirstMicrostepIsUnique, MicrostepIsUnique, SelectionIsUnique};

/// What an own part selects for an event is one.
pub fn selection_is_unique()
    ensures { SelectionIsUnique }
{}

/// The same own part, transitions and event make one microstep.
pub fn microstep_is_unique()
    ensures { MicrostepIsUnique }
{}

/// The same own part and event make one first microstep.
pub fn first_microstep_is_unique()
    ensures { FirstMicrostepIsUnique }
{}
