//! Laws of the definitions that the contract of `read` cites: with them a caller may conclude that
//! the answer is the only one.
ghost use Rattle.ordered_json.specs.Laws.{MeaningIsUnique, MeaningExcludesFault, FaultIsUnique};

/// A text has at most one meaning.
pub fn meaning_is_unique()
    ensures { MeaningIsUnique }
{}

/// A text with a meaning has no fault but want of memory.
pub fn meaning_excludes_fault()
    ensures { MeaningExcludesFault }
{}

/// A text has at most one first fault, want of memory apart.
pub fn fault_is_unique()
    ensures { FaultIsUnique }
{}
