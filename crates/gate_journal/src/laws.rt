//! What holds of the bytes of one side, and of both, whoever reads them: with it a caller may
//! conclude that what `layout` and `Journal::open` answer is the only thing that the sides are.
ghost use Rattle.gate_journal.specs.Laws.{BothSidesHaveOneAnswer, EachSideHasOneLayout, SidesHoldOne};

/// Each side of bytes is closed, or open with one content, or bad at one place, and no two of these.
pub fn each_side_has_one_layout()
    ensures { EachSideHasOneLayout }
{}

/// Both sides of bytes hold one thing, or nothing, or have their first fault at one place of one
/// side, and no two of these.
pub fn both_sides_have_one_answer()
    ensures { BothSidesHaveOneAnswer }
{}

/// Both sides hold at most one thing, whatever stands in them: no byte has to fit 8 bits for it.
pub fn sides_hold_one()
    ensures { SidesHoldOne }
{}
