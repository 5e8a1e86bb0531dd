//! What follows from the definitions.

ghost use Rattle.snapshot_text.specs.WorkedTexts.{WorkedTexts};

/// The worked examples come out as they are written.
pub fn worked_texts()
    ensures { WorkedTexts }
{}
