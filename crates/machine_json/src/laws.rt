//! Laws of the definitions that the contracts cite, as contracts of calls that change nothing.

ghost use Rattle.machine_json.specs.Laws.{ExprMeansOnce, MachineMeansOnce, PassesAnswerOnce};

/// JSON as an expression has one meaning at most, one place at most where it is refused, and never
/// both.
pub fn expression_means_once()
    ensures { ExprMeansOnce }
{}

/// Of the faults that a pass finds in a text one alone is first.
pub fn passes_answer_once()
    ensures { PassesAnswerOnce }
{}

/// A machine text means one machine at most, one fault alone is answered of it, and never both.
pub fn machine_means_once()
    ensures { MachineMeansOnce }
{}
