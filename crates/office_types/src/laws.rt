//! What follows from the definitions of an office.

ghost use Rattle.office_types.specs.Laws.{CanonicalLinesAreLines, CompactTextMeansItsValue, DecisionsKeepValidity, EmptyOfficeIsValid, EntriesKeepValidity, EntriesReadBack, LaterLettersHaveGreaterNumbers, LettersAreTakenInTurn, LettersEnterOneMailbox, LettersWaitedBefore, MeantValuesArePlain, NoLetterIsLost, NumbersAreInOrder, RepeatsGetTheReply, RequestsStandOnce, StepsKeepValidity, StepsTakeHeads};
ghost use Rattle.office_types.specs.RequestLines.{RequestIsUnique};
ghost use Rattle.office_types.specs.WorkedRows.{WorkedExamples};

/// The worked examples come out as they are written.
pub fn worked_examples()
    ensures { WorkedExamples }
{}

/// A line is the line of one request at most.
pub fn request_is_unique()
    ensures { RequestIsUnique }
{
    ordered_json::laws::meaning_is_unique();
}

/// The compact text of a value means the value.
pub fn compact_text_means_its_value()
    ensures { CompactTextMeansItsValue }
{}

/// What a text means is a value as those of programs are.
pub fn meant_values_are_plain()
    ensures { MeantValuesArePlain }
{}

/// The canonical line of a request is a line of that request.
pub fn canonical_lines_are_lines()
    ensures { CanonicalLinesAreLines }
{}

/// What is written of an entry reads as the entry, and as no other.
pub fn entries_read_back()
    ensures { EntriesReadBack }
{
    request_is_unique();
}

/// In legal entries each request stands once, in its caller's order.
pub fn requests_stand_once()
    ensures { RequestsStandOnce }
{}

/// A repeat is answered by the reply kept, whatever happened since.
pub fn repeats_get_the_reply()
    ensures { RepeatsGetTheReply }
{}

/// A letter that waits after entries, and whose number was given before them, waited before.
pub fn letters_waited_before()
    ensures { LettersWaitedBefore }
{}

/// The numbers of records and letters are in order in an office in which nothing has happened and in
/// each valid office, and entries leave them so.
pub fn numbers_are_in_order()
    ensures { NumbersAreInOrder }
{}

/// Where a number waits at two moments, it is the same letter, and waits for the same actor.
pub fn letters_enter_one_mailbox()
    ensures { LettersEnterOneMailbox }
{}

/// A letter that was sent later has a greater number.
pub fn later_letters_have_greater_numbers()
    ensures { LaterLettersHaveGreaterNumbers }
{}

/// Each letter is taken once at most, and those of one actor in the order in which they were sent.
pub fn letters_are_taken_in_turn()
    ensures { LettersAreTakenInTurn }
{}

/// A step takes the earliest letter of its actor's mailbox, which from then on waits nowhere.
pub fn steps_take_heads()
    ensures { StepsTakeHeads }
{}

/// A letter waits until it is taken, or until its actor ends or is removed.
pub fn no_letter_is_lost()
    ensures { NoLetterIsLost }
{}

/// A decision on a request keeps an office valid.
pub fn decisions_keep_validity()
    ensures { DecisionsKeepValidity }
{}

/// A step of a ready actor with an allowed outcome keeps an office valid.
pub fn steps_keep_validity()
    ensures { StepsKeepValidity }
{}

/// The empty office is valid.
pub fn empty_office_is_valid()
    ensures { EmptyOfficeIsValid }
{}

/// Legal entries keep an office valid.
pub fn entries_keep_validity()
    ensures { EntriesKeepValidity }
{}
