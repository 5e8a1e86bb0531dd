//! Machines as texts, and what their macrosteps have to give, event by event.

ghost use Rattle.std.specs.Prelude.{ℕ, All, IfSome, length};
ghost use Rattle.guard_eval.specs.Definitions.{IsWellFormed};
ghost use Rattle.office_types.specs.OwnParts.{HasBegun};

use action_table::{Defs, read_defs};
use guard_eval::Def;
use macrostep::{begin, macrostep};
use office_types::{End, Outcome, Own, read_value};
use outcome_text::outcome_text;
use std::alloc::Global;
use std::process::Abort;
use std::test::Fail;
use xs_model::Value;

mod action_cases;
mod done_cases;
mod hostile_cases;
mod move_cases;
mod outcome_text;
mod plain_interpreter;
mod plain_nodes;
mod random_machines;
mod selection_cases;
mod worked_cases;

/// An event, and what it has to give. An event is a type, or JSON where it begins with a brace; the
/// first step's is the input, as JSON.
type Step = (&'static str, &'static str);

/// A machine `m` and what its steps have to give.
#[derive(Clone, Copy)]
struct Case {
    /// The assertion that the case makes.
    shows: &'static str,
    /// The fields of the machine beside its id.
    machine: &'static str,
    steps: &'static [Step],
}

/// The machine of definitions with this id, and its number.
fn machine_of<'a>(defs: &'a Defs, id: &str) -> Option<(u32, &'a Def)>
    requires { All (IsWellFormed (length defs.now.actors)) defs.now.defs }
    ensures { IfSome result (λ found. (actors : ℕ) × IsWellFormed actors found.1.now) }
{
    let number = defs.machine_named(id.as_bytes())?;
    let held = defs.defs.get(number)?;
    Some((number, &**held))
}

/// A text before the first `<N>`, the `N`, and the text behind it.
fn cut_at_mark(text: &str) -> Option<(&str, &str, &str)> {
    let (before, marked) = text.split_once("<")?;
    let (count, behind) = marked.split_once(">")?;
    Some((before, count, behind))
}

/// So many letters.
fn push_letters(alloc: Global, spelled: &mut String, count: &str) -> Result<(), Fail> {
    let letters = "a".repeat(alloc, count.parse::<usize>()?)?;
    spelled.push_str(letters.as_str())?;
    Ok(())
}

/// A text in which `<N>` stands for so many letters.
fn spelled(alloc: Global, text: &str) -> Result<String, Fail> {
    let mut spelled = String::new(alloc);
    let mut rest = text;
    for _ in 0..text.len() {
        let Some((before, count, behind)) = cut_at_mark(rest) else {
            break;
        };
        spelled.push_str(before)?;
        push_letters(alloc, &mut spelled, count)?;
        rest = behind;
    }
    spelled.push_str(rest)?;
    Ok(spelled)
}

/// The event that a word of a step means.
fn event_of(alloc: Global, word: &str) -> Result<Value, Fail> {
    let text = if word.starts_with("{") {
        spelled(alloc, word)?
    } else {
        format!(in alloc; "{{\"type\":\"{word}\"}}")?
    };
    Ok(read_value(alloc, text.as_bytes())?)
}

/// Whether a step gave what it has to give.
fn gave(alloc: Global, def: &Def, outcome: &Outcome, gives: &str) -> Result<bool, Fail> {
    let text = outcome_text(alloc, &def.tree, outcome)?;
    let wanted = spelled(alloc, gives)?;
    Ok(text.as_str() == wanted.as_str())
}

/// Compares what a step gave with what it has to give.
fn compare(
    rt: &impl Abort,
    alloc: Global,
    def: &Def,
    outcome: &Outcome,
    (gives, shows, word): (&str, &str, &str),
) -> Result<(), Fail> {
    assert!(rt; gave(alloc, def, outcome, gives)?, "{shows}: at {word}");
    Ok(())
}

/// Whether an actor that isn't active takes no more events, and a fault left all as it was.
fn ends(outcome: &Outcome, own: &Own, later: &[Step]) -> bool {
    match outcome.end {
        End::Active => true,
        End::Done(_) => later.is_empty(),
        End::Error(_) => later.is_empty() && outcome.own.same(own),
    }
}

/// Sends the events to an actor that has begun.
fn send_all(
    rt: &impl Abort,
    alloc: Global,
    def: &Def,
    own: &Own,
    steps: &[Step],
    shows: &str,
) -> Result<(), Fail>
    requires well_formed { (actors : ℕ) × IsWellFormed actors def.now }
    requires begun { HasBegun def.now.tree own.now }
{
    let [(word, gives), later @ ..] = steps else {
        return Ok(());
    };
    let event = event_of(alloc, word)?;
    let outcome = macrostep(alloc, def, own, &event)?;
    compare(rt, alloc, def, &outcome, (gives, shows, word))?;
    assert!(rt; ends(&outcome, own, later));
    send_all(rt, alloc, def, &outcome.own, later, shows)
}

/// Begins a machine, and sends it the events.
fn begin_and_send(
    rt: &impl Abort,
    alloc: Global,
    def: &Def,
    number: u32,
    steps: &[Step],
    shows: &str,
) -> Result<(), Fail>
    requires { (actors : ℕ) × IsWellFormed actors def.now }
{
    let [(word, gives), later @ ..] = steps else {
        return Ok(());
    };
    let input = read_value(alloc, word.as_bytes())?;
    let outcome = begin(alloc, def, number, &input)?;
    compare(rt, alloc, def, &outcome, (gives, shows, word))?;
    if let End::Active = outcome.end {
        return send_all(rt, alloc, def, &outcome.own, later, shows);
    }
    assert!(rt; later.is_empty());
    Ok(())
}

/// Begins the machine of definitions with this id, and sends it the events.
fn follow(
    rt: &impl Abort,
    alloc: Global,
    definitions: &str,
    id: &str,
    steps: &[Step],
    shows: &str,
) -> Result<(), Fail> {
    let defs = read_defs(alloc, definitions.as_bytes())?;
    let Some((number, def)) = machine_of(&defs, id) else {
        panic!(rt; "{shows}: no machine {id}");
    };
    begin_and_send(rt, alloc, def, number, steps, shows)
}

/// Follows each case, with this table of implementations.
fn follow_all(rt: &impl Abort, alloc: Global, table: &str, cases: &[Case]) -> Result<(), Fail> {
    for case in cases {
        let definitions = format!(in alloc;
            "{{\"machines\":[{{\"id\":\"m\",{}}}],\"implementations\":{table}}}",
            case.machine
        )?;
        follow(rt, alloc, definitions.as_str(), "m", case.steps, case.shows)?;
    }
    Ok(())
}
