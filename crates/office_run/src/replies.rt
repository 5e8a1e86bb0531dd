//! The answers to lines, as the program writes them.

ghost use Rattle.std.specs.Prelude.{◌≡◌, IfOk, IsUtf8, string_bytes};
ghost use Rattle.json.specs.Print.{quoted};
ghost use Rattle.flat_core.specs.Office.{decided, first_ready, value_of};
ghost use Rattle.flat_core.specs.Shown.{shown_as, IsTextShown};
ghost use Rattle.office_run.specs.Replies.{answer_line, office_after, word_text, reply_line, step_line, value_line};

use crate::script::Line;
use flat_core::{Core, FlatValue, Refused, Reply, Request, STATUS_NOT_FOUND, Word};
use serde_json::Value;
use std::alloc::{AllocError, Global};
use std::str;

/// The word before an actor's number.
const ACTOR: &str = "actor";

/// The word before a letter's number.
const LETTER: &str = "letter";

/// The word before a machine's number.
const MACHINE: &str = "machine";

/// The word that begins the answer to a turn.
const STEP: &str = "step";

/// The word that begins the answer to a question for an actor's state.
const VALUE: &str = "value";

/// The status of an actor.
const ACTIVE: &str = "active";

/// No state, or no context.
const NULL: &str = "null";

/// The context of a flat machine.
const EMPTY: &str = "{}";

/// The answer to a turn where no letter waits.
const IDLE: &str = "idle\n";

/// The answer to a line of no form.
const MALFORMED: &str = "400 line\n";

/// Answers a line: what is written, with the line feed, while the office takes what the line says. At an `Err` the office
/// may have taken it.
pub fn answer_line(alloc: Global, core: &mut Core, line: &Line) -> Result<String, AllocError>
    ensures machines { core.new.machines ≡ core.old.machines }
    ensures text { IfOk result (λ text.
        string_bytes text ≡ answer_line core.old.machines core.old.office line.now) }
    ensures office { IfOk result (λ _.
        core.new.office ≡ office_after core.old.machines core.old.office line.now) }
{
    match line {
        Line::Request(request) => answer_request(alloc, core, request),
        Line::Turn => take_turn(alloc, core),
        Line::Value { actor } => value_line(alloc, *actor, core.value(*actor)),
        Line::Malformed => String::from_str(alloc, MALFORMED),
    }
}

/// Answers a request: it is decided, and what was decided is done.
fn answer_request(alloc: Global, core: &mut Core, request: &Request) -> Result<String, AllocError>
    ensures machines { core.new.machines ≡ core.old.machines }
    ensures text { IfOk result (λ text. string_bytes text ≡ reply_line request.now
        (decided core.old.machines core.old.office request.now.ask).reply) }
    ensures office { IfOk result (λ _.
        core.new.office ≡ (decided core.old.machines core.old.office request.now.ask).after) }
{
    match core.decide(request) {
        Ok(plan) => reply_line(alloc, request, core.carry_out(plan)),
        Err(Refused::Memory) => Err(AllocError),
    }
}

/// Answers a turn: the actor with the least head letter takes a step.
fn take_turn(alloc: Global, core: &mut Core) -> Result<String, AllocError>
    ensures machines { core.new.machines ≡ core.old.machines }
    ensures text { IfOk result (λ text.
        string_bytes text ≡ step_line (first_ready core.old.office)) }
    ensures office { IfOk result (λ _.
        core.new.office ≡ office_after core.old.machines core.old.office Line.Turn) }
{
    let Some(claim) = core.first_ready() else {
        return String::from_str(alloc, IDLE);
    };
    let Ok(plan) = core.plan_step(&claim) else {
        return Err(AllocError);
    };
    core.carry_out(plan);
    let actor = claim.actor;
    let letter = claim.letter;
    format!(in alloc; "{STEP} {actor} {letter} {ACTIVE}\n")
}

/// The caller with its number, and the reply.
fn reply_line(alloc: Global, request: &Request, reply: Reply) -> Result<String, AllocError>
    ensures { IfOk result (λ text. string_bytes text ≡ reply_line request.now reply) }
{
    let caller = request.caller.as_str();
    let number = request.number;
    let status = reply.status;
    let word = word_text(reply.word);
    let value = reply.value;
    format!(in alloc; "{caller} {number} {status} {word} {value}\n")
}

/// The word that says what a value is.
fn word_text(word: Word) -> &'static str
    ensures { result.now ≡ word_text word }
{
    match word {
        Word::Actor => ACTOR,
        Word::Letter => LETTER,
        Word::Machine => MACHINE,
    }
}

/// The state of an actor.
fn value_line(alloc: Global, actor: u64, value: FlatValue<'_>) -> Result<String, AllocError>
    requires { IsTextShown value }
    ensures { IfOk result (λ text. string_bytes text ≡ value_line actor (shown_as value.entry)) }
{
    match value {
        FlatValue::Never => format!(in alloc; "{STATUS_NOT_FOUND} {ACTOR} {actor}\n"),
        FlatValue::Waiting => format!(in alloc; "{VALUE} {actor} {ACTIVE} {NULL} {NULL}\n"),
        FlatValue::Key(key) => {
            let key = quoted(alloc, key)?;
            format!(in alloc; "{VALUE} {actor} {ACTIVE} {key} {EMPTY}\n")
        }
    }
}

/// A text in quotes, as JSON has it.
fn quoted(alloc: Global, text: &[u8]) -> Result<String, AllocError>
    requires { IsUtf8 text.now }
    ensures { IfOk result (λ quoted_text. string_bytes quoted_text ≡ quoted text.now) }
{
    let Ok(text) = str::from_utf8(text) else {
        unreachable!()
    };
    Value::String(String::from_str(alloc, text)?).to_string(alloc)
}
