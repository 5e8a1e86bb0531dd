//! Requests of a caller, answered one after the other, and an actor that ends in error: each call of a forest once.

ghost use Rattle.std.specs.Prelude.{◌≡◌, ℕ, Some, IfOk, IsTrue};
ghost use Rattle.office_types.specs.Records.{empty_office, is_ready};

use action_table::read_defs;
use actor_tree::{AskRefused, Forest};
use office_types::laws::empty_office_is_valid;
use office_types::{
    ActorRecords, Callers, Effects, End, NameList, OfficeState, Outcome, Reply, Status, Texts,
    TimerList, Word, copy_own, is_short, read_request,
};
use std::alloc::{AllocError, Global};
use std::process::Abort;
use std::sync::Arc;
use std::test::Fail;
use xs_model::Value;

/// A toggle.
const TOGGLE: &[u8] =
    br#"{"machines":[{"id":"toggle","initial":"off","states":{"off":{"on":{"FLIP":"on"}},"on":{"on":{"FLIP":"off"}}}}],"implementations":{}}"#;

/// Lines of requests, and the replies to them.
const ASKED: [(&str, u16, Word, u64); 12] = [
    ("ann 1 start toggle till null", 201, Word::Actor, 1),
    ("ann 2 start toggle till null", 409, Word::Name, 1),
    ("ann 3 start other - null", 404, Word::Machine, 0),
    ("ann 4 start toggle - {\"n\":1}", 201, Word::Actor, 2),
    ("ann 5 send 1 {\"type\":\"FLIP\"}", 202, Word::Letter, 3),
    ("ann 6 send 3 {\"type\":\"FLIP\"}", 404, Word::Actor, 3),
    (
        "ann 7 send 1 {\"type\":\"xstate.init\"}",
        422,
        Word::Reserved,
        1,
    ),
    ("ann 8 resolve 1 null", 410, Word::Closed, 1),
    ("ann 9 reject 3 null", 404, Word::Item, 3),
    ("ann 10 at 5", 200, Word::Due, 0),
    ("ann 11 at 4", 409, Word::Moment, 5),
    ("ann 12 at 5", 200, Word::Due, 0),
];

/// Lines of requests after actor 1 has ended in error, and the replies to them.
const ASKED_LATER: [(&str, u16, Word, u64); 2] = [
    ("ann 13 send 1 {\"type\":\"FLIP\"}", 410, Word::Stopped, 1),
    ("ann 14 start toggle till null", 201, Word::Actor, 3),
];

/// The office in which nothing has happened.
fn nothing(alloc: Global) -> OfficeState
    ensures { result ≡ empty_office }
{
    OfficeState {
        actors: ActorRecords::new(alloc),
        timers: TimerList::new(alloc),
        names: NameList::new(alloc),
        callers: Callers::new(alloc),
        moment: 0,
        entries: 0,
        next_actor: 1,
        next_letter: 1,
        next_timer: 1,
    }
}

/// A forest of toggles in which nothing has happened.
fn toggles(alloc: Global) -> Result<Forest, Fail> {
    empty_office_is_valid();
    let defs = Arc::new(alloc, read_defs(alloc, TOGGLE)?)?;
    let state = nothing(alloc);
    Ok(Forest::new(alloc, defs, &state)?)
}

/// The reply to a request.
fn answer(alloc: Global, forest: &mut Forest, line: &str) -> Result<Reply, Fail> {
    let request = read_request(alloc, line.as_bytes())?;
    match forest.prepare_ask(&request.caller, &request.ask) {
        Ok((reply, change)) => {
            forest.apply(change);
            Ok(reply)
        }
        Err(AskRefused::Row(reply)) => Ok(reply),
        Err(AskRefused::Memory) => Err(Fail::from(AllocError)),
    }
}

/// A step in which a ready actor ends in error.
fn fail(alloc: Global, forest: &mut Forest, actor: u64) -> Result<(), Fail>
    requires { IsTrue (is_ready forest.old.office actor) }
{
    let error = Value::Null;
    let Some(own) = forest.own(actor) else {
        return Ok(());
    };
    if !is_short(&error) {
        return Ok(());
    }
    let outcome = Outcome {
        own: copy_own(alloc, own)?,
        end: End::Error(error),
        effects: Effects::new(alloc),
        micros: Texts::new(alloc),
    };
    let change = forest.prepare(actor, &outcome)?;
    forest.apply(change);
    Ok(())
}

/// Whether a reply has this status, word and value.
fn is_reply(reply: &Reply, status: u16, word: Word, value: u64) -> bool {
    reply.status == status && reply.word == word && reply.value == value
}

fn answers(
    rt: &impl Abort,
    alloc: Global,
    forest: &mut Forest,
    asked: &[(&str, u16, Word, u64)],
) -> Result<(), Fail> {
    for (line, status, word, value) in asked {
        let reply = answer(alloc, forest, line)?;
        assert!(rt; is_reply(&reply, *status, *word, *value), "{line}");
    }
    Ok(())
}

/// Whether actors 1 and 2 are ready, and are taken in turn.
fn take_turns(forest: &Forest) -> bool {
    forest.ready(1)
        && forest.first_ready() == Some(1)
        && forest.next(&[1]) == Some(2)
        && forest.next(&[1, 2]) == Some(1)
        && forest.head(2).map_or(0, |letter| letter.number) == 2
}

/// Whether actor 1 has ended in error and takes no turn more.
fn has_failed(forest: &Forest) -> bool {
    forest.status(1) == Some(Status::Error)
        && forest.head(1).is_none()
        && forest.first_ready() == Some(2)
}

/// Whether the office has three actors, and has given four letters their numbers.
fn is_left_so(state: &OfficeState) -> bool {
    state.actors.len() == 3 && state.next_letter == 5
}

#[test]
fn requests_are_answered_in_turn(rt: HostRuntime) -> Result<(), Fail> {
    let alloc = rt.alloc();
    let mut forest = toggles(alloc)?;
    assert!(rt; forest.first_ready().is_none() && forest.defs().defs.len() == 1);
    answers(&rt, alloc, &mut forest, &ASKED)?;
    assert!(rt; take_turns(&forest) && forest.items().is_empty());
    Ok(())
}

#[test]
fn an_actor_ends_in_error(rt: HostRuntime) -> Result<(), Fail> {
    let alloc = rt.alloc();
    let mut forest = toggles(alloc)?;
    answers(&rt, alloc, &mut forest, &ASKED)?;
    assert!(rt; forest.ready(1));
    fail(alloc, &mut forest, 1)?;
    assert!(rt; has_failed(&forest) && forest.status(3).is_none());
    answers(&rt, alloc, &mut forest, &ASKED_LATER)?;
    assert!(rt; is_left_so(&forest.state()?));
    Ok(())
}
