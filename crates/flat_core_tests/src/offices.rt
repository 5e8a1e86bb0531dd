//! Tables of calls on an office of toggles: each script stands beside the answers that it is to get.

use flat_core::{
    Ask, Claim, Core, FlatMachine, FlatState, FlatTransition, FlatValue, Reply, Request,
    StepRefused, Word,
};
use std::alloc::Global;
use std::process::Abort;
use std::test::Fail;
use xs_data::{Items, Text};

#[derive(Clone, Copy)]
enum Line<'a> {
    Start(&'a str),
    Send(u64, &'a str),
    Turn,
    Step(u64, u64),
    Value(u64),
}

fn flip_to(alloc: Global, target: u32) -> Result<Items<FlatTransition>, Fail> {
    let mut transitions = Items::new(alloc);
    let descriptor = Text::from_str(alloc, "FLIP")?;
    let flip = FlatTransition {
        descriptor,
        state: target,
    };
    transitions.push(flip).ok().ok_or("memory")?;
    Ok(transitions)
}

fn toggle_state(alloc: Global, key: &str, target: u32) -> Result<FlatState, Fail> {
    let key = Text::from_str(alloc, key)?;
    let transitions = flip_to(alloc, target)?;
    Ok(FlatState { key, transitions })
}

fn toggle_states(alloc: Global) -> Result<Items<FlatState>, Fail> {
    let mut states = Items::new(alloc);
    let off = toggle_state(alloc, "off", 1)?;
    states.push(off).ok().ok_or("memory")?;
    let on = toggle_state(alloc, "on", 0)?;
    states.push(on).ok().ok_or("memory")?;
    Ok(states)
}

fn toggle(alloc: Global) -> Result<FlatMachine, Fail> {
    let states = toggle_states(alloc)?;
    Ok(FlatMachine {
        id: Text::from_str(alloc, "toggle")?,
        initial: 0,
        states,
    })
}

// An office of one machine, the toggle.
fn office_of_toggles(alloc: Global) -> Result<Core, Fail> {
    let mut machines = Items::new(alloc);
    let machine = toggle(alloc)?;
    machines.push(machine).ok().ok_or("memory")?;
    Ok(Core::new(alloc, machines))
}

fn word_of(reply: &Reply) -> &'static str {
    match reply.word {
        Word::Actor => "actor",
        Word::Letter => "letter",
        Word::Machine => "machine",
    }
}

fn decided(alloc: Global, core: &mut Core, ask: Ask) -> Result<String, Fail> {
    let request = Request {
        caller: Text::from_str(alloc, "ann")?,
        number: 1,
        ask,
    };
    let plan = core.decide(&request)?;
    let reply = core.carry_out(plan);
    let word = word_of(&reply);
    Ok(format!(in alloc; "{} {} {}", reply.status, word, reply.value)?)
}

fn stepped(alloc: Global, core: &mut Core, claim: Claim) -> Result<String, Fail> {
    let plan = match core.plan_step(&claim) {
        Ok(plan) => plan,
        Err(StepRefused::Gone(head)) => return Ok(format!(in alloc; "gone {head}")?),
        Err(StepRefused::Memory) => return Err(Fail::from("memory")),
    };
    let reply = core.carry_out(plan);
    Ok(format!(in alloc; "step {} {} {}", claim.actor, reply.status, reply.value)?)
}

// What `value` prints of an actor.
fn value_text(alloc: Global, core: &Core, actor: u64) -> Result<String, Fail> {
    let text = match core.value(actor) {
        FlatValue::Never => "never",
        FlatValue::Waiting => "waiting",
        FlatValue::Key(key) => str::from_utf8(key).ok().ok_or("no text")?,
    };
    Ok(String::from_str(alloc, text)?)
}

fn started(alloc: Global, core: &mut Core, machine: &str) -> Result<String, Fail> {
    let machine = Text::from_str(alloc, machine)?;
    decided(alloc, core, Ask::Start { machine })
}

fn sent(alloc: Global, core: &mut Core, actor: u64, event: &str) -> Result<String, Fail> {
    let event = Text::from_str(alloc, event)?;
    decided(alloc, core, Ask::Send { actor, event })
}

fn turned(alloc: Global, core: &mut Core) -> Result<String, Fail> {
    match core.first_ready() {
        Some(claim) => stepped(alloc, core, claim),
        None => Ok(String::from_str(alloc, "idle")?),
    }
}

fn answer(alloc: Global, core: &mut Core, line: &Line) -> Result<String, Fail> {
    match *line {
        Line::Start(machine) => started(alloc, core, machine),
        Line::Send(actor, event) => sent(alloc, core, actor, event),
        Line::Turn => turned(alloc, core),
        Line::Step(actor, letter) => stepped(alloc, core, Claim { actor, letter }),
        Line::Value(actor) => value_text(alloc, core, actor),
    }
}

// One toggle, from its start to an event that its state has no move for.
const ONE_TOGGLE: [(Line, &str); 12] = [
    (Line::Start("toggle"), "201 actor 1"),
    (Line::Value(1), "waiting"),
    (Line::Turn, "step 1 200 1"),
    (Line::Value(1), "off"),
    (Line::Send(1, "FLIP"), "202 letter 2"),
    (Line::Value(1), "off"),
    (Line::Turn, "step 1 200 2"),
    (Line::Turn, "idle"),
    (Line::Value(1), "on"),
    (Line::Send(1, "flip"), "202 letter 3"),
    (Line::Turn, "step 1 200 3"),
    (Line::Value(1), "on"),
];

// A machine and actors that aren't there.
const NOTHING_THERE: [(Line, &str); 7] = [
    (Line::Start("none"), "404 machine 0"),
    (Line::Send(9, "FLIP"), "404 actor 9"),
    (Line::Send(0, "FLIP"), "404 actor 0"),
    (Line::Turn, "idle"),
    (Line::Value(9), "never"),
    (Line::Value(0), "never"),
    (Line::Step(0, 0), "gone 0"),
];

// Letters of two actors, taken out of turn, and claims that are not of the head letter.
const TWO_TOGGLES: [(Line, &str); 15] = [
    (Line::Start("toggle"), "201 actor 1"),
    (Line::Start("toggle"), "201 actor 2"),
    (Line::Send(2, "FLIP"), "202 letter 3"),
    (Line::Send(1, "FLIP"), "202 letter 4"),
    (Line::Step(1, 4), "gone 1"),
    (Line::Step(2, 2), "step 2 200 2"),
    (Line::Step(2, 2), "gone 3"),
    (Line::Step(2, 3), "step 2 200 3"),
    (Line::Step(2, 3), "gone 0"),
    (Line::Value(2), "on"),
    (Line::Value(1), "waiting"),
    (Line::Turn, "step 1 200 1"),
    (Line::Turn, "step 1 200 4"),
    (Line::Turn, "idle"),
    (Line::Value(1), "on"),
];

// An office of toggles answers each line as the script says.
fn follow(rt: &impl Abort, alloc: Global, script: &[(Line, &str)]) -> Result<(), Fail> {
    let mut core = office_of_toggles(alloc)?;
    for (place, (line, want)) in script.iter().enumerate() {
        let got = answer(alloc, &mut core, line)?;
        assert!(rt; got.as_str() == *want, "at line {place}");
    }
    Ok(())
}

#[test]
fn one_toggle_flips(rt: HostRuntime) -> Result<(), Fail> {
    follow(&rt, rt.alloc(), &ONE_TOGGLE)
}

#[test]
fn nothing_is_there(rt: HostRuntime) -> Result<(), Fail> {
    follow(&rt, rt.alloc(), &NOTHING_THERE)
}

#[test]
fn two_toggles_answer_out_of_turn(rt: HostRuntime) -> Result<(), Fail> {
    follow(&rt, rt.alloc(), &TWO_TOGGLES)
}
