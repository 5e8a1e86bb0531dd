//! Small machines and events that are the same in each run, and the calls beside the plain
//! interpreter.

ghost use Rattle.std.specs.Prelude.{ℕ};
ghost use Rattle.guard_eval.specs.Definitions.{IsWellFormed};
ghost use Rattle.office_types.specs.OwnParts.{HasBegun};

use super::plain_interpreter::Actor;
use super::{compare, event_of, machine_of};
use action_table::read_defs;
use guard_eval::Def;
use macrostep::{begin, macrostep};
use office_types::{End, Own};
use std::alloc::{AllocError, Global};
use std::process::Abort;
use std::test::Fail;
use xs_model::Value;

/// The guard and the actions of all machines, which do what their params say. `count` counts on
/// from what it has, so that the context tells what ran and in which order: by its params, by the
/// length of the event's type (-1), by the event's output (-2), or with a fault (-3).
const TABLE: &str =
    r#"{"guards":{"test":{"$if":[{"$eq":[{"$params":""},"even"]},{"$eq":[{"$rem":[{"$context":"n"},2]},0]},{"$if":[{"$eq":[{"$params":""},"gone"]},{"$context":"gone"},{"$eq":[{"$event":"type"},{"$params":""}]}]}]}},"actors":{"kid":{"promise":{}}},"actions":{"count":{"assign":{"n":{"$rem":[{"$add":[{"$mul":[{"$context":"n"},31]},{"$if":[{"$eq":[{"$params":""},-1]},{"$len":{"$event":"type"}},{"$if":[{"$eq":[{"$params":""},-2]},{"$if":[{"$eq":[{"$or_else":[{"$event":"output"},null]},null]},1,{"$event":"output"}]},{"$if":[{"$eq":[{"$params":""},-3]},{"$div":[1,0]},{"$params":""}]}]}]}]},1000003]}}},"raise":{"raise":{"type":{"$params":""}}},"tell":{"sendTo":"parent","event":{"type":{"$params":""}}},"spawn":{"spawnChild":"kid"}}}"#;

/// A machine in the making: its text, the level of each of its nodes in document order, and the
/// numbers that decide.
#[derive(Drop)]
struct Draft {
    alloc: Global,
    text: String,
    levels: Vec<u32>,
    count: u32,
    state: u64,
    is_whole: bool,
}

/// The number that decides after this one.
fn following(state: u64) -> u64 {
    state
        .wrapping_mul(6_364_136_223_846_793_005)
        .wrapping_add(1_442_695_040_888_963_407)
}

/// A number below `end` by the upper half of another one, or 0.
fn share(state: u64, end: u32) -> u32 {
    if end == 0 {
        return 0;
    }
    ((state >> 33) % u64::from(end)) as u32
}

impl Draft {
    /// A number below `end`, or 0.
    fn below(&mut self, end: u32) -> u32 {
        self.state = following(self.state);
        share(self.state, end)
    }

    /// Whether one of so many comes up.
    fn one_of(&mut self, many: u32) -> bool {
        self.below(many) == 0
    }

    /// A node of the machine.
    fn node(&mut self) -> u32 {
        let count = self.count;
        self.below(count)
    }

    fn level(&self, node: u32) -> u32 {
        self.levels.get(node as usize).copied().unwrap_or(0)
    }

    /// Puts a text at the end; where no memory is left, the draft isn't whole from then on.
    fn put(&mut self, text: &str) {
        let is_put = self.text.push_str(text).is_ok();
        self.is_whole = self.is_whole && is_put;
    }

    fn put_level(&mut self, level: u32) {
        let is_put = self.levels.push(level).is_ok();
        self.is_whole = self.is_whole && is_put;
    }

    fn put_digits(&mut self, number: u32) {
        match format!(in self.alloc; "{number}") {
            Ok(digits) => self.put(digits.as_str()),
            Err(_) => self.is_whole = false,
        }
    }

    fn put_number_within(&mut self, before: &str, number: u32, behind: &str) {
        self.put(before);
        self.put_digits(number);
        self.put(behind);
    }

    fn put_number(&mut self, text: &str, number: u32) {
        self.put_number_within(text, number, "");
    }

    fn put_numbered(&mut self, text: &str, number: u32) {
        self.put_number_within(text, number, "\"");
    }

    /// A text, one of so many times.
    fn put_one_of(&mut self, many: u32, text: &str) {
        if self.below(many) == 0 {
            self.put(text);
        }
    }

    /// A transition behind a text, one of so many times.
    fn put_transition_one_of(&mut self, many: u32, before: &str) {
        if self.below(many) == 0 {
            self.put_transition(before);
        }
    }

    /// Levels of nodes: a node is below the one before it, or beside that or one above it.
    fn draw_levels(&mut self) {
        self.count = self.below(10).saturating_add(2);
        self.put_level(0);
        for node in 1..self.count {
            let deepest = self.level(node - 1).saturating_add(1);
            let level = self.below(deepest).saturating_add(1);
            self.put_level(level);
        }
    }

    /// The text of definitions with one machine.
    fn put_machine(&mut self) {
        self.draw_levels();
        self.put("{\"machines\":[{\"context\":{\"n\":0},\"output\":{\"$event\":\"output\"},");
        for node in 0..self.count {
            self.put_node(node);
            self.put_end(node);
        }
        self.put("],\"implementations\":");
        self.put(TABLE);
        self.put("}");
    }

    /// What stands between a node and the next one, or behind the last one.
    fn put_end(&mut self, node: u32) {
        let next = node.saturating_add(1);
        if self.level(next) > self.level(node) {
            self.put(",\"states\":{");
            return;
        }
        self.put("}");
        for _ in self.level(next)..self.level(node) {
            self.put("}}");
        }
        self.put(if next < self.count { "," } else { "" });
    }

    /// A node without its children, and without its end.
    fn put_node(&mut self, node: u32) {
        if node > 0 {
            self.put_numbered("\"k", node);
            self.put(":{");
        }
        self.put_numbered("\"id\":\"n", node);
        let next = node.saturating_add(1);
        let is_parent = self.level(next) > self.level(node);
        let is_first = self.level(node) > self.level(node.saturating_sub(1));
        match self.below(4) {
            0 if !is_parent && !is_first && node > 0 => self.put_history(node),
            1 if !is_parent && node > 0 => self.put_final(node),
            0 | 1 if is_parent => self.put_state(",\"type\":\"parallel", node),
            _ if is_parent => {
                self.put_number(",\"initial\":\"k", next);
                self.put_state("", node);
            }
            _ => self.put_state(",\"description\":\"", node),
        }
    }

    /// What a node says that is neither final nor a history node.
    fn put_state(&mut self, kind: &str, node: u32) {
        self.put(kind);
        self.put("\"");
        self.put_acts();
        self.put(",\"on\":{\"D\":{}");
        self.put_transition_one_of(2, ",\"A\":");
        self.put_transition_one_of(2, ",\"B\":");
        self.put_transition_one_of(2, ",\"C\":");
        self.put("}");
        self.put_transition_one_of(10, ",\"always\":");
        if node > 0 {
            self.put_transition_one_of(2, ",\"onDone\":");
        }
        self.put_timer();
        self.put_one_of(6, ",\"invoke\":{\"src\":\"kid\"}");
    }

    fn put_timer(&mut self) {
        if self.one_of(6) {
            self.put_transition(",\"after\":{\"5\":");
            self.put("}");
        }
    }

    fn put_history(&mut self, node: u32) {
        self.put(",\"type\":\"history\"");
        self.put_one_of(2, ",\"history\":\"deep\"");
        if self.one_of(2) {
            self.put_numbered(",\"target\":\"#n", node.saturating_sub(1));
        }
    }

    fn put_final(&mut self, node: u32) {
        self.put(",\"type\":\"final\"");
        self.put_acts();
        if self.one_of(2) {
            self.put_number(",\"output\":", node);
        }
    }

    fn put_acts(&mut self) {
        if self.one_of(2) {
            self.put_actions(",\"entry\":");
        }
        if self.one_of(2) {
            self.put_actions(",\"exit\":");
        }
    }

    fn put_transition(&mut self, before: &str) {
        self.put(before);
        self.put_actions("{\"actions\":");
        self.put_targets();
        self.put_one_of(3, ",\"reenter\":true");
        if self.one_of(2) {
            self.put_guard();
        }
        self.put("}");
    }

    fn put_targets(&mut self) {
        if self.one_of(5) {
            return;
        }
        let target = self.node();
        self.put_numbered(",\"target\":[\"#n", target);
        if self.one_of(40) {
            let target = self.node();
            self.put_numbered(",\"#n", target);
        }
        self.put("]");
    }

    fn put_guard(&mut self) {
        let node = self.node();
        match self.below(16) {
            0 => self.put(",\"guard\":{\"type\":\"test\",\"params\":\"gone\"}"),
            1..5 => self.put(",\"guard\":{\"type\":\"test\",\"params\":\"A\"}"),
            5..9 => self.put_number_within(",\"guard\":{\"stateIn\":\"#n", node, "\"}"),
            9..12 => self.put_number_within(",\"guard\":{\"not\":{\"stateIn\":\"#n", node, "\"}}"),
            _ => self.put(",\"guard\":{\"type\":\"test\",\"params\":\"even\"}"),
        }
    }

    fn put_actions(&mut self, before: &str) {
        self.put(before);
        let code = self.below(100);
        self.put_number("[{\"type\":\"count\",\"params\":", code);
        let more = match self.below(40) {
            0 => "},{\"type\":\"count\",\"params\":-3}]",
            1..4 => "},{\"type\":\"count\",\"params\":-2}]",
            4..8 => "},{\"type\":\"count\",\"params\":-1}]",
            8 | 9 => "},{\"type\":\"raise\",\"params\":\"A\"}]",
            10 | 11 => "},{\"type\":\"raise\",\"params\":\"B\"}]",
            12 | 13 => "},{\"type\":\"raise\",\"params\":\"C\"}]",
            14 | 15 => "},{\"type\":\"tell\",\"params\":\"T\"}]",
            16 => "},\"spawn\"]",
            _ => "}]",
        };
        self.put(more);
    }

    /// The type of an event that may come.
    fn word(&mut self) -> Result<String, AllocError> {
        let node = self.node();
        match self.below(8) {
            0 => format!(in self.alloc; "xstate.after.5.n{node}"),
            1..4 => String::from_str(self.alloc, "A"),
            4..6 => String::from_str(self.alloc, "B"),
            _ => String::from_str(self.alloc, "C"),
        }
    }
}

/// So many events give the same.
fn events_agree(
    rt: &impl Abort,
    alloc: Global,
    def: &Def,
    own: &Own,
    actor: &mut Actor,
    draft: &mut Draft,
    count: u32,
) -> Result<(), Fail>
    requires well_formed { (actors : ℕ) × IsWellFormed actors def.now }
    requires begun { HasBegun def.now.tree own.now }
{
    if count == 0 || !actor.is_active() {
        return Ok(());
    }
    let word = draft.word()?;
    let event = event_of(alloc, word.as_str())?;
    let outcome = macrostep(alloc, def, own, &event)?;
    let wanted = actor.step(word.as_str())?;
    let told = (wanted.as_str(), draft.text.as_str(), word.as_str());
    compare(rt, alloc, def, &outcome, told)?;
    events_agree(rt, alloc, def, &outcome.own, actor, draft, count - 1)
}

/// The first step gives the same, and each of some events.
fn steps_agree(
    rt: &impl Abort,
    alloc: Global,
    def: &Def,
    number: u32,
    draft: &mut Draft,
) -> Result<(), Fail>
    requires { (actors : ℕ) × IsWellFormed actors def.now }
{
    let outcome = begin(alloc, def, number, &Value::Null)?;
    let mut actor = Actor::new(alloc, def)?;
    let wanted = actor.begin()?;
    let told = (wanted.as_str(), draft.text.as_str(), "first");
    compare(rt, alloc, def, &outcome, told)?;
    if let End::Active = outcome.end {
        return events_agree(rt, alloc, def, &outcome.own, &mut actor, draft, 12);
    }
    Ok(())
}

/// The draft that a number makes.
fn drafted(alloc: Global, seed: u64) -> Result<Draft, Fail> {
    let mut draft = Draft {
        alloc,
        text: String::new(alloc),
        levels: Vec::new(alloc),
        count: 0,
        state: seed,
        is_whole: true,
    };
    draft.put_machine();
    if draft.is_whole {
        Ok(draft)
    } else {
        Err(Fail::from("memory"))
    }
}

/// Whether a machine that this number makes is one; its steps agree then.
fn agrees(rt: &impl Abort, alloc: Global, seed: u64) -> Result<bool, Fail> {
    let mut draft = drafted(alloc, seed)?;
    let Ok(defs) = read_defs(alloc, draft.text.as_bytes()) else {
        return Ok(false);
    };
    let Some((number, def)) = machine_of(&defs, "n0") else {
        return Ok(false);
    };
    steps_agree(rt, alloc, def, number, &mut draft)?;
    Ok(true)
}

#[test]
fn agree_with_the_plain_interpreter(rt: HostRuntime) -> Result<(), Fail> {
    let mut machines: u32 = 0;
    for number in 0..50 {
        if agrees(&rt, rt.alloc(), number)? {
            machines = machines.saturating_add(1);
        }
    }
    assert!(rt; machines >= 35, "{machines} machines");
    Ok(())
}
