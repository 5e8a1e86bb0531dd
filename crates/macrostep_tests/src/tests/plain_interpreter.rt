//! A slow, plain interpreter of macrosteps, written from the rules node by node, for machines whose
//! guards and actions are those of `random_machines`. It says what a step gives in the same words.

use super::outcome_text::MOST_TYPES;
use super::plain_nodes::Nodes;
use guard_eval::{ActionUse, ActionUses, Def, GuardUse, NodeDef, Transition};
use macrostep::MAX_ACTIONS;
use node_tree::Kind;
use office_types::MAX_MICROSTEPS;
use std::alloc::{AllocError, Global};
use std::collections::VecDeque;
use xs_model::{Action, Expr, Value};

/// An event: its type, and its output where it has one that isn't null.
#[derive(Drop)]
struct Event {
    kind: String,
    output: Option<i64>,
}

/// Transitions, each by its node and its place there.
type Places = Vec<(u32, usize)>;

/// An actor, and what its macrostep left so far.
#[derive(Drop)]
pub(super) struct Actor<'a> {
    alloc: Global,
    def: &'a Def,
    nodes: Nodes,
    active: Vec<u32>,
    history: Vec<(u32, Vec<u32>)>,
    /// The number that the context has, which tells what ran and in which order.
    number: i64,
    children: Vec<String>,
    spawned: u32,
    raised: VecDeque<Event>,
    effects: String,
    actions: u32,
    types: Vec<String>,
    fault: Option<&'static str>,
    pub is_done: bool,
}

/// Whether a guard holds; a path that leads to nothing is nothing.
fn holds(guard: &GuardUse, actor: &Actor, event: &str) -> Option<bool> {
    match guard {
        GuardUse::Test { expr: _, params } => match params {
            Value::Text(text) if text.as_str() == "gone" => None,
            Value::Text(text) if text.as_str() == "even" => Some(actor.number % 2 == 0),
            Value::Text(text) => Some(text.as_str() == event),
            _ => None,
        },
        GuardUse::And(parts) => {
            for part in parts.as_slice() {
                if !holds(part, actor, event)? {
                    return Some(false);
                }
            }
            Some(true)
        }
        GuardUse::Or(parts) => {
            for part in parts.as_slice() {
                if holds(part, actor, event)? {
                    return Some(true);
                }
            }
            Some(false)
        }
        GuardUse::Not(part) => Some(!holds(part.get(), actor, event)?),
        GuardUse::In(node) => Some(actor.active.contains(node)),
    }
}

/// How well a descriptor fits a type: an equal one best, then the longest pattern, then the star.
fn fit(descriptor: &str, kind: &str) -> Option<usize> {
    if descriptor == kind {
        return Some(kind.len().saturating_add(3));
    }
    if descriptor == "*" {
        return Some(0);
    }
    let start = descriptor.strip_suffix(".*")?;
    let rest = kind.strip_prefix(start)?;
    if rest.is_empty() || rest.starts_with(".") {
        Some(descriptor.len())
    } else {
        None
    }
}

/// What counting on from a number gives.
fn counted(number: i64, more: i64) -> i64 {
    number.wrapping_mul(31).wrapping_add(more) % 1_000_003
}

/// A number, or nothing for null.
fn number_of(output: &Expr) -> Option<i64> {
    match output {
        Expr::Int(number) => Some(*number),
        _ => None,
    }
}

impl<'a> Actor<'a> {
    /// An actor that hasn't begun.
    pub fn new(alloc: Global, def: &'a Def) -> Result<Actor<'a>, AllocError> {
        Ok(Actor {
            alloc,
            def,
            nodes: Nodes::of(alloc, &def.tree)?,
            active: Vec::new(alloc),
            history: Vec::new(alloc),
            number: 0,
            children: Vec::new(alloc),
            spawned: 0,
            raised: VecDeque::new(alloc),
            effects: String::new(alloc),
            actions: 0,
            types: Vec::new(alloc),
            fault: None,
            is_done: false,
        })
    }

    /// What the first step gives.
    pub fn begin(&mut self) -> Result<String, AllocError> {
        let event = self.event("xstate.init")?;
        let entered = self.nodes.entered(self.alloc, &[], None)?;
        self.enter_and_end(&event, &entered)?;
        self.run(event)?;
        self.told("- null")
    }

    /// What an event gives.
    pub fn step(&mut self, kind: &str) -> Result<String, AllocError> {
        let before = self.state_text()?;
        self.effects = String::new(self.alloc);
        self.actions = 0;
        self.types = Vec::new(self.alloc);
        let event = self.event(kind)?;
        self.take(&event)?;
        self.run(event)?;
        self.told(before.as_str())
    }

    /// A microstep of what an event selects, if it selects any.
    fn take(&mut self, event: &Event) -> Result<(), AllocError> {
        let picked = self.select(event, false)?;
        if picked.is_empty() {
            return Ok(());
        }
        self.microstep(event, false, &picked)
    }

    /// What a step gave that began in this state.
    fn told(&self, before: &str) -> Result<String, AllocError> {
        match self.fault {
            Some(_) => self.text(String::from_str(self.alloc, before)?),
            None => self.text(self.state_text()?),
        }
    }

    /// Whether it is active after its steps.
    pub fn is_active(&self) -> bool {
        self.fault.is_none() && !self.is_done
    }

    fn event(&self, kind: &str) -> Result<Event, AllocError> {
        Ok(Event {
            kind: String::from_str(self.alloc, kind)?,
            output: None,
        })
    }

    /// Microsteps until nothing is left to do. Each turn takes a raised event or makes a microstep.
    fn run(&mut self, first: Event) -> Result<(), AllocError> {
        let mut event = first;
        for _ in 0..20_000 {
            if !self.is_active() {
                return Ok(());
            }
            let picked = self.select(&event, true)?;
            if !picked.is_empty() {
                self.microstep(&event, true, &picked)?;
                continue;
            }
            let Some(next) = self.raised.pop_front() else {
                return Ok(());
            };
            event = next;
            self.take(&event)?;
        }
        Ok(())
    }

    fn fail(&mut self, name: &'static str) {
        self.fault = Some(self.fault.unwrap_or(name));
    }

    // ---- selection

    /// The transitions that are taken, in document order of their nodes.
    fn select(&mut self, event: &Event, eventless: bool) -> Result<Places, AllocError> {
        let mut picked: Places = Vec::new(self.alloc);
        for node in (0..self.nodes.count).rev() {
            let is_asked = self.active.contains(&node)
                && !picked
                    .iter()
                    .any(|place| self.nodes.is_below(place.0, node));
            if is_asked {
                if let Some(place) = self.own(node, event, eventless) {
                    picked.push((node, place))?;
                }
            }
        }
        let mut stays: Places = Vec::new(self.alloc);
        for place in picked.iter().rev() {
            let meets = stays
                .iter()
                .any(|earlier| self.leave_common(eventless, *earlier, *place));
            if !meets {
                stays.push(*place)?;
            }
        }
        Ok(stays)
    }

    /// Whether two transitions leave a node both.
    fn leave_common(&self, eventless: bool, one: (u32, usize), other: (u32, usize)) -> bool {
        self.active.iter().any(|node| self.leaves(eventless, one, *node)
            && self.leaves(eventless, other, *node))
    }

    /// Whether a transition leaves an active node.
    fn leaves(&self, eventless: bool, place: (u32, usize), node: u32) -> bool {
        match self.transition(eventless, place) {
            Some(taken) if !taken.targets.is_empty() => self
                .nodes
                .is_under(node, self.domain(taken)),
            _ => false,
        }
    }

    fn domain(&self, taken: &Transition) -> Option<u32> {
        self.nodes
            .domain(taken.source, taken.targets.as_slice(), taken.reenter)
    }

    fn transition(&self, eventless: bool, place: (u32, usize)) -> Option<&'a Transition> {
        let def: &'a NodeDef = self.def.nodes.get(place.0 as usize)?;
        if eventless {
            def.always.get(place.1)
        } else {
            def.transitions.get(place.1)
        }
    }

    /// The place of the first candidate of a node that is enabled.
    fn own(&mut self, node: u32, event: &Event, eventless: bool) -> Option<usize> {
        let def: &'a NodeDef = self.def.nodes.get(node as usize)?;
        let kind = event.kind.as_str();
        if eventless {
            for (place, candidate) in def.always.as_slice().iter().enumerate() {
                if self.is_enabled(candidate, kind) {
                    return Some(place);
                }
            }
            return None;
        }
        for rank in (0..kind.len().saturating_add(4)).rev() {
            for (place, candidate) in def.transitions.as_slice().iter().enumerate() {
                let fits = fit(candidate.descriptor.as_str(), kind) == Some(rank);
                if fits && self.is_enabled(candidate, kind) {
                    return Some(place);
                }
            }
        }
        None
    }

    fn is_enabled(&mut self, candidate: &Transition, kind: &str) -> bool {
        let Some(guard) = &candidate.guard else {
            return true;
        };
        match holds(guard, self, kind) {
            Some(held) => held,
            None => {
                self.fail("Missing");
                false
            }
        }
    }

    // ---- a microstep

    fn microstep(
        &mut self,
        event: &Event,
        eventless: bool,
        taken: &[(u32, usize)],
    ) -> Result<(), AllocError> {
        if self.types.len() >= MAX_MICROSTEPS {
            self.fail("Steps");
            return Ok(());
        }
        let left = self.left(eventless, taken)?;
        self.record(&left)?;
        let entered = self.entered(eventless, taken)?;
        self.leave_all(event, &left)?;
        self.act_taken(event, eventless, taken)?;
        self.enter_and_end(event, &entered)
    }

    fn enter_and_end(&mut self, event: &Event, entered: &[u32]) -> Result<(), AllocError> {
        self.types.push(event.kind.clone()?)?;
        self.enter(event, entered)?;
        self.end_microstep(event)
    }

    fn leave_all(&mut self, event: &Event, left: &[u32]) -> Result<(), AllocError> {
        for node in left.iter().rev() {
            self.leave(event, *node)?;
        }
        self.active.retain(|node| !left.contains(node));
        Ok(())
    }

    fn act_taken(
        &mut self,
        event: &Event,
        eventless: bool,
        taken: &[(u32, usize)],
    ) -> Result<(), AllocError> {
        for place in taken {
            if let Some(transition) = self.transition(eventless, *place) {
                self.act_all(event, &transition.actions)?;
            }
        }
        Ok(())
    }

    /// The nodes that are left, in document order.
    fn left(&self, eventless: bool, taken: &[(u32, usize)]) -> Result<Vec<u32>, AllocError> {
        let mut left = Vec::new(self.alloc);
        for node in 0..self.nodes.count {
            let is_left = taken
                .iter()
                .any(|place| self.leaves(eventless, *place, node));
            if is_left && self.active.contains(&node) {
                left.push(node)?;
            }
        }
        Ok(left)
    }

    fn record(&mut self, left: &[u32]) -> Result<(), AllocError> {
        for node in 0..self.nodes.count {
            let is_history = matches!(
                self.nodes.kind(node),
                Kind::Shallow { .. } | Kind::Deep { .. }
            );
            let is_parent_left = match self.nodes.parent(node) {
                Some(above) => left.contains(&above),
                None => false,
            };
            if is_history && is_parent_left {
                let nodes = self.nodes.remembered(self.alloc, &self.active, node)?;
                self.history.retain(|record| record.0 != node);
                self.history.push((node, nodes))?;
            }
        }
        Ok(())
    }

    /// The nodes that are entered, in document order.
    fn entered(&self, eventless: bool, taken: &[(u32, usize)]) -> Result<Vec<u32>, AllocError> {
        let mut entered: Vec<u32> = Vec::new(self.alloc);
        for place in taken {
            let Some(taken) = self.transition(eventless, *place) else {
                continue;
            };
            if taken.targets.is_empty() {
                continue;
            }
            let goals = self.goals(taken.targets.as_slice())?;
            let domain = self.domain(taken);
            let more = self.nodes.entered(self.alloc, &goals, domain)?;
            entered.extend_from_slice(&more)?;
        }
        let mut sorted = Vec::new(self.alloc);
        for node in 0..self.nodes.count {
            if entered.contains(&node) {
                sorted.push(node)?;
            }
        }
        Ok(sorted)
    }

    /// The targets, and for each history node among them what is recorded or else stands for it.
    fn goals(&self, targets: &[u32]) -> Result<Vec<u32>, AllocError> {
        let mut goals = Vec::new(self.alloc);
        for target in targets {
            let before = goals.len();
            for (history, nodes) in self.history.iter() {
                if *history == *target {
                    goals.extend_from_slice(nodes)?;
                }
            }
            if goals.len() == before {
                goals.push(self.nodes.stand_in(*target))?;
            }
        }
        Ok(goals)
    }

    fn leave(&mut self, event: &Event, node: u32) -> Result<(), AllocError> {
        let Some(def) = self.def.nodes.get(node as usize) else {
            return Ok(());
        };
        self.act_all(event, &def.exit)?;
        self.cancel_timers(def)?;
        for invocation in def.invoke.as_slice() {
            self.stop(invocation.id.as_str())?;
        }
        Ok(())
    }

    fn cancel_timers(&mut self, def: &NodeDef) -> Result<(), AllocError> {
        for (kind, _) in def.after.as_slice() {
            let kind = kind.as_str();
            self.tell(format!(in self.alloc; " cancel {kind}")?)?;
        }
        Ok(())
    }

    fn enter(&mut self, event: &Event, entered: &[u32]) -> Result<(), AllocError> {
        for node in entered {
            self.active.push(*node)?;
            if let Some(def) = self.def.nodes.get(*node as usize) {
                self.enter_one(event, *node, def)?;
            }
        }
        Ok(())
    }

    fn enter_one(&mut self, event: &Event, node: u32, def: &NodeDef) -> Result<(), AllocError> {
        self.act_all(event, &def.entry)?;
        self.start_timers(def)?;
        self.invoke_all(def)?;
        match self.nodes.kind(node) {
            Kind::Final => self.raise_done(node, &def.output),
            _ => Ok(()),
        }
    }

    fn invoke_all(&mut self, def: &NodeDef) -> Result<(), AllocError> {
        for invocation in def.invoke.as_slice() {
            self.spawn(invocation.id.as_str())?;
        }
        Ok(())
    }

    fn start_timers(&mut self, def: &NodeDef) -> Result<(), AllocError> {
        for (kind, delay) in def.after.as_slice() {
            self.start_timer(kind.as_str(), delay)?;
        }
        Ok(())
    }

    fn start_timer(&mut self, kind: &str, delay: &Expr) -> Result<(), AllocError> {
        let Expr::Int(delay) = delay else {
            return Ok(());
        };
        self.tell(format!(in self.alloc; " schedule {kind} {delay} self {{\"type\":\"{kind}\"}}")?)
    }

    fn raise_done(&mut self, node: u32, output: &Expr) -> Result<(), AllocError> {
        let Some(parent) = self.nodes.parent(node) else {
            return Ok(());
        };
        let is_compound = matches!(self.nodes.kind(parent), Kind::Compound { .. });
        if !is_compound || self.nodes.parent(parent).is_none() {
            return Ok(());
        }
        self.raise_done_of(parent, number_of(output))?;
        let done = self.nodes.done(self.alloc, &self.active)?;
        let mut above = self.nodes.parent(parent);
        for _ in 0..self.nodes.count {
            let Some(next) = above else {
                break;
            };
            let is_parallel = matches!(self.nodes.kind(next), Kind::Parallel);
            above = self.nodes.parent(next);
            if !is_parallel || above.is_none() || !done.contains(&next) {
                break;
            }
            self.raise_done_of(next, None)?;
        }
        Ok(())
    }

    fn raise_done_of(&mut self, node: u32, output: Option<i64>) -> Result<(), AllocError> {
        let id = self.id(node);
        self.raised.push_back(Event {
            kind: format!(in self.alloc; "xstate.done.state.{id}")?,
            output,
        })?;
        Ok(())
    }

    /// What is done after a microstep: where the root is done all exit actions run.
    fn end_microstep(&mut self, event: &Event) -> Result<(), AllocError> {
        self.is_done = self.nodes.done(self.alloc, &self.active)?.contains(&0);
        for node in (0..self.nodes.count).rev() {
            if self.is_done && self.active.contains(&node) {
                if let Some(def) = self.def.nodes.get(node as usize) {
                    self.act_all(event, &def.exit)?;
                }
            }
        }
        if u64::from(self.actions) > MAX_ACTIONS {
            self.fail("Actions");
        }
        Ok(())
    }

    // ---- actions

    fn act_all(&mut self, event: &Event, uses: &ActionUses) -> Result<(), AllocError> {
        for one in uses.as_slice() {
            self.act(event, one)?;
        }
        Ok(())
    }

    fn act(&mut self, event: &Event, one: &ActionUse) -> Result<(), AllocError> {
        self.actions = self.actions.saturating_add(1);
        match (&one.action, &one.params) {
            (Action::Assign { .. }, Value::Int(code)) => self.count(event, *code),
            (Action::Raise { .. }, Value::Text(word)) => {
                let raised = self.event(word.as_str())?;
                self.raised.push_back(raised)?;
            }
            (Action::SendTo { .. }, Value::Text(word)) => {
                let word = word.as_str();
                self.tell(format!(in self.alloc; " send parent {{\"type\":\"{word}\"}}")?)?;
            }
            (Action::SpawnChild { .. }, _) => {
                let number = self.spawned;
                self.spawned = number.saturating_add(1);
                self.spawn(format!(in self.alloc; "x:{number}")?.as_str())?;
            }
            _ => self.fail("Kind"),
        }
        Ok(())
    }

    fn count(&mut self, event: &Event, code: i64) {
        let more = match code {
            -3 => {
                self.fail("Range");
                0
            }
            -2 => event.output.unwrap_or(1),
            -1 => i64::try_from(event.kind.len()).unwrap_or(0),
            _ => code,
        };
        self.number = counted(self.number, more);
    }

    fn tell(&mut self, effect: String) -> Result<(), AllocError> {
        self.effects.push_str(effect.as_str())
    }

    fn spawn(&mut self, id: &str) -> Result<(), AllocError> {
        self.stop(id)?;
        self.children.push(String::from_str(self.alloc, id)?)?;
        self.tell(format!(in self.alloc; " spawn {id} 0 null -")?)
    }

    fn stop(&mut self, id: &str) -> Result<(), AllocError> {
        if !self.children.iter().any(|child| child.as_str() == id) {
            return Ok(());
        }
        self.children.retain(|child| child.as_str() != id);
        self.tell(format!(in self.alloc; " stop {id}")?)
    }

    // ---- texts

    fn id(&self, node: u32) -> &'a str {
        if node < self.def.tree.len() {
            self.def.tree.node(node).id.as_str()
        } else {
            ""
        }
    }

    /// The active leaves, the context and the children.
    fn state_text(&self) -> Result<String, AllocError> {
        let mut text = self.leaves_text()?;
        text.push_str(format!(in self.alloc; " {{\"n\":{}}}", self.number)?.as_str())?;
        for (place, child) in self.children.iter().enumerate() {
            text.push_str(if place == 0 { " children " } else { "," })?;
            text.push_str(child.as_str())?;
        }
        Ok(text)
    }

    fn leaves_text(&self) -> Result<String, AllocError> {
        let mut text = String::new(self.alloc);
        for node in 0..self.nodes.count {
            if self.active.contains(&node) && self.nodes.is_leaf(node) {
                text.push_str(if text.is_empty() { "" } else { "," })?;
                text.push_str(self.id(node))?;
            }
        }
        Ok(text)
    }

    /// What a step gives that left this state.
    fn text(&self, state: String) -> Result<String, AllocError> {
        let mut text = state;
        match self.fault {
            Some(name) => {
                let told = format!(in self.alloc; " [] error {{\"fault\":\"{name}\"}}")?;
                text.push_str(told.as_str())?;
            }
            None => self.put_step(&mut text)?,
        }
        Ok(text)
    }

    /// The types that were read, the effects, and the end where it is done.
    fn put_step(&self, text: &mut String) -> Result<(), AllocError> {
        self.put_types(text)?;
        text.push_str(self.effects.as_str())?;
        if self.is_done {
            text.push_str(" done ")?;
            text.push_str(self.output()?.as_str())?;
        }
        Ok(())
    }

    fn put_types(&self, text: &mut String) -> Result<(), AllocError> {
        if self.types.len() > MOST_TYPES {
            let count = format!(in self.alloc; " [{}]", self.types.len())?;
            return text.push_str(count.as_str());
        }
        text.push_str(" [")?;
        for (place, kind) in self.types.iter().enumerate() {
            text.push_str(if place == 0 { "" } else { "," })?;
            text.push_str(kind.as_str())?;
        }
        text.push_str("]")
    }

    /// The output of the root's final child, or null.
    fn output(&self) -> Result<String, AllocError> {
        for node in 0..self.nodes.count {
            let is_final = matches!(self.nodes.kind(node), Kind::Final);
            if is_final && self.nodes.parent(node) == Some(0) && self.active.contains(&node) {
                if let (Some(def), Kind::Compound { .. }) = (
                    self.def.nodes.get(node as usize),
                    self.nodes.kind(0),
                ) {
                    return match number_of(&def.output) {
                        Some(number) => format!(in self.alloc; "{number}"),
                        None => String::from_str(self.alloc, "null"),
                    };
                }
            }
        }
        String::from_str(self.alloc, "null")
    }
}
