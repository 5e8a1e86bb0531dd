//! What the microsteps of a macrostep leave beside the own part.

ghost use Rattle.std.specs.Prelude.{◌≡◌, ◌==◌, ◌+◌, false, IfErr, IfOk, IsTrue, length};
ghost use Rattle.xs_model.specs.declared.value.Value.{Value};
ghost use Rattle.office_types.specs.declared.outcome.Own.{Own};
ghost use Rattle.macrostep.specs.Macro.{run_of, type_of};
ghost use Rattle.macrostep.specs.Trails.{HasNoRaised, IsActionTooMany, IsAdded, IsOldest, last_event, run_with};

use crate::limits::MAX_ACTIONS;
use microstep::{Micro, StepFault};
use office_types::{
    Effect, Effects, End, FaultName, MAX_MICROSTEPS, Outcome, Own, Texts, event_type,
};
use std::alloc::{AllocError, Global};
use std::collections::VecDeque;
use xs_data::Text;
use xs_model::Value;

/// What the microsteps so far left, beside the own part.
#[derive(Drop)]
pub(crate) struct Trail {
    /// The raised events that wait, the oldest first.
    pub raised: VecDeque<Value>,
    pub effects: Vec<Effect>,
    /// How many actions ran.
    pub actions: u32,
    /// The raised event that was taken last, if one was.
    pub taken: Option<Value>,
    /// The types of the events that the microsteps read.
    pub read: Vec<Text>,
}

/// What a microstep made of an own part.
#[derive(Drop)]
pub(crate) struct Made {
    pub own: Own,
    /// Whether the machine is done.
    pub finished: bool,
}

impl Trail {
    /// Nothing is done yet. It takes no memory.
    pub fn new(alloc: Global) -> Trail
        ensures { (own : Own) (first : Value) → run_with own first result ≡ run_of own first }
    {
        Trail {
            raised: VecDeque::new(alloc),
            effects: Vec::new(alloc),
            actions: 0,
            taken: None,
            read: Vec::new(alloc),
        }
    }

    /// The event that was taken last, where the macrostep began with this one.
    pub fn event<'a>(&'a self, first: &'a Value) -> &'a Value
        ensures { result.now ≡ last_event first.now self.now }
    {
        match &self.taken {
            Some(event) => event,
            None => first,
        }
    }

    /// Whether there were as many microsteps as there may be.
    pub fn is_full(&self) -> bool
        ensures { result ≡ (length self.now.read.items == MAX_MICROSTEPS) }
    {
        self.read.len() == MAX_MICROSTEPS
    }

    /// Takes the oldest raised event, if one waits.
    pub fn take_oldest(&mut self) -> bool
        ensures taken { IsTrue result → (event : Value) × IsOldest event self.old self.new }
        ensures none { result ≡ false → HasNoRaised self.old self.new }
    {
        match self.raised.pop_front() {
            Some(event) => {
                self.taken = Some(event);
                true
            }
            None => false,
        }
    }

    /// Adds what a microstep left that read the event taken last. An action too many is the fault
    /// Actions.
    pub fn add(&mut self, alloc: Global, first: &Value, micro: Micro) -> Result<Made, StepFault>
        ensures added { IfOk result (λ made. IsAdded first.now self.old micro made self.new) }
        ensures fault { IfErr result (IsActionTooMany (self.old.actions + micro.actions)) }
    {
        let actions = u64::from(self.actions) + u64::from(micro.actions);
        if actions > MAX_ACTIONS {
            return Err(StepFault::Fault(FaultName::Actions));
        }
        let kind = type_of(alloc, self.event(first))?;
        let Micro {
            own,
            raised,
            effects,
            actions: _,
            finished,
        } = micro;
        self.actions = actions as u32;
        let Ok(()) = self.read.push(kind) else {
            return Err(StepFault::Memory);
        };
        self.raised
            .append(&mut VecDeque::from_vec(raised.into_vec()))?;
        self.effects.append(&mut effects.into_vec())?;
        Ok(Made { own, finished })
    }

    /// The outcome of a macrostep that ends so.
    pub fn into_outcome(self, own: Own, end: End) -> Outcome
        ensures { result ≡ record {
          own = own;
          end = end;
          effects = self.effects.items;
          micros = self.read.items;
        } }
    {
        let Trail {
            raised: _,
            effects,
            actions: _,
            taken: _,
            read,
        } = self;
        Outcome {
            own,
            end,
            effects: Effects::from_vec(effects),
            micros: Texts::from_vec(read),
        }
    }
}

/// A copy of the type of an event.
fn type_of(alloc: Global, event: &Value) -> Result<Text, AllocError>
    ensures { IfOk result (λ kind. kind ≡ type_of event.now) }
{
    match event_type(event) {
        Some(kind) => kind.copy(alloc),
        None => Ok(Text::new(alloc)),
    }
}
