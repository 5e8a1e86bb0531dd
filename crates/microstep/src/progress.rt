//! What a microstep has done so far.

ghost use Rattle.std.specs.Prelude.{◌≡◌, [], Ok};
ghost use Rattle.std.specs.List.{list_any};
ghost use Rattle.std.specs.Str.{bytes_eq};
ghost use Rattle.office_types.specs.Outcomes.{children_after};
ghost use Rattle.microstep.specs.Progress.{counted, with_child, with_effect, with_raised, with_stop};
ghost use Rattle.microstep.specs.Progressing.{Becomes};

use crate::micro::{StepFault, Values};
use office_types::{Effect, Effects, Texts};
use std::alloc::Global;
use std::mem;
use xs_data::{Items, Text};
use xs_model::Value;

/// What a microstep has done so far.
#[derive(Debug, Drop)]
pub(crate) struct Progress {
    pub context: Value,
    /// The ids of the children, in the order in which they were made.
    pub children: Texts,
    /// How many children were made that were given no id.
    pub unnamed: u64,
    /// The events that were raised, the oldest first.
    pub raised: Values,
    /// What was asked of the office, in order.
    pub effects: Effects,
    /// How many actions ran, or the greatest number of its type where they are more.
    pub actions: u32,
}

impl Progress {
    /// What is done so far where nothing is done yet.
    pub(crate) fn new(alloc: Global, context: Value, children: Texts, unnamed: u64) -> Progress
        ensures { result ≡ record {
          context = context;
          children = children;
          unnamed = unnamed;
          raised = [];
          effects = [];
          actions = 0;
        } }
    {
        Progress {
            context,
            children,
            unnamed,
            raised: Items::new(alloc),
            effects: Items::new(alloc),
            actions: 0,
        }
    }

    /// Counts an action.
    pub(crate) fn count(&mut self)
        ensures { self.new ≡ counted self.old }
    {
        self.actions = self.actions.saturating_add(1);
    }

    /// Adds a raised event.
    pub(crate) fn raise(&mut self, event: Value) -> Result<(), StepFault>
        ensures { Becomes result self.new (Ok (with_raised self.old event)) }
    {
        self.raised.push(event).map_err(|_| StepFault::Memory)
    }

    /// Adds an effect, with what it makes of the children. Where a child is stopped, it costs a
    /// look at each of them.
    pub(crate) fn add(&mut self, alloc: Global, effect: Effect) -> Result<(), StepFault>
        ensures { Becomes result self.new (Ok (with_effect self.old effect)) }
    {
        match &effect {
            Effect::Spawn { id, .. } => {
                let child = id.copy(alloc)?;
                self.children.push(child).map_err(|_| StepFault::Memory)?;
            }
            Effect::Stop { id } => self.forget(alloc, id.as_bytes()),
            _ => {}
        }
        self.effects.push(effect).map_err(|_| StepFault::Memory)
    }

    /// Takes a child's id out of the list.
    fn forget(&mut self, alloc: Global, id: &[u8])
        ensures { self.new ≡ record self.old {
          children = children_after self.old.children (Effect.Stop id.now);
        } }
    {
        let mut children = mem::replace(&mut self.children, Items::new(alloc)).into_vec();
        children.retain(|other| other.as_bytes() != id);
        self.children = Items::from_vec(children);
    }

    /// Whether there is a child with this id. It looks at each of them.
    pub(crate) fn has_child(&self, id: &[u8]) -> bool
        ensures { result ≡ list_any (bytes_eq id.now) self.now.children }
    {
        self.children
            .as_slice()
            .iter()
            .any(|child| id == child.as_bytes())
    }

    /// Stops the child with this id, if there is one.
    pub(crate) fn stop(&mut self, alloc: Global, id: &Text) -> Result<(), StepFault>
        ensures { Becomes result self.new (Ok (with_stop self.old id.now)) }
    {
        if !self.has_child(id.as_bytes()) {
            return Ok(());
        }
        let id = id.copy(alloc)?;
        self.add(alloc, Effect::Stop { id })
    }

    /// Makes a child. One that has its id already is stopped first.
    pub(crate) fn spawn(
        &mut self,
        alloc: Global,
        id: Text,
        src: u32,
        input: Value,
        system: Option<Text>,
    ) -> Result<(), StepFault>
        ensures { Becomes result self.new (Ok (with_child self.old id src input system)) }
    {
        self.stop(alloc, &id)?;
        self.add(
            alloc,
            Effect::Spawn {
                id,
                src,
                input,
                system,
            },
        )
    }
}
