//! Flat machines: states without children, and transitions between them.

use xs_data::{Items, Text};

/// A transition of a flat machine: the event type that takes it, and the place of the state that it leads to.
#[derive(Debug, Drop)]
pub struct FlatTransition {
    pub descriptor: Text,
    pub state: u32,
}

/// The transitions of a state, in the order of the text.
pub type FlatTransitions = Items<FlatTransition>;

/// A state of a flat machine, with its key.
#[derive(Debug, Drop)]
pub struct FlatState {
    pub key: Text,
    pub transitions: FlatTransitions,
}

/// The states of a machine, in the order of the text.
pub type FlatStates = Items<FlatState>;

/// A machine of states without children. `initial`, and the target of each transition, are places in `states`, from 0.
#[derive(Debug, Drop)]
pub struct FlatMachine {
    pub id: Text,
    pub initial: u32,
    pub states: FlatStates,
}

/// The machines of an office, in the order of the text.
pub type FlatMachines = Items<FlatMachine>;
