//! The office's core: flat machines, requests, and the office that decides them and steps its actors.
#![tactic(auto)]

mod flat;
mod flat_text;
pub mod laws;
mod office;
mod places;
mod request;
mod request_line;

pub use flat::{FlatMachine, FlatMachines, FlatState, FlatStates, FlatTransition, FlatTransitions};
pub use flat_text::{FlatFault, read_flat};
pub use office::{Claim, Core, Event, FlatValue, Plan, Refused, StepRefused};
pub use request::{
    Ask, Reply, Request, STATUS_ACCEPTED, STATUS_CREATED, STATUS_NOT_FOUND, STATUS_OK, Word,
};
pub use request_line::{LineFault, MAX_CALLER, MAX_LINE, read_number, read_request};
