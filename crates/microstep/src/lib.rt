//! One microstep of a statechart: which transitions are taken, and what is done in which order.
#![tactic(auto)]

mod actions;
mod acts;
mod assignment;
mod candidates;
mod choices;
mod done;
mod done_events;
mod ends;
mod entries;
pub mod laws;
mod lent;
mod made_events;
mod micro;
mod moves;
mod node_sets;
mod parts;
mod patterns;
mod picks;
mod places;
mod progress;
mod reading;
mod recording;
mod selection;
mod sending;
mod spawning;
mod steps;

pub use micro::{Micro, Picked, Places, StepFault, Values};
pub use selection::select;
pub use steps::{advance, first_microstep, machine_output, microstep};
