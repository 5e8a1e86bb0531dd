//! The records of an office and what they mean: requests and replies, letters, timers and work items,
//! actors and what their steps give. `specs/` defines which states are valid, what an office decides on a
//! request, and what a step changes; everything above is judged by these definitions.
#![tactic(auto)]

mod copies;
mod entry;
mod event;
mod json_value;
pub mod laws;
mod limits;
mod line_fault;
mod line_parts;
mod office;
mod outcome;
mod own;
mod request;
mod request_line;
mod state_values;

pub use copies::{copy_effect, copy_item, copy_letter, copy_own, copy_record, copy_timer};
pub use entry::{Entry, read_entry, write_entry};
pub use event::{event_type, is_reserved, is_short};
pub use json_value::{Bytes, read_value, write_value};
pub use limits::{
    MAX_ACTIVE_ACTORS, MAX_CALLER, MAX_CALLERS, MAX_ENTRIES, MAX_LETTERS, MAX_LINE, MAX_MICROSTEPS,
    MAX_MOMENT, MAX_NEXT_NUMBER, MAX_REPLIES, MAX_TIMERS, MAX_TREE_LEVELS,
};
pub use line_fault::LineFault;
pub use line_parts::{is_caller, read_number};
pub use office::{
    ActorRecord, ActorRecords, Caller, Callers, Item, Kids, Letter, Letters, NameList, OfficeState,
    Origin, Status, Timer, TimerList,
};
pub use outcome::{Effect, Effects, End, FaultName, Outcome, Own, Texts, To};
pub use request::{Ask, Replies, Reply, Request, Word};
pub use request_line::{read_request, write_request};
pub use state_values::state_value;
