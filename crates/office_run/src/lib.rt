//! The program: it takes the words of the command line, the definitions and a station, and answers the status.
#![tactic(auto)]

mod command;
mod definitions;
mod definitions_lines;
mod input;
mod line_buffer;
mod program;
mod replies;
mod script;
mod status;

pub use command::{Command, WordsFault, words};
pub use definitions::MAX_DEFINITIONS_TAKEN;
pub use input::MAX_INPUT;
pub use program::{TOO_LONG, UNHOSTED, USAGE, run};
pub use status::{
    EXIT_DONE, EXIT_INPUT_LONG, EXIT_MEMORY, EXIT_READ_FAULT, EXIT_REFUSED, EXIT_USAGE,
    EXIT_WRITE_FAULT,
};
