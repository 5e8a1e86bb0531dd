//! How a run ends, and the exit status that tells it.

ghost use Rattle.std.specs.Prelude.{◌≡◌};
ghost use Rattle.office_run.specs.Status.{code_of};

/// The exit status where the input was read to its end, or the definitions were counted.
pub const EXIT_DONE: u8 = 0;

/// The exit status where the words are in no form.
pub const EXIT_USAGE: u8 = 2;

/// The exit status where the definitions are refused.
pub const EXIT_REFUSED: u8 = 3;

/// The exit status where the definitions or the input can't be read.
pub const EXIT_READ_FAULT: u8 = 5;

/// The exit status where the output can't be written.
pub const EXIT_WRITE_FAULT: u8 = 6;

/// The exit status where memory was wanted.
pub const EXIT_MEMORY: u8 = 8;

/// The exit status where the input is longer than a run takes.
pub const EXIT_INPUT_LONG: u8 = 9;

/// How a run ends.
#[derive(Clone, Copy, Debug, PartialEq, Eq)]
pub enum Status {
    Done,
    Usage,
    Refused,
    ReadFault,
    WriteFault,
    Memory,
    InputLong,
}

impl Status {
    /// The program's exit status.
    pub fn code(self) -> u8
        ensures { result ≡ code_of self }
    {
        match self {
            Status::Done => EXIT_DONE,
            Status::Usage => EXIT_USAGE,
            Status::Refused => EXIT_REFUSED,
            Status::ReadFault => EXIT_READ_FAULT,
            Status::WriteFault => EXIT_WRITE_FAULT,
            Status::Memory => EXIT_MEMORY,
            Status::InputLong => EXIT_INPUT_LONG,
        }
    }
}
