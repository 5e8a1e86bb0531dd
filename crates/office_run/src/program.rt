//! The program: the words are looked at first, then the definitions, then the lines of the input as they come.

ghost use Rattle.std.specs.Prelude.{◌≡◌, ◌≢◌, ◌⊎◌, ◌+◌, ◌-◌, ◌≤◌, ℕ, List, None, Some, IfOk, IsSome, MatchResult, map, string_bytes};
ghost use Rattle.std.specs.Rc.{rc_str_bytes};
ghost use Rattle.xs_outside.specs.Counts.{Rose};
ghost use Rattle.action_table.specs.declared.definitions.Defs.{Defs as definitions_of_office};
ghost use Rattle.action_table.specs.DefsText.{MeansDefs};
ghost use Rattle.flat_core.specs.Office.{empty_office};
ghost use Rattle.office_run.specs.declared.input.TheConstants.{MAX_INPUT};
ghost use Rattle.office_run.specs.declared.script.Line.{Line};
ghost use Rattle.office_run.specs.declared.status.Status.{Status};
ghost use Rattle.office_run.specs.declared.status.TheConstants.{EXIT_USAGE, EXIT_WRITE_FAULT};
ghost use Rattle.office_run.specs.Input.{taken_count};
ghost use Rattle.office_run.specs.LineBuffer.{Holds};
ghost use Rattle.office_run.specs.Script.{IsLine};
ghost use Rattle.office_run.specs.Replies.{answer_line, office_after};
ghost use Rattle.office_run.specs.declared.definitions.TheConstants.{MAX_DEFINITIONS_TAKEN};
ghost use Rattle.office_run.specs.Command.{command_of};
ghost use Rattle.office_run.specs.Printing.{PrintsNothing, PrintsText};
ghost use Rattle.office_run.specs.Step.{Steps, IsBounded};
ghost use Rattle.office_run.specs.Run.{Converses, Hosts, LeavesInput, Serves, ServesCommand, ServesText};
ghost use Rattle.office_run.specs.Status.{code_of, CountsFaults, CountsStep, CountsRun};

use crate::command;
use crate::command::{Command, WordsFault};
use crate::definitions::{DefinitionsFault, flat_machines, take_text};
use crate::definitions_lines::{counts_line, refusal_line};
use crate::input::{Input, Next};
use crate::line_buffer::LineBuffer;
use crate::replies::answer_line;
use crate::script::{Line, read_line};
use crate::status::Status;
use action_table::read_defs;
use flat_core::{Core, FlatFault};
use std::alloc::{AllocError, Global};
use std::rc::RcStr;
use xs_outside::{Both, Ended, Source, Station};

/// What is written where the words are in no form.
pub const USAGE: &str = "usage: xoffice check, run, show, audit, load or serve\n";

/// What is written where definitions are accepted that aren't hosted yet, since they are no office of flat machines.
pub const UNHOSTED: &str = "definitions\n";

/// What is written where the input is too long.
pub const TOO_LONG: &str = "input long\n";

/// The program: it does what the words ask, with the definitions and the station, and answers the exit status with the
/// station. Each line of the input is answered, and its answer written, before more input is asked for than it needs.
/// It keeps the text of the definitions, and one line and one piece of the input, of 65,536 bytes each. `check` reads the
/// definitions once, at the cost of `read_defs`; `run` reads them so too, and those that it hosts once more.
pub fn run<S: Source, W: Station>(
    alloc: Global,
    words: &[RcStr],
    defs: &mut S,
    station: W,
) -> Ended<W>
    // What is printed, and when each status comes, where the sources and the sink tell their bytes.
    ensures ends { (status : Status) × (result.status ≡ code_of status) × Serves status (record {
      words = map rc_str_bytes words.now;
      definitions = S.left defs.old;
      exchange = record {
        input = W.left station;
        taken = W.taken result.station - W.taken station;
        before = W.written station;
        after = W.written result.station;
      };
    }) }

    // The words alone decide on the usage line.
    ensures no_form { command_of (map rc_str_bytes words.now) ≡ None
        → (result.status ≡ EXIT_USAGE) ⊎ (result.status ≡ EXIT_WRITE_FAULT) }
    ensures form { IsSome (command_of (map rc_str_bytes words.now)) → result.status ≢ EXIT_USAGE }

    // Where the status tells of a fault its count rose, and no other count moved.
    ensures faults { (status : Status) × (result.status ≡ code_of status) × CountsRun status
        (record {
          definitions = S.read_faults defs.old;
          station = record { reads = W.read_faults station; writes = W.write_faults station };
        })
        (record {
          definitions = S.read_faults defs.new;
          station = record {
            reads = W.read_faults result.station;
            writes = W.write_faults result.station;
          };
        }) }

    // It takes no more than it may.
    ensures definitions_taken { S.taken defs.new ≤ S.taken defs.old + MAX_DEFINITIONS_TAKEN }
    ensures input_taken { W.taken result.station ≤ W.taken station + (MAX_INPUT + 1) }

    // Only `run` touches the input.
    ensures input_left { LeavesInput (command_of (map rc_str_bytes words.now))
        (record {
          left = W.left station;
          taken = W.taken station;
          faults = W.read_faults station;
        })
        (record {
          left = W.left result.station;
          taken = W.taken result.station;
          faults = W.read_faults result.station;
        }) }
{
    let mut station = station;
    let status = serve(alloc, words, defs, &mut station);
    Ended {
        status: status.code(),
        station,
    }
}

/// Does what the words ask, and tells how the run ends.
fn serve<S: Source, W: Both>(
    alloc: Global,
    words: &[RcStr],
    defs: &mut S,
    station: &mut W,
) -> Status
    ensures served { Serves result (record {
      words = map rc_str_bytes words.now;
      definitions = S.left defs.old;
      exchange = record {
        input = W.left station.old;
        taken = W.taken station.new - W.taken station.old;
        before = W.written station.old;
        after = W.written station.new;
      };
    }) }
    ensures no_form { command_of (map rc_str_bytes words.now) ≡ None
        → (result ≡ Status.Usage) ⊎ (result ≡ Status.WriteFault) }
    ensures form { IsSome (command_of (map rc_str_bytes words.now)) → result ≢ Status.Usage }
    ensures faults { CountsRun result
        (record {
          definitions = S.read_faults defs.old;
          station = record {
            reads = W.read_faults station.old;
            writes = W.write_faults station.old;
          };
        })
        (record {
          definitions = S.read_faults defs.new;
          station = record {
            reads = W.read_faults station.new;
            writes = W.write_faults station.new;
          };
        }) }
    ensures definitions_taken { S.taken defs.new ≤ S.taken defs.old + MAX_DEFINITIONS_TAKEN }
    ensures input_taken { W.taken station.new ≤ W.taken station.old + (MAX_INPUT + 1) }
    ensures input_left { LeavesInput (command_of (map rc_str_bytes words.now))
        (record {
          left = W.left station.old;
          taken = W.taken station.old;
          faults = W.read_faults station.old;
        })
        (record {
          left = W.left station.new;
          taken = W.taken station.new;
          faults = W.read_faults station.new;
        }) }
{
    match command::words(alloc, words) {
        Ok(command) => serve_command(alloc, &command, defs, station),
        Err(WordsFault::NoForm) => print(station, USAGE, Status::Usage),
        Err(WordsFault::Memory) => Status::Memory,
    }
}

/// Does what a command asks. The text of its definitions is taken first.
fn serve_command<S: Source, W: Both>(
    alloc: Global,
    command: &Command,
    defs: &mut S,
    station: &mut W,
) -> Status
    ensures served { ServesCommand result command.now (S.left defs.old) (record {
      input = W.left station.old;
      taken = W.taken station.new - W.taken station.old;
      before = W.written station.old;
      after = W.written station.new;
    }) }
    ensures form { result ≢ Status.Usage }
    ensures faults { CountsRun result
        (record {
          definitions = S.read_faults defs.old;
          station = record {
            reads = W.read_faults station.old;
            writes = W.write_faults station.old;
          };
        })
        (record {
          definitions = S.read_faults defs.new;
          station = record {
            reads = W.read_faults station.new;
            writes = W.write_faults station.new;
          };
        }) }
    ensures definitions_taken { S.taken defs.new ≤ S.taken defs.old + MAX_DEFINITIONS_TAKEN }
    ensures input_taken { W.taken station.new ≤ W.taken station.old + (MAX_INPUT + 1) }
    ensures input_left { LeavesInput (Some command.now)
        (record {
          left = W.left station.old;
          taken = W.taken station.old;
          faults = W.read_faults station.old;
        })
        (record {
          left = W.left station.new;
          taken = W.taken station.new;
          faults = W.read_faults station.new;
        }) }
{
    match take_text(alloc, defs) {
        Ok(text) => serve_text(alloc, command, text.as_slice(), station),
        Err(DefinitionsFault::Failed) => Status::ReadFault,
        Err(DefinitionsFault::Memory) => Status::Memory,
    }
}

/// Does what a command asks over this text of its definitions.
fn serve_text<W: Both>(alloc: Global, command: &Command, text: &[u8], station: &mut W) -> Status
    ensures served { ServesText result command.now text.now (record {
      input = W.left station.old;
      taken = W.taken station.new - W.taken station.old;
      before = W.written station.old;
      after = W.written station.new;
    }) }
    ensures form { result ≢ Status.Usage }
    ensures faults { CountsFaults result
        (record { reads = W.read_faults station.old; writes = W.write_faults station.old })
        (record { reads = W.read_faults station.new; writes = W.write_faults station.new }) }
    ensures input_taken { W.taken station.new ≤ W.taken station.old + (MAX_INPUT + 1) }
    ensures input_left { LeavesInput (Some command.now)
        (record {
          left = W.left station.old;
          taken = W.taken station.old;
          faults = W.read_faults station.old;
        })
        (record {
          left = W.left station.new;
          taken = W.taken station.new;
          faults = W.read_faults station.new;
        }) }
{
    let defs = match read_defs(alloc, text) {
        Ok(defs) => defs,
        Err(fault) => return print_line(station, refusal_line(alloc, fault), Status::Refused),
    };
    match command {
        Command::Check { .. } => print_line(station, counts_line(alloc, &defs), Status::Done),
        Command::Run { .. } => {
            // The office is made of flat machines, so what was linked needn't be kept while it runs.
            drop(defs);
            host(alloc, text, station)
        }
    }
}

/// Answers the lines of the input over a text that means definitions, where their machines are flat.
fn host<W: Both>(alloc: Global, text: &[u8], station: &mut W) -> Status
    requires { (defs : definitions_of_office) × MeansDefs text.now defs }
    ensures hosts { Hosts result text.now (record {
      input = W.left station.old;
      taken = W.taken station.new - W.taken station.old;
      before = W.written station.old;
      after = W.written station.new;
    }) }
    ensures form { result ≢ Status.Usage }
    ensures faults { CountsFaults result
        (record { reads = W.read_faults station.old; writes = W.write_faults station.old })
        (record { reads = W.read_faults station.new; writes = W.write_faults station.new }) }
    ensures taken { W.taken station.new ≤ W.taken station.old + (MAX_INPUT + 1) }
{
    match flat_machines(alloc, text) {
        Ok(machines) => {
            let mut core = Core::new(alloc, machines);
            converse(alloc, &mut core, station)
        }
        Err(FlatFault::NotFlat) => print(station, UNHOSTED, Status::Refused),
        Err(FlatFault::Memory) => Status::Memory,
    }
}

/// Writes a line, and ends so. Where there was no memory for it, it ends for want of memory.
fn print_line<W: Both>(station: &mut W, line: Result<String, AllocError>, status: Status) -> Status
    ensures written { MatchResult line
        (λ text. PrintsText status (string_bytes text) result (record {
          before = W.written station.old;
          after = W.written station.new;
          faults_before = W.write_faults station.old;
          faults_after = W.write_faults station.new;
        }))
        (λ _. PrintsNothing result (record {
          before = W.written station.old;
          after = W.written station.new;
          faults_before = W.write_faults station.old;
          faults_after = W.write_faults station.new;
        })) }
    ensures left { W.left station.new ≡ W.left station.old }
    ensures taken { W.taken station.new ≡ W.taken station.old }
    ensures read_faults { W.read_faults station.new ≡ W.read_faults station.old }
{
    match line {
        Ok(line) => print(station, line.as_str(), status),
        Err(_) => Status::Memory,
    }
}

/// Writes a text, and ends so.
fn print<W: Both>(station: &mut W, text: &str, status: Status) -> Status
    ensures written { PrintsText status text.now result (record {
      before = W.written station.old;
      after = W.written station.new;
      faults_before = W.write_faults station.old;
      faults_after = W.write_faults station.new;
    }) }
    ensures left { W.left station.new ≡ W.left station.old }
    ensures taken { W.taken station.new ≡ W.taken station.old }
    ensures read_faults { W.read_faults station.new ≡ W.read_faults station.old }
{
    match station.write(text.as_bytes()) {
        Ok(()) => status,
        Err(_) => Status::WriteFault,
    }
}

/// Answers the lines of the input, one after the other.
fn converse<W: Both>(alloc: Global, core: &mut Core, station: &mut W) -> Status
    requires { core.old.office ≡ empty_office }
    ensures converses { Converses result core.old.machines (record {
      input = W.left station.old;
      taken = W.taken station.new - W.taken station.old;
      before = W.written station.old;
      after = W.written station.new;
    }) }
    ensures form { result ≢ Status.Usage }
    ensures faults { CountsFaults result
        (record { reads = W.read_faults station.old; writes = W.write_faults station.old })
        (record { reads = W.read_faults station.new; writes = W.write_faults station.new }) }
    ensures taken { W.taken station.new ≤ W.taken station.old + (MAX_INPUT + 1) }
{
    let Ok(mut input) = Input::new(alloc) else {
        return Status::Memory;
    };
    let mut buffer = LineBuffer::new(alloc);
    'lines: loop {
        if let Some(status) = take_line(alloc, core, &mut input, &mut buffer, station) {
            return status;
        }
    }
}

/// Takes the next line and answers it, or tells how the run ends.
fn take_line<W: Both>(
    alloc: Global,
    core: &mut Core,
    input: &mut Input,
    buffer: &mut LineBuffer,
    station: &mut W,
) -> Option<Status>
    requires { taken_count input.old ≤ MAX_INPUT }
    ensures machines { core.new.machines ≡ core.old.machines }
    ensures steps { Steps core.old.machines result
        (record {
          office = core.old.office;
          inflow = record {
            input = input.old;
            left = W.left station.old;
            taken = W.taken station.old;
          };
          written = W.written station.old;
        })
        (record {
          office = core.new.office;
          inflow = record {
            input = input.new;
            left = W.left station.new;
            taken = W.taken station.new;
          };
          written = W.written station.new;
        }) }
    ensures bounded { IsBounded
        (record { input = input.old; left = W.left station.old; taken = W.taken station.old })
        (record { input = input.new; left = W.left station.new; taken = W.taken station.new }) }
    ensures faults { CountsStep result
        (record { reads = W.read_faults station.old; writes = W.write_faults station.old })
        (record { reads = W.read_faults station.new; writes = W.write_faults station.new }) }
{
    match input.next_line(station, buffer) {
        Next::Line => {}
        Next::End => return Some(Status::Done),
        Next::TooMuch => return Some(print(station, TOO_LONG, Status::InputLong)),
        Next::Failed => return Some(Status::ReadFault),
        Next::Memory => return Some(Status::Memory),
    }
    let Ok(text) = answer_buffer(alloc, core, buffer) else {
        return Some(Status::Memory);
    };
    match station.write(text.as_bytes()) {
        Ok(()) => None,
        Err(_) => Some(Status::WriteFault),
    }
}

/// Answers the line in the buffer. One that is too long is no line of a form.
fn answer_buffer(alloc: Global, core: &mut Core, buffer: &LineBuffer) -> Result<String, AllocError>
    ensures machines { core.new.machines ≡ core.old.machines }
    ensures answers { IfOk result (λ text. (bytes : List ℕ) → Holds buffer.now bytes →
        (line : Line) × IsLine bytes line
        × (string_bytes text ≡ answer_line core.old.machines core.old.office line)
        × (core.new.office ≡ office_after core.old.machines core.old.office line)) }
{
    let line = read_buffer(alloc, buffer)?;
    answer_line(alloc, core, &line)
}

/// What the line in the buffer says.
fn read_buffer(alloc: Global, buffer: &LineBuffer) -> Result<Line, AllocError>
    ensures { IfOk result (λ line. (bytes : List ℕ) → Holds buffer.now bytes → IsLine bytes line) }
{
    if buffer.is_long() {
        return Ok(Line::Malformed);
    }
    read_line(alloc, buffer.bytes.as_slice())
}
