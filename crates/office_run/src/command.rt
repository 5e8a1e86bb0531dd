//! The words of the command line.

ghost use Rattle.std.specs.Prelude.{◌≡◌, ◌∷◌, [], map};
ghost use Rattle.std.specs.Rc.{rc_str_bytes};
ghost use Rattle.office_run.specs.Command.{is_word, IsCommand};

use std::alloc::{AllocError, Global};
use std::rc::RcStr;
use thiserror::Error;
use xs_data::Text;

/// What the program is asked to do.
#[derive(Debug, Drop)]
pub enum Command {
    /// `check DEFS`: tells what the definitions have, or for which fault they are refused.
    Check { defs: Text },
    /// `run DEFS JOURNAL`: answers the lines of its input.
    Run { defs: Text, journal: Text },
}

/// Why words are no command.
#[derive(Clone, Copy, Debug, PartialEq, Eq, Error)]
pub enum WordsFault {
    /// The words are in no form.
    #[error("the words are in no form")]
    NoForm,
    #[error("out of memory")]
    Memory,
}

impl From<AllocError> for WordsFault {
    ghost use Rattle.office_run.specs.declared.command.WordsFault.TheVariants.{Memory};

    ghost from_gives = { λ _ fault. fault ≡ Memory };

    fn from(_error: AllocError) -> WordsFault {
        WordsFault::Memory
    }
}

/// Reads the words of the command line, the program's name left out.
pub fn words(alloc: Global, words: &[RcStr]) -> Result<Command, WordsFault>
    ensures { IsCommand (map rc_str_bytes words.now) result }
{
    match words {
        [check, defs] => check_command(alloc, check.as_str(), defs.as_str()),
        [run, defs, journal] => {
            run_command(alloc, run.as_str(), defs.as_str(), journal.as_str())
        }
        _ => Err(WordsFault::NoForm),
    }
}

/// The command of two words.
fn check_command(alloc: Global, check: &str, defs: &str) -> Result<Command, WordsFault>
    ensures { IsCommand (check.now ∷ defs.now ∷ []) result }
{
    if check.as_bytes() != b"check".as_slice() || !is_word(defs.as_bytes()) {
        return Err(WordsFault::NoForm);
    }
    let defs = Text::from_str(alloc, defs)?;
    Ok(Command::Check { defs })
}

/// The command of three words.
fn run_command(alloc: Global, run: &str, defs: &str, journal: &str) -> Result<Command, WordsFault>
    ensures { IsCommand (run.now ∷ defs.now ∷ journal.now ∷ []) result }
{
    let are_words = is_word(defs.as_bytes()) && is_word(journal.as_bytes());
    if run.as_bytes() != b"run".as_slice() || !are_words {
        return Err(WordsFault::NoForm);
    }
    let defs = Text::from_str(alloc, defs)?;
    let journal = Text::from_str(alloc, journal)?;
    Ok(Command::Run { defs, journal })
}

/// Whether this may be a word of a form.
fn is_word(word: &[u8]) -> bool
    ensures { result ≡ is_word word.now }
{
    match word {
        [] => false,
        [first, ..] => *first != b'-',
    }
}
