//! How often an end of the outside has failed.

ghost use Rattle.std.specs.Prelude.{◌≡◌, ◌≤◌, Ok, Err, MatchResult};
ghost use Rattle.xs_outside.specs.Counts.{CountsFailure};

use std::io;
use xs_outside::Failed;

/// A count of faults. It ends at `u64::MAX`.
#[derive(Debug, Drop)]
pub struct Faults {
    pub count: u64,
}

impl Faults {
    /// No fault yet.
    pub fn none() -> Faults
        ensures { result.count ≡ 0 }
    {
        Faults { count: 0 }
    }

    /// What a call of the system answered, with its error counted and let go.
    pub fn note<T>(&mut self, outcome: io::Result<T>) -> Result<T, Failed>
        ensures answer { MatchResult outcome
            (λ value. result ≡ Ok value) (λ _. result ≡ Err (record {})) }
        ensures faults { CountsFailure result self.old.count self.new.count }
        ensures later { self.old.count ≤ self.new.count }
    {
        match outcome {
            Ok(value) => Ok(value),
            Err(_) => {
                self.count = self.count.saturating_add(1);
                Err(Failed)
            }
        }
    }
}
