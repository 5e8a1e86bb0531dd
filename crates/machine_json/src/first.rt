//! Which of several faults is answered.

ghost use Rattle.std.specs.Prelude.{◌≡◌};
ghost use Rattle.machine_json.specs.MachineFaults.{machine_fault_number};
ghost use Rattle.machine_json.specs.FirstPass.{comes_first, earlier};

use crate::fault::MachineFault;

impl MachineFault {
    /// The number of the fault: of two at one place that of the lesser number is answered.
    pub(crate) fn number(self) -> u8
        ensures { result ≡ machine_fault_number self }
    {
        match self {
            MachineFault::UnknownField(_) => 1,
            MachineFault::BadKind(_) => 2,
            MachineFault::NoInitial(_) => 3,
            MachineFault::EmptyStates(_) => 4,
            MachineFault::TooMany(_) => 5,
            MachineFault::DoubleId(_) => 6,
            MachineFault::NoTarget(_) => 7,
            MachineFault::Clash(_) => 8,
            MachineFault::Memory => 9,
        }
    }

    /// Whether the fault is answered where both are found.
    fn comes_first(self, other: MachineFault) -> bool
        ensures { result ≡ comes_first self other }
    {
        self.place() < other.place()
            || self.place() == other.place() && self.number() <= other.number()
    }
}

/// The one of two faults that is answered.
pub(crate) fn earlier(a: Option<MachineFault>, b: Option<MachineFault>) -> Option<MachineFault>
    ensures { result ≡ earlier a b }
{
    match (a, b) {
        (Some(x), Some(y)) => { if x.comes_first(y) { a } else { b } }
        (Some(_), None) => a,
        (None, _) => b,
    }
}
