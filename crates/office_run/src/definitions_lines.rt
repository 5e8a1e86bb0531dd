//! The line that tells what a definitions text has, or for which fault it is refused.

ghost use Rattle.std.specs.Prelude.{◌≡◌, false, IfOk, string_bytes};
ghost use Rattle.office_run.specs.DefinitionsLines.{counts_line, fault_line, is_want_of_memory, json_fault_number, node_count, refusal_line, table_fault_number};
ghost use Rattle.machine_json.specs.MachineFaults.{machine_fault_number};

use action_table::{DefList, Defs, DefsFault, TableFault};
use machine_json::MachineFault;
use ordered_json::JsonFault;
use std::alloc::{AllocError, Global};

/// The line of definitions that are accepted. It costs one look a machine.
pub fn counts_line(alloc: Global, defs: &Defs) -> Result<String, AllocError>
    ensures { IfOk result (λ text. string_bytes text ≡ counts_line defs.now) }
{
    let machines = defs.defs.len();
    let nodes = node_count(&defs.defs);
    format!(in alloc; "definitions machines {machines} nodes {nodes}\n")
}

/// How many nodes machines have together.
fn node_count(defs: &DefList) -> u64
    ensures { result ≡ node_count defs.now }
{
    let mut nodes = 0;
    for number in 0..defs.len() {
        if let Some(def) = defs.get(number) {
            nodes += u64::from(def.tree.len());
        }
    }
    nodes
}

/// The line of the fault for which a text is refused. Want of memory is no such fault: it has no line.
pub fn refusal_line(alloc: Global, fault: DefsFault) -> Result<String, AllocError>
    ensures { IfOk result (λ text.
        (is_want_of_memory fault ≡ false) × (string_bytes text ≡ refusal_line fault)) }
{
    if is_want_of_memory(fault) {
        return Err(AllocError);
    }
    match fault {
        DefsFault::Json(fault) => {
            fault_line(alloc, "json", json_fault_number(fault), fault.place())
        }
        DefsFault::Machine(fault) => {
            fault_line(alloc, "machine", machine_fault_number(fault), fault.place())
        }
        DefsFault::Table(fault) => {
            fault_line(alloc, "table", table_fault_number(fault), fault.place())
        }
    }
}

/// A fault in a part of the definitions, by its number and its place.
fn fault_line(alloc: Global, part: &str, number: u8, place: usize) -> Result<String, AllocError>
    ensures { IfOk result (λ text. string_bytes text ≡ fault_line part.now number place) }
{
    format!(in alloc; "definitions {part} {number} {place}\n")
}

/// Whether a fault is want of memory, and none of the text's own.
fn is_want_of_memory(fault: DefsFault) -> bool
    ensures { result ≡ is_want_of_memory fault }
{
    match fault {
        DefsFault::Json(fault) => matches!(fault, JsonFault::Memory),
        DefsFault::Machine(fault) => matches!(fault, MachineFault::Memory),
        DefsFault::Table(fault) => matches!(fault, TableFault::Memory),
    }
}

fn json_fault_number(fault: JsonFault) -> u8
    ensures { result ≡ json_fault_number fault }
{
    match fault {
        JsonFault::Syntax(_) => 1,
        JsonFault::DoubleKey(_) => 2,
        JsonFault::Fraction(_) => 3,
        JsonFault::Range(_) => 4,
        JsonFault::TooDeep(_) => 5,
        JsonFault::TooLong => 6,
        JsonFault::Memory => 7,
    }
}

fn machine_fault_number(fault: MachineFault) -> u8
    ensures { result ≡ machine_fault_number fault }
{
    match fault {
        MachineFault::UnknownField(_) => 1,
        MachineFault::BadKind(_) => 2,
        MachineFault::NoInitial(_) => 3,
        MachineFault::EmptyStates(_) => 4,
        MachineFault::TooMany(_) => 5,
        MachineFault::DoubleId(_) => 6,
        MachineFault::NoTarget(_) => 7,
        MachineFault::Clash(_) => 8,
        MachineFault::Memory => 9,
    }
}

fn table_fault_number(fault: TableFault) -> u8
    ensures { result ≡ table_fault_number fault }
{
    match fault {
        TableFault::UnknownForm(_) => 1,
        TableFault::Unnamed(_) => 2,
        TableFault::Twice(_) => 3,
        TableFault::Memory => 4,
    }
}
