//! A definitions text, read whole.

ghost use Rattle.std.specs.Prelude.{◌≡◌, ◌≢◌, ◌<◌, ◌^◌, All, IfErr, IfOk, length};
ghost use Rattle.std.specs.List.{AllZip};
ghost use Rattle.guard_eval.specs.Definitions.{IsWellFormed};
ghost use Rattle.machine_json.specs.Machines.{MeansMachine};
ghost use Rattle.machine_json.specs.ReadMachine.{IsReadMachine};
ghost use Rattle.ordered_json.specs.OwnKeys.{HasOwnKeys};
ghost use Rattle.office_types.specs.Definitions.{AreLinked};
ghost use Rattle.action_table.specs.Definitions.{office_definitions};
ghost use Rattle.action_table.specs.DefsText.{IsDefsReading, IsFirstRefused};
ghost use Rattle.action_table.specs.Linked.{IsLinkReading};

use crate::definitions::Defs;
use crate::defs_fault::DefsFault;
use crate::fault::TableFault;
use crate::linking::link;
use crate::outer_shape::outer_parts;
use crate::read::read_table;
use crate::table::Table;
use machine_json::{Machine, MachineFault, read_machine};
use ordered_json::{OrderedJson, read};
use std::alloc::{AllocError, Global};

/// Reads a definitions text: its machines and its table, linked. The first fault is answered: of the
/// JSON, of the outer shape, of each machine in order, of the table, of linking. It costs a few looks
/// at each part of the text, and what `link` costs.
pub fn read_defs(alloc: Global, text: &[u8]) -> Result<Defs, DefsFault>
    ensures reading { IsDefsReading text.now result }
    ensures well_formed { IfOk result (λ defs. All (IsWellFormed (length defs.actors)) defs.defs) }
    ensures office { IfOk result (λ defs. AreLinked (office_definitions defs)) }
{
    let json = read(alloc, text).map_err(DefsFault::Json)?;
    let (texts, implementations) = match outer_parts(&json) {
        Ok(parts) => parts,
        Err(place) => return Err(DefsFault::Table(TableFault::UnknownForm(place))),
    };
    let machines = read_machines(alloc, texts).map_err(DefsFault::Machine)?;
    let table = read_table(alloc, implementations).map_err(DefsFault::Table)?;
    link_few(alloc, &machines, &table).map_err(DefsFault::Table)
}

/// The machines that texts mean, up to the first that is refused.
fn read_machines(alloc: Global, texts: &[OrderedJson]) -> Result<Vec<Machine>, MachineFault>
    requires { All HasOwnKeys texts.now }
    ensures mean { IfOk result (λ machines. AllZip MeansMachine texts.now machines.items) }
    ensures linkable { IfOk result (λ machines. All IsReadMachine machines.items) }
    ensures refused { IfErr result
        (λ fault. fault ≢ MachineFault.Memory → IsFirstRefused texts.now fault) }
{
    let mut machines = Vec::with_capacity(alloc, texts.len())?;
    for text in texts {
        let machine = read_machine(alloc, text)?;
        machines.push(machine).map_err(AllocError::from)?;
    }
    Ok(machines)
}

/// Links machines with a table where there are no more of either than numbers, as in any text that
/// JSON's limit allows.
fn link_few(alloc: Global, machines: &[Machine], table: &Table) -> Result<Defs, TableFault>
    requires { All IsReadMachine machines.now }
    ensures reading { IsLinkReading machines.now table.now result }
    ensures well_formed { IfOk result (λ defs. All (IsWellFormed (length defs.actors)) defs.defs) }
    ensures office { IfOk result (λ defs. AreLinked (office_definitions defs)) }
{
    let most = u32::MAX as usize;
    if machines.len() > most || table.actors.len() > most {
        return Err(TableFault::Memory);
    }
    link(alloc, machines, table)
}
