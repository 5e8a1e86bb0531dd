//! Linking: each name of the machines is replaced by what the table has under it.

ghost use Rattle.std.specs.Prelude.{◌<◌, ◌^◌, All, IfOk, length};
ghost use Rattle.guard_eval.specs.Definitions.{IsWellFormed};
ghost use Rattle.machine_json.specs.ReadMachine.{IsReadMachine};
ghost use Rattle.office_types.specs.Definitions.{AreLinked};
ghost use Rattle.action_table.specs.Definitions.{office_definitions};
ghost use Rattle.action_table.specs.Linked.{IsLinkReading};

use crate::def_list::DefList;
use crate::definitions::Defs;
use crate::fault::TableFault;
use crate::linked_actors::linked_actors;
use crate::linked_nodes::linked_machines;
use crate::machine_ids::ids_of;
use crate::table::Table;
use crate::unnamed::first_unnamed;
use machine_json::Machine;
use std::alloc::Global;

/// Links machines with a table: each name of a machine or of the table is replaced by what stands for
/// it. A machine whose id an earlier one has is `Twice`, and where there is none a name for which
/// nothing stands is `Unnamed`, each at the least place. It looks at each part once to find faults,
/// and copies each, and the forms of an action as often as a machine uses it. Each look-up is by a
/// hash.
pub fn link(alloc: Global, machines: &[Machine], table: &Table) -> Result<Defs, TableFault>
    requires machines { length machines.now < 2 ^ 32 }
    requires actors { length table.now.actors < 2 ^ 32 }
    requires read { All IsReadMachine machines.now }
    ensures reading { IsLinkReading machines.now table.now result }
    ensures well_formed { IfOk result (λ defs. All (IsWellFormed (length defs.actors)) defs.defs) }
    ensures office { IfOk result (λ defs. AreLinked (office_definitions defs)) }
{
    let (ids, twice) = ids_of(alloc, machines)?;
    if let Some(place) = twice {
        return Err(TableFault::Twice(place));
    }
    if let Some(place) = first_unnamed(&ids, machines, table) {
        return Err(TableFault::Unnamed(place));
    }
    let defs = linked_machines(alloc, table, machines)?;
    let actors = linked_actors(alloc, &ids, &table.actors)?;
    Ok(Defs {
        defs: DefList::new(defs, ids),
        actors,
    })
}
