//! The ids of machines, and the first that stands twice.

ghost use Rattle.std.specs.Prelude.{◌≡◌, ◌++◌, ◌∷◌, [], None, Some, IfOk, OnOk, is_some, if◌then◌else◌};
ghost use Rattle.xs_model.specs.Rising.{get};
ghost use Rattle.action_table.specs.DefNames.{ids_of_machines};
ghost use Rattle.action_table.specs.TablePlaces.{IsLeastOf};
ghost use Rattle.action_table.specs.Twice.{with_id};
ghost use Rattle.action_table.specs.Uses.{IsTwice};

use crate::first::least_of;
use machine_json::Machine;
use std::alloc::{AllocError, Global};
use xs_model::Names;

/// The ids of machines in the order of the text, each with the place of its machine.
pub(crate) type MachineIds = Names<usize>;

/// The ids of machines, and the least place of a machine whose id an earlier one has. It copies each
/// id, and looks each up by its hash.
pub(crate) fn ids_of(
    alloc: Global,
    machines: &[Machine],
) -> Result<(MachineIds, Option<usize>), AllocError>
    ensures twice { IfOk result (λ found. IsLeastOf (IsTwice machines.now) found.1) }
    ensures ids { IfOk result (λ found. found.1 ≡ None → found.0 ≡ ids_of_machines machines.now) }
{
    let mut ids = Names::new(alloc);
    let mut twice = None;
    for machine in machines {
        let found = enter(alloc, &mut ids, machine)?;
        twice = least_of(twice, found);
    }
    Ok((ids, twice))
}

/// Enters the id of a machine, or answers the machine's place where the id is held.
fn enter(
    alloc: Global,
    ids: &mut MachineIds,
    machine: &Machine,
) -> Result<Option<usize>, AllocError>
    ensures found { IfOk result (λ found. found ≡
        (if is_some (get machine.now.name ids.old) then Some machine.now.place else None)) }
    ensures entered { OnOk result (ids.new ≡ with_id ids.old machine.now) }
{
    if ids.get(machine.name.as_bytes()).is_some() {
        return Ok(Some(machine.place));
    }
    let id = machine.name.copy(alloc)?;
    match ids.put_last(id, machine.place) {
        Ok(()) => Ok(None),
        Err(_) => Err(AllocError),
    }
}
