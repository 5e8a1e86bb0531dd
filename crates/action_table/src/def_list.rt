//! Machines by their numbers and by their ids.

ghost use Rattle.std.specs.Prelude.{◌≡◌, ◌==◌, ℕ, Some, length, map, option_map, position, slice_get};
ghost use Rattle.std.specs.Str.{bytes_eq};
ghost use Rattle.guard_eval.specs.declared.def.Def.{Def};
ghost use Rattle.std.specs.declared.alloc.Global.{Global as global_alloc};
ghost use Rattle.std.specs.declared.sync.Arc.{Arc as shared};
ghost use Rattle.action_table.specs.DefNames.{HasIds, defs_held};

use crate::machine_ids::MachineIds;
use guard_eval::Def;
use std::marker::Model;
use std::sync::Arc;

/// Machines by their numbers, which are their places in the text, and by their ids. Contracts see the
/// list of the definitions.
#[derive(Drop)]
pub struct DefList {
    defs: Vec<Arc<Def>>,
    ids: MachineIds,
}

impl Model for DefList {
    ghost use Rattle.std.specs.Prelude.{List};
    ghost use Rattle.guard_eval.specs.declared.def.Def.{Def};
    ghost use Rattle.guard_eval.specs.contracts.def.Def as definition;
    ghost use Rattle.std.specs.Coded.{codes};
    ghost use Rattle.action_table.specs.DefNames.{HasIds, defs_held};

    ghost Value = { List Def };

    ghost coded = { Prim.hlevel (codes, definition.the_row.coded) };

    ghost view = { λ list. defs_held list.defs.items };

    ghost invariant = { λ list. HasIds list.ids (defs_held list.defs.items) };
}

impl DefList {
    /// The machines with their ids. It takes no memory.
    pub(crate) fn new(defs: Vec<Arc<Def>>, ids: MachineIds) -> DefList
        requires { HasIds ids (defs_held defs.items) }
        ensures { result ≡ defs_held defs.items }
    {
        DefList { defs, ids }
    }

    /// How many machines there are.
    pub fn len(&self) -> u32
        ensures { result ≡ length self.now }
    {
        self.defs.len() as u32
    }

    /// Whether there is no machine.
    pub fn is_empty(&self) -> bool
        ensures { result ≡ (length self.now == 0) }
    {
        self.defs.is_empty()
    }

    /// The machine with a number, if there is one.
    pub fn get(&self, number: u32) -> Option<&Arc<Def>>
        ensures { option_map (λ held. held.now.value) result ≡ slice_get self.now number }
    {
        self.defs.get(number as usize)
    }

    /// The number of the machine with this id, found by a hash of the id. No other machine has the id.
    /// It takes no memory.
    pub fn number_of(&self, id: &[u8]) -> Option<u32>
        ensures number { result ≡ position (λ (def : Def). bytes_eq id.now def.name) self.now }
        ensures own { (n : ℕ) (def : Def) → slice_get self.now n ≡ Some def →
            def.name ≡ id.now → result ≡ Some n }
    {
        let place = self.ids.place_of(id)?;
        Some(place as u32)
    }
}
