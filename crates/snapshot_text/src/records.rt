//! The records of actors, found by their numbers.

ghost use Rattle.std.specs.Prelude.{◌≡◌, length, option_copied, unwrap_or, [], Some, slice_get, ◌<◌, IsSome};
ghost use Rattle.node_tree.specs.Nodes.{id_of};
ghost use Rattle.office_types.specs.Records.{actor_record};
ghost use Rattle.action_table.specs.Definitions.{machine_outline, office_definitions};
ghost use Rattle.snapshot_text.specs.Validity.{RecordsRise};

use action_table::Defs;
use guard_eval::Def;
use node_tree::Tree;
use office_types::{ActorRecord, OfficeState};

/// The record of an actor, found by halves.
pub(crate) fn find_record(state: &OfficeState, number: u64) -> Option<&ActorRecord>
    requires { RecordsRise state.now.actors }
    ensures { option_copied result ≡ actor_record state.now number }
{
    let actors = state.actors.as_slice();
    match actors.binary_search_by(|actor| actor.number.cmp(&number)) {
        Ok(place) => Some(&actors[place]),
        Err(_) => None,
    }
}

/// The definition with a number that one has.
pub(crate) fn machine_at(defs: &Defs, number: u32) -> &Def
    requires { number < length (office_definitions defs.now).machines }
    ensures { slice_get (office_definitions defs.now).machines number
        ≡ Some (machine_outline result.now) }
{
    defs.defs.get(number).unwrap()
}

/// The id of a node; none has an empty one.
pub(crate) fn id_of_node(tree: &Tree, node: u32) -> &str
    ensures { result.now ≡ unwrap_or (id_of tree.now node) [] }
{
    if node < tree.len() {
        tree.node(node).id.as_str()
    } else {
        ""
    }
}
