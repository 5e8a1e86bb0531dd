//! Nested snapshots.

ghost use Rattle.std.specs.Prelude.{◌≡◌, ◌<◌, ◌++◌, IfOk, IfSome, IsSome, OnOk, [], codes, drop, length, map};
ghost use Rattle.std.specs.List.{flat_map};
ghost use Rattle.std.specs.List.Sorted.{IsStrictlyIncreasing};
ghost use Rattle.serde_json.specs.Data.{string};
ghost use Rattle.serde_json.specs.Written.{compact_text};
ghost use Rattle.office_types.specs.declared.office.Item.{Item};
ghost use Rattle.office_types.specs.declared.outcome.Own.{Own};
ghost use Rattle.office_types.specs.Records.{actor_record};
ghost use Rattle.office_types.specs.ValidOffice.{IsValidOffice};
ghost use Rattle.action_table.specs.Definitions.{office_definitions};
ghost use Rattle.snapshot_text.specs.Snapshots.{history_data, ids_data, letter_data, machine_data, nested_snapshot, origin_data, recorded_data, recorded_items, snapshot_data, snapshot_members, state_data, status_word, unnamed_data};
ghost use Rattle.snapshot_text.specs.Tokens.{data_tokens, keyed_data_tokens};
ghost use Rattle.snapshot_text.specs.ValueData.{list_data, optional_data, value_data};

use crate::members::{put_name, put_null, put_number, put_text, put_under};
use crate::records::{find_record, id_of_node, machine_at};
use action_table::Defs;
use json::Writer;
use node_tree::{Targets, Tree};
use office_types::{
    ActorRecord, Bytes, Item, Letter, MAX_TREE_LEVELS, OfficeState, Origin, Own, Status,
    state_value,
};
use std::alloc::{AllocError, Global};

/// The nested snapshot of an actor: its own, with those of its children inside. Letters and contexts
/// are written once, as they lie; the records of children are found by halves.
pub fn deep(
    alloc: Global,
    defs: &Defs,
    state: &OfficeState,
    actor: u64,
) -> Result<Bytes, AllocError>
    requires valid { IsValidOffice (office_definitions defs.now) state.now }
    requires held { IsSome (actor_record state.now actor) }
    ensures { IfOk result (λ bytes. bytes
        ≡ compact_text (nested_snapshot (office_definitions defs.now) state.now actor)) }
{
    let mut writer = Writer::new(Vec::new(alloc));
    put_snapshot(&mut writer, alloc, defs, state, MAX_TREE_LEVELS, actor)?;
    Ok(Bytes::from_vec(writer.into_inner()))
}

/// Writes the snapshot of an actor, with so many levels of actors in it.
pub(crate) fn put_snapshot(
    writer: &mut Writer,
    alloc: Global,
    defs: &Defs,
    state: &OfficeState,
    levels: u64,
    number: u64,
) -> Result<(), AllocError>
    requires { IsValidOffice (office_definitions defs.now) state.now }
    ensures before { writer.new.before ≡ writer.old.before }
    ensures tokens { OnOk result (writer.new.tokens ≡ writer.old.tokens
        ++ data_tokens (snapshot_data (office_definitions defs.now) state.now levels number)) }
{
    if levels == 0 {
        return writer.null();
    }
    let Some(actor) = find_record(state, number) else {
        return writer.null();
    };
    writer.begin_object()?;
    put_number(writer, "actor", actor.number)?;
    writer.key("children")?;
    writer.begin_array()?;
    for (id, child) in actor.kids.as_slice() {
        writer.begin_object()?;
        put_text(writer, "id", id.as_str())?;
        writer.key("snapshot")?;
        put_snapshot(writer, alloc, defs, state, levels - 1, *child)?;
        writer.end_object()?;
    }
    writer.end_array()?;
    put_members(writer, alloc, defs, actor)?;
    writer.end_object()
}

/// Writes the members behind the children.
fn put_members(
    writer: &mut Writer,
    alloc: Global,
    defs: &Defs,
    actor: &ActorRecord,
) -> Result<(), AllocError>
    requires machine { IfSome actor.now.own
        (λ (own : Own). own.def < length (office_definitions defs.now).machines) }
    requires in_order { IfSome actor.now.own (λ (own : Own). IsStrictlyIncreasing own.nodes) }
    ensures before { writer.new.before ≡ writer.old.before }
    ensures tokens { OnOk result (writer.new.tokens ≡ writer.old.tokens ++ flat_map
        keyed_data_tokens (drop 2 (snapshot_members (office_definitions defs.now) [] actor.now))) }
{
    put_context(writer, &actor.own)?;
    put_under(writer, "error", &actor.error)?;
    put_history(writer, defs, &actor.own)?;
    put_input(writer, &actor.item)?;
    put_letters(writer, actor.mailbox.as_slice())?;
    put_machine(writer, defs, &actor.own)?;
    put_under(writer, "output", &actor.output)?;
    put_src(writer, &actor.item)?;
    put_text(writer, "status", status_word(actor.status))?;
    put_name(writer, "systemId", &actor.system)?;
    put_unnamed(writer, &actor.own)?;
    put_state_value(writer, alloc, defs, &actor.own)
}

fn put_context(writer: &mut Writer, own: &Option<Own>) -> Result<(), AllocError>
    ensures before { writer.new.before ≡ writer.old.before }
    ensures tokens { OnOk result (writer.new.tokens ≡ writer.old.tokens ++ keyed_data_tokens
        (codes "context", optional_data (λ (o : Own). value_data o.context) own.now)) }
{
    match own {
        Some(own) => put_under(writer, "context", &own.context),
        None => put_null(writer, "context"),
    }
}

fn put_history(writer: &mut Writer, defs: &Defs, own: &Option<Own>) -> Result<(), AllocError>
    requires { IfSome own.now
        (λ (o : Own). o.def < length (office_definitions defs.now).machines) }
    ensures before { writer.new.before ≡ writer.old.before }
    ensures tokens { OnOk result (writer.new.tokens ≡ writer.old.tokens ++ keyed_data_tokens
        (codes "history", history_data (office_definitions defs.now) own.now)) }
{
    writer.key("history")?;
    writer.begin_array()?;
    put_own_history(writer, defs, own)?;
    writer.end_array()
}

/// Writes what the history nodes of an own part recorded, if there is one.
fn put_own_history(writer: &mut Writer, defs: &Defs, own: &Option<Own>) -> Result<(), AllocError>
    requires { IfSome own.now
        (λ (o : Own). o.def < length (office_definitions defs.now).machines) }
    ensures before { writer.new.before ≡ writer.old.before }
    ensures tokens { OnOk result (writer.new.tokens ≡ writer.old.tokens
        ++ flat_map data_tokens (recorded_items (office_definitions defs.now) own.now)) }
{
    match own {
        Some(own) => {
            let def = machine_at(defs, own.def);
            put_recorded(writer, &def.tree, own.history.as_slice())
        }
        None => Ok(()),
    }
}

/// Writes what history nodes recorded.
fn put_recorded(
    writer: &mut Writer,
    tree: &Tree,
    history: &[(u32, Targets)],
) -> Result<(), AllocError>
    ensures before { writer.new.before ≡ writer.old.before }
    ensures tokens { OnOk result (writer.new.tokens
        ≡ writer.old.tokens ++ flat_map data_tokens (map (recorded_data tree.now) history.now)) }
{
    for (node, nodes) in history {
        writer.begin_object()?;
        put_text(writer, "node", id_of_node(tree, *node))?;
        put_ids(writer, tree, nodes.as_slice())?;
        writer.end_object()?;
    }
    Ok(())
}

fn put_ids(writer: &mut Writer, tree: &Tree, nodes: &[u32]) -> Result<(), AllocError>
    ensures before { writer.new.before ≡ writer.old.before }
    ensures tokens { OnOk result (writer.new.tokens
        ≡ writer.old.tokens ++ keyed_data_tokens (codes "nodes", ids_data tree.now nodes.now)) }
{
    writer.key("nodes")?;
    writer.begin_array()?;
    for node in nodes {
        writer.string(id_of_node(tree, *node))?;
    }
    writer.end_array()
}

fn put_input(writer: &mut Writer, item: &Option<Item>) -> Result<(), AllocError>
    ensures before { writer.new.before ≡ writer.old.before }
    ensures tokens { OnOk result (writer.new.tokens ≡ writer.old.tokens ++ keyed_data_tokens
        (codes "input", optional_data (λ (i : Item). value_data i.input) item.now)) }
{
    match item {
        Some(item) => put_under(writer, "input", &item.input),
        None => put_null(writer, "input"),
    }
}

fn put_letters(writer: &mut Writer, letters: &[Letter]) -> Result<(), AllocError>
    ensures before { writer.new.before ≡ writer.old.before }
    ensures tokens { OnOk result (writer.new.tokens ≡ writer.old.tokens
        ++ keyed_data_tokens (codes "letters", list_data (map letter_data letters.now))) }
{
    writer.key("letters")?;
    writer.begin_array()?;
    for letter in letters {
        put_letter(writer, letter)?;
    }
    writer.end_array()
}

fn put_letter(writer: &mut Writer, letter: &Letter) -> Result<(), AllocError>
    ensures before { writer.new.before ≡ writer.old.before }
    ensures tokens { OnOk result
        (writer.new.tokens ≡ writer.old.tokens ++ data_tokens (letter_data letter.now)) }
{
    writer.begin_object()?;
    put_under(writer, "event", &letter.event)?;
    put_origin(writer, &letter.origin)?;
    put_number(writer, "letter", letter.number)?;
    writer.end_object()
}

fn put_origin(writer: &mut Writer, origin: &Origin) -> Result<(), AllocError>
    ensures before { writer.new.before ≡ writer.old.before }
    ensures tokens { OnOk result (writer.new.tokens
        ≡ writer.old.tokens ++ keyed_data_tokens (codes "from", origin_data origin.now)) }
{
    match origin {
        Origin::Caller(name) => put_text(writer, "from", name.as_str()),
        Origin::Actor(number) => put_number(writer, "from", *number),
    }
}

fn put_machine(writer: &mut Writer, defs: &Defs, own: &Option<Own>) -> Result<(), AllocError>
    requires { IfSome own.now
        (λ (o : Own). o.def < length (office_definitions defs.now).machines) }
    ensures before { writer.new.before ≡ writer.old.before }
    ensures tokens { OnOk result (writer.new.tokens ≡ writer.old.tokens ++ keyed_data_tokens
        (codes "machine", optional_data (machine_data (office_definitions defs.now)) own.now)) }
{
    match own {
        Some(own) => put_text(writer, "machine", machine_at(defs, own.def).name.as_str()),
        None => put_null(writer, "machine"),
    }
}

fn put_src(writer: &mut Writer, item: &Option<Item>) -> Result<(), AllocError>
    ensures before { writer.new.before ≡ writer.old.before }
    ensures tokens { OnOk result (writer.new.tokens ≡ writer.old.tokens ++ keyed_data_tokens
        (codes "src", optional_data (λ (i : Item). string i.src) item.now)) }
{
    match item {
        Some(item) => put_text(writer, "src", item.src.as_str()),
        None => put_null(writer, "src"),
    }
}

fn status_word(status: Status) -> &'static str
    ensures { result.now ≡ status_word status }
{
    match status {
        Status::Active => "active",
        Status::Done => "done",
        Status::Error => "error",
        Status::Stopped => "stopped",
    }
}

fn put_unnamed(writer: &mut Writer, own: &Option<Own>) -> Result<(), AllocError>
    ensures before { writer.new.before ≡ writer.old.before }
    ensures tokens { OnOk result (writer.new.tokens
        ≡ writer.old.tokens ++ keyed_data_tokens (codes "unnamed", unnamed_data own.now)) }
{
    match own {
        Some(own) => put_number(writer, "unnamed", own.unnamed),
        None => put_number(writer, "unnamed", 0),
    }
}

fn put_state_value(
    writer: &mut Writer,
    alloc: Global,
    defs: &Defs,
    own: &Option<Own>,
) -> Result<(), AllocError>
    requires machine { IfSome own.now
        (λ (o : Own). o.def < length (office_definitions defs.now).machines) }
    requires in_order { IfSome own.now (λ (o : Own). IsStrictlyIncreasing o.nodes) }
    ensures before { writer.new.before ≡ writer.old.before }
    ensures tokens { OnOk result (writer.new.tokens ≡ writer.old.tokens ++ keyed_data_tokens
        (codes "value", optional_data (state_data (office_definitions defs.now)) own.now)) }
{
    match own {
        Some(own) => {
            let def = machine_at(defs, own.def);
            let value = state_value(alloc, &def.tree, own.nodes.as_slice())?;
            put_under(writer, "value", &value)
        }
        None => put_null(writer, "value"),
    }
}
