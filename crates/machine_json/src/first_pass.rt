//! The first pass over a machine text: fields, kinds of values, initial children.

ghost use Rattle.std.specs.Prelude.{◌≡◌, IfOk, map};
ghost use Rattle.std.specs.List.{list_all, list_any};
ghost use Rattle.ordered_json.specs.Words.{member_parts};
ghost use Rattle.machine_json.specs.NodeKinds.{members_of};
ghost use Rattle.machine_json.specs.FirstPass.{HasFaultAs, HasMemberFault, HasOwnFault, IsAmongItems, IsAmongMembers, IsFormFault, TellsFirst, atomic_faults, earliest, empty_faults, initial_faults, initial_text_faults, is_history_child, is_initial_child, key_faults, names_initial, node_faults, own_faults, root_faults};

use crate::expressions::read_expr;
use crate::fault::MachineFault;
use crate::first::earlier;
use crate::kind_word::{NodeKind, children};
use crate::role::Role;
use ordered_json::{Member, OrderedJson, get};
use std::alloc::{AllocError, Global};

/// The first fault of a value in a role, whether the value has it itself or a part of it. It
/// looks at
/// each part once, and at the members of an object once more for its kind. It takes memory for the
/// expressions, each of which is read and let go.
#[cycle(first_pass)]
pub(crate) fn first_fault(
    alloc: Global,
    role: Role,
    json: &OrderedJson,
) -> Result<Option<MachineFault>, AllocError>
    ensures { IfOk result (λ first. TellsFirst first (HasFaultAs role json.now)) }
{
    let own = own_fault(alloc, role, json)?;
    match json {
        OrderedJson::List { items, .. } => {
            let inner = first_in_items(alloc, role.of_item(), items.as_slice())?;
            Ok(earlier(own, inner))
        }
        OrderedJson::Object { members, .. } => {
            let inner = first_in_members(alloc, role, NodeKind::of(json), members.as_slice())?;
            Ok(earlier(own, inner))
        }
        OrderedJson::Null { .. }
        | OrderedJson::Bool { .. }
        | OrderedJson::Int { .. }
        | OrderedJson::Text { .. } => Ok(own),
    }
}

/// The first fault of several values in one role.
#[cycle(first_pass)]
fn first_in_items(
    alloc: Global,
    role: Role,
    items: &[OrderedJson],
) -> Result<Option<MachineFault>, AllocError>
    ensures { IfOk result (λ first. TellsFirst first (IsAmongItems role items.now)) }
{
    let mut first = None;
    for item in items {
        first = earlier(first, first_fault(alloc, role, item)?);
    }
    Ok(first)
}

/// The first fault of the members of an object in a role.
#[cycle(first_pass)]
fn first_in_members(
    alloc: Global,
    role: Role,
    kind: NodeKind,
    members: &[Member],
) -> Result<Option<MachineFault>, AllocError>
    ensures { IfOk result
        (λ first. TellsFirst first (IsAmongMembers role kind (map member_parts members.now))) }
{
    let mut first = None;
    for member in members {
        first = earlier(first, first_in_member(alloc, role, kind, member)?);
    }
    Ok(first)
}

/// The first fault of a member, at its key or in its value.
#[cycle(first_pass)]
fn first_in_member(
    alloc: Global,
    role: Role,
    kind: NodeKind,
    member: &Member,
) -> Result<Option<MachineFault>, AllocError>
    ensures { IfOk result
        (λ first. TellsFirst first (HasMemberFault role kind (member_parts member.now))) }
{
    let at_key = key_fault(role, kind, member);
    match role.of_member(kind, member.key.as_str()) {
        Some(part) => {
            let inner = first_fault(alloc, part, &member.value)?;
            Ok(earlier(at_key, inner))
        }
        None => Ok(at_key),
    }
}

/// The first fault of a member's key.
#[tactic(auto, using(crate::proofs::FirstLemmas::first_of_lists))]
fn key_fault(role: Role, kind: NodeKind, member: &Member) -> Option<MachineFault>
    ensures { result ≡ earliest (key_faults role kind (member_parts member.now)) }
{
    let key = member.key.as_str();
    let is_unknown = role.of_member(kind, key).is_none();
    earlier(
        is_unknown.then_some(MachineFault::UnknownField(member.key_place)),
        (!role.takes_key(key)).then_some(MachineFault::BadKind(member.key_place)),
    )
}

/// The first fault that a value has itself.
fn own_fault(
    alloc: Global,
    role: Role,
    json: &OrderedJson,
) -> Result<Option<MachineFault>, AllocError>
    ensures { IfOk result (λ first. TellsFirst first (HasOwnFault role json.now)) }
{
    match role {
        Role::Expression => form_fault(alloc, json),
        _ => Ok(value_fault(role, json)),
    }
}

/// The first fault of an expression.
fn form_fault(alloc: Global, json: &OrderedJson) -> Result<Option<MachineFault>, AllocError>
    ensures { IfOk result (λ first. TellsFirst first (IsFormFault json.now)) }
{
    match read_expr(alloc, json).err() {
        None => Ok(None),
        Some(MachineFault::BadKind(place)) => Ok(Some(MachineFault::BadKind(place))),
        Some(_) => Err(AllocError),
    }
}

/// The first fault that a value has as one of its role.
#[tactic(auto, using(crate::proofs::FirstLemmas::first_of_lists))]
fn value_fault(role: Role, json: &OrderedJson) -> Option<MachineFault>
    ensures { result ≡ earliest (own_faults role json.now) }
{
    let bad_kind = (!role.takes(json)).then_some(MachineFault::BadKind(json.place()));
    match role {
        Role::Root => earlier(bad_kind, node_fault(true, json)),
        Role::State => earlier(bad_kind, node_fault(false, json)),
        _ => bad_kind,
    }
}

/// The first fault that a value has as a node.
#[tactic(auto, using(crate::proofs::FirstLemmas::first_of_lists))]
fn node_fault(is_root: bool, json: &OrderedJson) -> Option<MachineFault>
    ensures { result ≡ earliest (node_faults is_root json.now) }
{
    let members = members_of(json);
    let kind = NodeKind::of_members(members);
    let place = json.place();
    earlier(
        earlier(
            atomic_fault(kind, members),
            root_fault(is_root, kind, members),
        ),
        earlier(
            initial_fault(kind, members, place),
            empty_fault(kind, members, place),
        ),
    )
}

/// The members of an object; of another value none.
pub(crate) fn members_of(json: &OrderedJson) -> &[Member]
    ensures { map member_parts result.now ≡ members_of json.now }
{
    match json.as_object() {
        Some(members) => members,
        None => &[],
    }
}

/// The fault of a node of type `atomic` with children.
fn atomic_fault(kind: NodeKind, members: &[Member]) -> Option<MachineFault>
    ensures { result ≡ earliest (atomic_faults kind (map member_parts members.now)) }
{
    if !matches!(kind, NodeKind::Atomic) || children(members).is_empty() {
        return None;
    }
    Some(MachineFault::BadKind(get(members, "type")?.place()))
}

/// The fault of a root that is final or a history node.
fn root_fault(is_root: bool, kind: NodeKind, members: &[Member]) -> Option<MachineFault>
    ensures { result ≡ earliest (root_faults is_root kind (map member_parts members.now)) }
{
    if !is_root || !matches!(kind, NodeKind::Final | NodeKind::History) {
        return None;
    }
    let value = get(members, "type").or(get(members, "history"));
    Some(MachineFault::BadKind(value?.place()))
}

/// The fault of a compound node without an initial child, or an atomic node with one.
fn initial_fault(kind: NodeKind, members: &[Member], place: usize) -> Option<MachineFault>
    ensures { result ≡ earliest (initial_faults kind (map member_parts members.now) place) }
{
    match kind {
        NodeKind::Compound => match get(members, "initial") {
            Some(json) => initial_child_fault(children(members), json),
            None => Some(MachineFault::NoInitial(place)),
        },
        NodeKind::Atomic => {
            let json = get(members, "initial")?;
            json.is_text()
                .then_some(MachineFault::NoInitial(json.place()))
        }
        NodeKind::Parallel | NodeKind::Final | NodeKind::History => None,
    }
}

/// The fault of an `initial` that names no child, or a history node.
fn initial_child_fault(children: &[Member], json: &OrderedJson) -> Option<MachineFault>
    ensures { result ≡
        earliest (initial_text_faults (names_initial (map member_parts children.now)) json.now) }
{
    match json.as_text() {
        Some(key) if !names_initial(children, key.as_bytes()) => {
            Some(MachineFault::NoInitial(json.place()))
        }
        _ => None,
    }
}

/// Whether a key is that of a child that is no history node.
#[tactic(auto, using(crate::proofs::TestLemmas::member_tests))]
fn names_initial(children: &[Member], key: &[u8]) -> bool
    ensures { result ≡ names_initial (map member_parts children.now) key.now }
{
    has_initial_child(children, key)
}

/// Whether one of the children has the key and is no history node.
fn has_initial_child(children: &[Member], key: &[u8]) -> bool
    ensures { result ≡ list_any (λ child. is_initial_child key.now (member_parts child)) children.now }
{
    children.iter().any(|child| is_initial_child(key, child))
}

/// Whether a child has the key and is no history node.
fn is_initial_child(key: &[u8], child: &Member) -> bool
    ensures { result ≡ is_initial_child key.now (member_parts child.now) }
{
    child.key.as_bytes() == key && !is_history_child(child)
}

/// Whether a child is a history node.
fn is_history_child(child: &Member) -> bool
    ensures { result ≡ is_history_child (member_parts child.now) }
{
    matches!(NodeKind::of(&child.value), NodeKind::History)
}

/// The fault of a compound or parallel node without a child that is no history node.
#[tactic(auto, using(crate::proofs::TestLemmas::member_tests))]
fn empty_fault(kind: NodeKind, members: &[Member], place: usize) -> Option<MachineFault>
    ensures { result ≡ earliest (empty_faults kind (map member_parts members.now) place) }
{
    if !matches!(kind, NodeKind::Compound | NodeKind::Parallel) {
        return None;
    }
    have_no_state(children(members)).then_some(MachineFault::EmptyStates(place))
}

/// Whether each child is a history node.
fn have_no_state(children: &[Member]) -> bool
    ensures { result ≡ list_all (λ child. is_history_child (member_parts child)) children.now }
{
    children.iter().all(|child| is_history_child(child))
}
