//! Texts in what is said of a node that lead to nodes.

ghost use Rattle.std.specs.Prelude.{◌≡◌, ◌<◌, IfOk, IfSome, Contains, length, map};
ghost use Rattle.std.specs.List.{flat_map};
ghost use Rattle.ordered_json.specs.Words.{member_parts};
ghost use Rattle.node_tree.specs.Nodes.{IsOutline};
ghost use Rattle.machine_json.specs.FirstPass.{TellsFirst, earliest, items_of};
ghost use Rattle.machine_json.specs.Links.{HasMemberLinkFault, IsAmongLinkItems, IsAmongLinkMembers};
ghost use Rattle.machine_json.specs.SecondPass.{HasLinkFault, HasOwnLinkFault, led_to, said_role, text_faults};

use crate::clash::first_clash;
use crate::fault::MachineFault;
use crate::first::earlier;
use crate::kind_word::NodeKind;
use crate::role::Role;
use node_tree::Outline;
use ordered_json::{Member, OrderedJson};
use std::alloc::{AllocError, Global};

/// The first fault of a value that is said of one node, the source: a text that leads to no node, or
/// targets that clash. It looks at each part once, and resolves each text once or twice.
#[cycle(links)]
pub(crate) fn first_link_in(
    alloc: Global,
    outline: &Outline,
    source: u32,
    role: Role,
    json: &OrderedJson,
) -> Result<Option<MachineFault>, AllocError>
    requires outline { IsOutline outline.now }
    requires source { source < length outline.now }
    ensures { IfOk result (λ first. TellsFirst first (HasLinkFault outline.now source role json.now)) }
{
    // The nodes below the source are here too, and are looked at as sources of their own.
    if matches!(role, Role::Unread) {
        return Ok(None);
    }
    let own = own_link_fault(alloc, outline, source, role, json)?;
    match json {
        OrderedJson::List { items, .. } => {
            let items = items.as_slice();
            let inner = first_link_in_items(alloc, outline, source, role.of_item(), items)?;
            Ok(earlier(own, inner))
        }
        OrderedJson::Object { members, .. } => {
            let kind = NodeKind::of(json);
            let members = members.as_slice();
            let inner = first_link_in_members(alloc, outline, source, role, kind, members)?;
            Ok(earlier(own, inner))
        }
        OrderedJson::Null { .. }
        | OrderedJson::Bool { .. }
        | OrderedJson::Int { .. }
        | OrderedJson::Text { .. } => Ok(own),
    }
}

/// The first fault of several values in one role.
#[cycle(links)]
fn first_link_in_items(
    alloc: Global,
    outline: &Outline,
    source: u32,
    role: Role,
    items: &[OrderedJson],
) -> Result<Option<MachineFault>, AllocError>
    requires outline { IsOutline outline.now }
    requires source { source < length outline.now }
    ensures { IfOk result
        (λ first. TellsFirst first (IsAmongLinkItems outline.now source role items.now)) }
{
    let mut first = None;
    for item in items {
        first = earlier(first, first_link_in(alloc, outline, source, role, item)?);
    }
    Ok(first)
}

/// The first fault of the members of an object in a role.
#[cycle(links)]
fn first_link_in_members(
    alloc: Global,
    outline: &Outline,
    source: u32,
    role: Role,
    kind: NodeKind,
    members: &[Member],
) -> Result<Option<MachineFault>, AllocError>
    requires outline { IsOutline outline.now }
    requires source { source < length outline.now }
    ensures { IfOk result (λ first. TellsFirst first
        (IsAmongLinkMembers outline.now source role kind (map member_parts members.now))) }
{
    let mut first = None;
    for member in members {
        let next = first_link_in_member(alloc, outline, source, role, kind, member)?;
        first = earlier(first, next);
    }
    Ok(first)
}

/// The first fault of the value of a member.
#[cycle(links)]
fn first_link_in_member(
    alloc: Global,
    outline: &Outline,
    source: u32,
    role: Role,
    kind: NodeKind,
    member: &Member,
) -> Result<Option<MachineFault>, AllocError>
    requires outline { IsOutline outline.now }
    requires source { source < length outline.now }
    ensures { IfOk result (λ first. TellsFirst first
        (HasMemberLinkFault outline.now source role kind (member_parts member.now))) }
{
    match role.of_member(kind, member.key.as_str()) {
        Some(part) => first_link_in(alloc, outline, source, said_role(part), &member.value),
        None => Ok(None),
    }
}

/// What a member of a node's object is there for, the nodes below the node left out.
fn said_role(role: Role) -> Role
    ensures { result ≡ said_role role }
{
    match role {
        Role::States => Role::Unread,
        other => other,
    }
}

/// The first fault that a value has itself.
fn own_link_fault(
    alloc: Global,
    outline: &Outline,
    source: u32,
    role: Role,
    json: &OrderedJson,
) -> Result<Option<MachineFault>, AllocError>
    requires outline { IsOutline outline.now }
    requires source { source < length outline.now }
    ensures { IfOk result
        (λ first. TellsFirst first (HasOwnLinkFault outline.now source role json.now)) }
{
    match role {
        Role::Transitions | Role::Transition | Role::Reference => {
            Ok(text_fault(outline, source, json))
        }
        Role::Targets => targets_fault(alloc, outline, source, json),
        _ => Ok(None),
    }
}

/// The first fault of a target or a list of targets.
fn targets_fault(
    alloc: Global,
    outline: &Outline,
    source: u32,
    json: &OrderedJson,
) -> Result<Option<MachineFault>, AllocError>
    requires outline { IsOutline outline.now }
    requires source { source < length outline.now }
    ensures { IfOk result
        (λ first. TellsFirst first (HasOwnLinkFault outline.now source Role.Targets json.now)) }
{
    match json.as_list() {
        Some(targets) => {
            let astray = first_astray(outline, source, targets);
            let clash = first_clash(alloc, outline, source, targets)?;
            Ok(earlier(astray, clash))
        }
        None => Ok(text_fault(outline, source, json)),
    }
}

/// The first fault of several texts that lead to no node.
fn first_astray(outline: &Outline, source: u32, texts: &[OrderedJson]) -> Option<MachineFault>
    requires { source < length outline.now }
    ensures { result ≡ earliest (flat_map (text_faults outline.now source) texts.now) }
{
    let mut first = None;
    for text in texts {
        first = earlier(first, text_fault(outline, source, text));
    }
    first
}

/// The fault of a text that leads to no node.
fn text_fault(outline: &Outline, source: u32, json: &OrderedJson) -> Option<MachineFault>
    requires { source < length outline.now }
    ensures { result ≡ earliest (text_faults outline.now source json.now) }
{
    let is_astray = json.is_text() && led_to(outline, source, json).is_none();
    is_astray.then_some(MachineFault::NoTarget(json.place()))
}

/// Where a text leads from a source.
pub(crate) fn led_to(outline: &Outline, source: u32, json: &OrderedJson) -> Option<u32>
    requires { source < length outline.now }
    ensures node { result ≡ led_to outline.now source json.now }
    ensures inside { IfSome result (λ n. n < length outline.now) }
{
    match json.as_text() {
        Some(text) => outline.resolve(source, text.as_bytes()),
        None => outline.resolve(source, b""),
    }
}
