//! The transitions of a node, from a machine text without faults.

ghost use Rattle.std.specs.Prelude.{◌≡◌, ◌<◌, ◌++◌, [], IfOk, IfSome, OnOk, codes, false, length, map, option_and_then, unwrap_or};
ghost use Rattle.std.specs.List.{enumerate_from, flat_map};
ghost use Rattle.std.specs.Option.{option_map_or};
ghost use Rattle.ordered_json.specs.declared.json.OrderedJson.{OrderedJson};
ghost use Rattle.ordered_json.specs.Words.{MemberParts, as_bool, get, get_object, member_parts};
ghost use Rattle.machine_json.specs.declared.role.Role.TheVariants as role;
ghost use Rattle.machine_json.specs.Faultless.{AreFaultlessAs, AreFaultlessUnder, IsFaultlessAs};
ghost use Rattle.machine_json.specs.Machines.{AddsTransitions, AreTransitions, MeansTransition, candidates_of, of_child, of_invocation, target_texts, under, under_key};
ghost use Rattle.machine_json.specs.Meaning.{after_type, invocation_texts, listed};
ghost use Rattle.machine_json.specs.NodeKinds.{members_of};
ghost use Rattle.machine_json.specs.Nodes.{node_parts};
ghost use Rattle.machine_json.specs.Rows.{fields_in};
ghost use Rattle.machine_json.specs.SecondPass.{led_to, node_role};

use crate::actions::actions_under;
use crate::delays::after_type;
use crate::first_pass::members_of;
use crate::guards::{guard_under, node_led_to};
use crate::invocations::invoked_id;
use crate::machine::{UnlinkedTransition, UnlinkedTransitions};
use crate::nodes::NodeText;
use node_tree::{Outline, Targets};
use ordered_json::{Member, OrderedJson, get, get_object};
use std::alloc::{AllocError, Global};
use std::array;
use xs_data::{Items, Text};

/// The candidates of a node for an event, in the order in which they are looked at under one descriptor:
/// those of `on`, of `onDone`, of the invocations, of `after`. It copies a descriptor for each of its
/// transitions.
pub(crate) fn candidates_of(
    alloc: Global,
    outline: &Outline,
    source: u32,
    id: &str,
    node: &NodeText<'_>,
) -> Result<UnlinkedTransitions, AllocError>
    requires { source < length outline.now }
    ensures { IfOk result (λ transitions.
        IsFaultlessAs outline.now source (node_role (node_parts node.now)) node.now.json.now
        → AreTransitions outline.now source (candidates_of id.now (fields_in (node_parts node.now)))
        transitions) }
{
    let members = members_of(node.json);
    let on = members_under(members, "on");
    let done = event_type(alloc, "xstate.done.state.", id)?;
    let end = done.as_str();
    let invocations = invocation_texts(members);
    let after = members_under(members, "after");
    let mut all = Vec::new(alloc);
    add_on(alloc, &mut all, outline, source, on)?;
    add_under_key(alloc, &mut all, outline, source, end, "onDone", members)?;
    add_invoked(alloc, &mut all, outline, source, id, invocations)?;
    add_after(alloc, &mut all, outline, source, id, after)?;
    Ok(Items::from_vec(all))
}

/// The candidates of a node for the step without an event.
pub(crate) fn always_of(
    alloc: Global,
    outline: &Outline,
    source: u32,
    node: &NodeText<'_>,
) -> Result<UnlinkedTransitions, AllocError>
    requires { source < length outline.now }
    ensures { IfOk result (λ transitions.
        IsFaultlessAs outline.now source (node_role (node_parts node.now)) node.now.json.now
        → AreTransitions outline.now source
        (under_key [] (codes "always") (fields_in (node_parts node.now))) transitions) }
{
    let mut all = Vec::new(alloc);
    add_under_key(
        alloc,
        &mut all,
        outline,
        source,
        "",
        "always",
        members_of(node.json),
    )?;
    Ok(Items::from_vec(all))
}

/// The members of the object under a key.
fn members_under<'a>(members: &'a [Member], key: &str) -> &'a [Member]
    ensures { map member_parts result.now
        ≡ unwrap_or (get_object key.now (map member_parts members.now)) [] }
{
    match get_object(members, key) {
        Some(under) => under,
        None => &[],
    }
}

/// The texts of the invocations of a node.
pub(crate) fn invocation_texts(members: &[Member]) -> &[OrderedJson]
    ensures { result.now ≡ invocation_texts (map member_parts members.now) }
{
    match get(members, "invoke") {
        Some(json) => listed(json),
        None => &[],
    }
}

/// One value, or the items of a list.
fn listed(json: &OrderedJson) -> &[OrderedJson]
    ensures { result.now ≡ listed json.now }
{
    match json.as_list() {
        Some(items) => items,
        None => array::from_ref(json),
    }
}

/// The type of an event: a prefix with an id behind it.
fn event_type(alloc: Global, prefix: &str, id: &str) -> Result<Text, AllocError>
    ensures { IfOk result (λ text. text ≡ prefix.now ++ id.now) }
{
    let mut text = String::from_str(alloc, prefix)?;
    text.push_str(id)?;
    Ok(Text::from_string(text))
}

/// Adds the transitions of `on`.
fn add_on(
    alloc: Global,
    all: &mut Vec<UnlinkedTransition>,
    outline: &Outline,
    source: u32,
    on: &[Member],
) -> Result<(), AllocError>
    requires { source < length outline.now }
    ensures { OnOk result (AreFaultlessUnder outline.now source role.Transitions (map member_parts on.now)
        → AddsTransitions outline.now source
        (flat_map (λ (m : MemberParts). under m.key m.value) (map member_parts on.now))
        all.old.items all.new.items) }
{
    for member in on {
        let key = member.key.as_str();
        add_under(alloc, all, outline, source, key, &member.value)?;
    }
    Ok(())
}

/// Adds the transitions of `after`, of the node with this id.
fn add_after(
    alloc: Global,
    all: &mut Vec<UnlinkedTransition>,
    outline: &Outline,
    source: u32,
    id: &str,
    after: &[Member],
) -> Result<(), AllocError>
    requires { source < length outline.now }
    ensures { OnOk result
        (AreFaultlessUnder outline.now source role.Transitions (map member_parts after.now)
        → AddsTransitions outline.now source
        (flat_map (λ (m : MemberParts). under (after_type m.key id.now) m.value)
        (map member_parts after.now))
        all.old.items all.new.items) }
{
    for member in after {
        let key = member.key.as_str();
        let event = after_type(alloc, key, id)?;
        add_under(alloc, all, outline, source, event.as_str(), &member.value)?;
    }
    Ok(())
}

/// Adds the transitions of the invocations of the node with this id.
fn add_invoked(
    alloc: Global,
    all: &mut Vec<UnlinkedTransition>,
    outline: &Outline,
    source: u32,
    id: &str,
    invocations: &[OrderedJson],
) -> Result<(), AllocError>
    requires { source < length outline.now }
    ensures { OnOk result (AreFaultlessAs outline.now source role.Invocation invocations.now
        → AddsTransitions outline.now source
        (flat_map (of_invocation id.now) (enumerate_from 0 invocations.now))
        all.old.items all.new.items) }
{
    for (place, json) in invocations.iter().enumerate() {
        let child = invoked_id(alloc, id, place, members_of(json))?;
        add_of_child(alloc, all, outline, source, child.as_str(), json)?;
    }
    Ok(())
}

/// Adds the transitions of the invocation of the child with this id.
fn add_of_child(
    alloc: Global,
    all: &mut Vec<UnlinkedTransition>,
    outline: &Outline,
    source: u32,
    child: &str,
    json: &OrderedJson,
) -> Result<(), AllocError>
    requires { source < length outline.now }
    ensures { OnOk result (IsFaultlessAs outline.now source role.Invocation json.now
        → AddsTransitions outline.now source (of_child child.now (members_of json.now))
        all.old.items all.new.items) }
{
    let members = members_of(json);
    let done = event_type(alloc, "xstate.done.actor.", child)?;
    let error = event_type(alloc, "xstate.error.actor.", child)?;
    let snapshot = event_type(alloc, "xstate.snapshot.", child)?;
    add_under_key(
        alloc,
        all,
        outline,
        source,
        done.as_str(),
        "onDone",
        members,
    )?;
    add_under_key(
        alloc,
        all,
        outline,
        source,
        error.as_str(),
        "onError",
        members,
    )?;
    add_under_key(
        alloc,
        all,
        outline,
        source,
        snapshot.as_str(),
        "onSnapshot",
        members,
    )
}

/// Adds the transitions under a key, for one descriptor.
fn add_under_key(
    alloc: Global,
    all: &mut Vec<UnlinkedTransition>,
    outline: &Outline,
    source: u32,
    descriptor: &str,
    key: &str,
    members: &[Member],
) -> Result<(), AllocError>
    requires { source < length outline.now }
    ensures { OnOk result
        (IfSome (get key.now (map member_parts members.now))
        (IsFaultlessAs outline.now source role.Transitions)
        → AddsTransitions outline.now source
        (under_key descriptor.now key.now (map member_parts members.now))
        all.old.items all.new.items) }
{
    match get(members, key) {
        Some(json) => add_under(alloc, all, outline, source, descriptor, json),
        None => Ok(()),
    }
}

/// Adds the transitions of one value, for one descriptor.
fn add_under(
    alloc: Global,
    all: &mut Vec<UnlinkedTransition>,
    outline: &Outline,
    source: u32,
    descriptor: &str,
    json: &OrderedJson,
) -> Result<(), AllocError>
    requires { source < length outline.now }
    ensures { OnOk result (IsFaultlessAs outline.now source role.Transitions json.now
        → AddsTransitions outline.now source (under descriptor.now json.now)
        all.old.items all.new.items) }
{
    let items = listed(json);
    for item in items {
        let one = transition_of(alloc, outline, source, descriptor, item)?;
        all.push(one)?;
    }
    Ok(())
}

/// A transition for a descriptor: a target alone, or an object.
fn transition_of(
    alloc: Global,
    outline: &Outline,
    source: u32,
    descriptor: &str,
    json: &OrderedJson,
) -> Result<UnlinkedTransition, AllocError>
    requires { source < length outline.now }
    ensures { IfOk result (λ transition. IsFaultlessAs outline.now source role.Transition json.now
        → MeansTransition outline.now source descriptor.now json.now transition) }
{
    let members = members_of(json);
    Ok(UnlinkedTransition {
        source,
        descriptor: Text::from_str(alloc, descriptor)?,
        targets: targets_of(alloc, outline, source, target_texts(json))?,
        reenter: is_reentering(members),
        guard: guard_under(alloc, outline, source, members)?,
        actions: actions_under(alloc, "actions", members)?,
    })
}

/// Whether an object says that its transition leaves its source.
fn is_reentering(members: &[Member]) -> bool
    ensures { result ≡ option_map_or (λ truth. truth)
        (option_and_then as_bool (get (codes "reenter") (map member_parts members.now))) false }
{
    match get(members, "reenter") {
        Some(json) => json.as_bool().unwrap_or(false),
        None => false,
    }
}

/// The texts of the targets of a transition.
fn target_texts(json: &OrderedJson) -> &[OrderedJson]
    ensures { result.now ≡ target_texts json.now }
{
    if json.is_text() {
        return array::from_ref(json);
    }
    match get(members_of(json), "target") {
        Some(targets) => listed(targets),
        None => &[],
    }
}

/// The nodes that texts lead to.
fn targets_of(
    alloc: Global,
    outline: &Outline,
    source: u32,
    texts: &[OrderedJson],
) -> Result<Targets, AllocError>
    requires { source < length outline.now }
    ensures { IfOk result (λ targets.
        targets ≡ map (λ text. unwrap_or (led_to outline.now source text) 0) texts.now) }
{
    let mut targets = Vec::with_capacity(alloc, texts.len())?;
    for text in texts {
        targets
            .push(node_led_to(outline, source, text))
            .map_err(AllocError::from)?;
    }
    Ok(Items::from_vec(targets))
}
