//! Names, actions and tags, from a machine text without faults.

ghost use Rattle.std.specs.Prelude.{◌≡◌, IfOk, map};
ghost use Rattle.ordered_json.specs.Words.{member_parts};
ghost use Rattle.machine_json.specs.Meaning.{action_of, actions_of, actions_under, named_of, named_under, object_action, params_of, tags_of, text_of, texts_of};

use crate::machine::{Named, Texts, UnlinkedAction, UnlinkedActions};
use crate::values::json_value;
use ordered_json::{Member, OrderedJson, get};
use std::alloc::{AllocError, Global};
use xs_data::{Items, Text};
use xs_model::Value;

/// The text that a value is.
pub(crate) fn text_of(alloc: Global, json: &OrderedJson) -> Result<Text, AllocError>
    ensures { IfOk result (λ text. text ≡ text_of json.now) }
{
    match json.as_text() {
        Some(text) => text.copy(alloc),
        None => Ok(Text::new(alloc)),
    }
}

/// A name, and where it is used.
pub(crate) fn named_of(alloc: Global, json: &OrderedJson) -> Result<Named, AllocError>
    ensures { IfOk result (λ named. named ≡ named_of json.now) }
{
    Ok(Named {
        name: text_of(alloc, json)?,
        place: json.place(),
    })
}

/// The name under a key.
pub(crate) fn named_under(alloc: Global, key: &str, members: &[Member]) -> Result<Named, AllocError>
    ensures { IfOk result (λ named. named ≡ named_under key.now (map member_parts members.now)) }
{
    match get(members, key) {
        Some(json) => named_of(alloc, json),
        None => Ok(Named {
            name: Text::new(alloc),
            place: 0,
        }),
    }
}

/// The params that an object gives.
pub(crate) fn params_of(alloc: Global, members: &[Member]) -> Result<Value, AllocError>
    ensures { IfOk result (λ params. params ≡ params_of (map member_parts members.now)) }
{
    match get(members, "params") {
        Some(json) => json_value(alloc, json),
        None => Ok(Value::Null),
    }
}

/// An action: a name alone, or an object.
fn action_of(alloc: Global, json: &OrderedJson) -> Result<UnlinkedAction, AllocError>
    ensures { IfOk result (λ action. action ≡ action_of json.now) }
{
    match json.as_object() {
        Some(members) => object_action(alloc, members),
        None => Ok(UnlinkedAction {
            action: named_of(alloc, json)?,
            params: Value::Null,
        }),
    }
}

/// The action of an object: its name, and its params.
fn object_action(alloc: Global, members: &[Member]) -> Result<UnlinkedAction, AllocError>
    ensures { IfOk result (λ action. action ≡ object_action (map member_parts members.now)) }
{
    Ok(UnlinkedAction {
        action: named_under(alloc, "type", members)?,
        params: params_of(alloc, members)?,
    })
}

/// The actions that one action or a list of them has.
fn actions_of(alloc: Global, json: &OrderedJson) -> Result<UnlinkedActions, AllocError>
    ensures { IfOk result (λ actions. actions ≡ actions_of json.now) }
{
    match json.as_list() {
        Some(items) => each_action(alloc, items),
        None => {
            let mut actions = Vec::with_capacity(alloc, 1)?;
            actions
                .push(action_of(alloc, json)?)
                .map_err(AllocError::from)?;
            Ok(Items::from_vec(actions))
        }
    }
}

/// The action that each item is.
fn each_action(alloc: Global, items: &[OrderedJson]) -> Result<UnlinkedActions, AllocError>
    ensures { IfOk result (λ actions. actions ≡ map action_of items.now) }
{
    let mut actions = Vec::with_capacity(alloc, items.len())?;
    for item in items {
        actions
            .push(action_of(alloc, item)?)
            .map_err(AllocError::from)?;
    }
    Ok(Items::from_vec(actions))
}

/// The actions under a key.
pub(crate) fn actions_under(
    alloc: Global,
    key: &str,
    members: &[Member],
) -> Result<UnlinkedActions, AllocError>
    ensures { IfOk result
        (λ actions. actions ≡ actions_under key.now (map member_parts members.now)) }
{
    match get(members, key) {
        Some(json) => actions_of(alloc, json),
        None => Ok(Items::new(alloc)),
    }
}

/// The tags of a node.
pub(crate) fn tags_of(alloc: Global, members: &[Member]) -> Result<Texts, AllocError>
    ensures { IfOk result (λ tags. tags ≡ tags_of (map member_parts members.now)) }
{
    match get(members, "tags") {
        Some(json) => texts_of(alloc, json),
        None => Ok(Items::new(alloc)),
    }
}

/// The texts that one text or a list of them has.
fn texts_of(alloc: Global, json: &OrderedJson) -> Result<Texts, AllocError>
    ensures { IfOk result (λ texts. texts ≡ texts_of json.now) }
{
    match json.as_list() {
        Some(items) => each_text(alloc, items),
        None => {
            let mut texts = Vec::with_capacity(alloc, 1)?;
            texts.push(text_of(alloc, json)?).map_err(AllocError::from)?;
            Ok(Items::from_vec(texts))
        }
    }
}

/// The text that each item is.
fn each_text(alloc: Global, items: &[OrderedJson]) -> Result<Texts, AllocError>
    ensures { IfOk result (λ texts. texts ≡ map text_of items.now) }
{
    let mut texts = Vec::with_capacity(alloc, items.len())?;
    for item in items {
        texts.push(text_of(alloc, item)?).map_err(AllocError::from)?;
    }
    Ok(Items::from_vec(texts))
}
