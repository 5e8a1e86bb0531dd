//! Which values may stand in a role.

ghost use Rattle.std.specs.Prelude.{◌≡◌, count_by, is_some, map, not};
ghost use Rattle.ordered_json.specs.Words.{member_parts};
ghost use Rattle.machine_json.specs.NodeKinds.{kind_of_word};
ghost use Rattle.machine_json.specs.Roles.{begins_with_hash, has, has_one_form, is_action_object, is_empty, is_guard_object, is_invocation_object, is_list_with, is_object_with, is_text_with, takes};

use crate::kind_word::NodeKind;
use crate::role::Role;
use node_tree::HASH;
use ordered_json::{Member, OrderedJson, get};

impl Role {
    /// Whether a value is of the JSON kind and the spelling of its role. It looks at the keys of an
    /// object, and at no part of the value otherwise.
    pub fn takes(self, json: &OrderedJson) -> bool
        ensures { result ≡ takes self json.now }
    {
        match self {
            Role::Root | Role::State | Role::States | Role::On | Role::After => json.is_object(),
            Role::Transitions => json.is_list() || json.is_text() || json.is_object(),
            Role::Transition => json.is_text() || json.is_object(),
            Role::Targets => json.is_text() || is_filled_list(json),
            Role::Actions => json.is_list() || json.is_text() || is_action(json),
            Role::Action => json.is_text() || is_action(json),
            Role::Guards => json.is_list(),
            Role::Guard => json.is_text() || is_guard(json),
            Role::Invocations => json.is_list() || is_invocation(json),
            Role::Invocation => is_invocation(json),
            Role::Texts => json.is_text() || json.is_list(),
            Role::AnyText => json.is_text(),
            Role::Id => is_id(json),
            Role::Reference => is_reference(json),
            Role::Truth => json.is_bool(),
            Role::KindWord => is_kind_word(json),
            Role::Depth => is_depth(json),
            Role::Expression | Role::Unread => true,
        }
    }
}

/// Whether a value is a list that isn't empty.
fn is_filled_list(json: &OrderedJson) -> bool
    ensures { result ≡ is_list_with (λ items. not (is_empty items)) json.now }
{
    match json.as_list() {
        Some(items) => !items.is_empty(),
        None => false,
    }
}

/// Whether a value is an object with the name of an action.
fn is_action(json: &OrderedJson) -> bool
    ensures { result ≡ is_object_with is_action_object json.now }
{
    match json.as_object() {
        Some(members) => has(members, "type"),
        None => false,
    }
}

/// Whether a value is an object with the name of an actor.
fn is_invocation(json: &OrderedJson) -> bool
    ensures { result ≡ is_object_with is_invocation_object json.now }
{
    match json.as_object() {
        Some(members) => has(members, "src"),
        None => false,
    }
}

/// Whether a value is an object of one of the forms of a guard.
fn is_guard(json: &OrderedJson) -> bool
    ensures { result ≡ is_object_with is_guard_object json.now }
{
    match json.as_object() {
        Some(members) => {
            has_one_form(members) && (!has(members, "params") || has(members, "type"))
        }
        None => false,
    }
}

/// Whether an object has exactly one of the keys of which each makes a guard of its own form.
fn has_one_form(members: &[Member]) -> bool
    ensures { result ≡ has_one_form (map member_parts members.now) }
{
    count_of(members, &["type", "and", "or", "not", "stateIn"]) == 1
}

/// How many of the keys an object has.
fn count_of(members: &[Member], keys: &[&str]) -> usize
    ensures { result ≡ count_by (λ key. has (map member_parts members.now) key.now) keys.now }
{
    keys.iter().filter(|key| has(members, key)).count()
}

/// Whether an object has a key.
fn has(members: &[Member], key: &str) -> bool
    ensures { result ≡ has (map member_parts members.now) key.now }
{
    get(members, key).is_some()
}

/// Whether a value is a text that isn't empty.
fn is_id(json: &OrderedJson) -> bool
    ensures { result ≡ is_text_with (λ text. not (is_empty text)) json.now }
{
    match json.as_text() {
        Some(text) => text.len() > 0,
        None => false,
    }
}

/// Whether a value is a text that begins with `#`.
fn is_reference(json: &OrderedJson) -> bool
    ensures { result ≡ is_text_with begins_with_hash json.now }
{
    match json.as_text() {
        Some(text) => matches!(text.as_bytes(), [HASH, ..]),
        None => false,
    }
}

/// Whether a value is one of the words of `type`.
fn is_kind_word(json: &OrderedJson) -> bool
    ensures { result ≡ is_text_with (λ text. is_some (kind_of_word text)) json.now }
{
    match json.as_text() {
        Some(text) => NodeKind::of_word(text.as_str()).is_some(),
        None => false,
    }
}

/// Whether a value says how deep a history node is.
fn is_depth(json: &OrderedJson) -> bool
    ensures { result ≡ takes Role.Depth json.now }
{
    match json {
        OrderedJson::Text { text, .. } => matches!(text.as_str(), "shallow" | "deep"),
        OrderedJson::Bool { value, .. } => *value,
        _ => false,
    }
}
