//! Roles: what a value of a machine text is there for, and with it what may stand there.

ghost use Rattle.std.specs.Prelude.{◌≡◌};
ghost use Rattle.std.specs.Map.{lookup};
ghost use Rattle.std.specs.Str.{bytes_eq};
ghost use Rattle.machine_json.specs.Roles.{action_fields, field_value, guard_fields, invocation_fields, item_role, member_role, node_field, takes_key, transition_fields};

use crate::field::Field;
use crate::key::{is_delay_key, is_state_key};
use crate::kind_word::NodeKind;

/// What a value of a machine text is there for.
#[derive(Clone, Copy, Debug)]
pub enum Role {
    /// The machine's object, which is its root.
    Root,
    /// A node below the root.
    State,
    /// The nodes below a node, by their keys.
    States,
    /// Transitions by their descriptors.
    On,
    /// Transitions by their delays.
    After,
    /// A transition or a list of them.
    Transitions,
    Transition,
    /// Where a transition leads: a text, or a list of them that isn't empty.
    Targets,
    /// An action or a list of them.
    Actions,
    Action,
    /// A list of guards.
    Guards,
    Guard,
    /// An invocation or a list of them.
    Invocations,
    Invocation,
    /// What `context`, `input` and `output` have.
    Expression,
    /// A text or a list of them.
    Texts,
    AnyText,
    /// A text that isn't empty.
    Id,
    /// A text that begins with `#`.
    Reference,
    /// `true` or `false`.
    Truth,
    /// One of the five words of `type`.
    KindWord,
    /// What `history` has.
    Depth,
    /// Any JSON; nothing in it is looked at.
    Unread,
}

impl Role {
    /// What a field of a node is there for.
    pub fn of_field(field: Field) -> Role
        ensures { result ≡ field_value field }
    {
        match field {
            Field::Id => Role::Id,
            Field::Version | Field::Description | Field::Initial | Field::Target => Role::AnyText,
            Field::Meta => Role::Unread,
            Field::Type => Role::KindWord,
            Field::Context | Field::Output => Role::Expression,
            Field::States => Role::States,
            Field::On => Role::On,
            Field::Always | Field::OnDone => Role::Transitions,
            Field::After => Role::After,
            Field::Invoke => Role::Invocations,
            Field::Entry | Field::Exit => Role::Actions,
            Field::Tags => Role::Texts,
            Field::History => Role::Depth,
        }
    }

    /// What an item of a list in this role is there for.
    pub fn of_item(self) -> Role
        ensures { result ≡ item_role self }
    {
        match self {
            Role::Transitions => Role::Transition,
            Role::Targets | Role::Texts => Role::AnyText,
            Role::Actions => Role::Action,
            Role::Guards => Role::Guard,
            Role::Invocations => Role::Invocation,
            _ => Role::Unread,
        }
    }

    /// What the member of an object in this role is there for that has this key, if the object
    /// may have
    /// the key. The kind is that of the node, where the object is one.
    pub fn of_member(self, kind: NodeKind, key: &str) -> Option<Role>
        ensures { result ≡ member_role self kind key.now }
    {
        match self {
            Role::Root => node_field(true, kind, key),
            Role::State => node_field(false, kind, key),
            Role::States => Some(Role::State),
            Role::On | Role::After => Some(Role::Transitions),
            Role::Transitions | Role::Transition => transition_field(key),
            Role::Actions | Role::Action => action_field(key),
            Role::Guard => guard_field(key),
            Role::Invocations | Role::Invocation => invocation_field(key),
            _ => Some(Role::Unread),
        }
    }

    /// Whether a member of an object in this role may have a key that is spelled so.
    pub fn takes_key(self, key: &str) -> bool
        ensures { result ≡ takes_key self key.now }
    {
        match self {
            Role::States => is_state_key(key.as_bytes()),
            Role::After => is_delay_key(key.as_bytes()),
            _ => true,
        }
    }
}

/// What the value under a key of a node is there for, if the node has that field.
fn node_field(is_root: bool, kind: NodeKind, key: &str) -> Option<Role>
    ensures { result ≡ node_field is_root kind key.now }
{
    let field = Field::of_key(key)?;
    if field.stands_on(is_root, kind) {
        Some(Role::of_field(field))
    } else {
        None
    }
}

/// The keys of a transition's object.
fn transition_field(key: &str) -> Option<Role>
    ensures { result ≡ lookup (bytes_eq key.now) transition_fields }
{
    match key {
        "target" => Some(Role::Targets),
        "guard" => Some(Role::Guard),
        "actions" => Some(Role::Actions),
        "reenter" => Some(Role::Truth),
        "description" => Some(Role::AnyText),
        "meta" => Some(Role::Unread),
        _ => None,
    }
}

/// The keys of an action's object.
fn action_field(key: &str) -> Option<Role>
    ensures { result ≡ lookup (bytes_eq key.now) action_fields }
{
    match key {
        "type" => Some(Role::AnyText),
        "params" => Some(Role::Unread),
        _ => None,
    }
}

/// The keys of a guard's object.
fn guard_field(key: &str) -> Option<Role>
    ensures { result ≡ lookup (bytes_eq key.now) guard_fields }
{
    match key {
        "type" => Some(Role::AnyText),
        "params" => Some(Role::Unread),
        "and" | "or" => Some(Role::Guards),
        "not" => Some(Role::Guard),
        "stateIn" => Some(Role::Reference),
        _ => None,
    }
}

/// The keys of an invocation's object.
fn invocation_field(key: &str) -> Option<Role>
    ensures { result ≡ lookup (bytes_eq key.now) invocation_fields }
{
    match key {
        "src" | "id" | "systemId" => Some(Role::AnyText),
        "input" => Some(Role::Expression),
        "onDone" | "onError" | "onSnapshot" => Some(Role::Transitions),
        _ => None,
    }
}
