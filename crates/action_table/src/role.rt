//! What each value among the implementations is there for, and the keys of its object.

ghost use Rattle.std.specs.Prelude.{◌≡◌, false, ◌∷◌, [], map};
ghost use Rattle.std.specs.Map.{lookup};
ghost use Rattle.std.specs.Option.{option_map_or};
ghost use Rattle.std.specs.Str.{bytes_eq};
ghost use Rattle.ordered_json.specs.Words.{as_text, member_parts};
ghost use Rattle.action_table.specs.Shapes.{actor_shapes, has_needed, has_shapes, is_complete, is_relative, key_role, kinds, list_role, named_shape, parts_of, plain_shapes, shape_of, takes, target_shapes};

use ordered_json::{Member, OrderedJson, get};

/// What a value among the implementations is there for.
#[derive(Clone, Copy, Debug)]
pub enum TableRole {
    /// All of them.
    Implementations,
    /// Expressions by name or by key: guards, delays, and the values of `assign`.
    Expressions,
    Expression,
    /// Actions by name.
    Actions,
    /// An action: one form or a list of forms.
    Action,
    /// One form of an action.
    Form,
    /// A list of items of `enqueueActions`.
    ItemList,
    /// One item: a form other than `enqueueActions`, or an `if`.
    Item,
    /// To whom `sendTo` sends.
    Target,
    /// Actors by name.
    Actors,
    Actor,
    /// A name.
    Name,
    /// What stands under `promise`: an object without keys.
    Nothing,
}

/// The form of an object, which a key of it names.
#[derive(Clone, Copy, Debug)]
pub enum Shape {
    Assign,
    Raise,
    SendTo,
    Cancel,
    SpawnChild,
    StopChild,
    EnqueueActions,
    If,
    Child,
    System,
    Machine,
    Promise,
}

/// The form of an object that a key names.
#[tactic(auto, unfolding(crate::specs::Shapes::shapes))]
fn named_shape(role: TableRole, key: &[u8]) -> Option<Shape>
    ensures { result ≡ named_shape role key.now }
{
    match role {
        TableRole::Action | TableRole::Form if key == b"enqueueActions".as_slice() => {
            Some(Shape::EnqueueActions)
        }
        TableRole::Item if key == b"if".as_slice() => Some(Shape::If),
        TableRole::Action | TableRole::Form | TableRole::Item => plain_shape(key),
        TableRole::Target => target_shape(key),
        TableRole::Actor => actor_shape(key),
        _ => None,
    }
}

/// The form of an action that a key names, but `enqueueActions`.
fn plain_shape(key: &[u8]) -> Option<Shape>
    ensures { result ≡ lookup (bytes_eq key.now) plain_shapes }
{
    if key == b"assign".as_slice() {
        return Some(Shape::Assign);
    }
    if key == b"raise".as_slice() {
        return Some(Shape::Raise);
    }
    if key == b"sendTo".as_slice() {
        return Some(Shape::SendTo);
    }
    if key == b"cancel".as_slice() {
        return Some(Shape::Cancel);
    }
    if key == b"spawnChild".as_slice() {
        return Some(Shape::SpawnChild);
    }
    if key == b"stopChild".as_slice() {
        return Some(Shape::StopChild);
    }
    None
}

/// The form of a target that a key names.
fn target_shape(key: &[u8]) -> Option<Shape>
    ensures { result ≡ lookup (bytes_eq key.now) target_shapes }
{
    if key == b"child".as_slice() {
        return Some(Shape::Child);
    }
    if key == b"system".as_slice() {
        return Some(Shape::System);
    }
    None
}

/// The form of an actor that a key names.
fn actor_shape(key: &[u8]) -> Option<Shape>
    ensures { result ≡ lookup (bytes_eq key.now) actor_shapes }
{
    if key == b"machine".as_slice() {
        return Some(Shape::Machine);
    }
    if key == b"promise".as_slice() {
        return Some(Shape::Promise);
    }
    None
}

/// Whether objects there have forms.
fn has_shapes(role: TableRole) -> bool
    ensures { result ≡ has_shapes role }
{
    matches!(
        role,
        TableRole::Action | TableRole::Form | TableRole::Item | TableRole::Target | TableRole::Actor
    )
}

/// The form of an object: that of its first key that names one.
pub fn shape_of(role: TableRole, members: &[Member]) -> Option<Shape>
    ensures { result ≡ shape_of role (map member_parts members.now) }
{
    for member in members {
        if let Some(shape) = named_shape(role, member.key.as_bytes()) {
            return Some(shape);
        }
    }
    None
}

/// What the value under a key is there for, in an object of this form. None is a key that the
/// object doesn't have.
#[tactic(auto, unfolding(crate::specs::Shapes::key_role))]
pub fn key_role(role: TableRole, shape: Option<Shape>, key: &[u8]) -> Option<TableRole>
    ensures { result ≡ key_role role shape key.now }
{
    match role {
        TableRole::Implementations => kind_role(key),
        TableRole::Expressions => Some(TableRole::Expression),
        TableRole::Actions => Some(TableRole::Action),
        TableRole::Actors => Some(TableRole::Actor),
        _ => part_role(shape?, key),
    }
}

/// What the value under a kind of implementations is there for.
fn kind_role(key: &[u8]) -> Option<TableRole>
    ensures { result ≡ lookup (bytes_eq key.now) kinds }
{
    if key == b"guards".as_slice() {
        return Some(TableRole::Expressions);
    }
    if key == b"actions".as_slice() {
        return Some(TableRole::Actions);
    }
    if key == b"delays".as_slice() {
        return Some(TableRole::Expressions);
    }
    if key == b"actors".as_slice() {
        return Some(TableRole::Actors);
    }
    None
}

/// What the value under a key of a form is there for.
#[tactic(auto, unfolding(crate::specs::Shapes::parts_of))]
fn part_role(shape: Shape, key: &[u8]) -> Option<TableRole>
    ensures { result ≡ lookup (bytes_eq key.now) (parts_of shape) }
{
    match shape {
        Shape::Assign => only(key, b"assign", TableRole::Expressions),
        Shape::Raise => raise_role(key),
        Shape::SendTo => send_role(key),
        Shape::Cancel => only(key, b"cancel", TableRole::Expression),
        Shape::SpawnChild => spawn_role(key),
        Shape::StopChild => only(key, b"stopChild", TableRole::Expression),
        Shape::EnqueueActions => only(key, b"enqueueActions", TableRole::ItemList),
        Shape::If => branch_role(key),
        Shape::Child => only(key, b"child", TableRole::Expression),
        Shape::System => only(key, b"system", TableRole::Expression),
        Shape::Machine => only(key, b"machine", TableRole::Name),
        Shape::Promise => only(key, b"promise", TableRole::Nothing),
    }
}

/// The role, where the key is the only one that a form has.
fn only(key: &[u8], name: &[u8], role: TableRole) -> Option<TableRole>
    ensures { result ≡ lookup (bytes_eq key.now) ((name.now, role) ∷ []) }
{
    if key == name { Some(role) } else { None }
}

/// What the value under a key of `raise` is there for.
#[tactic(auto, unfolding(crate::specs::Shapes::parts_of))]
fn raise_role(key: &[u8]) -> Option<TableRole>
    ensures { result ≡ lookup (bytes_eq key.now) (parts_of Shape.Raise) }
{
    if key == b"raise".as_slice() {
        return Some(TableRole::Expression);
    }
    if key == b"delay".as_slice() {
        return Some(TableRole::Expression);
    }
    if key == b"id".as_slice() {
        return Some(TableRole::Expression);
    }
    None
}

/// What the value under a key of `sendTo` is there for.
#[tactic(auto, unfolding(crate::specs::Shapes::parts_of))]
fn send_role(key: &[u8]) -> Option<TableRole>
    ensures { result ≡ lookup (bytes_eq key.now) (parts_of Shape.SendTo) }
{
    if key == b"sendTo".as_slice() {
        return Some(TableRole::Target);
    }
    if key == b"event".as_slice() {
        return Some(TableRole::Expression);
    }
    if key == b"delay".as_slice() {
        return Some(TableRole::Expression);
    }
    if key == b"id".as_slice() {
        return Some(TableRole::Expression);
    }
    None
}

/// What the value under a key of `spawnChild` is there for.
#[tactic(auto, unfolding(crate::specs::Shapes::parts_of))]
fn spawn_role(key: &[u8]) -> Option<TableRole>
    ensures { result ≡ lookup (bytes_eq key.now) (parts_of Shape.SpawnChild) }
{
    if key == b"spawnChild".as_slice() {
        return Some(TableRole::Name);
    }
    if key == b"id".as_slice() {
        return Some(TableRole::Expression);
    }
    if key == b"input".as_slice() {
        return Some(TableRole::Expression);
    }
    if key == b"systemId".as_slice() {
        return Some(TableRole::Expression);
    }
    None
}

/// What the value under a key of `if` is there for.
#[tactic(auto, unfolding(crate::specs::Shapes::parts_of))]
fn branch_role(key: &[u8]) -> Option<TableRole>
    ensures { result ≡ lookup (bytes_eq key.now) (parts_of Shape.If) }
{
    if key == b"if".as_slice() {
        return Some(TableRole::Expression);
    }
    if key == b"then".as_slice() {
        return Some(TableRole::ItemList);
    }
    if key == b"else".as_slice() {
        return Some(TableRole::ItemList);
    }
    None
}

/// Whether JSON of this kind may stand there.
pub fn takes(role: TableRole, json: &OrderedJson) -> bool
    ensures { result ≡ takes role json.now }
{
    match role {
        TableRole::Expression => true,
        TableRole::Action => json.is_object() || json.is_list(),
        TableRole::ItemList => json.is_list(),
        TableRole::Target => json.is_object() || is_relative(json),
        TableRole::Name => json.is_text(),
        _ => json.is_object(),
    }
}

/// Whether the value is the text `self` or `parent`.
fn is_relative(json: &OrderedJson) -> bool
    ensures { result ≡ option_map_or is_relative (as_text json.now) false }
{
    match json.as_text() {
        Some(text) => {
            text.as_bytes() == b"self".as_slice() || text.as_bytes() == b"parent".as_slice()
        }
        None => false,
    }
}

/// Whether the object there isn't empty and has what its form needs, where it has to have one.
pub fn is_complete(role: TableRole, shape: Option<Shape>, members: &[Member]) -> bool
    requires { shape ≡ shape_of role (map member_parts members.now) }
    ensures { result ≡ is_complete role (map member_parts members.now) }
{
    if members.is_empty() {
        return !has_shapes(role);
    }
    match shape {
        Some(Shape::SendTo) => get(members, "event").is_some(),
        Some(Shape::If) => get(members, "then").is_some(),
        _ => true,
    }
}

/// What the items of a list are there for. None is a place where no list stands.
pub fn list_role(role: TableRole) -> Option<TableRole>
    ensures { result ≡ list_role role }
{
    match role {
        TableRole::Action => Some(TableRole::Form),
        TableRole::ItemList => Some(TableRole::Item),
        _ => None,
    }
}
