//! The guard of a transition, from a machine text without faults.

ghost use Rattle.std.specs.Prelude.{◌≡◌, ◌<◌, IfOk, IfSome, Some, codes, length, map, unwrap_or};
ghost use Rattle.std.specs.Map.{lookup};
ghost use Rattle.std.specs.Str.{bytes_eq};
ghost use Rattle.ordered_json.specs.declared.json.OrderedJson.{OrderedJson};
ghost use Rattle.ordered_json.specs.Words.{get, member_parts};
ghost use Rattle.xs_model.specs.declared.value.Value.TheVariants as value;
ghost use Rattle.machine_json.specs.declared.role.Role.TheVariants as role;
ghost use Rattle.machine_json.specs.Faultless.{IsFaultlessAs};
ghost use Rattle.machine_json.specs.FirstPass.{items_of};
ghost use Rattle.machine_json.specs.GuardForms.{form_key, forms_by_key};
ghost use Rattle.machine_json.specs.Machines.{MeansGuard, MeansGuardOr, MeansGuards};
ghost use Rattle.machine_json.specs.Meaning.{named_of, params_of};
ghost use Rattle.machine_json.specs.NodeKinds.{members_of};
ghost use Rattle.machine_json.specs.SecondPass.{led_to};

use crate::actions::{named_of, params_of};
use crate::links::led_to;
use crate::machine::{UnlinkedGuard, UnlinkedGuards};
use node_tree::Outline;
use ordered_json::{Member, OrderedJson, get};
use sqlite_items::Boxed;
use std::alloc::{AllocError, Global};
use xs_data::Items;
use xs_model::Value;

/// The form of a guard's object.
#[derive(Clone, Copy, Debug)]
enum GuardForm {
    Test,
    And,
    Or,
    Not,
    In,
}

impl GuardForm {
    /// The form that a key makes.
    fn of_key(key: &str) -> Option<GuardForm>
        ensures { result ≡ lookup (bytes_eq key.now) forms_by_key }
    {
        match key {
            "type" => Some(GuardForm::Test),
            "and" => Some(GuardForm::And),
            "or" => Some(GuardForm::Or),
            "not" => Some(GuardForm::Not),
            "stateIn" => Some(GuardForm::In),
            _ => None,
        }
    }
}

/// The node that a text leads to. The second pass has seen that there is one.
pub(crate) fn node_led_to(outline: &Outline, source: u32, json: &OrderedJson) -> u32
    requires { source < length outline.now }
    ensures { result ≡ unwrap_or (led_to outline.now source json.now) 0 }
{
    led_to(outline, source, json).unwrap_or(0)
}

/// The guard under a key of a transition, where there is one.
pub(crate) fn guard_under(
    alloc: Global,
    outline: &Outline,
    source: u32,
    members: &[Member],
) -> Result<Option<UnlinkedGuard>, AllocError>
    requires source { source < length outline.now }
    ensures { IfOk result (λ it. let json = get (codes "guard") (map member_parts members.now) in
        IfSome json (IsFaultlessAs outline.now source role.Guard)
        → MeansGuardOr outline.now source json it) }
{
    match get(members, "guard") {
        Some(json) => Ok(Some(guard_of(alloc, outline, source, json)?)),
        None => Ok(None),
    }
}

/// A guard: a name alone, or an object of one form. An object in no form, which a text without faults
/// doesn't have, gives an empty name.
#[cycle(guards)]
fn guard_of(
    alloc: Global,
    outline: &Outline,
    source: u32,
    json: &OrderedJson,
) -> Result<UnlinkedGuard, AllocError>
    requires source { source < length outline.now }
    ensures { IfOk result (λ it. IsFaultlessAs outline.now source role.Guard json.now
        → MeansGuard outline.now source json.now it) }
{
    let OrderedJson::Object { members, .. } = json else {
        return name_alone(alloc, json);
    };
    for member in members.as_slice() {
        if let Some(form) = GuardForm::of_key(member.key.as_str()) {
            return guard_in(alloc, outline, source, form, member, members.as_slice());
        }
    }
    name_alone(alloc, json)
}

/// The guard of a form, that a member of an object makes it.
#[cycle(guards)]
fn guard_in(
    alloc: Global,
    outline: &Outline,
    source: u32,
    form: GuardForm,
    member: &Member,
    members: &[Member],
) -> Result<UnlinkedGuard, AllocError>
    requires source { source < length outline.now }
    ensures { IfOk result (λ it. (json : OrderedJson) → members_of json ≡ map member_parts members.now
        → get (form_key form) (members_of json) ≡ Some (member_parts member.now).value
        → IsFaultlessAs outline.now source role.Guard json → MeansGuard outline.now source json it) }
{
    match form {
        GuardForm::Test => test_of(alloc, &member.value, members),
        GuardForm::And => {
            let parts = guards_of(alloc, outline, source, &member.value)?;
            Ok(UnlinkedGuard::And(parts))
        }
        GuardForm::Or => {
            let parts = guards_of(alloc, outline, source, &member.value)?;
            Ok(UnlinkedGuard::Or(parts))
        }
        GuardForm::Not => {
            let part = guard_of(alloc, outline, source, &member.value)?;
            Ok(UnlinkedGuard::Not(Boxed::new(alloc, part)?))
        }
        GuardForm::In => Ok(UnlinkedGuard::In(node_led_to(outline, source, &member.value))),
    }
}

/// The guard that a name alone is.
fn name_alone(alloc: Global, json: &OrderedJson) -> Result<UnlinkedGuard, AllocError>
    ensures { IfOk result (λ it. it ≡ UnlinkedGuard.Test (named_of json.now) value.Null) }
{
    Ok(UnlinkedGuard::Test {
        guard: named_of(alloc, json)?,
        params: Value::Null,
    })
}

/// The guard of a name with the params beside it.
fn test_of(
    alloc: Global,
    name: &OrderedJson,
    members: &[Member],
) -> Result<UnlinkedGuard, AllocError>
    ensures { IfOk result (λ it.
        it ≡ UnlinkedGuard.Test (named_of name.now) (params_of (map member_parts members.now))) }
{
    Ok(UnlinkedGuard::Test {
        guard: named_of(alloc, name)?,
        params: params_of(alloc, members)?,
    })
}

/// The guards that the items of a list are.
#[cycle(guards)]
fn guards_of(
    alloc: Global,
    outline: &Outline,
    source: u32,
    json: &OrderedJson,
) -> Result<UnlinkedGuards, AllocError>
    requires source { source < length outline.now }
    ensures { IfOk result (λ parts. IsFaultlessAs outline.now source role.Guards json.now
        → MeansGuards outline.now source (items_of json.now) parts) }
{
    let OrderedJson::List { items, .. } = json else {
        return Ok(Items::new(alloc));
    };
    let mut parts = Vec::with_capacity(alloc, items.len())?;
    for item in items.as_slice() {
        let part = guard_of(alloc, outline, source, item)?;
        parts.push(part)?;
    }
    Ok(Items::from_vec(parts))
}
