//! The table of implementations from JSON.

ghost use Rattle.std.specs.Prelude.{◌≡◌, ◌∷◌, ◌++◌, [], false, IfOk, OnOk, is_some, map};
ghost use Rattle.ordered_json.specs.Words.{member_parts};
ghost use Rattle.machine_json.specs.Expressions.{MeansExpr};
ghost use Rattle.xs_model.specs.Rising.{get};
ghost use Rattle.action_table.specs.TableMeaning.{IsTableReading, MeansActions, MeansActor, MeansActorOf, MeansNames, MeansTable};

use crate::actions::forms_of;
use crate::fault::TableFault;
use crate::first::first_fault;
use crate::parts::{expr_in, members_of, members_under, name_under};
use crate::role::{Shape, TableRole, shape_of};
use crate::table::{Table, TableActor, UnlinkedForms};
use ordered_json::{Member, OrderedJson};
use std::alloc::{AllocError, Global};
use xs_data::Text;
use xs_model::{Expr, Names};

/// Reads the implementations. Of several faults the one at the least place is answered. It costs as
/// much as two copies of the text.
pub fn read_table(alloc: Global, text: &OrderedJson) -> Result<Table, TableFault>
    ensures { IsTableReading text.now result }
{
    match first_fault(alloc, TableRole::Implementations, text)? {
        Some(place) => Err(TableFault::UnknownForm(place)),
        None => Ok(table_in(alloc, members_of(text))?),
    }
}

/// The table that the members of implementations without a fault mean.
fn table_in(alloc: Global, members: &[Member]) -> Result<Table, AllocError>
    ensures { IfOk result (λ table. MeansTable (map member_parts members.now) table) }
{
    let guards = named_exprs(alloc, members_under("guards", members))?;
    let actions = named_actions(alloc, members_under("actions", members))?;
    let delays = named_exprs(alloc, members_under("delays", members))?;
    let actors = named_actors(alloc, members_under("actors", members))?;
    Ok(Table {
        guards,
        actions,
        delays,
        actors,
    })
}

/// The expressions by name.
fn named_exprs(alloc: Global, members: &[Member]) -> Result<Names<Expr>, AllocError>
    ensures { IfOk result (λ names. MeansNames MeansExpr (map member_parts members.now) names) }
{
    let mut names = Names::new(alloc);
    for member in members {
        if has_name(&names, &member.key) {
            continue;
        }
        let expr = expr_in(alloc, &member.value)?;
        put_name(alloc, &mut names, &member.key, expr)?;
    }
    Ok(names)
}

/// The actions by name.
fn named_actions(alloc: Global, members: &[Member]) -> Result<Names<UnlinkedForms>, AllocError>
    ensures { IfOk result
        (λ names. MeansNames MeansActions (map member_parts members.now) names) }
{
    let mut names = Names::new(alloc);
    for member in members {
        if has_name(&names, &member.key) {
            continue;
        }
        let forms = forms_of(alloc, &member.value)?;
        put_name(alloc, &mut names, &member.key, forms)?;
    }
    Ok(names)
}

/// The actors by name.
fn named_actors(alloc: Global, members: &[Member]) -> Result<Names<TableActor>, AllocError>
    ensures { IfOk result
        (λ names. MeansNames MeansActor (map member_parts members.now) names) }
{
    let mut names = Names::new(alloc);
    for member in members {
        if has_name(&names, &member.key) {
            continue;
        }
        let actor = actor_in(alloc, members_of(&member.value))?;
        put_name(alloc, &mut names, &member.key, actor)?;
    }
    Ok(names)
}

/// What the members of an object start where an actor is named.
fn actor_in(alloc: Global, members: &[Member]) -> Result<TableActor, AllocError>
    ensures { IfOk result (λ actor. MeansActorOf (map member_parts members.now) actor) }
{
    match shape_of(TableRole::Actor, members) {
        Some(Shape::Machine) => {
            let named = name_under(alloc, "machine", members)?;
            Ok(TableActor::Machine(named))
        }
        Some(Shape::Promise) => Ok(TableActor::Promise),
        _ => Err(AllocError),
    }
}

/// Whether the name is held.
fn has_name<T>(names: &Names<T>, name: &Text) -> bool
    ensures { result ≡ is_some (get name.now names.now) }
{
    names.get(name.as_bytes()).is_some()
}

/// Puts a value last, under a name that isn't held.
fn put_name<T: Drop>(
    alloc: Global,
    names: &mut Names<T>,
    name: &Text,
    value: T,
) -> Result<(), AllocError>
    requires { is_some (get name.now names.old) ≡ false }
    ensures { OnOk result (names.new ≡ names.old ++ (name.now, value) ∷ []) }
{
    let name = name.copy(alloc)?;
    match names.put_last(name, value) {
        Ok(()) => Ok(()),
        Err(_) => Err(AllocError),
    }
}
