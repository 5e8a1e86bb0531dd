//! Expressions from JSON.

ghost use Rattle.std.specs.Prelude.{◌≡◌, map, find, IfOk, IfErr};
ghost use Rattle.std.specs.Option.{option_copied};
ghost use Rattle.ordered_json.specs.Words.{member_parts, key_of, as_list, as_text};
ghost use Rattle.std.specs.Str.{bytes_eq};
ghost use Rattle.std.specs.Map.{lookup};
ghost use Rattle.machine_json.specs.Expressions.{begins_with_dollar, binary_operators, operator_of, other_operators, path_operators, object_form, member_form, object_place, place_at, EachMeans, IsExpressionReading, IsExprReading};
ghost use Rattle.machine_json.specs.ExpressionParts.{values_under, joined, lesser, HaveKeysAndMean, IsFirstUnknown, IsFormReading, IsPathReading, IsTwoReading, IsThreeReading};

use crate::fault::MachineFault;
use crate::values::json_value;
use ordered_json::{Member, OrderedJson};
use sqlite_items::Boxed;
use std::alloc::{AllocError, Global};
use thiserror::Error;
use xs_data::{Items, Text};
use xs_model::{Arithmetic, Binary, Comparison, Connective, Division, Expr, PathRoot, Unary};

/// Where an object that is in no form of an expression is answered.
#[derive(Clone, Copy, Debug)]
pub enum FormPlace {
    /// At the object, as in a machine text.
    AtObject,
    /// At its first key that begins with `$`, as among the implementations.
    AtOperator,
}

/// Why JSON is no expression.
#[derive(Clone, Copy, Debug, PartialEq, Eq, Error)]
pub enum FormFault {
    /// An object in no form: of several the one that is answered at the least place.
    #[error("the object at byte {0} is in no form of an expression")]
    Unknown(usize),
    /// Memory ran out.
    #[error("out of memory")]
    Memory,
}

impl From<AllocError> for FormFault {
    ghost use Rattle.machine_json.specs.declared.expressions.FormFault.TheVariants.{Memory};

    ghost from_gives = { λ _ fault. fault ≡ Memory };

    fn from(_error: AllocError) -> FormFault {
        FormFault::Memory
    }
}

/// What the only key of an object names if it begins with `$`.
#[derive(Clone, Copy, Debug)]
pub enum Operator {
    /// `$context`, `$event`, `$params` and `$input`, over a path.
    Path(PathRoot),
    /// `$or_else`, over a list of two.
    OrElse,
    /// The operators over one operand.
    Unary(Unary),
    /// The operators over a list of two operands that need both.
    Binary(Binary),
    /// `$and` and `$or`, over a list of two.
    Connect(Connective),
    /// `$if`, over a list of three.
    If,
    /// `$lit`, over any JSON.
    Lit,
}

/// Reads JSON as an expression. An object in no form is `BadKind`, of several the one at the least
/// place. The cost is that of a copy.
pub fn read_expr(alloc: Global, text: &OrderedJson) -> Result<Expr, MachineFault>
    ensures { IsExprReading text.now result }
{
    match read_form(alloc, text, FormPlace::AtObject) {
        Ok(expr) => Ok(expr),
        Err(FormFault::Unknown(place)) => Err(MachineFault::BadKind(place)),
        Err(FormFault::Memory) => Err(MachineFault::Memory),
    }
}

/// Reads JSON as an expression, with unknown forms answered at these places. It goes on behind an
/// unknown form, so that the least place is found. The cost is that of a copy.
#[cycle(read_form)]
pub fn read_form(alloc: Global, json: &OrderedJson, answered: FormPlace) -> Result<Expr, FormFault>
    ensures { IsExpressionReading answered json.now result }
{
    match json {
        OrderedJson::Null { .. } => Ok(Expr::Null),
        OrderedJson::Bool { value, .. } => Ok(Expr::Bool(*value)),
        OrderedJson::Int { value, .. } => Ok(Expr::Int(*value)),
        OrderedJson::Text { text, .. } => Ok(Expr::Text(text.copy(alloc)?)),
        OrderedJson::List { items, .. } => {
            let parts = read_list(alloc, items.as_slice(), answered)?;
            Ok(Expr::List(Items::from_vec(parts)))
        }
        OrderedJson::Object { place, members } => {
            read_object(alloc, *place, members.as_slice(), answered)
        }
    }
}

/// Reads the members of an object that begins at the place.
#[cycle(read_form)]
fn read_object(
    alloc: Global,
    place: usize,
    members: &[Member],
    answered: FormPlace,
) -> Result<Expr, FormFault>
    ensures { IsFormReading answered (object_place answered place (map member_parts members.now))
        (object_form (map member_parts members.now)) result }
{
    let Some(first) = first_operator(members) else {
        let parts = read_map(alloc, members, answered)?;
        return Ok(Expr::Map(Items::from_vec(parts)));
    };
    let unknown = unknown_place(place, first, answered);
    match members {
        [only] => read_operator(alloc, only, unknown, answered),
        _ => Err(FormFault::Unknown(unknown)),
    }
}

/// Where an object in no form is answered that begins at the place, by its first member whose key
/// begins with `$`.
fn unknown_place(place: usize, first: &Member, answered: FormPlace) -> usize
    ensures { result ≡ place_at answered place (member_parts first.now).key_place }
{
    match answered {
        FormPlace::AtObject => place,
        FormPlace::AtOperator => first.key_place,
    }
}

/// Reads the only member of an object as an operator with its operands. `unknown` is where the
/// object is answered if that is no form.
#[cycle(read_form)]
fn read_operator(
    alloc: Global,
    member: &Member,
    unknown: usize,
    answered: FormPlace,
) -> Result<Expr, FormFault>
    ensures { IsFormReading answered unknown (member_form (member_parts member.now)) result }
{
    let Some(operator) = operator_of(member.key.as_bytes()) else {
        return Err(FormFault::Unknown(unknown));
    };
    match operator {
        Operator::Path(root) => read_path(alloc, root, &member.value, unknown),
        Operator::OrElse => {
            let (a, b) = read_two(alloc, &member.value, unknown, answered)?;
            Ok(Expr::OrElse(a, b))
        }
        Operator::Unary(op) => {
            let a = read_operand(alloc, &member.value, answered)?;
            Ok(Expr::Unary(op, a))
        }
        Operator::Binary(op) => {
            let (a, b) = read_two(alloc, &member.value, unknown, answered)?;
            Ok(Expr::Binary(op, a, b))
        }
        Operator::Connect(op) => {
            let (a, b) = read_two(alloc, &member.value, unknown, answered)?;
            Ok(Expr::Connect(op, a, b))
        }
        Operator::If => {
            let (test, (a, b)) = read_three(alloc, &member.value, unknown, answered)?;
            Ok(Expr::If(test, a, b))
        }
        Operator::Lit => Ok(Expr::Lit(json_value(alloc, &member.value)?)),
    }
}

/// Reads a path.
fn read_path(
    alloc: Global,
    root: PathRoot,
    under: &OrderedJson,
    unknown: usize,
) -> Result<Expr, FormFault>
    ensures { IsPathReading root unknown (as_text under.now) result }
{
    match under.as_text() {
        Some(path) => Ok(Expr::Path(root, path.copy(alloc)?)),
        None => Err(FormFault::Unknown(unknown)),
    }
}

/// Reads a list of two operands.
#[cycle(read_form)]
fn read_two(
    alloc: Global,
    under: &OrderedJson,
    unknown: usize,
    answered: FormPlace,
) -> Result<(Boxed<Expr>, Boxed<Expr>), FormFault>
    ensures { IsTwoReading answered unknown (as_list under.now) result }
{
    let OrderedJson::List { items, .. } = under else {
        return Err(FormFault::Unknown(unknown));
    };
    let [a, b] = items.as_slice() else {
        return Err(FormFault::Unknown(unknown));
    };
    let first = read_operand(alloc, a, answered);
    let second = read_operand(alloc, b, answered);
    join(first, second)
}

/// Reads a list of three operands.
#[cycle(read_form)]
fn read_three(
    alloc: Global,
    under: &OrderedJson,
    unknown: usize,
    answered: FormPlace,
) -> Result<(Boxed<Expr>, (Boxed<Expr>, Boxed<Expr>)), FormFault>
    ensures { IsThreeReading answered unknown (as_list under.now) result }
{
    let OrderedJson::List { items, .. } = under else {
        return Err(FormFault::Unknown(unknown));
    };
    let [test, a, b] = items.as_slice() else {
        return Err(FormFault::Unknown(unknown));
    };
    let test = read_operand(alloc, test, answered);
    let first = read_operand(alloc, a, answered);
    let second = read_operand(alloc, b, answered);
    join(test, join(first, second))
}

/// Reads an operand, in a box of its own.
#[cycle(read_form)]
fn read_operand(
    alloc: Global,
    json: &OrderedJson,
    answered: FormPlace,
) -> Result<Boxed<Expr>, FormFault>
    ensures { IsExpressionReading answered json.now result }
{
    Ok(Boxed::new(alloc, read_form(alloc, json, answered)?)?)
}

/// Reads each item of a list.
#[cycle(read_form)]
fn read_list(
    alloc: Global,
    items: &[OrderedJson],
    answered: FormPlace,
) -> Result<Vec<Expr>, FormFault>
    ensures ok { IfOk result (λ parts. EachMeans items.now parts.items) }
    ensures fault { IfErr result (λ fault. IsFirstUnknown answered items.now fault) }
{
    let mut parts = Vec::with_capacity(alloc, items.len())?;
    let mut least = None;
    for item in items {
        match read_form(alloc, item, answered) {
            Ok(part) => parts.push(part).map_err(AllocError::from)?,
            Err(FormFault::Unknown(place)) => least = lesser(least, place),
            Err(FormFault::Memory) => return Err(FormFault::Memory),
        }
    }
    match least {
        Some(place) => Err(FormFault::Unknown(place)),
        None => Ok(parts),
    }
}

/// Reads what stands under each key.
#[cycle(read_form)]
fn read_map(
    alloc: Global,
    members: &[Member],
    answered: FormPlace,
) -> Result<Vec<(Text, Expr)>, FormFault>
    ensures ok { IfOk result (λ parts. HaveKeysAndMean (map member_parts members.now) parts.items) }
    ensures fault { IfErr result
        (λ fault. IsFirstUnknown answered (values_under (map member_parts members.now)) fault) }
{
    let mut parts = Vec::with_capacity(alloc, members.len())?;
    let mut least = None;
    for member in members {
        match read_form(alloc, &member.value, answered) {
            Ok(part) => {
                let named = (member.key.copy(alloc)?, part);
                parts.push(named).map_err(AllocError::from)?;
            }
            Err(FormFault::Unknown(place)) => least = lesser(least, place),
            Err(FormFault::Memory) => return Err(FormFault::Memory),
        }
    }
    match least {
        Some(place) => Err(FormFault::Unknown(place)),
        None => Ok(parts),
    }
}

/// The lesser of the places.
fn lesser(least: Option<usize>, place: usize) -> Option<usize>
    ensures { result ≡ lesser least place }
{
    match least {
        Some(other) => Some(other.min(place)),
        None => Some(place),
    }
}

/// Both, or the fault at the lesser place; want of memory comes before any fault.
fn join<X: Drop, Y: Drop>(
    first: Result<X, FormFault>,
    second: Result<Y, FormFault>,
) -> Result<(X, Y), FormFault>
    ensures { result ≡ joined first second }
{
    match (first, second) {
        (Ok(x), Ok(y)) => Ok((x, y)),
        (Err(FormFault::Memory), _) | (_, Err(FormFault::Memory)) => Err(FormFault::Memory),
        (Err(FormFault::Unknown(place)), Err(FormFault::Unknown(other))) => {
            Err(FormFault::Unknown(place.min(other)))
        }
        (Err(fault), Ok(_)) | (Ok(_), Err(fault)) => Err(fault),
    }
}

/// The first member whose key begins with `$`.
fn first_operator(members: &[Member]) -> Option<&Member>
    ensures { option_copied result
        ≡ find (λ m. begins_with_dollar (key_of m)) members.now }
{
    members
        .iter()
        .find(|member| begins_with_dollar(member.key.as_bytes()))
}

/// Whether the key begins with `$`.
fn begins_with_dollar(key: &[u8]) -> bool
    ensures { result ≡ begins_with_dollar key.now }
{
    match key {
        [] => false,
        [first, ..] => *first == b'$',
    }
}

/// The operator that a key names.
fn operator_of(key: &[u8]) -> Option<Operator>
    ensures { result ≡ operator_of key.now }
{
    if let Some(operator) = path_operator(key) {
        return Some(operator);
    }
    if let Some(operator) = binary_operator(key) {
        return Some(operator);
    }
    other_operator(key)
}

/// The operator over a path that a key names.
fn path_operator(key: &[u8]) -> Option<Operator>
    ensures { result ≡ lookup (bytes_eq key.now) path_operators }
{
    if key == b"$context".as_slice() {
        return Some(Operator::Path(PathRoot::Context));
    }
    if key == b"$event".as_slice() {
        return Some(Operator::Path(PathRoot::Event));
    }
    if key == b"$params".as_slice() {
        return Some(Operator::Path(PathRoot::Params));
    }
    if key == b"$input".as_slice() {
        return Some(Operator::Path(PathRoot::Input));
    }
    None
}

/// The operator over the values of two operands that a key names.
fn binary_operator(key: &[u8]) -> Option<Operator>
    ensures { result ≡ lookup (bytes_eq key.now) binary_operators }
{
    if key == b"$add".as_slice() {
        return Some(Operator::Binary(Binary::Arithmetic(Arithmetic::Add)));
    }
    if key == b"$sub".as_slice() {
        return Some(Operator::Binary(Binary::Arithmetic(Arithmetic::Sub)));
    }
    if key == b"$mul".as_slice() {
        return Some(Operator::Binary(Binary::Arithmetic(Arithmetic::Mul)));
    }
    if key == b"$div".as_slice() {
        return Some(Operator::Binary(Binary::Division(Division::Div)));
    }
    if key == b"$rem".as_slice() {
        return Some(Operator::Binary(Binary::Division(Division::Rem)));
    }
    if key == b"$concat".as_slice() {
        return Some(Operator::Binary(Binary::Concat));
    }
    if key == b"$append".as_slice() {
        return Some(Operator::Binary(Binary::Append));
    }
    if key == b"$eq".as_slice() {
        return Some(Operator::Binary(Binary::Equal));
    }
    if key == b"$lt".as_slice() {
        return Some(Operator::Binary(Binary::Compare(Comparison::Less)));
    }
    if key == b"$le".as_slice() {
        return Some(Operator::Binary(Binary::Compare(Comparison::LessOrEqual)));
    }
    None
}

/// The operator that a key names, of those over one operand, over operands that aren't all
/// evaluated, and over any JSON.
fn other_operator(key: &[u8]) -> Option<Operator>
    ensures { result ≡ lookup (bytes_eq key.now) other_operators }
{
    if key == b"$text".as_slice() {
        return Some(Operator::Unary(Unary::Decimal));
    }
    if key == b"$len".as_slice() {
        return Some(Operator::Unary(Unary::Len));
    }
    if key == b"$not".as_slice() {
        return Some(Operator::Unary(Unary::Not));
    }
    if key == b"$or_else".as_slice() {
        return Some(Operator::OrElse);
    }
    if key == b"$and".as_slice() {
        return Some(Operator::Connect(Connective::And));
    }
    if key == b"$or".as_slice() {
        return Some(Operator::Connect(Connective::Or));
    }
    if key == b"$if".as_slice() {
        return Some(Operator::If);
    }
    if key == b"$lit".as_slice() {
        return Some(Operator::Lit);
    }
    None
}
