//! Expressions.

use crate::value::Value;
use sqlite_items::Boxed;
use xs_data::{Items, Text};

/// An expression: one variant for each form, with the form's parts as fields; the operators that
/// evaluate all their operands first are the variants of `Unary` and `Binary`. What each form gives
/// is `outcome` of `specs/Eval.antt`.
#[derive(Debug, Drop)]
pub enum Expr {
    /// A scalar, which gives itself.
    Null,
    Bool(bool),
    Int(i64),
    Text(Text),
    /// The list of what its parts give.
    List(Exprs),
    /// The map of what its parts give, which stand in the order of the text.
    Map(Parts),
    /// `{"$context":path}` and the like: what stands at the path.
    Path(PathRoot, Text),
    /// `{"$or_else":[a,b]}`: what `a` gives, or `b` where `a` finds nothing.
    OrElse(Boxed<Expr>, Boxed<Expr>),
    /// An operator that takes the value of its one operand.
    Unary(Unary, Boxed<Expr>),
    /// An operator that takes the values of both its operands, evaluated from left to right.
    Binary(Binary, Boxed<Expr>, Boxed<Expr>),
    /// `{"$and":[a,b]}` and `{"$or":[a,b]}`: `b` is evaluated only if `a` doesn't decide.
    Connect(Connective, Boxed<Expr>, Boxed<Expr>),
    /// `{"$if":[c,a,b]}`: of `a` and `b` only one is evaluated.
    If(Boxed<Expr>, Boxed<Expr>, Boxed<Expr>),
    /// `{"$lit":value}`: that value, whatever its keys are.
    Lit(Value),
}

/// The parts of a list.
pub type Exprs = Items<Expr>;

/// The parts of a map, each with its key, in the order of the text.
pub type Parts = Items<(Text, Expr)>;

/// What a path begins in.
#[derive(Clone, Copy, Debug)]
pub enum PathRoot {
    Context,
    Event,
    Params,
    Input,
}

/// The operators of one operand.
#[derive(Clone, Copy, Debug)]
pub enum Unary {
    /// `{"$text":a}`: a number in decimal.
    Decimal,
    /// `{"$len":a}`: how many members a list or a map has, or bytes a text.
    Len,
    /// `{"$not":a}`.
    Not,
}

/// The operators of two operands that need both.
#[derive(Clone, Copy, Debug)]
pub enum Binary {
    /// `{"$add":[a,b]}` and the like.
    Arithmetic(Arithmetic),
    /// `{"$div":[a,b]}` and `{"$rem":[a,b]}`.
    Division(Division),
    /// `{"$concat":[a,b]}`: a text and then another.
    Concat,
    /// `{"$append":[list,v]}`: the list with a member more.
    Append,
    /// `{"$eq":[a,b]}`.
    Equal,
    /// `{"$lt":[a,b]}` and `{"$le":[a,b]}`, of two numbers, or of two texts by their bytes.
    Compare(Comparison),
}

/// `$add`, `$sub` and `$mul`.
#[derive(Clone, Copy, Debug)]
pub enum Arithmetic {
    Add,
    Sub,
    Mul,
}

/// `$div` and `$rem`.
#[derive(Clone, Copy, Debug)]
pub enum Division {
    Div,
    Rem,
}

/// `$lt` and `$le`.
#[derive(Clone, Copy, Debug)]
pub enum Comparison {
    Less,
    LessOrEqual,
}

/// `$and` and `$or`.
#[derive(Clone, Copy, Debug)]
pub enum Connective {
    And,
    Or,
}
