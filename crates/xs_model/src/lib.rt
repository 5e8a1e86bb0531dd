//! Values, their compact text, and the expressions that are evaluated to them.
#![tactic(auto)]

mod action;
mod action_copies;
mod copies;
mod env;
mod equality;
mod evaluation;
mod expr;
mod expr_copies;
mod fields;
pub mod laws;
mod limits;
mod names;
mod nesting;
mod operators;
mod paths;
mod size;
mod value;

pub use action::{Action, ActionItem, ActionItems, Target};
pub use action_copies::copy_action;
pub use copies::copy;
pub use env::{Env, EvalFault};
pub use equality::same;
pub use evaluation::eval;
pub use expr::{
    Arithmetic, Binary, Comparison, Connective, Division, Expr, Exprs, Parts, PathRoot, Unary,
};
pub use expr_copies::copy_expr;
pub use fields::Entries;
pub use limits::{MAX_CONTEXT_TEXT, MAX_EVENT_TEXT, MAX_NAME, MAX_NESTING, MAX_VALUE_TEXT};
pub use names::Names;
pub use nesting::depth;
pub use paths::at_path;
pub use size::{quoted_len, text_len};
pub use value::{Fields, Value, Values};
pub use xs_data::Text;
