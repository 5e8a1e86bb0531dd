//! Values.

use crate::fields::Entries;
use xs_data::{Items, Text};

/// What an actor's context, an event and a reply are made of: JSON with whole numbers of 64 bits.
#[derive(Debug, Drop)]
pub enum Value {
    Null,
    Bool(bool),
    Int(i64),
    Text(Text),
    List(Values),
    Map(Fields),
}

/// The members of a list.
pub type Values = Items<Value>;

/// The members of a map.
pub type Fields = Entries<Value>;
