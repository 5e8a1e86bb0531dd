//! What no clause says: given bytes, the names of damage, counts of calls, and scripts over crashes.

mod counts;
mod crashes;
mod damage;
mod given;
mod kit;
mod script;
