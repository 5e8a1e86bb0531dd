//! The actors of an office in memory: mailboxes and lifetimes. A change is prepared, which can be refused for want of
//! memory alone, and then applied, which can't.
#![tactic(auto)]

mod actor;
mod actors;
mod ahead;
mod asks;
mod books;
mod conclusion;
mod counts;
mod effects;
mod ended;
mod ending;
mod events;
mod following;
mod forest;
mod heads;
mod held;
mod kids;
pub mod laws;
mod making_room;
mod newcomers;
mod notes;
mod part;
mod records;
mod restore;
mod room;
mod step_parts;
mod tally;
mod tournament;
mod unfit;

pub use asks::AskRefused;
pub use forest::{Change, Forest};
