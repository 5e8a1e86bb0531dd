//! Tables of cases for each form, each limit and each list of pairs.

mod applied;
mod choices;
mod given;
mod holders;
mod limits;
mod operators;
mod parts;
