//! The outside in memory: streams, a disk and a station whose calls fail where a list names them.

mod buffers;
pub mod crash;
pub mod disk;
mod disk_history;
mod history;
mod schedule;
pub mod station;
pub mod streams;
