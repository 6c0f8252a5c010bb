// Bytes where they stand: six of them as an instruction or a schedule record; a schedule judged; words stored.
#![tactic(auto)]

pub mod bytes;
pub mod fetch;
pub mod head;
pub mod schedule;
mod six;
pub mod store;
