// What a process does by itself: one instruction (move 1), and the issue of a checkpoint (move 2).
#![tactic(auto)]

mod calculate;
pub mod entry;
mod guards;
pub mod issue;
pub mod joining;
mod send;
pub mod step;
mod take;
