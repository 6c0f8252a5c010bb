// One process of the cabinet as the code has it, `process::Process`: boards, place, registers and counters, its mailbox, and its backup's log
// and head. Its methods are the parts of the moves that concern one process alone; the crates above put moves together of them.
#![tactic(auto)]

pub mod checkpoint;
pub mod crash;
pub mod delivery;
pub mod mail;
mod mailbox;
pub mod process;
mod promotion;
pub mod transfer;
