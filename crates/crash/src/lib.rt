// A board crashes (move 5).
#![tactic(auto)]

pub mod crash;
mod losses;
mod processes;
mod recount;
