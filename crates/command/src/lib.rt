// One record of a schedule, judged before its move is made.
#![tactic(auto)]

pub mod due;
mod judge;
