// The whole run: a table and a schedule in, answers and a report out. `run::run` is the public call; `judge::judge_run` says by which number
// it refuses.
#![tactic(auto)]

pub mod judge;
pub mod run;
