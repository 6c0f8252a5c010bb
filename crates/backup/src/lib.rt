// The backup record: the passive replica of a process, which holds its last checkpoint, the messages that have arrived since, and how
// many it has transmitted since. The crates above work on it in place (`place`); board programmers call it on two lent arrays, crate
// `backup_lent`, or by value, crate `backup_value`.
#![tactic(auto)]

pub mod limits;
pub mod pack;
pub mod place;
