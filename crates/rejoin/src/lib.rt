// A repaired board comes back (move 6), and a process gets a new backup (move 7).
#![tactic(auto)]

pub mod rebackup;
pub mod rejoin;
