// The bench program without its reading and writing (document 01, "The bench program's page"): how much of standard input it wants, and the
// page for what it has read.
#![tactic(auto)]

pub mod bench;
mod bytes;
pub mod wanted;
