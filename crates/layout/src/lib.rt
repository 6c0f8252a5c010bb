// A cabinet as numbers in a fixed layout (docs/FORMATS.md, "View").
#![tactic(auto)]

pub mod all;
mod boards;
mod lay;
mod processes;
