// The writer of tables (document 02, W-201): lists of numbers become a table's bytes. Crate `apart` makes them lists again.
#![tactic(auto)]

mod lay;
mod lists;
pub mod write;
