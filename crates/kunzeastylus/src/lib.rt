// The calls that programs in other languages make, each on lent bytes or numbers: every one's name begins with `ks_`. Crate `kunzeastylus_c`
// exports them, since a crate is a library or a static library; include/kunzeastylus.h declares them for C, bindings/ for Rust.
#![tactic(auto)]

pub mod abi;
pub mod judge;
pub mod label;
pub mod record;
pub mod run;
pub mod swept;
pub mod tables;
pub mod viewed;
