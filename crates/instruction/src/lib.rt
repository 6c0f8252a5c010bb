// One instruction of crate `process`'s process: what it would do, looked at before anything is changed, and what it does to the process. The
// crates above put the step, and the end's quiet, together of these calls.
#![tactic(auto)]

pub mod instruction;
mod mailbox;
