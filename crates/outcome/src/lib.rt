// What stands at a run's two ends: the store as the table gives it, the bytes of the report, and whether the cabinet is quiet.
#![tactic(auto)]

pub mod quiet;
pub mod report;
pub mod start;
