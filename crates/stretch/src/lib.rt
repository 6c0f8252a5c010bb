// A stretch of a schedule's records, but for the loop over them: which they are, how an answer is written, the records that are no step, no sync
// and no carry as one call, and what records one after the other come to (`Plays`).
#![tactic(auto)]

pub mod answer;
pub mod mend;
pub mod others;
pub mod stretch;
