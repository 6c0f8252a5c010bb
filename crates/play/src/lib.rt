// A schedule's records, one after the other: each judged, its move made, and its answer written. `play::play` is the call.
#![tactic(auto)]

pub mod play;
