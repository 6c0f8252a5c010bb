// The cabinet as the moves are lent it, and one flat array of entries: its processes, its boards' queues, its channels' totals, an entry, and what
// a move answers.
#![tactic(auto)]

pub mod channel;
pub mod entry;
pub mod moved;
pub mod queue;
pub mod store;
