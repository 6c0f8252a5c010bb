// The back key (W-214). A cabinet is not copied for every record: a copy some way behind, the base, and the records done since are held, and to
// take a record back the base is copied and they are done again but for the last. `all::play_all` is the call.
#![tactic(auto)]

pub mod all;
mod history;
mod replay;
mod session;
