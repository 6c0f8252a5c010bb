// Every number that comes back, as a case of an enum that has the header's name for it (`include/kunzeastylus.h`: KS_TABLE_LENGTH is
// `TableLength`). In code each stands here and nowhere else; when it is given the definitions say (`Moves.numbers` and the judging of rules/specs), and docs/NUMBERS.md what to do about it.
#![tactic(auto)]

pub mod answers;
pub mod backup;
pub mod runs;
