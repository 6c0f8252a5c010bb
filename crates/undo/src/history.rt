// The records that are held, as those of a schedule are: six bytes each, behind three that nobody reads.
ghost use Rattle.undo.specs.History.{Fitting, Remembers};

use records::schedule::FIRST_COMMAND;

// "Of the others 64 are kept to go back to".
pub const KEPT: usize = 64;
// Most records that are held, and their bytes.
pub const HELD: usize = 2 * KEPT;

pub const HISTORY: usize = FIRST_COMMAND + 6 * HELD;

// Those of a schedule from number `from` on, before number `to`, are held behind the first n.
pub fn remember(schedule: &[u8], from: usize, to: usize, history: &mut [u8; HISTORY], n: usize)
    requires { Fitting schedule.now from to n }
    ensures { Remembers schedule.now from to history.old n history.new }
{
    // With no record to hold, the schedule may end before where its first would begin.
    if from == to {
        return;
    }
    let bytes = 6 * (to - from);
    let source = FIRST_COMMAND + 6 * from;
    let target = FIRST_COMMAND + 6 * n;
    history[target..target + bytes].copy_from_slice(&schedule[source..source + bytes]);
}
