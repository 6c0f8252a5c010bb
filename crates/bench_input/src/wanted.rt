// How many bytes of standard input the program wants.
ghost use Rattle.bench_input.specs.Wanted.{Wanted};

use crate::bytes::length_field;
use records::schedule::SCHEDULE_MOST;
use table::format::TABLE_MOST;

// One byte more than the longest schedule has, so that endless input gets its page too.
const SCHEDULE_READ: usize = SCHEDULE_MOST + 1;

// The longest table, and so much of a schedule (`input_room`).
pub const INPUT_ROOM: usize = 2 + TABLE_MOST + SCHEDULE_READ;

// How many bytes are wanted in all, once these are there: the two that tell a table's length, then the table and the schedule.
pub fn wanted(have: &[u8]) -> usize
    ensures { Wanted have.now result }
{
    if have.len() < 2 {
        return 2;
    }
    let field = length_field(have);
    // "A table length over 6,260 prints `refused 1` and reads no further", 6,276 since W-207.
    if field > TABLE_MOST {
        return 2;
    }
    2 + field + SCHEDULE_READ
}
