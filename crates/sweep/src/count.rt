// The endings counted: over the boards at one place, and over all places.
ghost use Rattle.std.specs.Prelude.{◌≡◌, suc, ◌≤◌};
ghost use Rattle.rules.specs.Schedule.{commands_in, decode_schedule};
ghost use Rattle.rules.specs.Format.{decode_table};
ghost use Rattle.sweep.specs.Counted.{count_boards, count_places, Counted, Admitted};

use crate::ending::pull;
use crate::tally::Tally;
use plan::Counts;

// "for each of the B boards": the runs with the crash at one place.
fn count_place(table: &[u8], schedule: &[u8], counts: Counts, place: usize) -> Tally
    requires admitted { Admitted table.now schedule.now counts }
    requires place_bound { place ≤ commands_in schedule.now }
    ensures { Counted (count_boards (decode_table table.now) (decode_schedule schedule.now) place
        (decode_table table.now).boards) result }
{
    let boards = counts.boards;
    let mut quiet = 0;
    let mut held = 0;
    let mut free = 0;
    for b in 0..boards {
        let e = pull(table, schedule, counts, place, b);
        quiet += e.quiet;
        held += e.held;
        free += e.free;
    }
    Tally { quiet, held, free }
}

// "at each of the n + 1 places of a schedule of n records": all runs.
pub fn count_all(table: &[u8], schedule: &[u8], counts: Counts, records: usize) -> Tally
    requires admitted { Admitted table.now schedule.now counts }
    requires records_value { records ≡ commands_in schedule.now }
    ensures { Counted (count_places (decode_table table.now) (decode_schedule schedule.now) (suc records)) result }
{
    let mut quiet = 0;
    let mut held = 0;
    let mut free = 0;
    for place in 0..records + 1 {
        let e = count_place(table, schedule, counts, place);
        quiet += e.quiet;
        held += e.held;
        free += e.free;
    }
    Tally { quiet, held, free }
}
