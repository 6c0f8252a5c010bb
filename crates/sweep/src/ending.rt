// How one run ends: "how many of these runs end quiet, how many end unquiet with some hold-back left, and how many end unquiet with none".
ghost use Rattle.std.specs.Prelude.{◌≡◌, ◌≤◌, ◌<◌};
ghost use Rattle.rules.specs.Sizes.{processes_most};
ghost use Rattle.rules.specs.Schedule.{commands_in, decode_schedule};
ghost use Rattle.rules.specs.Format.{decode_table};
ghost use Rattle.rules.specs.Sweep.{ending_at};
ghost use Rattle.sweep.specs.Counted.{some_held_in, count_one, Counted, Ends, Admitted};

use crate::judge::SWEEP_MOST;
use crate::pulled::{PULLED, put_in};
use crate::tally::Tally;
use cabinet::run::run;
use plan::{Counts, PROCESSES};
use words::most;

// Buffers for a run with the crash: six bytes, one and two for each record, twenty for each process.
const ANSWERS: usize = 6 * (SWEEP_MOST + 1);

const REASONS: usize = SWEEP_MOST + 1;

const ORIGINS: usize = 2 * (SWEEP_MOST + 1);

const LINE: usize = 20;

const REPORT: usize = LINE * PROCESSES;

// Where a line of the report has the hold-back.
const HOLD_BACK: usize = 3;

// Whether one of so many processes has hold-back left.
fn some_held(report: &[u8; REPORT], processes: usize) -> bool
    ensures { processes ≤ processes_most → result ≡ some_held_in report.now processes }
{
    let n = most::<PROCESSES>(processes);
    for p in 0..n {
        if report[LINE * p + HOLD_BACK] != 0 {
            return true;
        }
    }
    false
}

// The ending of a schedule's run, counted: 1 for it, and 0 for the other two.
fn ending(table: &[u8], schedule: &[u8], processes: usize) -> Tally
    ensures { Ends table.now schedule.now processes result }
{
    let mut answers = [0u8; ANSWERS];
    let mut reasons = [0u8; REASONS];
    let mut report = [0u8; REPORT];
    let mut origins = [0u8; ORIGINS];
    let ended = run(
        table,
        schedule,
        &mut answers,
        &mut reasons,
        &mut report,
        &mut origins,
    );
    // None of a sweep's runs is refused.
    let quiet = match ended {
        Ok(e) => e.quiet,
        Err(_) => false,
    };
    if quiet {
        return Tally {
            quiet: 1,
            held: 0,
            free: 0,
        };
    }
    if some_held(&report, processes) {
        return Tally {
            quiet: 0,
            held: 1,
            free: 0,
        };
    }
    Tally {
        quiet: 0,
        held: 0,
        free: 1,
    }
}

// The ending of the run with the crash of a board at a place.
pub fn pull(table: &[u8], schedule: &[u8], counts: Counts, place: usize, board: usize) -> Tally
    requires admitted { Admitted table.now schedule.now counts }
    requires place_bound { place ≤ commands_in schedule.now }
    requires board_bound { board < 16 }
    ensures { Counted (count_one (ending_at (decode_table table.now) (decode_schedule schedule.now) place board)) result }
{
    let mut pulled = [0u8; PULLED];
    put_in(schedule, place, board as u8, &mut pulled);
    let n = schedule.len() + 6;
    ending(table, &pulled[..n], counts.processes)
}
