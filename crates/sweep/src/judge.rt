// Whether a sweep is refused: by the numbers of the table and of the schedule, as a run is, then by "52, the schedule has a record of move 5,
// whatever its a and word, or over 500 records"; W-214: "refuses schedules with move 8 by 52".
ghost use Rattle.std.specs.Prelude.{◌≡◌};
ghost use Rattle.rules.specs.Schedule.{commands_in, decode_schedule};
ghost use Rattle.rules.specs.Sweep.{any_barred};
ghost use Rattle.sweep.specs.Judged.{SweepJudged};

use numbers::runs::Refusal;
use plan::Counts;
use records::schedule::{UNDO, command_at, judge_schedule};
use table::decode;

// Records that a swept schedule has at most.
pub const SWEEP_MOST: usize = 500;

// The crash's move.
pub const CRASH: u8 = 5;

// A sweep that is not refused: the table's counts, and how many records the schedule has.
#[derive(Clone, Copy)]
pub struct Sweepable {
    pub counts: Counts,
    pub records: usize,
}

// Whether one of a schedule's records may not be swept: one of move 5 or 8.
fn any_barred(schedule: &[u8], records: usize) -> bool
    ensures { records ≡ commands_in schedule.now → result ≡ any_barred (decode_schedule schedule.now) }
{
    for i in 0..records {
        let c = command_at(schedule, i);
        if c.mv == CRASH {
            return true;
        }
        if c.mv == UNDO {
            return true;
        }
    }
    false
}

pub fn judge_sweep(table: &[u8], schedule: &[u8]) -> Result<Sweepable, Refusal>
    ensures { SweepJudged table.now schedule.now result }
{
    let decoded = decode(table)?;
    let records = judge_schedule(schedule)?;
    if records > SWEEP_MOST {
        return Err(Refusal::Unswept);
    }
    if any_barred(schedule, records) {
        return Err(Refusal::Unswept);
    }
    Ok(Sweepable {
        counts: decoded.plan.counts,
        records: records,
    })
}
