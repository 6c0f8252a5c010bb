// The label line, exported: its table and its run (document 02, W-203).
ghost use Rattle.rules.specs.Run.{buffers_of};
ghost use Rattle.kunzeastylus.specs.Label.{MakesInto, RunsLinePacked};

use crate::run::packed_run;
use label_line::{TABLE, make_table, run_line};

// The table of a first serial, into 84 lent bytes: 0, or 46 and they are untouched.
pub fn ks_label_table(first: u32, table: &mut [u8; TABLE]) -> u32
    ensures { MakesInto first table.old result table.new }
{
    match make_table(first) {
        Ok(bytes) => {
            *table = bytes;
            0
        }
        Err(refusal) => refusal.number() as u32,
    }
}

// A schedule on the table of a first serial, with four lent buffers: as `ks_run` of that table, or 46.
pub fn ks_label_run(
    first: u32,
    schedule: &[u8],
    answers: &mut [u8],
    reasons: &mut [u8],
    report: &mut [u8],
    origins: &mut [u8],
) -> u64
    ensures { RunsLinePacked first schedule.now
        (buffers_of answers.old reasons.old report.old origins.old) result
        (buffers_of answers.new reasons.new report.new origins.new) }
{
    packed_run(run_line(first, schedule, answers, reasons, report, origins))
}
