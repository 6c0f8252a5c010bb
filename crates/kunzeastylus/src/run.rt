// The run, exported: its three numbers in one, since an exported call returns one.
ghost use Rattle.std.specs.Prelude.{◌≡◌, ◌≤◌, ◌<◌, IfOk};
ghost use Rattle.numbers.specs.Runs.{number_in};
ghost use Rattle.rules.specs.Schedule.{commands_most};
ghost use Rattle.rules.specs.Run.{buffers_of};
ghost use Rattle.kunzeastylus.specs.Packed.{verdict_of, packed_of, RunsPacked};

use cabinet::run::{Ended, run};
use numbers::runs::Refusal;
use words::flag;

// "An accepted run returns 0, its number of records, and whether it ended quiet." A refused one its number, 0 and false.
#[derive(Clone, Copy)]
pub struct Verdict {
    pub number: u8,
    pub records: usize,
    pub quiet: bool,
}

// Of what a run returned.
fn told(r: Result<Ended, Refusal>) -> Verdict
    ensures { result ≡ verdict_of r }
{
    match r {
        Ok(e) => Verdict {
            number: 0,
            records: e.records,
            quiet: e.quiet,
        },
        Err(refusal) => Verdict {
            number: refusal.number(),
            records: 0,
            quiet: false,
        },
    }
}

// number + 256 quiet + 2^32 records
pub fn packed(r: Verdict) -> u64
    requires { r.records ≤ commands_most }
    ensures { (result ≡ packed_of r) × (r.number < 256) }
{
    let records = r.records as u64;
    (r.number as u64) + 256 * flag(r.quiet) + 4294967296 * records
}

// What a run returned, in one number.
pub fn packed_run(r: Result<Ended, Refusal>) -> u64
    requires { IfOk r (λ e. e.records ≤ commands_most) }
    ensures { (result ≡ packed_of (verdict_of r)) × (number_in r < 256) }
{
    packed(told(r))
}

// The run of a table and a schedule, whatever bytes they are, with four lent buffers.
pub fn ks_run(
    table: &[u8],
    schedule: &[u8],
    answers: &mut [u8],
    reasons: &mut [u8],
    report: &mut [u8],
    origins: &mut [u8],
) -> u64
    ensures { RunsPacked table.now schedule.now
        (buffers_of answers.old reasons.old report.old origins.old) result
        (buffers_of answers.new reasons.new report.new origins.new) }
{
    packed_run(run(table, schedule, answers, reasons, report, origins))
}
