// The public call: a table and a schedule in, answers, reasons, a report and origins into lent buffers, and how many records were run and whether
// the cabinet ended quiet, or what refuses the run. Document 01, "What each move replies". All state is this call's own; nothing is kept between calls.
ghost use Rattle.rules.specs.Schedule.{commands_in};
ghost use Rattle.rules.specs.Run.{buffers_of};
ghost use Rattle.cabinet.specs.Conducts.{Conducts};
ghost use Rattle.stretch.specs.Plays.{Roomy, sheets_of};
ghost use Rattle.cabinet.specs.Runs.{Runs};

use crate::judge::{Lengths, judge_run};
use numbers::runs::Refusal;
use outcome::quiet::quiescent;
use outcome::report::write_report;
use outcome::start::EMPTY;
use table::Decoded;
use undo::all::play_all;

// "An accepted run returns 0, its number of records, and whether it ended quiet." A refused one has its number alone.
#[derive(Clone, Copy)]
pub struct Ended {
    pub records: usize,
    pub quiet: bool,
}

// An accepted run: all records from the start on, the report, and whether it ended quiet.
fn conduct(
    table: &[u8],
    schedule: &[u8],
    decoded: &Decoded,
    answers: &mut [u8],
    reasons: &mut [u8],
    report: &mut [u8],
    origins: &mut [u8],
) -> bool
    requires { Roomy (commands_in schedule.now) (sheets_of answers.old reasons.old origins.old) }
    ensures { Conducts table.now schedule.now decoded.now
        (buffers_of answers.old reasons.old report.old origins.old) result
        (buffers_of answers.new reasons.new report.new origins.new) }
{
    let plan = &decoded.plan;
    let mut store = EMPTY;
    play_all(
        table,
        schedule,
        plan,
        &decoded.placements,
        &mut store,
        answers,
        reasons,
        origins,
    );
    write_report(&store, plan.counts.processes, report);
    quiescent(table, plan, &store)
}

// The run of a table and a schedule, whatever bytes they are.
pub fn run(
    table: &[u8],
    schedule: &[u8],
    answers: &mut [u8],
    reasons: &mut [u8],
    report: &mut [u8],
    origins: &mut [u8],
) -> Result<Ended, Refusal>
    ensures { Runs table.now schedule.now
        (buffers_of answers.old reasons.old report.old origins.old) result
        (buffers_of answers.new reasons.new report.new origins.new) }
{
    let lengths = Lengths {
        answers: answers.len(),
        reasons: reasons.len(),
        report: report.len(),
        origins: origins.len(),
    };
    let admitted = judge_run(table, schedule, lengths)?;
    let quiet = conduct(
        table,
        schedule,
        &admitted.decoded,
        answers,
        reasons,
        report,
        origins,
    );
    Ok(Ended {
        records: admitted.records,
        quiet: quiet,
    })
}
