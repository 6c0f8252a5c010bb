// The judging of a run, exported: by which number it would be refused.
ghost use Rattle.kunzeastylus.specs.Judges.{Judges};

use cabinet::judge::{Lengths, judge_run};

// 0, or the number, 1 to 12, 47 or 51, that refuses the run of a table and a schedule with buffers of these lengths.
pub fn ks_judge(
    table: &[u8],
    schedule: &[u8],
    answers: usize,
    reasons: usize,
    report: usize,
    origins: usize,
) -> u32
    ensures { Judges table.now schedule.now answers reasons report origins result }
{
    let lengths = Lengths {
        answers: answers,
        reasons: reasons,
        report: report,
        origins: origins,
    };
    match judge_run(table, schedule, lengths) {
        Ok(_) => 0,
        Err(refusal) => refusal.number() as u32,
    }
}
