// Whether a run is refused, and by which number, before any of it is made.
ghost use Rattle.std.specs.Prelude.{◌≡◌};
ghost use Rattle.numbers.specs.Runs.{number_in};
ghost use Rattle.cabinet.specs.Judged.{judged_buffers, judged_run, RunJudged};

use numbers::runs::Refusal;
use records::schedule::judge_schedule;
use table::{Decoded, decode};

// How long the lent buffers are.
#[derive(Clone, Copy)]
pub struct Lengths {
    pub answers: usize,
    pub reasons: usize,
    pub report: usize,
    pub origins: usize,
}

// A schedule that was judged: 0 and how many records it has, or the number that refuses it.
#[derive(Clone, Copy)]
pub struct Judged {
    pub number: u8,
    pub records: usize,
}

// A run that is not refused: what its table says, and how many records its schedule has.
#[derive(Clone, Copy)]
pub struct Admitted {
    pub decoded: Decoded,
    pub records: usize,
}

// The buffers, for so many records and processes: "11 answer buffer under six bytes a record; 12 report buffer under 20 bytes a process"; W-206: 11
// also for a buffer of reasons under one byte a record; W-212: "51, that buffer is under two bytes a record, after 12". Public for a caller that has
// these numbers and not the bytes, whether it has judged a table and a schedule itself or has yet to make them; any numbers will do.
pub fn judge_buffers(records: usize, processes: usize, lengths: Lengths) -> Result<(), Refusal>
    ensures { number_in result ≡ judged_buffers records processes lengths }
{
    let Lengths {
        answers,
        reasons,
        report,
        origins,
    } = lengths;
    if answers / 6 < records {
        return Err(Refusal::AnswersShort);
    }
    if reasons < records {
        return Err(Refusal::AnswersShort);
    }
    if report / 20 < processes {
        return Err(Refusal::ReportShort);
    }
    if origins / 2 < records {
        return Err(Refusal::OriginsShort);
    }
    Ok(())
}

// 0, or the number that refuses a run, lowest first: the table's that is given, the schedule's, and those of the buffers. Public for a caller that
// has judged a table and a schedule itself; any numbers will do.
pub fn judge_numbers(table_number: u8, processes: usize, schedule: Judged, lengths: Lengths) -> u8
    ensures { result ≡ judged_run table_number processes schedule lengths }
{
    if table_number != 0 {
        return table_number;
    }
    if schedule.number != 0 {
        return schedule.number;
    }
    match judge_buffers(schedule.records, processes, lengths) {
        Ok(()) => 0,
        Err(refusal) => refusal.number(),
    }
}

// The run of a table and a schedule with buffers of these lengths, lowest number first: those of the table, those of the schedule, those of the
// buffers.
pub fn judge_run(table: &[u8], schedule: &[u8], lengths: Lengths) -> Result<Admitted, Refusal>
    ensures { RunJudged table.now schedule.now lengths result }
{
    let decoded = decode(table)?;
    let records = judge_schedule(schedule)?;
    judge_buffers(records, decoded.plan.counts.processes, lengths)?;
    Ok(Admitted {
        decoded: decoded,
        records: records,
    })
}
