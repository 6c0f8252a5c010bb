// The page of what was read: "The program reads the table (as long as its length bytes say) and then, up to the end of input, the schedule
// from standard input. Input that ends early is run as it is."
ghost use Rattle.cabinet.specs.Runs.{ran_by};
ghost use Rattle.page.specs.Written.{shown_of};
ghost use Rattle.bench_input.specs.Benched.{Benched};
ghost use Rattle.bench_input.specs.Parts.{Printed, RunPrinted};

use crate::bytes::length_field;
use cabinet::run::{Ended, run};
use numbers::runs::Refusal;
use page::write_page;
use plan::PROCESSES as PROCESSES_MOST;
use records::bytes::byte;
use records::schedule::COMMANDS_MOST;
use table::format::PROCESSES_AT;
use words::{byte_wide, least};

// Buffers for the longest schedule and the most processes: six bytes, one and two for each record, twenty for each process.
const ANSWERS: usize = 6 * COMMANDS_MOST;

const REPORT: usize = 20 * PROCESSES_MOST;

const ORIGINS: usize = 2 * COMMANDS_MOST;

// No page is longer (`page_room`): its first line, one for each record, one for each process, and its last.
pub const PAGE_ROOM: usize = 14 + 25 * COMMANDS_MOST + 71 * PROCESSES_MOST + 8;

// What a run returned and wrote, as a page.
fn print(
    ended: Result<Ended, Refusal>,
    answers: &[u8],
    processes: usize,
    report: &[u8],
    out: &mut [u8],
) -> usize
    ensures { Printed processes (ran_by ended (shown_of answers.now report.now)) out.old result out.new }
{
    match ended {
        Ok(e) => write_page(0, e.records, e.quiet, answers, processes, report, out),
        Err(refusal) => write_page(refusal.number(), 0, false, answers, processes, report, out),
    }
}

// A run with buffers of these lengths, and its page.
fn run_page(table: &[u8], schedule: &[u8], out: &mut [u8]) -> usize
    ensures { RunPrinted table.now schedule.now out.old result out.new }
{
    let mut answers = [0u8; ANSWERS];
    let mut reasons = [0u8; COMMANDS_MOST];
    let mut report = [0u8; REPORT];
    let mut origins = [0u8; ORIGINS];
    let ended = run(
        table,
        schedule,
        &mut answers,
        &mut reasons,
        &mut report,
        &mut origins,
    );
    let processes = byte_wide(byte(table, PROCESSES_AT));
    print(ended, &answers, processes, &report, out)
}

// The input is cut where its length bytes say that the table ends.
pub fn bench(input: &[u8], out: &mut [u8]) -> usize
    ensures { Benched input.now out.old result out.new }
{
    let n = least(2 + length_field(input), input.len());
    run_page(&input[..n], &input[n..], out)
}
