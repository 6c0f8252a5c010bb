// The bench program's page (document 01, "The bench program's page"), from what a run returned and the buffers that it was lent. It goes to the
// front of `out`, and its length is returned; what is behind it stays. A page that has no room is answered with 0, and `out` stays as it was. Any
// numbers and buffers of any length will do. `write_page` is the page of any run, `write_refused` and `write_accepted` are its two kinds.
#![tactic(auto)]

ghost use Rattle.std.specs.Prelude.{◌+◌, ◌*◌, ◌<◌};
ghost use Rattle.rules.specs.Run.{ran_of};
ghost use Rattle.rules.specs.Page.{accepted_page, page_of, refused_line};
ghost use Rattle.page.specs.Put.{most, Put};
ghost use Rattle.page.specs.Written.{shown_of, Written};

mod lines;
mod read;
mod text;

use crate::lines::{put_answers, put_processes};
use crate::text::{LINE_FEED, put_number, put_text};
use words::flag;

// What an accepted run has in place of a refusal's number.
const ACCEPTED: u8 = 0;

// "A refused run prints one line, `refused`, a space and the number."
fn put_refused(out: &mut [u8], number: u8) -> usize
    ensures { Put (refused_line number) out.old 0 result out.new }
{
    let a = put_text(out, 0, b"refused ", 0);
    put_number(out, a, number as u64, LINE_FEED)
}

// The lines of an accepted run.
fn put_accepted(
    out: &mut [u8],
    records: usize,
    quiet: bool,
    answers: &[u8],
    processes: usize,
    report: &[u8],
) -> usize
    requires records_bound { 6 * records + 6 < most }
    requires processes_bound { 20 * processes + 20 < most }
    ensures { Put (accepted_page processes (ran_of 0 records quiet (shown_of answers.now report.now)))
        out.old 0 result out.new }
{
    let a = put_text(out, 0, b"records ", 0);
    let b = put_number(out, a, records as u64, LINE_FEED);
    let c = put_answers(out, b, records, answers);
    let d = put_processes(out, c, processes, report);
    let e = put_text(out, d, b"quiet ", 0);
    put_number(out, e, flag(quiet), LINE_FEED)
}

// The page of a run that is refused with this number, whichever it is.
pub fn write_refused(number: u8, out: &mut [u8]) -> usize
    ensures { Written (refused_line number) out.old result out.new }
{
    let mut none = [0u8; 1];
    let needed = put_refused(&mut none, number);
    if needed > out.len() {
        return 0;
    }
    put_refused(out, number)
}

// The page of an accepted run on a table with so many processes. A line of an answer has 8 bytes or more and one of a process 20: where that alone
// is too much, no line is made.
pub fn write_accepted(
    records: usize,
    quiet: bool,
    answers: &[u8],
    processes: usize,
    report: &[u8],
    out: &mut [u8],
) -> usize
    ensures { Written (accepted_page processes (ran_of 0 records quiet (shown_of answers.now report.now)))
        out.old result out.new }
{
    if records > out.len() / 8 {
        return 0;
    }
    if processes > out.len() / 20 {
        return 0;
    }
    let mut none = [0u8; 1];
    let needed = put_accepted(&mut none, records, quiet, answers, processes, report);
    if needed > out.len() {
        return 0;
    }
    put_accepted(out, records, quiet, answers, processes, report)
}

// The page of a run on a table with so many processes, from the numbers that the run returned and what it wrote: that of an accepted one where
// the first number is 0, else that of a refused one, whose records, quiet and buffers are no part of it.
pub fn write_page(
    number: u8,
    records: usize,
    quiet: bool,
    answers: &[u8],
    processes: usize,
    report: &[u8],
    out: &mut [u8],
) -> usize
    ensures { Written (page_of processes (ran_of number records quiet (shown_of answers.now report.now)))
        out.old result out.new }
{
    if number != ACCEPTED {
        return write_refused(number, out);
    }
    write_accepted(records, quiet, answers, processes, report, out)
}
