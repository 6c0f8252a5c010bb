// The page's lines: one of an answer, one of a process, and all of them in order.
ghost use Rattle.std.specs.Prelude.{suc, ◌+◌, ◌*◌, ◌<◌};
ghost use Rattle.rules.specs.Page.{answer_line, answer_lines, process_line, process_lines};
ghost use Rattle.rules.specs.Transparency.{read_answers};
ghost use Rattle.page.specs.Put.{most, Put, answer_at, registers_line, state_line};

use crate::read::{byte, word};
use crate::text::{LINE_FEED, SPACE, put_number, put_text};

// "one line a record (number from 1, code, a, word)", of record i from 0
fn put_answer(out: &mut [u8], at: usize, i: usize, answers: &[u8]) -> usize
    requires { 6 * i + 6 < most }
    ensures { Put (answer_line (suc i) (answer_at answers.now i)) out.old at result out.new }
{
    let from = 6 * i;
    let a = put_number(out, at, (i + 1) as u64, SPACE);
    let b = put_number(out, a, byte(answers, from), SPACE);
    let c = put_number(out, b, byte(answers, from + 1), SPACE);
    put_number(out, c, word(answers, from + 2), LINE_FEED)
}

// the lines of all answers
pub fn put_answers(out: &mut [u8], at: usize, records: usize, answers: &[u8]) -> usize
    requires { 6 * records + 6 < most }
    ensures { Put (answer_lines 1 (read_answers records answers.now)) out.old at result out.new }
{
    let mut to = at;
    for i in 0..records {
        to = put_answer(out, to, i, answers);
    }
    to
}

// a line's end: four registers
fn put_registers(out: &mut [u8], at: usize, report: &[u8], from: usize) -> usize
    requires { from + 16 < most }
    ensures { Put (registers_line report.now from) out.old at result out.new }
{
    let a = put_number(out, at, word(report, from), SPACE);
    let b = put_number(out, a, word(report, from + 4), SPACE);
    let c = put_number(out, b, word(report, from + 8), SPACE);
    put_number(out, c, word(report, from + 12), LINE_FEED)
}

// and before them "board, place, unread, hold-back"
fn put_state(out: &mut [u8], at: usize, report: &[u8], from: usize) -> usize
    requires { from + 20 < most }
    ensures { Put (state_line report.now from) out.old at result out.new }
{
    let a = put_number(out, at, byte(report, from), SPACE);
    let b = put_number(out, a, byte(report, from + 1), SPACE);
    let c = put_number(out, b, byte(report, from + 2), SPACE);
    let d = put_number(out, c, byte(report, from + 3), SPACE);
    put_registers(out, d, report, from + 4)
}

// "one line a process (`process`, its number, board, place, unread, hold-back, registers)"
fn put_process(out: &mut [u8], at: usize, p: usize, report: &[u8]) -> usize
    requires { 20 * p + 20 < most }
    ensures { Put (process_line p report.now (20 * p)) out.old at result out.new }
{
    let a = put_text(out, at, b"process ", 0);
    let b = put_number(out, a, p as u64, SPACE);
    put_state(out, b, report, 20 * p)
}

// the lines of all processes
pub fn put_processes(out: &mut [u8], at: usize, processes: usize, report: &[u8]) -> usize
    requires { 20 * processes + 20 < most }
    ensures { Put (process_lines 0 processes report.now) out.old at result out.new }
{
    let mut to = at;
    for p in 0..processes {
        to = put_process(out, to, p, report);
    }
    to
}
