// The report in bytes: "board, place, unread count and hold-back, a byte each, then four registers."
ghost use Rattle.std.specs.Prelude.{◌≡◌, ◌+◌, ◌≤◌, length};
ghost use Rattle.std.proofs.lemmas.List.Edits.{sets};
ghost use Rattle.outcome.specs.Reports.{four_bytes, LinePut, Reports};

use plan::PROCESSES;
use process::process::Process;
use records::store::put_word;
use state::store::Store;
use words::{low_byte, most};

// A line's first four bytes.
fn put_head(x: &Process, report: &mut [u8], at: usize)
    requires { at + 4 ≤ length report.old }
    ensures { report.new ≡ sets report.old at (four_bytes x.now) }
{
    report[at] = low_byte(x.board);
    report[at + 1] = low_byte(x.pc);
    report[at + 2] = low_byte(x.unread);
    report[at + 3] = low_byte(x.suppress);
}

// The p-th line, of 20 bytes; a buffer that has no room for it stays as it is.
fn put_line(x: &Process, report: &mut [u8], p: usize)
    ensures { LinePut x.now report.old p report.new }
{
    if p >= report.len() / 20 {
        return;
    }
    let at = 20 * p;
    put_head(x, report, at);
    put_word(report, at + 4, x.registers[0]);
    put_word(report, at + 8, x.registers[1]);
    put_word(report, at + 12, x.registers[2]);
    put_word(report, at + 16, x.registers[3]);
}

// A line for each process. Bytes beyond stay.
pub fn write_report(store: &Store, processes: usize, report: &mut [u8])
    ensures { Reports store.now processes report.old report.new }
{
    let n = most::<PROCESSES>(processes);
    for p in 0..n {
        put_line(&store.processes[p], report, p);
    }
}
