// The calls that programs in other languages make: one library to link, libkunzeastylus.a. Each is the call of crate `kunzeastylus` that has its
// name, with that one's clauses again. Every exported name begins with `ks_`, and no other crate exports any; include/kunzeastylus.h declares them
// for C, bindings/ for Rust.
#![tactic(auto)]

ghost use Rattle.std.specs.Prelude.{◌≡◌, List, ℕ};
ghost use Rattle.kunzeastylus.specs.Abi.{abi};
ghost use Rattle.kunzeastylus.specs.Judges.{Judges};
ghost use Rattle.rules.specs.Run.{buffers_of};
ghost use Rattle.kunzeastylus.specs.Label.{MakesInto, RunsLinePacked};
ghost use Rattle.backup.specs.Replica.{initial, arrive as arrive_of, count as count_of, sync as sync_of};
ghost use Rattle.backup.specs.Report.{sync_report};
ghost use Rattle.backup_lent.specs.Lent.{view_in, fresh_lent, Answered, HandsOver, checkpoint_lent, told};
ghost use Rattle.kunzeastylus.specs.Packed.{RunsPacked};
ghost use Rattle.kunzeastylus.specs.Sweep.{SweepsPacked};
ghost use Rattle.writer.specs.Given.{given};
ghost use Rattle.apart.specs.Taken.{lent};
ghost use Rattle.kunzeastylus.specs.Tables.{WritesPacked, TakesPacked};
ghost use Rattle.view.specs.Views.{Views};

use backup::limits::LOG;
use backup_lent::{LENT, TOLD};
use label_line::TABLE;

// The number of the exported calls' shape. A caller that was built for another one would link, and write where it must not: so it asks first.
#[unsafe(no_mangle)]
pub extern "C" fn ks_abi() -> u32
    ensures { result ≡ abi }
{
    kunzeastylus::abi::ks_abi()
}

// 0, or the number, 1 to 12, 47 or 51, that refuses the run of a table and a schedule with buffers of these lengths.
#[unsafe(no_mangle)]
pub extern "C" fn ks_judge(
    table: &[u8],
    schedule: &[u8],
    answers: usize,
    reasons: usize,
    report: usize,
    origins: usize,
) -> u32
    ensures { Judges table.now schedule.now answers reasons report origins result }
{
    kunzeastylus::judge::ks_judge(table, schedule, answers, reasons, report, origins)
}

// The table of a first serial, into 84 lent bytes: 0, or 46 and they are untouched.
#[unsafe(no_mangle)]
pub extern "C" fn ks_label_table(first: u32, table: &mut [u8; TABLE]) -> u32
    ensures { MakesInto first table.old result table.new }
{
    kunzeastylus::label::ks_label_table(first, table)
}

// A schedule on the table of a first serial, with four lent buffers: as `ks_run` of that table, or 46.
#[unsafe(no_mangle)]
pub extern "C" fn ks_label_run(
    first: u32,
    schedule: &[u8],
    answers: &mut [u8],
    reasons: &mut [u8],
    report: &mut [u8],
    origins: &mut [u8],
) -> u64
    ensures { RunsLinePacked first schedule.now
        (buffers_of answers.old reasons.old report.old origins.old) result
        (buffers_of answers.new reasons.new report.new origins.new) }
{
    kunzeastylus::label::ks_label_run(first, schedule, answers, reasons, report, origins)
}

// The record as it starts. The saved words aren't lent: with none saved nobody reads them.
#[unsafe(no_mangle)]
pub extern "C" fn ks_backup_new(head: &mut [u32; LENT])
    ensures head_after { head.new ≡ fresh_lent }
    ensures by_index { (saved : List ℕ) → view_in saved head.new ≡ initial }
{
    kunzeastylus::record::ks_backup_new(head);
}

// A word arrives on a slot: 0, or 20, 21, 22.
#[unsafe(no_mangle)]
pub extern "C" fn ks_backup_arrive(
    saved: &mut [u64; LOG],
    head: &mut [u32; LENT],
    slot: u32,
    word: u32,
) -> u32
    ensures { Answered saved.old head.old saved.new head.new result (λ v. arrive_of v slot word) }
{
    kunzeastylus::record::ks_backup_arrive(saved, head, slot, word)
}

// A word of the process was carried: 0, or 20, 24.
#[unsafe(no_mangle)]
pub extern "C" fn ks_backup_count(saved: &[u64; LOG], head: &mut [u32; LENT]) -> u32
    ensures { Answered saved.now head.old saved.now head.new result count_of }
{
    kunzeastylus::record::ks_backup_count(saved, head)
}

// A sync lands: 0, or 20, 21, 23, and of each slot how many words it dropped, and then how many remain.
#[unsafe(no_mangle)]
pub extern "C" fn ks_backup_sync(
    saved: &mut [u64; LOG],
    head: &mut [u32; LENT],
    place: u32,
    registers: &[u32; 4],
    taken: &[u32; 4],
    report: &mut [u32; TOLD],
) -> u32
    ensures answered { Answered saved.old head.old saved.new head.new result
        (λ v. sync_of v (checkpoint_lent place registers.now taken.now)) }
    ensures report_after { report.new ≡ told (sync_report (view_in saved.old head.old)
        (checkpoint_lent place registers.now taken.now)) }
{
    kunzeastylus::record::ks_backup_sync(saved, head, place, registers, taken, report)
}

// The record takes over: 0, or 20. What is handed over is the head that is handed, and of the saved words as many as it says.
#[unsafe(no_mangle)]
pub extern "C" fn ks_backup_take_over(
    saved: &[u64; LOG],
    head: &[u32; LENT],
    handed: &mut [u32; LENT],
) -> u32
    ensures { HandsOver saved.now head.now result handed.new }
{
    kunzeastylus::record::ks_backup_take_over(saved, head, handed)
}

// The run of a table and a schedule, whatever bytes they are, with four lent buffers.
#[unsafe(no_mangle)]
pub extern "C" fn ks_run(
    table: &[u8],
    schedule: &[u8],
    answers: &mut [u8],
    reasons: &mut [u8],
    report: &mut [u8],
    origins: &mut [u8],
) -> u64
    ensures { RunsPacked table.now schedule.now
        (buffers_of answers.old reasons.old report.old origins.old) result
        (buffers_of answers.new reasons.new report.new origins.new) }
{
    kunzeastylus::run::ks_run(table, schedule, answers, reasons, report, origins)
}

// The sweep of a table and a schedule, whatever bytes they are.
#[unsafe(no_mangle)]
pub extern "C" fn ks_sweep(table: &[u8], schedule: &[u8]) -> u64
    ensures { SweepsPacked table.now schedule.now result }
{
    kunzeastylus::swept::ks_sweep(table, schedule)
}

// The table that lists say, to the front of a lent buffer.
#[unsafe(no_mangle)]
pub extern "C" fn ks_table_write(
    version: u32,
    boards: u32,
    processes: u32,
    channels: u32,
    ends: &[u32],
    placements: &[u32],
    limits: &[u32],
    instructions: &[u32],
    out: &mut [u8],
) -> u64
    ensures { WritesPacked (given (record { version = version; boards = boards; processes = processes; channels = channels })
        ends.now placements.now limits.now instructions.now) out.old result out.new }
{
    kunzeastylus::tables::ks_table_write(
        version,
        boards,
        processes,
        channels,
        ends,
        placements,
        limits,
        instructions,
        out,
    )
}

// The lists of a table, to the fronts of four lent ones.
#[unsafe(no_mangle)]
pub extern "C" fn ks_table_apart(
    table: &[u8],
    ends: &mut [u32],
    placements: &mut [u32],
    limits: &mut [u32],
    instructions: &mut [u32],
) -> u64
    ensures { TakesPacked table.now
        (lent ends.old placements.old limits.old instructions.old) result
        (lent ends.new placements.new limits.new instructions.new) }
{
    kunzeastylus::tables::ks_table_apart(table, ends, placements, limits, instructions)
}

// The view of a table and a schedule, whatever bytes they are, to the front of a lent list: 0, or the number that refuses it, 1 to 10, 47 or 54.
#[unsafe(no_mangle)]
pub extern "C" fn ks_view(table: &[u8], schedule: &[u8], out: &mut [u32]) -> u32
    ensures { Views table.now schedule.now out.old result out.new }
{
    kunzeastylus::viewed::ks_view(table, schedule, out)
}
