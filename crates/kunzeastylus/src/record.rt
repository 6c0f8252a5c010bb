// The backup record, exported: the calls of crate `backup_lent`, on two lent arrays.
ghost use Rattle.std.specs.Prelude.{◌≡◌, List, ℕ};
ghost use Rattle.backup.specs.Replica.{initial, arrive as arrive_of, count as count_of, sync as sync_of};
ghost use Rattle.backup.specs.Report.{sync_report};
ghost use Rattle.numbers.specs.Backup.{number_in};
ghost use Rattle.backup_lent.specs.Lent.{view_in, fresh_lent, Answered, HandsOver, checkpoint_lent, told};

use backup::limits::LOG;
use backup_lent::{LENT, TOLD, arrive, count, new, sync, take_over};
use numbers::backup::BackupRefusal;

// The number of a refusal, and 0 for what is not refused.
fn numbered(r: Result<(), BackupRefusal>) -> u32
    ensures { result ≡ number_in r }
{
    match r {
        Ok(_) => 0,
        Err(refusal) => refusal.number() as u32,
    }
}

// The record as it starts. The saved words aren't lent: with none saved nobody reads them.
pub fn ks_backup_new(head: &mut [u32; LENT])
    ensures head_after { head.new ≡ fresh_lent }
    ensures by_index { (saved : List ℕ) → view_in saved head.new ≡ initial }
{
    new(head);
}

// A word arrives on a slot: 0, or 20, 21, 22.
pub fn ks_backup_arrive(saved: &mut [u64; LOG], head: &mut [u32; LENT], slot: u32, word: u32) -> u32
    ensures { Answered saved.old head.old saved.new head.new result (λ v. arrive_of v slot word) }
{
    numbered(arrive(saved, head, slot, word))
}

// A word of the process was carried: 0, or 20, 24.
pub fn ks_backup_count(saved: &[u64; LOG], head: &mut [u32; LENT]) -> u32
    ensures { Answered saved.now head.old saved.now head.new result count_of }
{
    numbered(count(saved, head))
}

// A sync lands: 0, or 20, 21, 23, and of each slot how many words it dropped, and then how many remain.
pub fn ks_backup_sync(
    saved: &mut [u64; LOG],
    head: &mut [u32; LENT],
    place: u32,
    registers: &[u32; 4],
    taken: &[u32; 4],
    report: &mut [u32; TOLD],
) -> u32
    ensures answered { Answered saved.old head.old saved.new head.new result
        (λ v. sync_of v (checkpoint_lent place registers.now taken.now)) }
    ensures report_after { report.new ≡ told (sync_report (view_in saved.old head.old)
        (checkpoint_lent place registers.now taken.now)) }
{
    numbered(sync(saved, head, place, registers, taken, report))
}

// The record takes over: 0, or 20. What is handed over is the head that is handed, and of the saved words as many as it says.
pub fn ks_backup_take_over(saved: &[u64; LOG], head: &[u32; LENT], handed: &mut [u32; LENT]) -> u32
    ensures { HandsOver saved.now head.now result handed.new }
{
    numbered(take_over(saved, head, handed))
}
