// The backup record on lent numbers, for board programmers: two arrays, the saved words and a head of seven numbers, each call in place.
// Crate kunzeastylus exports them. A call looks through the saved words once, which tells 20 and counts the words on each port, and then is
// the call in place of crate `backup`. Nothing is copied but the head.
#![tactic(auto)]

ghost use Rattle.std.specs.Prelude.{◌≡◌, List, ℕ, ◌≤◌};
ghost use Rattle.numbers.specs.Backup.{number_in};
ghost use Rattle.backup.specs.Limits.{log_most};
ghost use Rattle.backup.specs.Replica.{initial, arrive as arrive_of, count as count_of, sync as sync_of};
ghost use Rattle.backup.specs.Report.{sync_report};
ghost use Rattle.backup.specs.Rounds.{OnePass};
ghost use Rattle.backup_lent.specs.Lent.{view_in, fresh_lent, Answered, HandsOver, checkpoint_lent, told, rounds_in};
ghost use Rattle.backup_lent.specs.Steps.{Census, within_in, whole_of, lent_front, Looks};

use backup::limits::{LOG, PC_MOST, PORTS, SENT_MOST};
use backup::pack::port_of;
use backup::place::{Checkpoint, Head, arrive_in, count_in, metered_sync_in};
use numbers::backup::BackupRefusal;
use words::wide;

// How many numbers a lent head has, and where: how many words are saved, count, place, four registers.
pub const LENT: usize = 7;

pub const LEN: usize = 0;

pub const SENT: usize = 1;

pub const PC: usize = 2;

pub const R0: usize = 3;

pub const R1: usize = 4;

pub const R2: usize = 5;

pub const R3: usize = 6;

// What a sync tells: for each port how many words were dropped, and then for each how many remain.
pub const TOLD: usize = 8;

// Looks through the first len saved words, once: how many are on each port, if each is on one.
fn census(saved: &[u64; LOG], len: usize) -> Option<[u32; 4]>
    requires { len ≤ log_most }
    ensures { Census saved.now len result }
{
    let mut n = [0; 4];
    for i in 0..len {
        let port = port_of(saved[i]);
        if port >= PORTS {
            return None;
        }
        n[wide(port)] += 1;
    }
    Some(n)
}

// Whether a head says no more words than there is room for, and count and place are in range.
#[tactic(auto, using(std::proofs::lemmas::Bool::Decides::nat_tests))]
fn within(head: &[u32; LENT]) -> bool
    ensures { result ≡ within_in head.now }
{
    if wide(head[LEN]) > LOG {
        return false;
    }
    if head[SENT] > SENT_MOST {
        return false;
    }
    head[PC] <= PC_MOST
}

// A lent head as one for the calls in place, with how many words are on each port.
fn whole(head: &[u32; LENT], saved: [u32; 4]) -> Head
    ensures { result ≡ whole_of head.now saved }
{
    Head {
        len: head[LEN],
        sent: head[SENT],
        pc: head[PC],
        r0: head[R0],
        r1: head[R1],
        r2: head[R2],
        r3: head[R3],
        saved: saved,
    }
}

// What a call in place left of it, as a lent head.
fn front(head: Head) -> [u32; LENT]
    ensures { result ≡ lent_front head }
{
    [
        head.len, head.sent, head.pc, head.r0, head.r1, head.r2, head.r3,
    ]
}

// Document 01's 20, or the head with its tallies.
fn look(saved: &[u64; LOG], head: &[u32; LENT]) -> Result<Head, BackupRefusal>
    ensures { Looks saved.now head.now result }
{
    if !within(head) {
        return Err(BackupRefusal::Unfit);
    }
    match census(saved, wide(head[LEN])) {
        Some(n) => Ok(whole(head, n)),
        None => Err(BackupRefusal::Unfit),
    }
}

// A record as it starts: no words, and the rest 0. What lies in the saved words' array doesn't matter.
pub fn new(head: &mut [u32; LENT])
    ensures head_after { head.new ≡ fresh_lent }
    ensures by_index { (saved : List ℕ) → view_in saved head.new ≡ initial }
{
    *head = [0; LENT];
}

// A word arrives on a port; refused: 20, 21, 22.
pub fn arrive(
    saved: &mut [u64; LOG],
    head: &mut [u32; LENT],
    port: u32,
    word: u32,
) -> Result<(), BackupRefusal>
    ensures { Answered saved.old head.old saved.new head.new (number_in result) (λ v. arrive_of v port word) }
{
    let mut whole = look(saved, head)?;
    arrive_in(saved, &mut whole, port, word)?;
    *head = front(whole);
    Ok(())
}

// A word of the process was carried; refused: 20, 24.
pub fn count(saved: &[u64; LOG], head: &mut [u32; LENT]) -> Result<(), BackupRefusal>
    ensures { Answered saved.now head.old saved.now head.new (number_in result) count_of }
{
    let mut whole = look(saved, head)?;
    count_in(&mut whole)?;
    *head = front(whole);
    Ok(())
}

// A sync lands, and says the rounds of all its loops; refused: 20, 21, 23. The look through the words that tells 20 is not among the rounds.
pub fn metered_sync(
    saved: &mut [u64; LOG],
    head: &mut [u32; LENT],
    place: u32,
    registers: &[u32; 4],
    taken: &[u32; 4],
    report: &mut [u32; TOLD],
) -> Result<usize, BackupRefusal>
    ensures answered { Answered saved.old head.old saved.new head.new (number_in result)
        (λ v. sync_of v (checkpoint_lent place registers.now taken.now)) }
    ensures report_after { report.new ≡ told (sync_report (view_in saved.old head.old)
        (checkpoint_lent place registers.now taken.now)) }
    ensures one_pass { OnePass (view_in saved.old head.old)
        (checkpoint_lent place registers.now taken.now) (number_in result) (rounds_in result) }
{
    *report = [0; TOLD];
    let mut whole = look(saved, head)?;
    let c = Checkpoint {
        pc: place,
        r0: registers[0],
        r1: registers[1],
        r2: registers[2],
        r3: registers[3],
        t0: taken[0],
        t1: taken[1],
        t2: taken[2],
        t3: taken[3],
    };
    let m = metered_sync_in(saved, &mut whole, c)?;
    *head = front(whole);
    let d = m.landed.dropped;
    let e = m.landed.remained;
    *report = [d[0], d[1], d[2], d[3], e[0], e[1], e[2], e[3]];
    Ok(m.rounds)
}

// A sync lands, and tells for each port how many words were dropped, and how many remain, all 0 where it is refused: 20, 21, 23.
pub fn sync(
    saved: &mut [u64; LOG],
    head: &mut [u32; LENT],
    place: u32,
    registers: &[u32; 4],
    taken: &[u32; 4],
    report: &mut [u32; TOLD],
) -> Result<(), BackupRefusal>
    ensures answered { Answered saved.old head.old saved.new head.new (number_in result)
        (λ v. sync_of v (checkpoint_lent place registers.now taken.now)) }
    ensures report_after { report.new ≡ told (sync_report (view_in saved.old head.old)
        (checkpoint_lent place registers.now taken.now)) }
{
    metered_sync(saved, head, place, registers, taken, report)?;
    Ok(())
}

// The record takes over; refused: 20. What is handed over is the saved words with the head that is handed; refused, no words and the rest 0.
pub fn take_over(
    saved: &[u64; LOG],
    head: &[u32; LENT],
    handed: &mut [u32; LENT],
) -> Result<(), BackupRefusal>
    ensures { HandsOver saved.now head.now (number_in result) handed.new }
{
    *handed = [0; LENT];
    look(saved, head)?;
    *handed = *head;
    Ok(())
}
