// The backup in place: one backup in a log and a head. These calls are for the crates above; they ask nothing of their caller. Said of any
// log and head: the answer, by a definition on head and arguments, and that a refused call touches neither. Said of a backup that is sound
// (fit, with true tallies): it answers as document 01 says and is sound again. They don't look through the log for 20, since a sound one is
// fit; only a sync answers it, for a length over its array. What an unsound one comes to beside its answer is only safe.
ghost use Rattle.std.specs.Prelude.{◌≡◌, ℕ, ◌+◌, ◌-◌, ◌%◌, ◌^◌, ◌<◌, ◌≤◌, true, false, List, [], ◌∷◌, length, slice_index};
ghost use Rattle.numbers.specs.Backup.{number_in};
ghost use Rattle.backup.specs.Limits.{log_most};
ghost use Rattle.backup.specs.Replica.{arrive, count, sync, fail_over};
ghost use Rattle.backup.specs.declared.place.Head.{Head};
ghost use Rattle.backup.specs.Place.{Called, Sound, port_in, word_in, checkpoint_of, taken_of, lacks_in, restated_in, Dropped};
ghost use Rattle.backup.specs.Place.{promotion_in, view_in, Reports, Totals, landed_in, landed_by, rounds_in, with_len};
ghost use Rattle.backup.specs.Place.{Fresh, fresh_head, arrive_number_in, count_number_in, sync_number_in, handed_over, message_at};
ghost use Rattle.backup.specs.Rounds.{all_taken, sync_rounds, OnePass};

use crate::limits::{LOG, PC_MOST, PORTS, SENT_MOST};
use crate::pack::{port_of, word_of};
use numbers::backup::BackupRefusal;
use words::{packed, wide};

// What stands beside a log: how many messages the log has, how many the process transmitted since the checkpoint, its program counter and
// registers, and for each port how many messages of the log came in on it.
#[derive(Clone, Copy)]
pub struct Head {
    pub len: u32,
    pub sent: u32,
    pub pc: u32,
    pub r0: u32,
    pub r1: u32,
    pub r2: u32,
    pub r3: u32,
    pub saved: [u32; 4],
}

// A process at the moment a checkpoint was issued: program counter, registers, and the receives on each port since the last one.
#[derive(Clone, Copy)]
pub struct Checkpoint {
    pub pc: u32,
    pub r0: u32,
    pub r1: u32,
    pub r2: u32,
    pub r3: u32,
    pub t0: u32,
    pub t1: u32,
    pub t2: u32,
    pub t3: u32,
}

// What a promotion goes on from, beside the log: how many messages it has, the count, the program counter and the registers.
#[derive(Clone, Copy)]
pub struct Promotion {
    pub len: u32,
    pub sent: u32,
    pub pc: u32,
    pub r0: u32,
    pub r1: u32,
    pub r2: u32,
    pub r3: u32,
}

// What a sync that was not refused reports: for each port how many messages were dropped and how many remain.
#[derive(Drop)]
pub struct Landed {
    pub dropped: [u32; 4],
    pub remained: [u32; 4],
}

// A sync's report, and the rounds of all its loops together.
#[derive(Drop)]
pub struct Metered {
    pub landed: Landed,
    pub rounds: usize,
}

// x less n, or 0 where n is more, in both widths.
fn minus(x: u32, n: u32) -> u32
    ensures { result ≡ x - n }
{
    if n <= x { x - n } else { 0 }
}

fn less(x: usize, n: usize) -> usize
    ensures { result ≡ x - n }
{
    if n <= x { x - n } else { 0 }
}

// A record as it starts, whatever the head was: no messages, and the rest 0. The log is not looked at.
pub fn new_in(head: &mut Head)
    ensures head_after { head.new ≡ fresh_head }
    ensures by_index { (log : List ℕ) → length log ≡ log_most → Fresh log head.new }
{
    *head = Head {
        len: 0,
        sent: 0,
        pc: 0,
        r0: 0,
        r1: 0,
        r2: 0,
        r3: 0,
        saved: [0; 4],
    };
}

// A message arrived; refused: 21 or 22.
pub fn arrive_in(
    log: &mut [u64; LOG],
    head: &mut Head,
    port: u32,
    word: u32,
) -> Result<(), BackupRefusal>
    ensures called { Called log.old head.old log.new head.new (number_in result) (λ v. arrive v port word) }
    ensures value { number_in result ≡ arrive_number_in head.old port }
{
    if port >= PORTS {
        return Err(BackupRefusal::Bad);
    }
    let len = wide(head.len);
    if len >= LOG {
        return Err(BackupRefusal::Full);
    }
    log[len] = packed(port, word);
    head.len += 1;
    let p = wide(port);
    head.saved[p] = std::num::wrapping_add_u32(head.saved[p], 1);
    Ok(())
}

// A message of the process was transmitted; refused: 24.
pub fn count_in(head: &mut Head) -> Result<(), BackupRefusal>
    ensures by_index { (log : List ℕ) → Called log head.old log head.new (number_in result) count }
    ensures value { number_in result ≡ count_number_in head.old }
{
    if head.sent >= SENT_MOST {
        return Err(BackupRefusal::Count);
    }
    head.sent += 1;
    Ok(())
}

// Whether more was taken on some port than its tally says, from port 3 down.
fn lacks(head: &Head, c: Checkpoint) -> bool
    ensures { result ≡ lacks_in head.now (taken_of c) }
{
    if head.saved[3] < c.t3 {
        return true;
    }
    if head.saved[2] < c.t2 {
        return true;
    }
    if head.saved[1] < c.t1 {
        return true;
    }
    head.saved[0] < c.t0
}

// What a sync answers: 20 where the log is said to be longer than its array, 21, 23, or none of them.
fn lands(head: &Head, c: Checkpoint) -> Result<(), BackupRefusal>
    ensures { number_in result ≡ sync_number_in head.now c }
{
    if wide(head.len) > LOG {
        return Err(BackupRefusal::Unfit);
    }
    if c.pc > PC_MOST {
        return Err(BackupRefusal::Bad);
    }
    if lacks(head, c) {
        return Err(BackupRefusal::Taken);
    }
    Ok(())
}

// The port of a message, below 4 whatever the number is.
fn lane(x: u64) -> usize
    ensures { result ≡ port_in x % 4 }
{
    wide(port_of(x) % 4)
}

// Four numbers, one of each port, together.
fn together(n0: u32, n1: u32, n2: u32, n3: u32) -> usize
    ensures { result ≡ all_taken (n0 ∷ n1 ∷ n2 ∷ n3 ∷ []) }
{
    wide(n0) + wide(n1) + wide(n2) + wide(n3)
}

// Drops the oldest messages of each port, as many as were taken on it, in one pass over the first len, and says its rounds. The first loop
// goes as far as the first message that stays, over no more than were taken; the second to the last that goes, and takes no branch by what a
// message does; the third moves up what stands behind.
fn compact(log: &mut [u64; LOG], len: usize, taken: [u32; 4], all: usize) -> usize
    requires len_le_log_most { len ≤ log_most }
    requires all_le_len { all ≤ len }
    requires all_value { all ≡ all_taken taken }
    ensures dropped { Dropped log.old len taken log.new }
    ensures value { result ≡ len }
{
    let mut left = taken;
    let mut due = all;
    let mut i = 0;
    let mut kept = 0;
    let mut rounds = 0;
    // A while: it ends at the first message that stays.
    while i < all && kept == 0 {
        let x = log[i];
        let s = lane(x);
        let n = left[s];
        if n > 0 {
            left[s] = n - 1;
            due -= 1;
        } else {
            log[kept] = x;
            kept += 1;
        }
        i += 1;
        rounds += 1;
    }
    // A while: it ends at the last message that goes.
    while i < len && due > 0 {
        let x = log[i];
        let s = lane(x);
        let n = left[s];
        let m = minus(n, 1);
        let goes = wide(n - m);
        left[s] = m;
        log[kept] = x;
        due -= goes;
        kept += 1 - goes;
        i += 1;
        rounds += 1;
    }
    for j in i..len {
        log[kept] = log[j];
        kept += 1;
        rounds += 1;
    }
    rounds
}

// Drops what was taken, writes how many messages stay, and says in how many rounds. Where nothing was taken, or all that was saved, nothing
// moves, and there is none.
fn drop_taken(log: &mut [u64; LOG], head: &mut Head, c: Checkpoint) -> usize
    requires { head.old.len ≤ log_most }
    ensures dropped { Dropped log.old head.old.len (taken_of c) log.new }
    ensures head_after { head.new ≡ with_len head.old (head.old.len - all_taken (taken_of c)) }
    ensures value { result ≡ sync_rounds 0 (view_in log.old head.old) (checkpoint_of c) }
{
    let all = together(c.t0, c.t1, c.t2, c.t3);
    if all == 0 {
        return 0;
    }
    let len = wide(head.len);
    head.len = less(len, all) as u32;
    if all >= len {
        return 0;
    }
    compact(log, len, [c.t0, c.t1, c.t2, c.t3], all)
}

// The head after a checkpoint: its state, no count, and the tallies less what was taken. The log's length is written apart.
fn restate(head: &mut Head, c: Checkpoint)
    ensures { head.new ≡ restated_in head.old c }
{
    head.sent = 0;
    head.pc = c.pc;
    head.r0 = c.r0;
    head.r1 = c.r1;
    head.r2 = c.r2;
    head.r3 = c.r3;
    head.saved = [
        minus(head.saved[0], c.t0),
        minus(head.saved[1], c.t1),
        minus(head.saved[2], c.t2),
        minus(head.saved[3], c.t3),
    ];
}

// What a sync that was done says: from each port what was taken is gone, and the tallies are what remains.
fn report(head: &Head, c: Checkpoint) -> Landed
    ensures { result ≡ landed_in head.now c }
{
    Landed {
        dropped: [c.t0, c.t1, c.t2, c.t3],
        remained: head.saved,
    }
}

// A checkpoint lands, with its rounds counted; refused: 20, 21 or 23.
pub fn metered_sync_in(
    log: &mut [u64; LOG],
    head: &mut Head,
    c: Checkpoint,
) -> Result<Metered, BackupRefusal>
    ensures called { Called log.old head.old log.new head.new (number_in result)
        (λ v. sync v (checkpoint_of c)) }
    ensures reports { Reports log.old head.old c (landed_by result) }
    ensures one_pass { OnePass (view_in log.old head.old) (checkpoint_of c) (number_in result) (rounds_in result) }
    ensures number_value { number_in result ≡ sync_number_in head.old c }
{
    lands(head, c)?;
    restate(head, c);
    let rounds = drop_taken(log, head, c);
    Ok(Metered {
        landed: report(head, c),
        rounds: rounds,
    })
}

// A checkpoint lands, and says what it dropped and left; refused: 20, 21 or 23.
pub fn sync_in(
    log: &mut [u64; LOG],
    head: &mut Head,
    c: Checkpoint,
) -> Result<Landed, BackupRefusal>
    ensures called { Called log.old head.old log.new head.new (number_in result)
        (λ v. sync v (checkpoint_of c)) }
    ensures reports { Reports log.old head.old c result }
    ensures number_value { number_in result ≡ sync_number_in head.old c }
{
    let m = metered_sync_in(log, head, c)?;
    Ok(m.landed)
}

// Whether some of len messages go and some stay, in one test.
fn some_stay(all: usize, len: usize) -> bool
    ensures { (result ≡ true → (0 < all) × (all < len)) × (result ≡ false → 0 < all → len ≤ all) }
{
    std::num::wrapping_sub_usize(all, 1) < less(len, 1)
}

// A checkpoint lands, for a caller that asks only how many messages that dropped, on all ports together, modulo 2^32. It is a sync in place that
// makes no report: a carried sync of a run needs none.
pub fn sync_total(log: &mut [u64; LOG], head: &mut Head, c: Checkpoint) -> u32
    ensures { Totals log.old head.old c log.new head.new result }
{
    if lands(head, c).is_err() {
        return 0;
    }
    restate(head, c);
    let all = together(c.t0, c.t1, c.t2, c.t3);
    let len = wide(head.len);
    head.len = less(len, all) as u32;
    if some_stay(all, len) {
        compact(log, len, [c.t0, c.t1, c.t2, c.t3], all);
    }
    (all % 4294967296) as u32
}

// The backup takes over: what its process goes on from. The log holds the messages.
pub fn fail_over_in(head: &Head) -> Promotion
    ensures value { result ≡ promotion_in head.now }
    ensures by_index { (log : List ℕ) → Sound log head.now → fail_over (view_in log head.now) ≡ handed_over log result }
{
    Promotion {
        len: head.len,
        sent: head.sent,
        pc: head.pc,
        r0: head.r0,
        r1: head.r1,
        r2: head.r2,
        r3: head.r3,
    }
}

// The port of message i of a log; 0 where i is no index of one.
pub fn port_in(log: &[u64; LOG], i: usize) -> u32
    ensures value { i < log_most → result ≡ port_in (slice_index log.now i) }
    ensures by_index { (head : Head) → Sound log.now head → i < head.len
        → result ≡ (message_at (fail_over (view_in log.now head)) i).port }
{
    if i < LOG { port_of(log[i]) } else { 0 }
}

// Its word.
pub fn word_in(log: &[u64; LOG], i: usize) -> u32
    ensures value { i < log_most → result ≡ word_in (slice_index log.now i) }
    ensures by_index { (head : Head) → Sound log.now head → i < head.len
        → result ≡ (message_at (fail_over (view_in log.now head)) i).word }
{
    if i < LOG { word_of(log[i]) } else { 0 }
}
