// Cases of the backup record, run and compared with stdout: M12 of document 01, the sixty-fifth arrival, every refusal of every call and
// its place in the order, take over of a full and of an empty record, and syncs that take everything, nothing, or one slot's oldest, with
// what they report.
// A write that fails ends the program with its error.
#![tactic(auto)]

use backup::limits::LOG;
use backup::place::Checkpoint;
use backup_value::{Backup, Synced};
use numbers::backup::BackupRefusal;
use std::io;

// A call's number, and the record after it: refused, the one that it was called on.
#[derive(Clone, Copy)]
struct Outcome {
    number: u8,
    backup: Backup,
}

fn after(b: Backup, r: Result<Backup, BackupRefusal>) -> Outcome {
    match r {
        Ok(next) => Outcome {
            number: 0,
            backup: next,
        },
        Err(refusal) => Outcome {
            number: refusal.number(),
            backup: b,
        },
    }
}

fn arrive(b: Backup, port: u32, word: u32) -> Outcome {
    after(b, b.arrive(port, word))
}

fn count(b: Backup) -> Outcome {
    after(b, b.count())
}

fn text(rt: &impl Print, s: &str) -> io::Result<()> {
    rt.print(s)
}

fn number(rt: &impl Print, n: u64) -> io::Result<()> {
    print!(rt; " {n}")
}

// Length, count, place, registers, and the saved words as slot and word, oldest first.
fn show(rt: &impl Print, b: Backup) -> io::Result<()> {
    text(rt, " saved")?;
    number(rt, b.len as u64)?;
    text(rt, " count")?;
    number(rt, b.sent as u64)?;
    text(rt, " place")?;
    number(rt, b.pc as u64)?;
    text(rt, " registers")?;
    number(rt, b.r0 as u64)?;
    number(rt, b.r1 as u64)?;
    number(rt, b.r2 as u64)?;
    number(rt, b.r3 as u64)?;
    text(rt, " words")?;
    let len = b.len as usize;
    let log = b.log;
    for i in 0..len {
        if i < LOG {
            let x = log[i];
            number(rt, backup::pack::port_of(x) as u64)?;
            number(rt, backup::pack::word_of(x) as u64)?;
        }
    }
    text(rt, "\n")
}

fn reply(rt: &impl Print, case: &str, r: Outcome) -> io::Result<()> {
    text(rt, case)?;
    number(rt, r.number as u64)?;
    show(rt, r.backup)
}

fn word(rt: &impl Print, n: u32) -> io::Result<()> {
    number(rt, n as u64)
}

// A number for each slot.
fn by_slot(rt: &impl Print, n: [u32; 4]) -> io::Result<()> {
    word(rt, n[0])?;
    word(rt, n[1])?;
    word(rt, n[2])?;
    word(rt, n[3])
}

fn backup_of(r: Result<Synced, BackupRefusal>) -> Result<Backup, BackupRefusal> {
    let s = r?;
    Ok(s.backup)
}

// A sync, whatever it reports.
fn landing(b: Backup, c: Checkpoint) -> Outcome {
    after(b, backup_of(b.sync(c)))
}

// A report of no words.
const NONE: [u32; 4] = [0; 4];

fn synced(rt: &impl Print, case: &str, b: Backup, c: Checkpoint) -> io::Result<()> {
    text(rt, case)?;
    match b.sync(c) {
        Ok(s) => told(rt, 0, s.dropped, s.remained, s.backup),
        Err(refusal) => told(rt, refusal.number(), NONE, NONE, b),
    }
}

fn told(
    rt: &impl Print,
    answer: u8,
    dropped: [u32; 4],
    remained: [u32; 4],
    b: Backup,
) -> io::Result<()> {
    number(rt, answer as u64)?;
    text(rt, " dropped")?;
    by_slot(rt, dropped)?;
    text(rt, " remain")?;
    by_slot(rt, remained)?;
    show(rt, b)
}

// What is handed over; refused, no words and the rest 0, as of a new record.
fn promoted(rt: &impl Print, case: &str, b: Backup) -> io::Result<()> {
    reply(rt, case, after(Backup::new(), b.fail_over()))
}

// Two words on slot 0, one on slot 1 between them.
fn three() -> Backup {
    let a = arrive(Backup::new(), 0, 10).backup;
    let b = arrive(a, 1, 11).backup;
    arrive(b, 0, 12).backup
}

// Nothing was called yet.
fn untried(b: Backup) -> Outcome {
    Outcome {
        number: 0,
        backup: b,
    }
}

// n words on slots 0, 1, 2, 3, 0, ..; after the last call.
fn filled(n: u32) -> Outcome {
    let mut r = untried(Backup::new());
    for i in 0..n {
        r = arrive(r.backup, i % 4, i);
    }
    r
}

// A record after n transmissions; after the last call.
fn counted(n: u32) -> Outcome {
    let mut r = untried(Backup::new());
    for _ in 0..n {
        r = count(r.backup);
    }
    r
}

fn checkpoint(pc: u32, t0: u32, t1: u32, t2: u32, t3: u32) -> Checkpoint {
    Checkpoint {
        pc: pc,
        r0: 1,
        r1: 2,
        r2: 3,
        r3: 4294967295,
        t0: t0,
        t1: t1,
        t2: t2,
        t3: t3,
    }
}

fn arrivals(rt: &impl Print) -> io::Result<()> {
    reply(
        rt,
        "arrive on an empty record",
        arrive(Backup::new(), 3, 4294967295),
    )?;
    reply(rt, "M12's record", untried(three()))?;
    reply(rt, "sixty-four arrivals", filled(64))?;
    reply(rt, "the sixty-fifth", filled(65))?;
    reply(rt, "slot 4", arrive(three(), 4, 9))?;
    reply(
        rt,
        "slot 4 into a full record",
        arrive(filled(64).backup, 4, 9),
    )?;
    Ok(())
}

fn counts(rt: &impl Print) -> io::Result<()> {
    reply(rt, "count", count(three()))?;
    reply(rt, "thirty-two counts", counted(32))?;
    reply(rt, "the thirty-third", counted(33))?;
    Ok(())
}

fn syncs(rt: &impl Print) -> io::Result<()> {
    synced(rt, "M12", three(), checkpoint(5, 1, 0, 0, 0))?;
    synced(rt, "nothing taken", three(), checkpoint(64, 0, 0, 0, 0))?;
    synced(rt, "everything taken", three(), checkpoint(0, 2, 1, 0, 0))?;
    synced(
        rt,
        "everything of a full record",
        filled(64).backup,
        checkpoint(7, 16, 16, 16, 16),
    )?;
    synced(
        rt,
        "slot by slot",
        filled(9).backup,
        checkpoint(7, 1, 2, 0, 1),
    )?;
    synced(
        rt,
        "the count goes to 0",
        counted(32).backup,
        checkpoint(1, 0, 0, 0, 0),
    )?;
    synced(rt, "place 65", three(), checkpoint(65, 0, 0, 0, 0))?;
    synced(
        rt,
        "place 65 and too many taken",
        three(),
        checkpoint(65, 9, 9, 9, 9),
    )?;
    synced(
        rt,
        "three taken on slot 0",
        three(),
        checkpoint(1, 3, 0, 0, 0),
    )?;
    synced(
        rt,
        "two taken on slot 1",
        three(),
        checkpoint(1, 0, 2, 0, 0),
    )?;
    synced(
        rt,
        "one taken on slot 2",
        three(),
        checkpoint(1, 0, 0, 1, 0),
    )?;
    synced(
        rt,
        "one taken on slot 3",
        three(),
        checkpoint(1, 0, 0, 0, 1),
    )
}

fn promotions(rt: &impl Print) -> io::Result<()> {
    promoted(rt, "take over of an empty record", Backup::new())?;
    promoted(
        rt,
        "take over of three words",
        landing(count(three()).backup, checkpoint(3, 1, 0, 0, 0)).backup,
    )?;
    promoted(rt, "take over of a full record", filled(64).backup)?;
    promoted(rt, "take over with thirty-two counted", counted(32).backup)
}

// Every call on a record that is unfit in one way: 20 before the call's own numbers.
fn unfit(rt: &impl Print, case: &str, b: Backup) -> io::Result<()> {
    text(rt, case)?;
    number(rt, arrive(b, 4, 0).number as u64)?;
    number(rt, arrive(b, 0, 0).number as u64)?;
    number(rt, count(b).number as u64)?;
    number(rt, landing(b, checkpoint(65, 9, 9, 9, 9)).number as u64)?;
    number(rt, landing(b, checkpoint(0, 0, 0, 0, 0)).number as u64)?;
    promoted(rt, " then", b)?;
    reply(rt, "  and it comes back", arrive(b, 0, 0))
}

fn unfits(rt: &impl Print) -> io::Result<()> {
    let mut b = three();
    b.len = 65;
    unfit(rt, "over 64 words:", b)?;
    b = three();
    b.log[2] = 4 * 4294967296 + 12;
    unfit(rt, "slot 4 saved:", b)?;
    b = three();
    b.sent = 33;
    unfit(rt, "count 33:", b)?;
    b = three();
    b.pc = 65;
    unfit(rt, "place 65:", b)?;
    b = three();
    b.log[3] = 4 * 4294967296;
    reply(
        rt,
        "what lies beyond the length doesn't matter",
        arrive(b, 2, 13),
    )?;
    Ok(())
}

fn main(rt: HostRuntime) -> io::Result<()> {
    reply(&rt, "new", untried(Backup::new()))?;
    arrivals(&rt)?;
    counts(&rt)?;
    syncs(&rt)?;
    promotions(&rt)?;
    unfits(&rt)
}
