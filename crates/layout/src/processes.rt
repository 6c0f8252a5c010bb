// The numbers of one process: its machine and what is counted, its inbox, its backup, the saved words.
ghost use Rattle.std.specs.Prelude.{◌≡◌, ◌+◌, ◌≤◌, ◌<◌, length};
ghost use Rattle.std.proofs.lemmas.List.Edits.{sets};
ghost use Rattle.backup.specs.Limits.{log_most};
ghost use Rattle.layout.specs.View.{each};
ghost use Rattle.layout.specs.Lists.{machine_in, state_in, backup_in, saved_count, inbox_at, saved_at, process_numbers_in};

use crate::lay::lay;
use backup::limits::LOG;
use backup::pack::{port_of, word_of};
use process::mail;
use process::process::{COMING, COMPLETE, Process, UNPROTECTED};
use words::wide;

// Where a process's numbers have their parts, and how many they are: first the machine, then the inbox, the backup and the saved words.
const INBOX: usize = 14;

const BACKUP: usize = INBOX + 2 * LOG;

const BACKUP_LENGTH: usize = 9;

const SAVED: usize = BACKUP + BACKUP_LENGTH;

pub const PROCESS: usize = SAVED + 2 * LOG;

// Board, place, registers, hold-back; acts, instructions, takes of each slot; how many words are unread.
fn machine(x: &Process) -> [u32; INBOX]
    ensures { result ≡ machine_in x.now }
{
    [
        x.board,
        x.pc,
        x.registers[0],
        x.registers[1],
        x.registers[2],
        x.registers[3],
        x.suppress,
        x.events,
        x.instructions,
        x.taken[0],
        x.taken[1],
        x.taken[2],
        x.taken[3],
        x.unread,
    ]
}

// Word i of the inbox, the oldest at 0: its channel, and the word.
fn unread(x: &Process, i: usize) -> [u32; 2]
    ensures { result ≡ inbox_at x.now i }
{
    if i >= wide(x.unread) {
        return [0, 0];
    }
    let word = x.word_at(i);
    [mail::channel_of(word), mail::word_of(word)]
}

fn put_inbox(x: &Process, out: &mut [u32], at: usize)
    requires { at + 128 ≤ length out.old }
    ensures { out.new ≡ sets out.old at (each (inbox_at x.now) log_most) }
{
    for i in 0..LOG {
        let pair = unread(x, i);
        lay(&pair, out, at + 2 * i);
    }
}

// What the backup is: 0 none, 1 complete, 2 being made.
fn state_of(protection: u32) -> u32
    ensures { result ≡ state_in protection }
{
    if protection == UNPROTECTED {
        return UNPROTECTED;
    }
    if protection == COMPLETE {
        return COMPLETE;
    }
    COMING
}

// What the backup is, its board, place, registers and count, and how many words are saved; zeros where there is none.
fn backup(x: &Process) -> [u32; BACKUP_LENGTH]
    ensures { result ≡ backup_in x.now }
{
    if !x.has_record() {
        return [0; BACKUP_LENGTH];
    }
    [
        state_of(x.protection),
        x.standby,
        x.head.pc,
        x.head.r0,
        x.head.r1,
        x.head.r2,
        x.head.r3,
        x.head.sent,
        x.head.len,
    ]
}

// How many words are saved.
fn saved_count(x: &Process) -> usize
    ensures { result ≡ saved_count x.now }
{
    if !x.has_record() {
        return 0;
    }
    wide(x.head.len)
}

// Saved word i, the oldest at 0: its slot, and the word.
fn saved(x: &Process, i: usize) -> [u32; 2]
    requires { i < log_most }
    ensures { result ≡ saved_at x.now i }
{
    if i >= saved_count(x) {
        return [0, 0];
    }
    let word = x.log[i];
    [port_of(word), word_of(word)]
}

fn put_saved(x: &Process, out: &mut [u32], at: usize)
    requires { at + 128 ≤ length out.old }
    ensures { out.new ≡ sets out.old at (each (saved_at x.now) log_most) }
{
    for i in 0..LOG {
        let pair = saved(x, i);
        lay(&pair, out, at + 2 * i);
    }
}

// All of them.
pub fn put_process(x: &Process, out: &mut [u32], at: usize)
    requires { at + 279 ≤ length out.old }
    ensures { out.new ≡ sets out.old at (process_numbers_in x.now) }
{
    let m = machine(x);
    lay(&m, out, at);
    put_inbox(x, out, at + INBOX);
    let b = backup(x);
    lay(&b, out, at + BACKUP);
    put_saved(x, out, at + SAVED);
}
