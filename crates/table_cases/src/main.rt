// Cases of the judging of a run, each with its number, compared with stdout: M1 to M6 of document 01, every way of each number from 1 to 12
// and of 47 alone, what is still accepted beside it, and pairs that show the order. Each case is a sound table or schedule with a few bytes
// changed.
// A write that fails ends the program with its error.
#![tactic(auto)]

mod tables;

use crate::tables::{FIVE, FOUR, LIMITED, PAIR, SAMPLE, SCHEDULE, largest_table};
use kunzeastylus::judge::ks_judge;
use std::io;

// A case's name and the number of its run.
fn line(rt: &impl Print, name: &str, number: u32) -> io::Result<()> {
    println!(rt; "{name} {number}")
}

// The first bytes of a slice.
fn front(s: &[u8], length: usize) -> &[u8] {
    if length > s.len() {
        return s;
    }
    &s[..length]
}

// ---- tables, each with the same sound schedule and buffers that are long enough

fn table_case(rt: &impl Print, name: &str, table: &[u8]) -> io::Result<()> {
    let schedule = SCHEDULE;
    line(rt, name, ks_judge(table, &schedule, 12, 2, 320, 4))
}

// The sample with a byte changed.
fn sample(rt: &impl Print, name: &str, at: usize, byte: u8) -> io::Result<()> {
    let mut t = SAMPLE;
    t[at % 37] = byte;
    table_case(rt, name, &t)
}

// The pair with two bytes changed.
fn both(rt: &impl Print, name: &str, at: usize, byte: u8, at2: usize, byte2: u8) -> io::Result<()> {
    let mut t = PAIR;
    t[at % 72] = byte;
    t[at2 % 72] = byte2;
    table_case(rt, name, front(&t, 72))
}

// The pair with a byte changed.
fn pair(rt: &impl Print, name: &str, at: usize, byte: u8) -> io::Result<()> {
    both(rt, name, at, byte, at, byte)
}

// The pair cut to a length, or with zeros behind it, and a length field below 256.
fn resized(rt: &impl Print, name: &str, length: usize, field: u8) -> io::Result<()> {
    let mut t = PAIR;
    t[1] = field;
    table_case(rt, name, front(&t, length))
}

// One process, with the number of channels that the table says and its backup board.
fn four(rt: &impl Print, name: &str, channels: u8, backup: u8) -> io::Result<()> {
    let mut t = FOUR;
    t[5] = channels;
    t[15] = backup;
    table_case(rt, name, &t)
}

fn five(rt: &impl Print, name: &str, backup: u8) -> io::Result<()> {
    let mut t = FIVE;
    t[17] = backup;
    table_case(rt, name, &t)
}

// The table of version 2 with two bytes changed.
fn limited(
    rt: &impl Print,
    name: &str,
    at: usize,
    byte: u8,
    at2: usize,
    byte2: u8,
) -> io::Result<()> {
    let mut t = LIMITED;
    t[at % 22] = byte;
    t[at2 % 22] = byte2;
    table_case(rt, name, &t)
}

// One byte changed.
fn limit(rt: &impl Print, name: &str, at: usize, byte: u8) -> io::Result<()> {
    limited(rt, name, at, byte, at, byte)
}

// A length field, at most two bytes of it.
fn field_of(size: usize) -> usize {
    if size < 2 { 0 } else { size - 2 }
}

// The largest table of a version with another size, which its length field says.
fn sized(rt: &impl Print, name: &str, version: u8, size: usize) -> io::Result<()> {
    let mut t = largest_table(version);
    let field = field_of(size);
    t[0] = (field / 256 % 256) as u8;
    t[1] = (field % 256) as u8;
    table_case(rt, name, front(&t, size))
}

// That of version 1 with another number of processes and another n of the first, too.
fn largest(rt: &impl Print, name: &str, processes: u8, n: u8, size: usize) -> io::Result<()> {
    let mut t = largest_table(1);
    let field = field_of(size);
    t[0] = (field / 256 % 256) as u8;
    t[1] = (field % 256) as u8;
    t[4] = processes;
    t[72] = n;
    table_case(rt, name, front(&t, size))
}

fn marked(rt: &impl Print) -> io::Result<()> {
    sample(rt, "M1 the sample", 2, 1)?;
    sample(rt, "M2 length 00 22", 1, 34)?;
    sample(rt, "M3 version 9", 2, 9)?;
    sample(rt, "M4 one board", 3, 1)?;
    sample(rt, "M5 backup board 0", 11, 0)?;
    sample(rt, "M6 first code 7", 13, 7)
}

fn accepted(rt: &impl Print) -> io::Result<()> {
    pair(rt, "two processes", 2, 1)?;
    pair(rt, "sixteen boards", 3, 16)?;
    four(rt, "four channels read", 4, 1)?;
    largest(rt, "no instruction", 1, 0, 73)?;
    largest(rt, "64 instructions", 1, 64, 457)?;
    sized(rt, "the largest table", 1, 6262)?;
    sized(rt, "the largest table of version 2", 2, 6278)?;
    pair(rt, "two channels with the same ends", 10, 0)
}

fn lengths(rt: &impl Print) -> io::Result<()> {
    resized(rt, "no bytes", 0, 70)?;
    resized(rt, "one byte", 1, 70)?;
    resized(rt, "five bytes, length true", 5, 3)?;
    pair(rt, "length one more", 1, 71)?;
    pair(rt, "length one less", 1, 69)?;
    both(rt, "length little-endian", 0, 70, 1, 0)?;
    resized(rt, "a byte less, length as it was", 71, 70)?;
    resized(rt, "a byte more, length as it was", 73, 70)?;
    sized(rt, "length 6277, and true", 1, 6279)?;
    sized(rt, "length 6277 in version 2, and true", 2, 6279)?;
    both(rt, "length and version", 1, 71, 2, 9)
}

fn versions(rt: &impl Print) -> io::Result<()> {
    pair(rt, "version 0", 2, 0)?;
    pair(rt, "version 3", 2, 3)?;
    both(rt, "version and boards", 2, 9, 3, 1)
}

fn counts(rt: &impl Print) -> io::Result<()> {
    pair(rt, "no boards", 3, 0)?;
    pair(rt, "one board", 3, 1)?;
    pair(rt, "17 boards", 3, 17)?;
    pair(rt, "no process", 4, 0)?;
    pair(rt, "17 processes", 4, 17)?;
    pair(rt, "no channel", 5, 0)?;
    pair(rt, "33 channels", 5, 33)?;
    both(rt, "boards and n", 3, 17, 20, 65)
}

fn extents(rt: &impl Print) -> io::Result<()> {
    largest(rt, "n is 65, all of them there", 1, 65, 463)?;
    pair(rt, "n is 65", 20, 65)?;
    pair(rt, "n is 255", 20, 255)?;
    pair(rt, "n one more", 59, 3)?;
    pair(rt, "n one less", 59, 1)?;
    resized(rt, "a byte less, length true", 71, 69)?;
    resized(rt, "a byte more, length true", 73, 71)?;
    resized(rt, "six bytes, length true", 6, 4)?;
    resized(rt, "a record without its n", 59, 57)?;
    resized(rt, "no record of the second process", 57, 55)?;
    pair(rt, "a third process without a record", 4, 3)?;
    four(rt, "pairs that go past the end", 32, 1)?;
    sized(rt, "the largest table less a byte", 1, 6261)?;
    sized(rt, "the largest table and a byte", 1, 6263)?;
    sized(rt, "length 6276 in version 1, and true", 1, 6278)?;
    pair(rt, "version 2 without limits", 2, 2)?;
    limit(rt, "version 1 with limits", 2, 1)?;
    both(rt, "n and a channel's end", 20, 65, 8, 9)
}

fn ends(rt: &impl Print) -> io::Result<()> {
    pair(rt, "a sender that is no process", 8, 2)?;
    pair(rt, "a reader that is no process", 9, 2)?;
    pair(rt, "a sender 254", 16, 254)?;
    pair(rt, "from the outside to the outside", 7, 255)?;
    pair(rt, "the same on the last channel", 17, 255)?;
    both(rt, "a channel's end and boards", 8, 2, 19, 0)
}

fn inputs(rt: &impl Print) -> io::Result<()> {
    five(rt, "five channels read", 1)?;
    five(rt, "five channels read, and boards", 0)?;
    pair(rt, "five channels read, and a TAKE", 9, 0)
}

fn boards(rt: &impl Print) -> io::Result<()> {
    pair(rt, "primary board 3 of 3", 18, 3)?;
    pair(rt, "backup board 3 of 3", 19, 3)?;
    pair(rt, "primary and backup the same", 18, 1)?;
    pair(rt, "the same in the second process", 58, 1)?;
    pair(rt, "backup board 255", 58, 255)?;
    both(
        rt,
        "an instruction of process 0, boards of process 1",
        21,
        7,
        57,
        3,
    )?;
    both(
        rt,
        "boards of process 0, an instruction of process 1",
        18,
        1,
        60,
        7,
    )
}

fn instructions(rt: &impl Print) -> io::Result<()> {
    pair(rt, "code 0", 21, 0)?;
    pair(rt, "code 7", 21, 7)?;
    pair(rt, "code 255", 66, 255)?;
    pair(rt, "SET of register 3", 22, 3)?;
    pair(rt, "SET of register 4", 22, 4)?;
    pair(rt, "SET with any operand", 23, 255)?;
    pair(rt, "ADD to register 4", 28, 4)?;
    pair(rt, "ADD of register 3", 32, 3)?;
    pair(rt, "ADD of register 4", 32, 4)?;
    pair(rt, "ADD of register 2^24", 29, 1)?;
    pair(rt, "JUMP by register 4", 52, 4)?;
    pair(rt, "JUMP to n", 56, 6)?;
    pair(rt, "JUMP past n", 56, 7)?;
    pair(rt, "JUMP to 2^16 + 2", 54, 1)
}

fn limits(rt: &impl Print) -> io::Result<()> {
    limit(rt, "limits 1 and 16", 2, 2)?;
    limit(rt, "limits 16 and 16", 10, 16)?;
    limit(rt, "limit 0", 10, 0)?;
    limit(rt, "limit 17", 10, 17)?;
    limit(rt, "limit 0 of the second process", 14, 0)?;
    limit(rt, "limit 255 of the second process", 14, 255)?;
    limited(rt, "a limit and an instruction", 10, 0, 16, 7)?;
    limited(rt, "a limit and boards", 14, 17, 9, 0)
}

fn channels(rt: &impl Print) -> io::Result<()> {
    pair(rt, "TAKE into register 4", 34, 4)?;
    pair(rt, "TAKE of a channel that another reads", 38, 1)?;
    pair(rt, "TAKE of a channel that the outside reads", 38, 4)?;
    pair(rt, "TAKE of channel 6 of 6", 38, 6)?;
    pair(rt, "TAKE of channel 258", 37, 1)?;
    pair(rt, "SEND of register 4", 46, 4)?;
    pair(rt, "SEND to another's channel", 50, 2)?;
    pair(rt, "SEND to a channel from the outside", 50, 0)?;
    pair(rt, "SEND to channel 6 of 6", 50, 6)?;
    pair(rt, "SEND to channel 2^24 + 3", 47, 1)?;
    pair(rt, "the last SEND of the last process", 71, 5)
}

fn masks(rt: &impl Print) -> io::Result<()> {
    pair(rt, "FIRST into registers 2 and 3", 40, 2)?;
    pair(rt, "FIRST into register 3", 40, 3)?;
    pair(rt, "FIRST of one channel", 44, 32)?;
    pair(rt, "FIRST of no channel", 44, 0)?;
    pair(rt, "FIRST of a channel that another reads", 44, 2)?;
    pair(rt, "FIRST of five channels", 44, 47)?;
    pair(rt, "FIRST of channel 6 of 6", 44, 65)?;
    both(rt, "FIRST of channel 31", 41, 128, 44, 0)
}

// ---- schedules and buffers, with the sample

fn run_case(
    rt: &impl Print,
    name: &str,
    schedule: &[u8],
    answers: usize,
    reasons: usize,
    report: usize,
    origins: usize,
) -> io::Result<()> {
    let table = SAMPLE;
    line(
        rt,
        name,
        ks_judge(&table, schedule, answers, reasons, report, origins),
    )
}

// The schedule with two bytes changed.
fn schedule(
    rt: &impl Print,
    name: &str,
    at: usize,
    byte: u8,
    at2: usize,
    byte2: u8,
) -> io::Result<()> {
    let mut s = SCHEDULE;
    s[at % 15] = byte;
    s[at2 % 15] = byte2;
    run_case(rt, name, &s, 12, 2, 20, 4)
}

// The first bytes of the schedule.
fn short(rt: &impl Print, name: &str, length: usize) -> io::Result<()> {
    let s = SCHEDULE;
    run_case(rt, name, front(&s, length), 12, 2, 20, 4)
}

// Records of zeros, a version, and at most five bytes behind the last record; the length field is true.
fn records(rt: &impl Print, name: &str, n: usize, version: u8, behind: usize) -> io::Result<()> {
    let mut s = [0u8; 60020];
    let field = 1 + 6 * (n % 10002) + behind % 6;
    s[0] = (field / 256 % 256) as u8;
    s[1] = (field % 256) as u8;
    s[2] = version;
    run_case(rt, name, front(&s, field + 2), 60006, 10001, 20, 20002)
}

fn schedules(rt: &impl Print) -> io::Result<()> {
    schedule(rt, "a schedule", 2, 1, 2, 1)?;
    records(rt, "an empty schedule", 0, 1, 0)?;
    records(rt, "10000 records", 10000, 1, 0)?;
    short(rt, "a schedule of no bytes", 0)?;
    short(rt, "a schedule of two bytes", 2)?;
    short(rt, "a record that lacks a byte, length as it was", 14)?;
    schedule(rt, "a schedule's length one more", 1, 14, 1, 14)?;
    schedule(rt, "a schedule's length one less", 1, 12, 1, 12)?;
    records(rt, "a broken record", 2, 1, 5)?;
    records(rt, "10001 records", 10001, 1, 0)?;
    schedule(rt, "a schedule's version 0", 2, 0, 2, 0)?;
    schedule(rt, "a schedule's version 2", 2, 2, 2, 2)?;
    records(rt, "version 2 and a broken record", 2, 2, 1)?;
    schedule(rt, "version 2 and a wrong length", 2, 2, 1, 14)?;
    schedule(rt, "any move", 3, 99, 4, 99)
}

fn buffers(rt: &impl Print) -> io::Result<()> {
    let s = SCHEDULE;
    run_case(rt, "buffers just long enough", &s, 12, 2, 20, 4)?;
    run_case(rt, "11 bytes for two answers", &s, 11, 2, 20, 4)?;
    run_case(rt, "1 byte for two reasons", &s, 12, 1, 20, 4)?;
    run_case(
        rt,
        "1 byte for two reasons and 19 for a process",
        &s,
        12,
        1,
        19,
        4,
    )?;
    run_case(rt, "19 bytes for one process", &s, 12, 2, 19, 4)?;
    run_case(rt, "3 bytes for two origins", &s, 12, 2, 20, 3)?;
    run_case(
        rt,
        "3 bytes for two origins and 19 for a process",
        &s,
        12,
        2,
        19,
        3,
    )?;
    run_case(rt, "no bytes in any buffer", &s, 0, 0, 0, 0)?;
    let mut empty = [0, 1, 1];
    run_case(rt, "no bytes for no answers", &empty, 0, 0, 20, 0)?;
    run_case(
        rt,
        "no bytes for no answers and a process",
        &empty,
        0,
        0,
        0,
        0,
    )?;
    empty[2] = 2;
    run_case(rt, "version 2 and short buffers", &empty, 0, 0, 0, 0)
}

// The table's number comes before the schedule's and the buffers'.
fn order(rt: &impl Print) -> io::Result<()> {
    let mut table = SAMPLE;
    table[13] = 7;
    let s = [0u8];
    line(
        rt,
        "an instruction and a schedule of one byte",
        ks_judge(&table, &s, 12, 2, 20, 4),
    )?;
    line(
        rt,
        "an instruction and short buffers",
        ks_judge(&table, &s, 0, 0, 0, 0),
    )
}

// 47 too, though it isn't lower.
fn limit_order(rt: &impl Print) -> io::Result<()> {
    let mut table = LIMITED;
    table[10] = 0;
    let s = [0u8];
    line(
        rt,
        "a limit and a schedule of one byte",
        ks_judge(&table, &s, 12, 2, 40, 4),
    )?;
    line(
        rt,
        "a limit and short buffers",
        ks_judge(&table, &s, 0, 0, 0, 0),
    )
}

fn main(rt: HostRuntime) -> io::Result<()> {
    marked(&rt)?;
    accepted(&rt)?;
    lengths(&rt)?;
    versions(&rt)?;
    counts(&rt)?;
    extents(&rt)?;
    ends(&rt)?;
    inputs(&rt)?;
    boards(&rt)?;
    instructions(&rt)?;
    limits(&rt)?;
    channels(&rt)?;
    masks(&rt)?;
    schedules(&rt)?;
    buffers(&rt)?;
    order(&rt)?;
    limit_order(&rt)
}
