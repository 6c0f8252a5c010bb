// Cases of the writer, compared with stdout: document 01's sample as lists, in version 1 and, with a limit, in version 2; then with one number
// changed for each refusal, in numbers that fit no byte where there are such; pairs that show the order; a buffer of one byte too few; and both
// tables taken apart again. A line of the writer has the number, the length and four bytes of the buffer, all of which were 238 before.
// A write that fails ends the program with its error.
#![tactic(auto)]

ghost use Rattle.std.specs.Prelude.{◌≤◌, length};

use apart::take_apart;
use numbers::runs::Refusal;
use std::io;
use writer::write::{Head, Lists};

// Document 01's sample.
const FIRST: [u8; 37] = [
    0, 35, 1, 2, 1, 2, 255, 0, 0, 255, 0, 1, 4, 3, 0, 0, 0, 0, 0, 2, 1, 0, 0, 0, 0, 5, 1, 0, 0, 0,
    1, 6, 0, 0, 0, 0, 0,
];

// The same in version 2, with limit 16.
const SECOND: [u8; 38] = [
    0, 36, 2, 2, 1, 2, 255, 0, 0, 255, 0, 1, 16, 4, 3, 0, 0, 0, 0, 0, 2, 1, 0, 0, 0, 0, 5, 1, 0, 0,
    0, 1, 6, 0, 0, 0, 0, 0,
];

// What is changed of the sample.
#[derive(Clone, Copy)]
enum Change {
    Nothing,
    Boards(u32),
    Reader(u32),
    Standby(u32),
    N(u32),
    Code(u32),
}

fn write_sample(version: u32, limits: &[u32], c: Change, out: &mut [u8]) -> Result<u32, Refusal> {
    let mut head = Head {
        version: version,
        boards: 2,
        processes: 1,
        channels: 2,
    };
    let mut ends = [255u32, 0, 0, 255];
    let mut placements = [0u32, 1, 4];
    let mut instructions = [3u32, 0, 0, 2, 1, 0, 5, 1, 1, 6, 0, 0];
    match c {
        Change::Nothing => {}
        Change::Boards(boards) => head.boards = boards,
        Change::Reader(reader) => ends[1] = reader,
        Change::Standby(standby) => placements[1] = standby,
        Change::N(n) => placements[2] = n,
        Change::Code(code) => instructions[0] = code,
    }
    let lists = Lists {
        head: head,
        ends: &ends,
        placements: &placements,
        limits: limits,
        instructions: &instructions,
    };
    lists.write(out)
}

// 0 and the table's length, or the number that refuses it and 0; then four bytes of the buffer.
fn show(rt: &impl Print, name: &str, r: Result<u32, Refusal>, out: &[u8]) -> io::Result<()>
    requires { 14 ≤ length out.now }
{
    let (number, length) = match r {
        Ok(length) => (0, length),
        Err(refusal) => (refusal.number(), 0),
    };
    let last = out.len() - 1;
    println!(rt;
        "{name} {number} {length} {} {} {} {}",
        out[1], out[12], out[13], out[last]
    )
}

// In a buffer with a byte to spare, or two in version 1.
fn written(rt: &impl Print, name: &str, version: u32, limits: &[u32], c: Change) -> io::Result<()> {
    let mut out = [238u8; 39];
    let r = write_sample(version, limits, c, &mut out);
    show(rt, name, r, &out)
}

// In a buffer with too few bytes.
fn short(rt: &impl Print, name: &str, version: u32, limits: &[u32], c: Change) -> io::Result<()> {
    let mut out = [238u8; 36];
    let r = write_sample(version, limits, c, &mut out);
    show(rt, name, r, &out)
}

// Of version 1, which has no limits, with one number changed.
fn case(rt: &impl Print, name: &str, c: Change) -> io::Result<()> {
    written(rt, name, 1, &[], c)
}

// The sample of this version, with these limits.
fn version(rt: &impl Print, name: &str, version: u32, limits: &[u32]) -> io::Result<()> {
    written(rt, name, version, limits, Change::Nothing)
}

// A table taken apart into lists of which the last has no number to spare. A line has 0, the version, the counts, and how many instructions, or
// the number that refuses it, and zeros; then some of the lists' numbers, all of which were 9 before.
fn apart(rt: &impl Print, name: &str, table: &[u8]) -> io::Result<()> {
    let mut ends = [9u32; 5];
    let mut placements = [9u32; 4];
    let mut limits = [9u32; 2];
    let mut instructions = [9u32; 12];
    let r = take_apart(
        table,
        &mut ends,
        &mut placements,
        &mut limits,
        &mut instructions,
    );
    match r {
        Ok(t) => print!(rt;
            "{name} 0 {} {} {} {} {}",
            t.version, t.boards, t.processes, t.channels, t.instructions
        )?,
        Err(refusal) => print!(rt; "{name} {} 0 0 0 0 0", refusal.number())?,
    }
    print!(rt;
        " {} {} {} {}",
        ends[0], ends[4], placements[2], placements[3]
    )?;
    println!(rt; " {} {} {}", limits[0], limits[1], instructions[9])
}

fn refusals(rt: &impl Print) -> io::Result<()> {
    case(rt, "sample", Change::Nothing)?;
    case(rt, "one board", Change::Boards(1))?;
    case(rt, "n 5", Change::N(5))?;
    case(rt, "reader 256", Change::Reader(256))?;
    case(rt, "board 257", Change::Standby(257))?;
    case(rt, "code 259", Change::Code(259))
}

fn versions(rt: &impl Print) -> io::Result<()> {
    version(rt, "version 2, limit 16", 2, &[16])?;
    version(rt, "version 3", 3, &[16])?;
    version(rt, "version 258", 258, &[16])?;
    written(rt, "version 0 and one board", 0, &[], Change::Boards(1))?;
    version(rt, "a limit in version 1", 1, &[8])?;
    version(rt, "no limit in version 2", 2, &[])?;
    version(rt, "two limits of one process", 2, &[8, 8])
}

fn limits_47(rt: &impl Print) -> io::Result<()> {
    version(rt, "limit 0", 2, &[0])?;
    version(rt, "limit 17", 2, &[17])?;
    version(rt, "limit 257", 2, &[257])?;
    written(rt, "limit 0 and code 7", 2, &[0], Change::Code(7))
}

fn shorts(rt: &impl Print) -> io::Result<()> {
    short(rt, "36 bytes", 1, &[], Change::Nothing)?;
    short(rt, "36 bytes, code 7", 1, &[], Change::Code(7))?;
    short(rt, "36 bytes, version 2", 2, &[16], Change::Nothing)?;
    short(rt, "36 bytes, limit 17", 2, &[17], Change::Nothing)
}

fn main(rt: HostRuntime) -> io::Result<()> {
    refusals(&rt)?;
    versions(&rt)?;
    limits_47(&rt)?;
    shorts(&rt)?;
    apart(&rt, "apart", &FIRST)?;
    apart(&rt, "apart, version 2", &SECOND)
}
