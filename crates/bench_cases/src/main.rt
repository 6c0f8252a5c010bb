// Cases of the bench program's page, compared with stdout, which an independent simulator printed (outside/src/pages): input that ends
// early, lengths at and over each limit, and pages of runs of 10,000 records and 16 processes. Of each input the first line says how many
// bytes of it the program wants; of a page that is long, its length and a number made of all its bytes stand for it.
// A write that fails ends the program with its error.
#![tactic(auto)]

mod input;

ghost use Rattle.std.specs.Prelude.{◌≤◌};

use crate::input::{Case, LARGEST, LIMITED, SAMPLE, fill};
use bench_input::bench::{PAGE_ROOM, bench};
use bench_input::wanted::wanted;
use std::io;

fn mix(sum: u64, byte: u8) -> u64 {
    (sum % 4294967291 * 31 + byte as u64) % 4294967291
}

// A number that all bytes make.
fn checksum(s: &[u8]) -> u64 {
    let mut sum = 0;
    for byte in s {
        sum = mix(sum, *byte);
    }
    sum
}

fn show(rt: &impl Print, page: &[u8]) -> io::Result<()> {
    if page.len() < 2000 {
        return rt.write_all(page);
    }
    println!(rt; "length {} sum {}", page.len(), checksum(page))
}

fn run_case(rt: &impl Print, name: &str, input: &[u8]) -> io::Result<()> {
    println!(rt; "{name}: wants {}", wanted(input))?;
    let mut page = [0u8; PAGE_ROOM];
    let length = bench(input, &mut page);
    show(rt, &page[..length])
}

// The first so many bytes of an input.
fn case(rt: &impl Print, name: &str, c: Case, length: usize) -> io::Result<()>
    requires { length ≤ 70000 }
{
    let mut input = [0u8; 70000];
    fill(&mut input, c);
    run_case(rt, name, &input[..length])
}

fn early(rt: &impl Print) -> io::Result<()> {
    case(rt, "no input", SAMPLE.with_field(1), 0)?;
    case(rt, "one byte", SAMPLE.with_field(1), 1)?;
    case(rt, "two bytes", SAMPLE.with_field(1), 2)?;
    case(rt, "a table less a byte", SAMPLE.with_field(1), 36)?;
    case(rt, "a table", SAMPLE.with_field(1), 37)
}

fn short(rt: &impl Print) -> io::Result<()> {
    case(rt, "two bytes of schedule", SAMPLE.with_field(1), 39)?;
    case(rt, "no records", SAMPLE.with_field(1), 40)?;
    case(rt, "a schedule less a byte", SAMPLE, 99)?;
    case(rt, "ten records", SAMPLE, 100)?;
    case(rt, "a byte behind them", SAMPLE, 101)
}

fn lengths(rt: &impl Print) -> io::Result<()> {
    case(rt, "length 00 22", SAMPLE.with_byte(1, 34), 100)?;
    case(rt, "length 00 24", SAMPLE.with_byte(1, 36), 100)?;
    case(rt, "length 3", SAMPLE.with_byte(1, 3), 100)?;
    case(rt, "length 4", SAMPLE.with_byte(1, 4), 100)
}

fn too_long(rt: &impl Print) -> io::Result<()> {
    case(rt, "length 6261", LARGEST.with_byte(1, 117), 6325)?;
    case(
        rt,
        "length 6276 of version 1",
        LARGEST.with_byte(1, 132),
        6341,
    )?;
    case(rt, "length 6277", LIMITED.with_byte(1, 133), 6341)?;
    case(rt, "length 6277 and no more", LIMITED.with_byte(1, 133), 2)?;
    case(rt, "length 6276 and no more", LIMITED, 2)?;
    case(rt, "length 65280", SAMPLE.with_byte(0, 255), 100)
}

fn versions(rt: &impl Print) -> io::Result<()> {
    case(rt, "version 9", SAMPLE.with_byte(2, 9), 100)?;
    case(
        rt,
        "version 2 with a head of 3",
        SAMPLE.with_byte(2, 2),
        100,
    )?;
    case(
        rt,
        "version 1 with a head of 4",
        LIMITED.with_byte(2, 1),
        6341,
    )
}

fn schedules(rt: &impl Print) -> io::Result<()> {
    case(
        rt,
        "version 2 of the schedule",
        SAMPLE.with_byte(39, 2),
        100,
    )?;
    case(
        rt,
        "60003 bytes of schedule",
        SAMPLE.with_field(60001),
        60040,
    )?;
    case(
        rt,
        "60004, length as it was",
        SAMPLE.with_field(60001),
        60041,
    )
}

fn over(rt: &impl Print) -> io::Result<()> {
    case(rt, "60004, length true", SAMPLE.with_field(60002), 60041)?;
    case(
        rt,
        "60004 and code 7",
        SAMPLE.with_byte(13, 7).with_field(60002),
        60041,
    )?;
    case(rt, "60009, length true", SAMPLE.with_field(60007), 60046)?;
    case(rt, "69963 bytes", SAMPLE.with_field(60001), 70000)
}

fn large(rt: &impl Print) -> io::Result<()> {
    case(rt, "16 processes", LARGEST.with_field(1), 6265)?;
    case(
        rt,
        "16 processes and 9999 records",
        LARGEST.with_field(59995),
        66259,
    )?;
    case(
        rt,
        "16 processes and 10000 records",
        LARGEST.with_field(60001),
        66265,
    )?;
    case(rt, "and a byte more", LARGEST.with_field(60001), 66266)?;
    case(rt, "and a word more", LARGEST.with_field(60007), 66271)
}

fn limits(rt: &impl Print) -> io::Result<()> {
    case(rt, "limits 1 to 16", LIMITED.with_field(1), 6281)?;
    case(
        rt,
        "limits 1 to 16 and 10000 records",
        LIMITED.with_field(60001),
        66281,
    )?;
    case(
        rt,
        "limits 1 to 16 and a byte more",
        LIMITED.with_field(60001),
        66282,
    )?;
    case(rt, "limit 0", LIMITED.with_byte(72, 0), 6341)?;
    case(rt, "limit 17", LIMITED.with_byte(5892, 17), 6341)?;
    case(
        rt,
        "limit 17 and 60004 bytes",
        LIMITED.with_byte(5892, 17).with_field(60002),
        66282,
    )
}

fn main(rt: HostRuntime) -> io::Result<()> {
    early(&rt)?;
    short(&rt)?;
    lengths(&rt)?;
    too_long(&rt)?;
    versions(&rt)?;
    schedules(&rt)?;
    over(&rt)?;
    large(&rt)?;
    limits(&rt)
}
