// The bench program: "The program reads the table (as long as its length bytes say) and then, up to the end of input, the schedule from
// standard input", and prints the page (document 01, "The bench program's page").
//
// Proved: of the bytes read, `bench` makes `bench_page`, for every input, and the buffer has room for it (`Benched`); never more is read than is
// wanted (`Took`); of a reader whose bytes are known, what is read is its first bytes in their order, and none is lost (`Consumes`); and where as
// many were read as are wanted, what is left unread changes nothing, so that it is the page of all of standard input (`Benched`, `Wanted`). Assumed
// of standard input and output, since no contract can say it: bytes come in the input's order, fewer than asked for only where the input ends, and
// go out as they are. A read that fails counts as the input's end. A write that fails ends the program quietly.
#![tactic(auto)]

ghost use Rattle.std.specs.Prelude.{◌≤◌, length, take, drop};
ghost use Rattle.std.specs.Io.KnownBytes.{Consumes};
ghost use Rattle.bench.specs.Took.{FilledPart, Took};

use bench_input::bench::{PAGE_ROOM, bench};
use bench_input::wanted::{INPUT_ROOM, wanted};
use std::io::Read;
use words::least;

// Reads once, to the front of a buffer: how many bytes. None come at the input's end, and where the reading fails.
fn read_some<R: Read>(reader: &mut R, buffer: &mut [u8]) -> usize
    ensures within { result ≤ length buffer.new }
    ensures in_order { Consumes (R.remaining reader.old) (R.remaining reader.new) (take result buffer.new) }
{
    match reader.read(buffer) {
        Ok(n) => n,
        Err(_) => 0,
    }
}

// Reads into a part of a buffer until it is full or the input ends: where it ended.
fn read_part<R: Read>(reader: &mut R, input: &mut [u8], from: usize, to: usize) -> usize
    requires from_le_to { from ≤ to }
    requires to_in_bounds { to ≤ length input.old }
    ensures filled { FilledPart input.old from to result input.new }
    ensures in_order { Consumes (R.remaining reader.old) (R.remaining reader.new) (drop from (take result input.new)) }
{
    let mut end = from;
    // A while: how far each read comes, the read tells.
    while end < to {
        let n = read_some(reader, &mut input[end..to]);
        if n == 0 {
            break;
        }
        end += n;
    }
    end
}

// Reads as many bytes as are wanted, or all that there are, or as many as have room: how many.
fn read_input<R: Read>(reader: &mut R, input: &mut [u8]) -> usize
    ensures took { Took result input.new }
    ensures in_order { Consumes (R.remaining reader.old) (R.remaining reader.new) (take result input.new) }
{
    if input.len() < 2 {
        return 0;
    }
    let first = read_part(reader, input, 0, 2);
    if first < 2 {
        return first;
    }
    let end = least(wanted(&input[..2]), input.len());
    if end <= 2 {
        return 2;
    }
    read_part(reader, input, 2, end)
}

fn main(rt: HostRuntime) {
    let mut input = [0u8; INPUT_ROOM];
    let mut page = [0u8; PAGE_ROOM];
    let n = read_input(&mut rt.stdin(), &mut input);
    let length = bench(&input[..n], &mut page);
    let _ = rt.write_all(&page[..length]);
}
