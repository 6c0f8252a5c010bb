// Numbers 7 and 47 of a table of which numbers 1 to 4 hold: the boards and the limits of its processes. The pass over the records for 7 leaves
// its part of the plan, and 47 looks at the limits there.
ghost use Rattle.std.specs.Prelude.{◌≡◌, ◌≤◌};
ghost use Rattle.rules.specs.Judge.{limit_ok};
ghost use Rattle.rules.specs.Format.{processes_most};
ghost use Rattle.table.specs.Parts.{two_boards, PlacedIn, PlacementsRead, limits_pass, Framed};

use crate::extent::records_start;
use crate::format::{BOARDS_AT, LIMIT_LEAST, LIMIT_MOST, PRIMARY, PROCESSES_AT, STANDBY};
use crate::record::{limit_of, program_length, record_head, record_length, version_of};
use plan::{NO_PLACEMENT, PROCESSES as PROCESSES_MOST, Placement, Program};
use records::bytes::byte;
use words::{byte_wide, byte_word};

// The record of one process whose boards are right: its boards, its limit and n, how far into the record its instructions begin, and its length.
#[derive(Clone, Copy)]
struct Placed {
    placement: Placement,
    limit: u32,
    n: u32,
    head: usize,
    size: usize,
}

// What number 7 finds where all boards are right: both boards of each process, and in its program where in the table its instructions begin, how
// many there are, and its limit.
#[derive(Clone, Copy)]
pub struct Placements {
    pub programs: [Program; PROCESSES_MOST],
    pub placements: [Placement; PROCESSES_MOST],
}

// Two different boards of the table.
fn boards_ok(boards: u8, primary: u8, standby: u8) -> bool
    ensures { result ≡ two_boards boards primary standby }
{
    primary < boards && (standby < boards && primary != standby)
}

// The record that begins the table's rest.
fn placement_of(version: u32, rest: &[u8], boards: u8) -> Option<Placed>
    ensures { PlacedIn version boards rest.now result }
{
    let primary = byte(rest, PRIMARY);
    let standby = byte(rest, STANDBY);
    if !boards_ok(boards, primary, standby) {
        return None;
    }
    Some(Placed {
        placement: Placement {
            primary: byte_word(primary),
            standby: byte_word(standby),
        },
        limit: byte_word(limit_of(version, rest)),
        n: byte_word(program_length(version, rest)),
        head: record_head(version),
        size: record_length(version, rest),
    })
}

// 7: each process has two different boards. Each record is judged by itself, from the table's rest that begins with it. The programs are those
// that number 6 left, and what it wrote there stays.
pub fn judge_boards(table: &[u8], read: &[Program; PROCESSES_MOST]) -> Option<Placements>
    requires { Framed table.now }
    ensures { PlacementsRead table.now read.now result }
{
    let version = version_of(table);
    let boards = byte(table, BOARDS_AT);
    let processes = byte_wide(byte(table, PROCESSES_AT));
    let mut programs = *read;
    let mut placements = [NO_PLACEMENT; PROCESSES_MOST];
    let mut at = records_start(table);
    for p in 0..processes {
        let r = placement_of(version, &table[at..], boards)?;
        programs[p] = Program {
            start: (at + r.head) as u32,
            length: r.n,
            limit: r.limit,
            ..programs[p]
        };
        placements[p] = r.placement;
        at += r.size;
    }
    Some(Placements {
        programs: programs,
        placements: placements,
    })
}

// A limit, 1 to 16.
fn limit_ok(limit: u32) -> bool
    ensures { result ≡ limit_ok limit }
{
    limit >= LIMIT_LEAST && limit <= LIMIT_MOST
}

// 47: the limits of so many processes.
pub fn limits_ok(programs: &[Program; PROCESSES_MOST], processes: usize) -> bool
    requires { processes ≤ processes_most }
    ensures { result ≡ limits_pass programs.now processes }
{
    for p in 0..processes {
        if !limit_ok(programs[p].limit) {
            return false;
        }
    }
    true
}
