// A table taken apart (document 02, W-201): its bytes become lists of numbers again, in lent lists. Crate `writer` makes a table of such lists.
#![tactic(auto)]

ghost use Rattle.std.specs.Prelude.{◌≡◌, [], ◌∷◌, ◌+◌, ◌*◌, ◌≤◌, ◌<◌, length, take, drop};
ghost use Rattle.std.proofs.lemmas.List.Edits.{sets};
ghost use Rattle.rules.specs.Bytes.{byte_at};
ghost use Rattle.rules.specs.Sizes.{table_most, limit_bytes};
ghost use Rattle.rules.specs.Format.{version_in, processes_in, validate_table};
ghost use Rattle.rules.specs.Encode.{program_in, placements_in, limits_in, instructions_in, apart};
ghost use Rattle.apart.specs.Taken.{TakesApart, lent};
ghost use Rattle.apart.specs.Taking.{Records, Room, room_for, ListsTaken};

use numbers::runs::Refusal;
use records::bytes::byte;
use records::fetch::fetch;
use records::head::VERSION;
use table::decode;
use table::format::{BOARDS_AT, CHANNELS_AT, HEAD, LIMIT, PROCESSES_AT, WITH_LIMITS};
use table::record::{length_place, record_length, version_of};
use words::{byte_wide, byte_word};

// What a table's head says behind its length, and how many instructions there are.
#[derive(Clone, Copy)]
pub struct Taken {
    pub version: u8,
    pub boards: u8,
    pub processes: u8,
    pub channels: u8,
    pub instructions: u32,
}

// The n bytes from `at` on, as numbers at the front of a list.
fn take_bytes(table: &[u8], at: usize, n: usize, out: &mut [u32])
    requires { (at + n ≤ length table.now) × (n ≤ length out.old) }
    ensures { out.new ≡ sets out.old 0 (take n (drop at table.now)) }
{
    for k in 0..n {
        out[k] = byte_word(table[at + k]);
    }
}

// The n instructions of a program that begins at `at`, as the i-th and those behind it.
fn take_program(table: &[u8], at: usize, n: usize, out: &mut [u32], i: usize)
    requires { (at + 6 * n ≤ length table.now) × (3 * (i + n) ≤ length out.old) }
    ensures { out.new ≡ sets out.old (3 * i) (program_in n (drop at table.now)) }
{
    for k in 0..n {
        let j = 3 * (i + k);
        let s = fetch(table, at, k);
        out[j] = byte_word(s.code);
        out[j + 1] = s.a;
        out[j + 2] = s.operand;
    }
}

// The boards of the record at `at` and the n that stands at `place`, as those of process p.
fn take_placement(table: &[u8], at: usize, place: usize, out: &mut [u32], p: usize)
    requires { ((at + 1 < length table.now) × (place < length table.now)) × (3 * p + 3 ≤ length out.old) }
    ensures { out.new ≡ sets out.old (3 * p) (byte_at table.now at
        ∷ byte_at table.now (at + 1) ∷ byte_at table.now place ∷ []) }
{
    out[3 * p] = byte_word(table[at]);
    out[3 * p + 1] = byte_word(table[at + 1]);
    out[3 * p + 2] = byte_word(table[place]);
}

// The records from `at` on, one for each process.
fn take_records(
    table: &[u8],
    at: usize,
    version: u32,
    processes: usize,
    placements: &mut [u32],
    instructions: &mut [u32],
)
    requires records { Records version processes (drop at table.now) }
    requires table_in_bounds { length (placements_in version processes (drop at table.now)) ≤ length placements.old }
    requires table_in_bounds_2 { length (instructions_in version processes (drop at table.now)) ≤ length instructions.old }
    ensures { (placements.new
        ≡ sets placements.old 0 (placements_in version processes (drop at table.now)))
        × (instructions.new
        ≡ sets instructions.old 0 (instructions_in version processes (drop at table.now))) }
{
    let place = length_place(version);
    let mut next = at;
    let mut i = 0;
    for p in 0..processes {
        let n = byte_wide(table[next + place]);
        take_placement(table, next, next + place, placements, p);
        take_program(table, next + (1 + place), n, instructions, i);
        next += 1 + place + 6 * n;
        i += n;
    }
}

// The limits of the records from `at` on, one for each process, where the version has them.
fn take_limits(table: &[u8], at: usize, version: u32, processes: usize, limits: &mut [u32])
    requires records { Records version processes (drop at table.now) }
    requires table_in_bounds { length (limits_in version processes (drop at table.now)) ≤ length limits.old }
    ensures { limits.new ≡ sets limits.old 0 (limits_in version processes (drop at table.now)) }
{
    if version != WITH_LIMITS {
        return;
    }
    let mut next = at;
    for p in 0..processes {
        limits[p] = byte_word(table[next + LIMIT]);
        next += record_length(version, &table[next..]);
    }
}

// How many limits a table has.
fn limits_in(table: &[u8]) -> usize
    ensures { result ≡ limit_bytes (version_in table.now) * processes_in table.now }
{
    if version_of(table) == WITH_LIMITS {
        byte_wide(byte(table, PROCESSES_AT))
    } else {
        0
    }
}

// How many instructions an accepted table has, from its length.
fn instructions_in(table: &[u8]) -> usize
    requires { validate_table table.now ≡ 0 }
    ensures { (3 * result ≡ length (apart table.now).instructions) × (result ≤ 2 + table_most) }
{
    (table.len()
        - HEAD
        - 2 * byte_wide(byte(table, CHANNELS_AT))
        - 3 * byte_wide(byte(table, PROCESSES_AT))
        - limits_in(table))
        / 6
}

// The lists of an accepted table, into lists that have room for them.
fn take_lists(
    table: &[u8],
    ends: &mut [u32],
    placements: &mut [u32],
    limits: &mut [u32],
    instructions: &mut [u32],
)
    requires table_value { validate_table table.now ≡ 0 }
    requires room { Room table.now (lent ends.old placements.old limits.old instructions.old) }
    ensures { ListsTaken table.now
        (lent ends.old placements.old limits.old instructions.old)
        (lent ends.new placements.new limits.new instructions.new) }
{
    let version = version_of(table);
    let processes = byte_wide(byte(table, PROCESSES_AT));
    let pairs = 2 * byte_wide(byte(table, CHANNELS_AT));
    take_bytes(table, HEAD, pairs, ends);
    take_limits(table, HEAD + pairs, version, processes, limits);
    take_records(
        table,
        HEAD + pairs,
        version,
        processes,
        placements,
        instructions,
    );
}

// Whether lists of so many numbers have room for a table's: two for each channel, three for each process, the limits, and three for each
// instruction.
fn has_room(
    table: &[u8],
    total: usize,
    ends: usize,
    placements: usize,
    limits: usize,
    instructions: usize,
) -> bool
    requires { (validate_table table.now ≡ 0) × ((3 * total ≡ length (apart table.now).instructions) × (total ≤ 2 + table_most)) }
    ensures { result ≡ room_for table.now ends placements limits instructions }
{
    2 * byte_wide(byte(table, CHANNELS_AT)) <= ends
        && (3 * byte_wide(byte(table, PROCESSES_AT)) <= placements
            && (limits_in(table) <= limits && 3 * total <= instructions))
}

// A table's lists go to the fronts of four lent ones, and what is behind them stays; where the version has no limits, none are written. Refused,
// by the reader's number or by 45 where one of the four is too short, they stay as they were.
pub fn take_apart(
    table: &[u8],
    ends: &mut [u32],
    placements: &mut [u32],
    limits: &mut [u32],
    instructions: &mut [u32],
) -> Result<Taken, Refusal>
    ensures { TakesApart table.now
        (lent ends.old placements.old limits.old instructions.old) result
        (lent ends.new placements.new limits.new instructions.new) }
{
    decode(table)?;
    let total = instructions_in(table);
    if !has_room(
        table,
        total,
        ends.len(),
        placements.len(),
        limits.len(),
        instructions.len(),
    ) {
        return Err(Refusal::NoRoom);
    }
    take_lists(table, ends, placements, limits, instructions);
    Ok(Taken {
        version: byte(table, VERSION),
        boards: byte(table, BOARDS_AT),
        processes: byte(table, PROCESSES_AT),
        channels: byte(table, CHANNELS_AT),
        instructions: total as u32,
    })
}
