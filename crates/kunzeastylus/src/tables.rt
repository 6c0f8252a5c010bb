// Tables written from lists and taken apart into lists, exported: what a call returns, in one number.
ghost use Rattle.std.specs.Prelude.{◌≡◌, ◌^◌, ◌<◌, IfOk};
ghost use Rattle.numbers.specs.Runs.{number_in};
ghost use Rattle.writer.specs.Given.{given};
ghost use Rattle.apart.specs.Taken.{lent};
ghost use Rattle.kunzeastylus.specs.Tables.{written_by, packed_written, WritesPacked, taken_by, packed_taken, Small, TakesPacked};

use apart::{Taken, take_apart};
use numbers::runs::Refusal;
use writer::write::{Head, Lists};

// number + 2^32 length
fn pack_written(r: Result<u32, Refusal>) -> u64
    ensures { (result ≡ packed_written (written_by r)) × (number_in r < 256) }
{
    match r {
        Ok(length) => 4294967296 * (length as u64),
        Err(refusal) => refusal.number() as u64,
    }
}

// The table that lists say, to the front of a lent buffer.
pub fn ks_table_write(
    version: u32,
    boards: u32,
    processes: u32,
    channels: u32,
    ends: &[u32],
    placements: &[u32],
    limits: &[u32],
    instructions: &[u32],
    out: &mut [u8],
) -> u64
    ensures { WritesPacked (given (record { version = version; boards = boards; processes = processes; channels = channels })
        ends.now placements.now limits.now instructions.now) out.old result out.new }
{
    let lists = Lists {
        head: Head {
            version: version,
            boards: boards,
            processes: processes,
            channels: channels,
        },
        ends: ends,
        placements: placements,
        limits: limits,
        instructions: instructions,
    };
    pack_written(lists.write(out))
}

// number + 256 boards + 2^16 processes + 2^24 channels + 2^32 instructions + 2^48 version
fn pack_taken(r: Result<Taken, Refusal>) -> u64
    requires { IfOk r (λ t. t.instructions < 2 ^ 16) }
    ensures { (result ≡ packed_taken (taken_by r)) × Small (taken_by r) }
{
    match r {
        Ok(t) => {
            256 * (t.boards as u64)
                + 65536 * (t.processes as u64)
                + 16777216 * (t.channels as u64)
                + 4294967296 * (t.instructions as u64)
                + 281474976710656 * (t.version as u64)
        }
        Err(refusal) => refusal.number() as u64,
    }
}

// The lists of a table, to the fronts of four lent ones.
pub fn ks_table_apart(
    table: &[u8],
    ends: &mut [u32],
    placements: &mut [u32],
    limits: &mut [u32],
    instructions: &mut [u32],
) -> u64
    ensures { TakesPacked table.now
        (lent ends.old placements.old limits.old instructions.old) result
        (lent ends.new placements.new limits.new instructions.new) }
{
    pack_taken(take_apart(table, ends, placements, limits, instructions))
}
