// The counts of a table, and numbers 2 and 3, as the reader of a table and the writer judge them.
ghost use Rattle.std.specs.Prelude.{◌≡◌, ◌&&◌, leb};
ghost use Rattle.rules.specs.Format.{version_ok, counts_fit};
ghost use Rattle.table.specs.Parts.{counts_in};

use crate::format::{
    BOARDS_AT, BOARDS_LEAST, CHANNELS_AT, PROCESSES_AT, WITH_LIMITS, WITHOUT_LIMITS,
};
use plan::{BOARDS as BOARDS_MOST, CHANNELS as CHANNELS_MOST, Counts, PROCESSES as PROCESSES_MOST};
use records::bytes::byte;
use words::byte_wide;

// How many boards, processes and channels a table has.
pub fn counts_of(table: &[u8]) -> Counts
    ensures { result ≡ counts_in table.now }
{
    Counts {
        boards: byte_wide(byte(table, BOARDS_AT)),
        processes: byte_wide(byte(table, PROCESSES_AT)),
        channels: byte_wide(byte(table, CHANNELS_AT)),
    }
}

// 2: the version.
pub fn version_ok(version: u32) -> bool
    ensures { result ≡ version_ok version }
{
    version == WITHOUT_LIMITS || version == WITH_LIMITS
}

fn within(low: usize, n: usize, high: usize) -> bool
    ensures { result ≡ (leb low n && leb n high) }
{
    low <= n && n <= high
}

// 3: the counts of boards, processes and channels.
pub fn counts_fit(boards: usize, processes: usize, channels: usize) -> bool
    ensures { result ≡ counts_fit boards processes channels }
{
    within(BOARDS_LEAST, boards, BOARDS_MOST)
        && (within(1, processes, PROCESSES_MOST) && within(1, channels, CHANNELS_MOST))
}
