// Where the parts of a process's record stand, by the table's version: in version 2 its limit stands between the backup board and n.
ghost use Rattle.std.specs.Prelude.{◌≡◌, ◌≤◌};
ghost use Rattle.rules.specs.Bytes.{byte_at};
ghost use Rattle.rules.specs.Format.{version_in, length_place, record_head, program_length, record_length, limit_said};

use crate::format::{LIMIT, LIMIT_BEFORE, WITH_LIMITS};
use records::bytes::byte;
use records::head::VERSION;
use words::{byte_wide, byte_word};

// The version of a table.
pub fn version_of(table: &[u8]) -> u32
    ensures { result ≡ version_in table.now }
{
    byte_word(byte(table, VERSION))
}

// The place of n in a record; the instructions stand behind it.
pub fn length_place(version: u32) -> usize
    ensures { (result ≡ length_place version) × (result ≤ 3) }
{
    if version == WITH_LIMITS { 3 } else { 2 }
}

// How many bytes a record has before its instructions.
pub fn record_head(version: u32) -> usize
    ensures { (result ≡ record_head version) × (result ≤ 4) }
{
    1 + length_place(version)
}

// n of the record that begins a rest.
pub fn program_length(version: u32, rest: &[u8]) -> u8
    ensures { result ≡ program_length version rest.now }
{
    byte(rest, length_place(version))
}

// Its length.
pub fn record_length(version: u32, rest: &[u8]) -> usize
    ensures { result ≡ record_length version rest.now }
{
    record_head(version) + 6 * byte_wide(program_length(version, rest))
}

// Its limit; where the version has none, that of every process of version 1.
pub fn limit_of(version: u32, rest: &[u8]) -> u8
    ensures { result ≡ limit_said version (byte_at rest.now 2) }
{
    if version == WITH_LIMITS {
        byte(rest, LIMIT)
    } else {
        LIMIT_BEFORE
    }
}
