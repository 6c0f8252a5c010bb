// Numbers 1 to 4 of a table: its length, its version, its counts, and where its pairs and records end.
ghost use Rattle.std.specs.Prelude.{◌≡◌};
ghost use Rattle.rules.specs.Format.{records_start, length_ok, counts_ok, extent_ok};
ghost use Rattle.numbers.specs.Runs.{number_in};
ghost use Rattle.table.specs.Parts.{record_in, framing};

use crate::counts::{counts_fit, counts_of, version_ok};
use crate::format::{CHANNELS_AT, HEAD, PROCESSES_AT, PROGRAM_MOST, TABLE_MOST};
use crate::record::{program_length, record_length, version_of};
use numbers::runs::Refusal;
use records::bytes::byte;
use words::{byte_wide, pair};

// 1: at least a head, and a length field that is at most 6,276 and the true one.
fn length_ok(table: &[u8]) -> bool
    ensures { result ≡ length_ok table.now }
{
    if table.len() < HEAD {
        return false;
    }
    let field = pair(byte(table, 0), byte(table, 1));
    if field > TABLE_MOST {
        return false;
    }
    2 + field == table.len()
}

// 3: the counts of boards, processes and channels.
fn counts_ok(table: &[u8]) -> bool
    ensures { result ≡ counts_ok table.now }
{
    let n = counts_of(table);
    counts_fit(n.boards, n.processes, n.channels)
}

// Where the first record begins, behind the pairs.
pub fn records_start(table: &[u8]) -> usize
    ensures { result ≡ records_start table.now }
{
    HEAD + 2 * byte_wide(byte(table, CHANNELS_AT))
}

// The length of the record that begins a rest; none where it has over 64 instructions or the rest ends within it.
fn record_in(version: u32, rest: &[u8]) -> Option<usize>
    ensures { result ≡ record_in version rest.now }
{
    if byte_wide(program_length(version, rest)) > PROGRAM_MOST {
        return None;
    }
    let length = record_length(version, rest);
    if length > rest.len() {
        return None;
    }
    Some(length)
}

// 4: each record has at most 64 instructions, and pairs and records end exactly with the table.
fn extent_ok(table: &[u8]) -> bool
    ensures { result ≡ extent_ok table.now }
{
    let mut at = records_start(table);
    if at > table.len() {
        return false;
    }
    let version = version_of(table);
    let processes = byte_wide(byte(table, PROCESSES_AT));
    for _ in 0..processes {
        let Some(length) = record_in(version, &table[at..]) else {
            return false;
        };
        at += length;
    }
    at == table.len()
}

// Numbers 1 to 4, the lowest that doesn't hold.
pub fn judge_extent(table: &[u8]) -> Result<(), Refusal>
    ensures { number_in result ≡ framing table.now }
{
    if !length_ok(table) {
        return Err(Refusal::TableLength);
    }
    if !version_ok(version_of(table)) {
        return Err(Refusal::TableVersion);
    }
    if !counts_ok(table) {
        return Err(Refusal::TableCounts);
    }
    if !extent_ok(table) {
        return Err(Refusal::TableExtent);
    }
    Ok(())
}
