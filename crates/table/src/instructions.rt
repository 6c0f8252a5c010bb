// Number 8: the instructions of a table of which numbers 1 to 4 hold.
ghost use Rattle.std.specs.Prelude.{◌≡◌, ◌*◌, ◌≤◌, length, true};
ghost use Rattle.rules.specs.Judge.{instructions_ok};
ghost use Rattle.rules.specs.Format.{records_start, record_length, decode_table, extent_ok};
ghost use Rattle.table.specs.Judging.{end_is, channels_pass, mask_ok, passes, program_ok, record_ok};

use crate::extent::records_start;
use crate::format::{CHANNELS_AT, PAIR_READER, PAIR_SENDER, PROCESSES_AT};
use crate::record::{program_length, record_head, record_length, version_of};
use records::fetch::{Instruction, fetch};
use words::{byte_wide, wide};

// Whether k is a channel of the table whose sender (side 6) or reader (side 7) is process p.
fn end_is(table: &[u8], side: usize, k: u32, p: u8) -> bool
    requires { (records_start table.now ≤ length table.now) × (side ≤ 7) }
    ensures { result ≡ end_is table.now side k p }
{
    let channel = wide(k);
    if channel >= byte_wide(table[CHANNELS_AT]) {
        return false;
    }
    table[2 * channel + side] == p
}

// Whether process p reads every channel of a mask, lowest first.
fn channels_pass(table: &[u8], p: u8, mask: u32) -> bool
    requires { records_start table.now ≤ length table.now }
    ensures { result ≡ channels_pass (decode_table table.now) p mask }
{
    let mut left = mask;
    // A while: it takes the lowest bit that is left, and counts no index.
    while left != 0 {
        let k = u32::trailing_zeros(left);
        if !end_is(table, PAIR_READER, k, p) {
            return false;
        }
        left -= 1 << k;
    }
    true
}

// "The mask has one to four bits set, all channels below C that this process reads."
fn mask_ok(table: &[u8], p: u8, mask: u32) -> bool
    requires { records_start table.now ≤ length table.now }
    ensures { result ≡ mask_ok (decode_table table.now) p mask }
{
    let ones = u32::count_ones(mask);
    if ones < 1 {
        return false;
    }
    if ones > 4 {
        return false;
    }
    channels_pass(table, p, mask)
}

// One instruction of process p, whose program has n of them.
fn instruction_ok(table: &[u8], p: u8, n: usize, i: Instruction) -> bool
    requires { records_start table.now ≤ length table.now }
    ensures { result ≡ passes (decode_table table.now) p n i }
{
    let code = i.code;
    match code {
        1 => i.a < 4,
        2 => i.a < 4 && i.operand < 4,
        3 => i.a < 4 && end_is(table, PAIR_READER, i.operand, p),
        4 => i.a < 3 && mask_ok(table, p, i.operand),
        5 => i.a < 4 && end_is(table, PAIR_SENDER, i.operand, p),
        6 => i.a < 4 && wide(i.operand) <= n,
        _ => false,
    }
}

// A program: the n instructions that begin a part of the table.
fn program_ok(table: &[u8], p: u8, n: usize, program: &[u8]) -> bool
    requires { (records_start table.now ≤ length table.now) × (6 * n ≤ length program.now) }
    ensures { result ≡ program_ok (decode_table table.now) p n program.now }
{
    for k in 0..n {
        if !instruction_ok(table, p, n, fetch(program, 0, k)) {
            return false;
        }
    }
    true
}

// The program of the record that begins the table's rest.
fn record_ok(table: &[u8], version: u32, p: u8, rest: &[u8]) -> bool
    requires { (records_start table.now ≤ length table.now) × (record_length version rest.now ≤ length rest.now) }
    ensures { result ≡ record_ok (decode_table table.now) version p rest.now }
{
    let n = byte_wide(program_length(version, rest));
    let head = record_head(version);
    program_ok(table, p, n, &rest[head..])
}

// Number 8 over the whole table, record by record: each gets the table's rest from its start on.
pub fn instructions_ok(table: &[u8]) -> bool
    requires { extent_ok table.now ≡ true }
    ensures { result ≡ instructions_ok (decode_table table.now) }
{
    let version = version_of(table);
    let processes = table[PROCESSES_AT];
    let mut at = records_start(table);
    for p in 0..processes {
        let rest = &table[at..];
        if !record_ok(table, version, p, rest) {
            return false;
        }
        at += record_length(version, rest);
    }
    true
}
