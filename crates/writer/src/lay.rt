// A table's bytes, laid out in a buffer from lists of which numbers 2 to 4 hold.
ghost use Rattle.std.specs.Prelude.{◌≡◌, map, ◌+◌, ◌*◌, ◌≤◌, length, drop};
ghost use Rattle.std.proofs.lemmas.List.Edits.{sets};
ghost use Rattle.rules.specs.Sizes.{table_most, limit_bytes, record_head};
ghost use Rattle.rules.specs.Encode.{instruction_bytes, program_bytes, encode};
ghost use Rattle.writer.specs.Given.{given_by, Fitting, Programs};
ghost use Rattle.writer.specs.Fitted.{fit_byte, fit_threes, fitted, head_bytes, head_for, records_laid};

use crate::write::{Head, Lists};
use records::store::put_six;
use table::format::{HEAD, WITH_LIMITS};
use table::record::record_head;
use words::{low_byte, wide};

// A number as a byte. One that fits none becomes 254, which is no end, board, code or register: what looks at it refuses either.
fn fit(x: u32) -> u8
    ensures { result ≡ fit_byte x }
{
    if x < 256 { x as u8 } else { 254 }
}

// Six bytes at `at`: code, `a` and the operand.
fn put_instruction(bytes: &mut [u8], at: usize, code: u32, a: u32, operand: u32)
    requires { at + 6 ≤ length bytes.old }
    ensures { bytes.new ≡ sets bytes.old at (instruction_bytes (fit_byte code) (fit_byte a) operand) }
{
    put_six(bytes, at, fit(code), fit(a), operand);
}

// The n instructions from the i-th on.
fn put_program(bytes: &mut [u8], at: usize, n: usize, instructions: &[u32], i: usize)
    requires { (at + 6 * n ≤ length bytes.old) × (3 * (i + n) ≤ length instructions.now) }
    ensures { bytes.new
        ≡ sets bytes.old at (program_bytes n (drop (3 * i) (fit_threes instructions.now))) }
{
    for k in 0..n {
        let j = 3 * (i + k);
        put_instruction(
            bytes,
            at + 6 * k,
            instructions[j],
            instructions[j + 1],
            instructions[j + 2],
        );
    }
}

// The numbers of a list, a byte each, from `at` on.
fn put_ends(bytes: &mut [u8], at: usize, ends: &[u32])
    requires { at + length ends.now ≤ length bytes.old }
    ensures { bytes.new ≡ sets bytes.old at (map fit_byte ends.now) }
{
    for k in 0..ends.len() {
        bytes[at + k] = fit(ends[k]);
    }
}

// The head of a table that has so many bytes behind its length.
fn put_head(bytes: &mut [u8], size: u32, head: Head)
    requires { 6 ≤ length bytes.old }
    ensures { bytes.new ≡ sets bytes.old 0 (head_bytes size head) }
{
    bytes[0] = low_byte(size / 256);
    bytes[1] = low_byte(size);
    bytes[2] = fit(head.version);
    bytes[3] = fit(head.boards);
    bytes[4] = fit(head.processes);
    bytes[5] = fit(head.channels);
}

impl Lists<'_> {
    // The bytes before the instructions of process p, at `at`: its boards, its limit where the version has one, and n, the last of them.
    fn put_placement(&self, bytes: &mut [u8], at: usize, p: usize)
        requires version_in_bounds { at + record_head self.now.head.version ≤ length bytes.old }
        requires p_in_bounds { 3 * p + 3 ≤ length self.now.placements.now }
        requires p_in_bounds_2 { limit_bytes self.now.head.version * (p + 1) ≤ length self.now.limits.now }
        ensures { bytes.new ≡ sets bytes.old at (head_for (given_by self.now) p) }
    {
        let last = at + record_head(self.head.version) - 1;
        bytes[at] = fit(self.placements[3 * p]);
        bytes[at + 1] = fit(self.placements[3 * p + 1]);
        if self.head.version == WITH_LIMITS {
            bytes[at + 2] = fit(self.limits[p]);
        }
        bytes[last] = fit(self.placements[3 * p + 2]);
    }

    // One record for each process, from `at` on.
    fn put_records(&self, bytes: &mut [u8], at: usize)
        requires programs { Programs (given_by self.now) }
        requires instructions_in_bounds { at + length (records_laid (given_by self.now)) ≤ length bytes.old }
        ensures { bytes.new ≡ sets bytes.old at (records_laid (given_by self.now)) }
    {
        let processes = wide(self.head.processes);
        let before = record_head(self.head.version);
        let mut next = at;
        let mut i = 0;
        for p in 0..processes {
            let n = wide(self.placements[3 * p + 2]);
            self.put_placement(bytes, next, p);
            put_program(bytes, next + before, n, self.instructions, i);
            next += before + 6 * n;
            i += n;
        }
    }

    // The length of the table.
    pub(crate) fn table_length(&self) -> usize
        requires { Fitting (given_by self.now) }
        ensures { (result ≡ length (encode (fitted (given_by self.now)))) × (result ≤ 2 + table_most) }
    {
        HEAD + self.ends.len()
            + self.placements.len()
            + self.limits.len()
            + 2 * self.instructions.len()
    }

    // The whole table, from the buffer's first byte on.
    pub(crate) fn lay(&self, bytes: &mut [u8], total: usize)
        requires fitting { Fitting (given_by self.now) }
        requires total_value { total ≡ length (encode (fitted (given_by self.now))) }
        requires total_in_bounds { total ≤ length bytes.old }
        ensures { bytes.new ≡ sets bytes.old 0 (encode (fitted (given_by self.now))) }
    {
        put_head(bytes, (total - 2) as u32, self.head);
        put_ends(bytes, HEAD, self.ends);
        self.put_records(bytes, HEAD + self.ends.len());
    }
}
