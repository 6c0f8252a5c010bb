// One instruction of a program, read where it stands in the table.
ghost use Rattle.std.specs.Prelude.{◌≡◌};
ghost use Rattle.records.specs.Fetch.{numbered, fetched};

use crate::six::{Six, six_at, six_of};
use words::{byte_word, wide};

// Code, `a` and operand, as the six bytes say them.
#[derive(Clone, Copy)]
pub struct Instruction {
    pub code: u8,
    pub a: u32,
    pub operand: u32,
}

// An instruction of six bytes.
fn made(s: Six) -> Instruction
    ensures { result ≡ numbered s.first s.second s.word }
{
    Instruction {
        code: s.first,
        a: byte_word(s.second),
        operand: s.word,
    }
}

fn none() -> Instruction
    ensures { result ≡ numbered 0 0 0 }
{
    Instruction {
        code: 0,
        a: 0,
        operand: 0,
    }
}

// The k-th instruction of the program that is the part from byte `at` on; all 0 where the bytes end before it does.
pub fn fetch(table: &[u8], at: usize, k: usize) -> Instruction
    ensures { result ≡ fetched table.now at k }
{
    if at > table.len() {
        return none();
    }
    made(six_of(&table[at..], k))
}

// The same for the path of every step: both numbers are words, whose sum needs no care, so that one test is enough.
pub fn fetch_at(table: &[u8], at: u32, k: u32) -> Instruction
    ensures { result ≡ fetched table.now at k }
{
    let i = wide(at) + 6 * wide(k);
    if i + 6 > table.len() {
        return none();
    }
    made(six_at(table, i))
}
