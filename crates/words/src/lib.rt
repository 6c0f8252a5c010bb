// Small functions on numbers that know nothing of cabinets: widening, clamps, the least of two, the low byte, and two words in one number.
#![tactic(auto)]

ghost use Rattle.std.specs.Prelude.{◌≡◌, cond, ◌+◌, ◌*◌, ◌%◌, ◌^◌, ◌≤◌, ◌<◌, min};
ghost use Rattle.words.specs.Words.{pack, high_in, low_in};

// ---- the same number, wider

pub fn wide(x: u32) -> usize
    ensures { (result ≡ x) × (result < 2 ^ 32) }
{
    x as usize
}

pub fn byte_wide(x: u8) -> usize
    ensures { (result ≡ x) × (result < 256) }
{
    x as usize
}

pub fn byte_word(x: u8) -> u32
    ensures { (result ≡ x) × (result < 256) }
{
    x as u32
}

// Two bytes as one number, the higher first.
pub fn pair(b1: u8, b0: u8) -> usize
    ensures { (result ≡ b1 * 256 + b0) × (result < 65536) }
{
    byte_wide(b1) * 256 + byte_wide(b0)
}

// ---- clamps

// A place of a list of N: a number below N, and any other by its remainder.
pub fn index<const N: usize>(x: u32) -> usize
    requires { 0 < N }
    ensures { (result < N) × (x < N → result ≡ x) }
{
    wide(x) % N
}

// The lesser of two.
pub fn least(a: usize, b: usize) -> usize
    ensures { result ≡ min a b }
{
    if a < b { a } else { b }
}

// A count of at most N; N stands for any that is more.
pub fn most<const N: usize>(n: usize) -> usize
    ensures { (result ≤ N) × (n ≤ N → result ≡ n) }
{
    if n > N { N } else { n }
}

// ---- bits

pub fn low_byte(x: u32) -> u8
    ensures { result ≡ x % 256 }
{
    (x % 256) as u8
}

// 1 for true.
pub fn flag(x: bool) -> u64
    ensures { (result ≡ cond x 1 0) × (result ≤ 1) }
{
    if x { 1 } else { 0 }
}

// ---- two words in one number

pub fn packed(high: u32, low: u32) -> u64
    ensures { result ≡ pack high low }
{
    (high as u64) * 4294967296 + (low as u64)
}

pub fn high_of(x: u64) -> u32
    ensures { result ≡ high_in x }
{
    (x / 4294967296) as u32
}

pub fn low_of(x: u64) -> u32
    ensures { result ≡ low_in x }
{
    (x % 4294967296) as u32
}
