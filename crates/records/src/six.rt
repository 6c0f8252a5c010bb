// Six bytes as document 01 lays out an instruction and a schedule record alike: two bytes and a big-endian word.
ghost use Rattle.std.specs.Prelude.{◌≡◌, ◌+◌, ◌≤◌, length};
ghost use Rattle.rules.specs.Bytes.{number32};
ghost use Rattle.records.specs.Six.{six_of, six_at};

#[derive(Clone, Copy)]
pub struct Six {
    pub first: u8,
    pub second: u8,
    pub word: u32,
}

pub fn number32_of(b3: u8, b2: u8, b1: u8, b0: u8) -> u32
    ensures { result ≡ number32 b3 b2 b1 b0 }
{
    (b3 as u32) * 16777216 + (b2 as u32) * 65536 + (b1 as u32) * 256 + (b0 as u32)
}

// The six from byte i on.
pub fn six_at(bytes: &[u8], i: usize) -> Six
    requires { i + 6 ≤ length bytes.now }
    ensures { result ≡ six_at bytes.now i }
{
    Six {
        first: bytes[i],
        second: bytes[i + 1],
        word: number32_of(bytes[i + 2], bytes[i + 3], bytes[i + 4], bytes[i + 5]),
    }
}

// The k-th six of a part; zeros where the part ends before it does.
pub fn six_of(part: &[u8], k: usize) -> Six
    ensures { result ≡ six_of part.now k }
{
    if k >= part.len() / 6 {
        return Six {
            first: 0,
            second: 0,
            word: 0,
        };
    }
    six_at(part, 6 * k)
}
