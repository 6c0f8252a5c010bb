// Numbers out of a lent buffer. Past its end a byte is 0, as in the definitions, so a reader asks nothing of a buffer's length.
ghost use Rattle.std.specs.Prelude.{◌≡◌, ◌+◌, ◌<◌};
ghost use Rattle.rules.specs.Bytes.{byte_at};
ghost use Rattle.rules.specs.Page.{register_at};
ghost use Rattle.page.specs.Put.{most};

pub fn byte(bytes: &[u8], i: usize) -> u64
    ensures { (result ≡ byte_at bytes.now i) × (result < 256) }
{
    records::bytes::byte(bytes, i) as u64
}

// A word in four bytes, the highest first.
pub fn word(bytes: &[u8], i: usize) -> u64
    requires { i + 3 < most }
    ensures { result ≡ register_at bytes.now i }
{
    let b3 = byte(bytes, i);
    let b2 = byte(bytes, i + 1);
    let b1 = byte(bytes, i + 2);
    let b0 = byte(bytes, i + 3);
    b3 * 16777216 + b2 * 65536 + b1 * 256 + b0
}
