// The length field of the input. Past its end a byte is 0, as in the definitions.
ghost use Rattle.std.specs.Prelude.{◌≡◌, ◌≤◌};
ghost use Rattle.rules.specs.Format.{length_field};

use records::bytes::byte;
use words::pair;

// "Bytes 0 and 1: the length of all that follows them".
pub fn length_field(s: &[u8]) -> usize
    ensures { (result ≡ length_field s.now) × (result ≤ 65535) }
{
    pair(byte(s, 0), byte(s, 1))
}
