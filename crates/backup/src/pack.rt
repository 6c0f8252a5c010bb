// A message as one number: port times 2^32, plus word (`words::packed`).
ghost use Rattle.std.specs.Prelude.{◌≡◌};
ghost use Rattle.backup.specs.Place.{port_in, word_in};

use words::{high_of, low_of};

pub fn port_of(x: u64) -> u32
    ensures { result ≡ port_in x }
{
    high_of(x)
}

pub fn word_of(x: u64) -> u32
    ensures { result ≡ word_in x }
{
    low_of(x)
}
