// Bytes stored where they belong. Document 01: "Everything is big-endian."
ghost use Rattle.std.specs.Prelude.{◌≡◌, ◌∷◌, ◌+◌, ◌≤◌, length};
ghost use Rattle.std.proofs.lemmas.List.Edits.{sets};
ghost use Rattle.rules.specs.Bytes.{word_bytes};

use words::low_byte;

// A word in four bytes.
pub fn put_word(bytes: &mut [u8], at: usize, word: u32)
    requires { at + 4 ≤ length bytes.old }
    ensures { bytes.new ≡ sets bytes.old at (word_bytes word) }
{
    bytes[at] = low_byte(word / 16777216);
    bytes[at + 1] = low_byte(word / 65536);
    bytes[at + 2] = low_byte(word / 256);
    bytes[at + 3] = low_byte(word);
}

// Six bytes as an instruction and an answer have them: two bytes and a word, which is stored first.
pub fn put_six(bytes: &mut [u8], at: usize, first: u8, second: u8, word: u32)
    requires { at + 6 ≤ length bytes.old }
    ensures { bytes.new ≡ sets bytes.old at (first ∷ second ∷ word_bytes word) }
{
    put_word(bytes, at + 2, word);
    bytes[at] = first;
    bytes[at + 1] = second;
}
