// Text into a lent buffer at a position: a byte, a run of bytes, a number in decimal. Each call answers the position behind. What has no
// room is left out and counted all the same, so that a call on a buffer of one byte tells a text's length.
ghost use Rattle.std.specs.Prelude.{◌≡◌, [], ◌∷◌, ◌++◌, ◌+◌, ◌%◌, length, drop};
ghost use Rattle.rules.specs.Page.{decimal};
ghost use Rattle.page.specs.Put.{Put};

// What stands behind a word of a line.
pub const SPACE: u8 = 32;

pub const LINE_FEED: u8 = 10;

fn put(out: &mut [u8], at: usize, byte: u8) -> usize
    ensures { Put (byte ∷ []) out.old at result out.new }
{
    if at < out.len() {
        out[at] = byte;
        return at + 1;
    }
    if at < usize::MAX { at + 1 } else { at }
}

// The text from one of its bytes on.
pub fn put_text(out: &mut [u8], at: usize, text: &[u8], from: usize) -> usize
    ensures { Put (drop from text.now) out.old at result out.new }
{
    let mut to = at;
    for i in from..text.len() {
        to = put(out, to, text[i]);
    }
    to
}

fn digit(n: u64) -> u8
    ensures { result ≡ 48 + n % 10 }
{
    (n % 10) as u8 + 48
}

// A number's digits, at the end of 20 bytes: where they begin.
fn spell(n: u64, text: &mut [u8; 20]) -> usize
    requires { length text.old ≡ 20 }
    ensures { (drop result text.new ≡ decimal n) × (length text.new ≡ 20) }
{
    let mut i = 19;
    let mut rest = n;
    // A while: how many digits there are, the number tells.
    while rest >= 10 {
        text[i] = digit(rest);
        rest /= 10;
        i -= 1;
    }
    text[i] = digit(rest);
    i
}

// "all decimal": a number, and the space or the line feed that stands behind it.
pub fn put_number(out: &mut [u8], at: usize, n: u64, after: u8) -> usize
    ensures { Put (decimal n ++ (after ∷ [])) out.old at result out.new }
{
    let mut text = [0u8; 20];
    let from = spell(n, &mut text);
    let to = put_text(out, at, &text, from);
    put(out, to, after)
}
