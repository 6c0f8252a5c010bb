// The look into a mailbox in place (document 01: inbox): unread words, oldest first, in a ring as `process::mail` says. A word's position is 0
// where it is the oldest.
ghost use Rattle.std.specs.Prelude.{◌≡◌, ◌<◌};
ghost use Rattle.backup.specs.Limits.{log_most};
ghost use Rattle.rules.specs.Machine.{bit};
ghost use Rattle.instruction.specs.Mailbox.{names, Looks, Removed};

use backup::limits::LOG;
use process::mail::{channel_of, place};

// Whether a channel is in FIRST's mask.
pub fn wanted(mask: u32, channel: u32) -> bool
    ensures { result ≡ bit mask channel }
{
    if channel < 32 {
        (mask >> channel) & 1 == 1
    } else {
        false
    }
}

// Whether a TAKE (code 3) or a FIRST (4) names a channel.
pub fn named(code: u8, operand: u32, channel: u32) -> bool
    ensures { result ≡ names code operand channel }
{
    if code == 4 {
        wanted(operand, channel)
    } else {
        operand == channel
    }
}

// The position of the oldest word that a TAKE or a FIRST names; where there is none, `unread`.
pub fn look(mail: &[u64; LOG], first: usize, unread: usize, code: u8, operand: u32) -> usize
    ensures { Looks (names code operand) mail.now first unread result }
{
    for i in 0..unread {
        if named(code, operand, channel_of(mail[place(first, i)])) {
            return i;
        }
    }
    unread
}

// Takes the word at a position out: those before it move up by one, so that the oldest of the others stands one place further on. The oldest
// word itself is taken with no move.
pub fn remove(mail: &mut [u64; LOG], first: usize, at: usize)
    requires { at < log_most }
    ensures { Removed mail.old first at mail.new }
{
    for moved in 0..at {
        let i = at - moved;
        mail[place(first, i)] = mail[place(first, i - 1)];
    }
}
