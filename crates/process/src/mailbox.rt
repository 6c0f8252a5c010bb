// A mailbox in place (document 01: inbox): unread words, oldest first, as `mail` says. The call asks nothing of its caller.
ghost use Rattle.process.specs.Mailbox.{Appended};

use crate::mail::place;
use backup::limits::LOG;
use words::packed;

// A word arrives: it goes behind the `unread` others, the oldest of which stands at place `first`.
pub fn append(mail: &mut [u64; LOG], first: usize, unread: usize, channel: u32, word: u32)
    ensures { Appended mail.old first unread channel word mail.new }
{
    mail[place(first, unread)] = packed(channel, word);
}
