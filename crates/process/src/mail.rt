// The words of a mailbox (document 01: inbox). A word is one number: channel times 2^32, plus word. A mailbox is a ring: its words stand from
// the oldest's place on, and behind the last place comes the first.
ghost use Rattle.std.specs.Prelude.{◌≡◌};
ghost use Rattle.process.specs.Row.{place_in, packed_at, mail_in};

use crate::process::Process;
use backup::limits::LOG;
use words::{high_of, low_of, wide};

// The places of the ring, in the width in which a process counts them.
pub const PLACES: u32 = LOG as u32;

pub fn channel_of(x: u64) -> u32
    ensures { result ≡ (mail_in x).channel }
{
    high_of(x)
}

pub fn word_of(x: u64) -> u32
    ensures { result ≡ (mail_in x).word }
{
    low_of(x)
}

// Where the word at a position stands; the oldest, at position 0, stands at `first`.
pub fn place(first: usize, i: usize) -> usize
    ensures { result ≡ place_in first i }
{
    (first % LOG + i % LOG) % LOG
}

impl Process {
    // The word at a position of the process's mailbox.
    pub fn word_at(&self, i: usize) -> u64
        ensures { result ≡ packed_at self.now.oldest self.now.mail i }
    {
        self.mail[place(wide(self.oldest), i)]
    }
}
