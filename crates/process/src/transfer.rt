// A resync, in one process: the record that its issue makes, and that its carry completes it.
// Document 02, W-210: "its snapshot and copies of all its unread words join the queue as one entry." "When that entry is carried, its other
// table board holds a new record with those words, then all that have arrived since issue, and count 0." While a process has no backup its
// log and its head are free: the new record is made there at issue, and from then on what arrives is saved in it.
ghost use Rattle.std.specs.Prelude.{◌≡◌, ◌≤◌};
ghost use Rattle.backup.specs.Limits.{log_most};
ghost use Rattle.rules.specs.Moves.{end_transfer};
ghost use Rattle.process.specs.Row.{completed_in};
ghost use Rattle.process.specs.Change.{Changes, MailStays, ListsStay};
ghost use Rattle.process.specs.Transfer.{Copied, BeginsTransfer};

use crate::mail::{channel_of, place, word_of};
use crate::process::{COMING, COMPLETE, Process};
use backup::limits::LOG;
use backup::place::{Head, arrive_in, new_in, sync_in};
use plan::{CHANNELS, Wire};
use words::wide;

// Copies of the len words of a mailbox from place `first` on join a log, each by its channel's port; one that is refused is left out.
fn copy(
    mail: &[u64; LOG],
    first: usize,
    len: usize,
    wires: &[Wire; CHANNELS],
    log: &mut [u64; LOG],
    head: &mut Head,
)
    requires { len ≤ log_most }
    ensures { Copied mail.now first len wires.now log.old head.old log.new
        head.new }
{
    for i in 0..len {
        let x = mail[place(first, i)];
        let k = wide(channel_of(x)) % CHANNELS;
        let _ = arrive_in(log, head, wires[k].port, word_of(x));
    }
}

impl Process {
    // "Acts, instructions and takes per slot start from 0 at issue": so the snapshot has no takes, and a fresh record keeps it whole. No
    // mailbox has more words than a log; of one that says so nothing changes.
    pub fn begin_transfer(&mut self, wires: &[Wire; CHANNELS])
        ensures became { BeginsTransfer self.old wires.now self.new }
        ensures mail_stays { MailStays self.old self.new }
    {
        let first = wide(self.oldest);
        let len = wide(self.unread);
        if len > LOG {
            return;
        }
        self.count_anew();
        new_in(&mut self.head);
        let c = self.snapshot();
        let _ = sync_in(&mut self.log, &mut self.head, c);
        copy(&self.mail, first, len, wires, &mut self.log, &mut self.head);
        self.protection = COMING;
    }

    // The entry is carried: the record that was being made is a backup.
    pub fn end_transfer(&mut self)
        ensures exact { self.new ≡ completed_in self.old }
        ensures became { Changes self.old self.new end_transfer }
        ensures lists_stay { ListsStay self.old self.new }
    {
        if self.has_record() {
            self.protection = COMPLETE;
        }
    }
}
