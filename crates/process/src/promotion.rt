// A promotion: a process goes on as its backup.
// Document 01: it "goes on at its backup board with the record's state, the saved words as inbox and the count as hold-back".
ghost use Rattle.std.specs.Prelude.{◌≡◌, ◌≤◌};
ghost use Rattle.backup.specs.Limits.{log_most};
ghost use Rattle.process.specs.Change.{BackupStays};
ghost use Rattle.process.specs.Promotion.{Readdressed, restored_in, Promoted};

use crate::mailbox::append;
use crate::process::{Process, UNPROTECTED};
use backup::limits::LOG;
use backup::place::{Promotion, fail_over_in, port_in, word_in};
use words::wide;

// The first len messages of a log as a mailbox, from place 0 on: each with its port's channel in the port's place.
fn readdress(mail: &mut [u64; LOG], log: &[u64; LOG], len: usize, channels: [u32; 4])
    requires { len ≤ log_most }
    ensures { Readdressed mail.old log.now len channels mail.new }
{
    for i in 0..len {
        let port = wide(port_in(log, i) % 4);
        let word = word_in(log, i);
        append(mail, 0, i, channels[port], word);
    }
}

impl Process {
    // A promoted process but for its mailbox: the backup's state and board, its count to suppress, and no backup. Its other board is the one
    // that it ran on, whose queue is lost: nothing of the process waits.
    fn restore(&mut self, p: Promotion)
        ensures { self.new ≡ restored_in self.old p }
    {
        let board = self.board;
        self.board = self.standby;
        self.standby = board;
        self.pc = p.pc;
        self.registers = [p.r0, p.r1, p.r2, p.r3];
        self.suppress = p.sent;
        self.events = 0;
        self.taken = [0; 4];
        self.instructions = 0;
        self.protection = UNPROTECTED;
        self.waits = 0;
        self.oldest = 0;
        self.unread = p.len;
    }

    // The process goes on as its backup, whose ports 0 to 3 have these channels. A log longer than its array is none of a sound backup, and
    // then nothing changes.
    pub(crate) fn promote(&mut self, channels: [u32; 4])
        ensures became { Promoted self.old self.new channels }
        ensures backup_stays { BackupStays self.old self.new }
    {
        let p = fail_over_in(&self.head);
        let len = wide(p.len);
        if len > LOG {
            return;
        }
        readdress(&mut self.mail, &self.log, len, channels);
        self.restore(p);
    }
}
