// A delivery, in one process: a word reaches its reader's mailbox and its reader's backup, and its sender's backup counts it.
// Document 01: "A word goes, in one move, to the reader's inbox, the reader's backup record, and the sender's backup record, which
// counts it and keeps no copy."
ghost use Rattle.std.specs.Prelude.{List, ℕ};
ghost use Rattle.backup.specs.Replica.{arrive};
ghost use Rattle.rules.specs.Moves.{on_replica, counts as counts_of};
ghost use Rattle.process.specs.Change.{Backed, Changes, HeadAlone, Received};

use crate::mailbox::append;
use crate::process::Process;
use backup::limits::LOG;
use backup::place::{arrive_in, count_in};
use words::wide;

impl Process {
    // A word arrives at its backup too, also at one that is being made: "then all that have arrived since issue" (W-210). A backup that
    // refuses it stays as it was.
    fn save(&mut self, port: u32, word: u32)
        ensures { Backed self.old self.new on_replica (λ v. arrive v port word) }
    {
        if self.has_record() {
            let _ = arrive_in(&mut self.log, &mut self.head, port, word);
        }
    }

    // The reader's half: a word joins the mailbox. A full mailbox takes none, and nothing changes.
    pub fn receive(&mut self, port: u32, channel: u32, word: u32)
        ensures { Received self.old self.new port channel word }
    {
        let unread = self.unread;
        let end = wide(unread);
        if end >= LOG {
            return;
        }
        self.save(port, word);
        append(&mut self.mail, wide(self.oldest), end, channel, word);
        self.unread = unread + 1;
    }

    // The sender's half: the backup counts the word, if there is one, and stays as it was if it refuses. A record that is being made counts
    // none.
    pub fn counts(&mut self)
        ensures became { (mail log : List ℕ) → Changes (record self.old { mail = mail; log = log })
            (record self.new { mail = mail; log = log }) counts_of }
        ensures rest_stays { HeadAlone self.old self.new }
    {
        if !self.is_backed() {
            return;
        }
        let _ = count_in(&mut self.head);
    }
}
