// A checkpoint, in one process: what is sent, what its issue changes, and what its backup keeps when it lands.
// Document 01: "a snapshot (registers, place, takes per slot since the last issue) joins the queue; acts become 0"; "A sync replaces the
// state in the process's backup record, drops the oldest saved words slot by slot as taken, and zeroes the count."
ghost use Rattle.std.specs.Prelude.{◌≡◌, List, ℕ};
ghost use Rattle.backup.specs.Place.{checkpoint_of};
ghost use Rattle.rules.specs.Moves.{issued, keeps};
ghost use Rattle.process.specs.Row.{checkpoint_in, anew_in};
ghost use Rattle.process.specs.Change.{Changes, ListsStay, BackupAlone, Drops};

use crate::process::Process;
use backup::place::{Checkpoint, sync_total};

impl Process {
    // No events, receives and instructions so far.
    pub(crate) fn count_anew(&mut self)
        ensures { self.new ≡ anew_in self.old }
    {
        self.events = 0;
        self.taken = [0; 4];
        self.instructions = 0;
    }

    // The process as a checkpoint.
    pub fn snapshot(&self) -> Checkpoint
        ensures { result ≡ checkpoint_in self.now }
    {
        Checkpoint {
            pc: self.pc,
            r0: self.registers[0],
            r1: self.registers[1],
            r2: self.registers[2],
            r3: self.registers[3],
            t0: self.taken[0],
            t1: self.taken[1],
            t2: self.taken[2],
            t3: self.taken[3],
        }
    }

    // A checkpoint was issued: no events since, no receives and no instructions.
    pub fn issue(&mut self)
        ensures exact { self.new ≡ anew_in self.old }
        ensures became { Changes self.old self.new issued }
        ensures lists_stay { ListsStay self.old self.new }
    {
        self.count_anew();
    }

    // A checkpoint lands: the backup keeps it, if there is one. How many messages that dropped.
    pub fn keep(&mut self, c: Checkpoint) -> u32
        ensures backup_became { (mail : List ℕ) → Changes (record self.old { mail = mail })
            (record self.new { mail = mail }) (keeps (checkpoint_of c)) }
        ensures drops { (mail : List ℕ) → Drops (record self.old { mail = mail }) (checkpoint_of c) result }
        ensures rest_stays { BackupAlone self.old self.new }
    {
        if self.is_backed() {
            return sync_total(&mut self.log, &mut self.head, c);
        }
        0
    }
}
