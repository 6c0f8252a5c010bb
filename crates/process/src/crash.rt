// A crash, in one process: it goes on as its backup, or loses its backup, or neither.
// Document 01: "All processes that had either half there have no backup from then on."
ghost use Rattle.rules.specs.Moves.{unprotected};
ghost use Rattle.process.specs.Change.{Changes, BackupStays};
ghost use Rattle.process.specs.Promotion.{Crashed};

use crate::process::{Process, UNPROTECTED};

impl Process {
    // The process has no backup from now on.
    fn unprotect(&mut self)
        ensures became { Changes self.old self.new unprotected }
        ensures backup_stays { BackupStays self.old self.new }
    {
        self.protection = UNPROTECTED;
    }

    // Board b crashes. The channels are those of the process's ports 0 to 3.
    pub fn crash(&mut self, b: u32, channels: [u32; 4])
        ensures became { Crashed self.old self.new b channels }
        ensures backup_stays { BackupStays self.old self.new }
    {
        if !self.has_record() {
            return;
        }
        if self.board == b {
            self.promote(channels);
            return;
        }
        if self.standby == b {
            self.unprotect();
        }
    }
}
