// One process: the board that it runs on and its other board of the table, which its backup is or would be on; its place and registers; sends
// still to suppress; events, receives on each port and instructions since the last checkpoint was issued; whether a backup protects it;
// whether a checkpoint or a transfer of it waits in its board's queue, 1 or 0; where in its mailbox the oldest unread word stands, and how many
// are unread; the mailbox, a ring of words as `mail` says; and its backup's log and head, which are free while it has no record.
ghost use Rattle.std.specs.Prelude.{◌≡◌};
ghost use Rattle.process.specs.Row.{backed, recorded, waiting_in};

use backup::limits::LOG;
use backup::place::Head;

// Whether a backup protects a process. W-210: one that is being made, from a resync's issue until its carry, protects it not yet. No process
// that is kept has another number; of any, all but 0 and 1 stand for a record that is being made.
pub const UNPROTECTED: u32 = 0;

pub const COMPLETE: u32 = 1;

pub const COMING: u32 = 2;

#[derive(Clone, Copy)]
pub struct Process {
    pub board: u32,
    pub standby: u32,
    pub pc: u32,
    pub registers: [u32; 4],
    pub suppress: u32,
    pub events: u32,
    pub taken: [u32; 4],
    pub instructions: u32,
    pub protection: u32,
    pub waits: u32,
    pub oldest: u32,
    pub unread: u32,
    pub mail: [u64; LOG],
    pub log: [u64; LOG],
    pub head: Head,
}

// Zeros: one that is on no board yet, and one that the table doesn't have.
pub const NO_PROCESS: Process = Process {
    board: 0,
    standby: 0,
    pc: 0,
    registers: [0; 4],
    suppress: 0,
    events: 0,
    taken: [0; 4],
    instructions: 0,
    protection: UNPROTECTED,
    waits: 0,
    oldest: 0,
    unread: 0,
    mail: [0; LOG],
    log: [0; LOG],
    head: Head {
        len: 0,
        sent: 0,
        pc: 0,
        r0: 0,
        r1: 0,
        r2: 0,
        r3: 0,
        saved: [0; 4],
    },
};

impl Process {
    // Whether it has a backup.
    pub fn is_backed(&self) -> bool
        ensures { result ≡ backed self.now.protection }
    {
        self.protection == COMPLETE
    }

    // Whether it has a record: a backup, or one that is being made. While it has, its acts and instructions are counted.
    pub fn has_record(&self) -> bool
        ensures { result ≡ recorded self.now.protection }
    {
        self.protection != UNPROTECTED
    }

    // Whether something of it waits in a queue.
    pub fn is_waiting(&self) -> bool
        ensures { result ≡ waiting_in self.now.waits }
    {
        self.waits != 0
    }
}
