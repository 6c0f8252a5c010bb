// The backup record by value: each call takes a backup and gives the one that it comes to, or says why it is refused, and then the caller's
// own is the one that stays. It is laid out in two arrays, called there (crate `backup_lent`), and put together again.
#![tactic(auto)]

ghost use Rattle.std.specs.Prelude.{◌≡◌};
ghost use Rattle.numbers.specs.Backup.{number_in};
ghost use Rattle.backup.specs.Replica.{initial, arrive as arrive_of, count as count_of, sync as sync_of, fail_over};
ghost use Rattle.backup.specs.Place.{checkpoint_of};
ghost use Rattle.backup.specs.Rounds.{OnePass};
ghost use Rattle.backup.specs.Report.{sync_report};
ghost use Rattle.backup_value.specs.Value.{view, promoted_by, synced_by, backup_by, rounds_by, reported_of, head_of, backup_of, Answered};

use backup::limits::LOG;
use backup::place::Checkpoint;
use backup_lent::{LEN, LENT, PC, R0, R1, R2, R3, SENT, TOLD};
use numbers::backup::BackupRefusal;

// Passive replica of a process (document 01: backup record). A message of the log is one number, port times 2^32 plus word (see
// `pack`); the log's first len numbers count.
#[derive(Clone, Copy)]
pub struct Backup {
    pub log: [u64; LOG],
    pub len: u32,
    pub sent: u32,
    pub pc: u32,
    pub r0: u32,
    pub r1: u32,
    pub r2: u32,
    pub r3: u32,
}

// What a sync gives: the backup afterwards, and for each port how many messages were dropped and how many remain.
#[derive(Drop)]
pub struct Synced {
    pub backup: Backup,
    pub dropped: [u32; 4],
    pub remained: [u32; 4],
}

// That, and the rounds of all its loops but the check for 20.
#[derive(Drop)]
pub struct Metered {
    pub synced: Synced,
    pub rounds: usize,
}

// The backup that a log and a head stand for.
fn closed(log: [u64; LOG], head: [u32; LENT]) -> Backup
    ensures { result ≡ backup_of log head }
{
    Backup {
        log: log,
        len: head[LEN],
        sent: head[SENT],
        pc: head[PC],
        r0: head[R0],
        r1: head[R1],
        r2: head[R2],
        r3: head[R3],
    }
}

impl Backup {
    // A backup as it starts: no messages, and the rest 0.
    pub fn new() -> Backup
        ensures { view result ≡ initial }
    {
        Backup {
            log: [0; LOG],
            len: 0,
            sent: 0,
            pc: 0,
            r0: 0,
            r1: 0,
            r2: 0,
            r3: 0,
        }
    }

    // Its head, as it is lent.
    fn head(&self) -> [u32; LENT]
        ensures { result ≡ head_of self.now }
    {
        [
            self.len, self.sent, self.pc, self.r0, self.r1, self.r2, self.r3,
        ]
    }

    // A message arrives on a port; refused: 20, 21, 22.
    pub fn arrive(self, port: u32, word: u32) -> Result<Backup, BackupRefusal>
        ensures { Answered self result (λ v. arrive_of v port word) }
    {
        let mut log = self.log;
        let mut head = self.head();
        backup_lent::arrive(&mut log, &mut head, port, word)?;
        Ok(closed(log, head))
    }

    // A message of the process was transmitted; refused: 20, 24.
    pub fn count(self) -> Result<Backup, BackupRefusal>
        ensures { Answered self result count_of }
    {
        let log = self.log;
        let mut head = self.head();
        backup_lent::count(&log, &mut head)?;
        Ok(closed(log, head))
    }

    // A checkpoint lands, with its rounds counted; refused: 20, 21, 23. The look through the messages that tells 20 is not among them.
    pub fn metered_sync(self, c: Checkpoint) -> Result<Metered, BackupRefusal>
        ensures answered { Answered self (backup_by (synced_by result)) (λ v. sync_of v (checkpoint_of c)) }
        ensures reported { reported_of (synced_by result) ≡ sync_report (view self) (checkpoint_of c) }
        ensures one_pass { OnePass (view self) (checkpoint_of c) (number_in result) (rounds_by result) }
    {
        let mut log = self.log;
        let mut head = self.head();
        let registers = [c.r0, c.r1, c.r2, c.r3];
        let taken = [c.t0, c.t1, c.t2, c.t3];
        let mut t = [0; TOLD];
        let rounds = backup_lent::metered_sync(
            &mut log, &mut head, c.pc, &registers, &taken, &mut t,
        )?;
        Ok(Metered {
            synced: Synced {
                backup: closed(log, head),
                dropped: [t[0], t[1], t[2], t[3]],
                remained: [t[4], t[5], t[6], t[7]],
            },
            rounds: rounds,
        })
    }

    // A checkpoint lands, and what it dropped and left is told; refused: 20, 21, 23.
    pub fn sync(self, c: Checkpoint) -> Result<Synced, BackupRefusal>
        ensures answered { Answered self (backup_by result) (λ v. sync_of v (checkpoint_of c)) }
        ensures reported { reported_of result ≡ sync_report (view self) (checkpoint_of c) }
    {
        let m = self.metered_sync(c)?;
        Ok(m.synced)
    }

    // The backup takes over: words, program counter, registers and count (document 01: take over); refused: 20, and nothing is handed over.
    pub fn fail_over(self) -> Result<Backup, BackupRefusal>
        ensures { promoted_by result ≡ fail_over (view self) }
    {
        let log = self.log;
        let head = self.head();
        let mut handed = [0; LENT];
        backup_lent::take_over(&log, &head, &mut handed)?;
        Ok(closed(log, handed))
    }
}
