// What the calls of the backup record reply: `enum ks_backup_reply`.
ghost use Rattle.std.specs.Prelude.{◌≡◌};
ghost use Rattle.numbers.specs.Backup.{number_of};

#[derive(Clone, Copy, PartialEq, Eq)]
pub enum BackupRefusal {
    // "A record unfit on entry": over 64 words, a slot over 3, a count over 32 or a place over 64.
    Unfit = 20,
    // Arrive: a slot over 3; sync: a place over 64.
    Bad = 21,
    // Arrive: 64 words are saved.
    Full = 22,
    // Sync: "more taken on a slot than saved".
    Taken = 23,
    // Count: it is 32.
    Count = 24,
}

impl BackupRefusal {
    // Its number, as the header has it.
    pub fn number(self) -> u8
        ensures { result ≡ number_of self }
    {
        self as u8
    }
}
