// What a record is answered, and why (W-206): `enum ks_reason`, "the answer's code times 4, plus a cause", and by it the code, `enum ks_answer`.
ghost use Rattle.std.specs.Prelude.{◌≡◌};
ghost use Rattle.numbers.specs.Answers.{reason_number, code_in};

#[derive(Clone, Copy, PartialEq, Eq)]
pub enum Reason {
    // Done (code 0), with a and word (0, 0): a SET, ADD or JUMP.
    Calculated = 0,
    SyncIssued = 1,
    BoardCrashed = 2,
    // "cause 3 under code 0 means a return or a resync, which there count as one cause"
    ReturnedOrResync = 3,
    // Then with (channel, word). 1: a word left the inbox for a register.
    Took = 4,
    // 2: a word waits to be carried.
    Queued = 8,
    // 3: a SEND whose word was on the bus before the crash.
    HeldBack = 12,
    // 4: a word was carried or fed.
    Carried = 16,
    Fed = 17,
    // 5: a sync was carried, with (process, how many saved words it dropped), or a resync, with (process, 0).
    SyncCarried = 20,
    ResyncCarried = 23,
    // 6: a sync was carried and no backup is left, with (process, 0).
    SyncUnbacked = 24,
    // 7: a record was taken back, with (0, 0).
    TakenBack = 28,
    // Refused, with the record's a and word 0. 32: "an unknown move or a word that should be 0".
    NoSuchMove = 128,
    WordNotZero = 129,
    // 33: "a is no process, board or channel of this table".
    NoSuchProcess = 132,
    NoSuchBoard = 133,
    NoSuchChannel = 134,
    // 34, of a carry and of a crash: the board is dead.
    CarryOfDead = 136,
    CrashOfDead = 137,
    // 35, of a step, as the four below: the process has halted.
    Halted = 140,
    // 36, of TAKE or FIRST: "no such word".
    NoWordForTake = 144,
    NoWordForFirst = 145,
    // 37: the process is backed, and has as many acts as its limit, or 64 instructions.
    OwesForActs = 148,
    OwesForInstructions = 149,
    // 38, also of a sync and a resync: "queue full".
    QueueFullForSend = 152,
    QueueFullForSync = 153,
    QueueFullForResync = 155,
    // 39, also of a feed: the channel is held.
    HeldForSend = 156,
    HeldForFeed = 157,
    // 40, of a sync: "no backup".
    NoBackup = 160,
    // 41, of a sync: "one waiting"; of a resync, one or a resync.
    SyncWaiting = 164,
    ResyncWaiting = 167,
    // 42, of a carry: "queue empty".
    QueueEmpty = 168,
    // 43, of a feed: "sender not outside".
    NotFromOutside = 172,
    // 44, of a crash: "some process has no backup".
    SomeUnbacked = 176,
    // 48, W-210: "a return of a live board".
    BoardLive = 192,
    // 49, W-210, of a resync: "hold-back above 0 or, on one channel it reads, more than 8 words unread and in queues together".
    NotReady = 196,
    // 50, W-210, of a resync: "the process has a backup or its other table board is dead".
    HasBackup = 200,
    // 53, W-214: "no record is kept to go back to".
    NoneKept = 212,
}

impl Reason {
    // The byte of the list of reasons.
    pub fn number(self) -> u8
        ensures { result ≡ reason_number self }
    {
        self as u8
    }

    // The answer's first byte.
    pub fn code(self) -> u8
        ensures { result ≡ code_in self }
    {
        self.number() / 4
    }
}
