// Why a run, a sweep, a view or a table is refused: `enum ks_refusal`. "A refused one, lowest number first", but `Limit` between `Instruction` and
// `ScheduleLength`, and the other four above 12 last.
ghost use Rattle.std.specs.Prelude.{◌≡◌};
ghost use Rattle.numbers.specs.Runs.{number_of};

#[derive(Clone, Copy, PartialEq, Eq)]
pub enum Refusal {
    // Of the table: under 6 bytes, or its length field over 6,276 or not the true length.
    TableLength = 1,
    TableVersion = 2,
    // How many boards, processes or channels it has.
    TableCounts = 3,
    // A process of over 64 instructions, or pairs and records that don't end with the table; of lists, one not as long as its counts say.
    TableExtent = 4,
    // A channel's end is neither a process nor the outside, or both are the outside.
    ChannelEnds = 5,
    // A process reads more than four channels.
    ChannelsRead = 6,
    // A process's boards: one is none of the table's, or they are the same.
    Boards = 7,
    Instruction = 8,
    // Of the schedule: under 3 bytes, a wrong length field, a broken record or over 10,000.
    ScheduleLength = 9,
    ScheduleVersion = 10,
    // Of the lent buffers: under six bytes a record, or under one a record for the reasons; under 20 a process.
    AnswersShort = 11,
    ReportShort = 12,
    // Of a table written or taken apart: what it goes to is too short.
    NoRoom = 45,
    // Of the label line: "a first serial above 4,294,957,295".
    FirstSerial = 46,
    // Of a table of version 2: a limit outside 1 to 16.
    Limit = 47,
    // Of the buffer of origins: under two bytes a record.
    OriginsShort = 51,
    // Of a sweep: "the schedule has a record of move 5, whatever its a and word, or over 500 records", or one of move 8.
    Unswept = 52,
    // Of a view: the lent list is too short.
    ViewShort = 54,
}

impl Refusal {
    // Its number, as the header has it.
    pub fn number(self) -> u8
        ensures { result ≡ number_of self }
    {
        self as u8
    }
}
