// A table's layout and sizes; rules/specs/Format.antt names the same numbers for the definitions. How many boards, processes and
// channels a table has at most, and the environment, are named by crate `plan`, how many channels a process reads by the record's limits.
use backup::limits::PC_MOST;

// Where the head has how many boards, processes and channels there are, behind the length's two bytes and the version (records/src/head.rt).
pub const BOARDS_AT: usize = 3;

pub const PROCESSES_AT: usize = 4;

pub const CHANNELS_AT: usize = 5;

pub const HEAD: usize = 6;

// Of the pair of channel 0: sender and reader. Those of channel k stand 2 k further.
pub const PAIR_SENDER: usize = 6;

pub const PAIR_READER: usize = 7;

// Of a record: primary board, backup board, and in version 2 the limit; n and its instructions stand behind them (record.rt).
pub const PRIMARY: usize = 0;

pub const STANDBY: usize = 1;

pub const LIMIT: usize = 2;

// The version whose records have no limit, and the one whose records have.
pub const WITHOUT_LIMITS: u32 = 1;

pub const WITH_LIMITS: u32 = 2;

// The largest length field, the fewest boards, and the most instructions of a process.
pub const TABLE_MOST: usize = 6276;

pub const BOARDS_LEAST: usize = 2;

pub const PROGRAM_MOST: usize = PC_MOST as usize;

// The bounds of a limit, and the limit of every process of version 1.
pub const LIMIT_LEAST: u32 = 1;

pub const LIMIT_MOST: u32 = 16;

pub const LIMIT_BEFORE: u8 = 8;
