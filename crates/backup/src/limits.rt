// The sizes of a backup, each named once; specs/Limits.antt names the same numbers for the definitions.

// Messages that a log holds at most.
pub const LOG: usize = 64;
// Input ports of a process.
pub const PORTS: u32 = 4;
// The largest count of transmitted messages.
pub const SENT_MOST: u32 = 32;
// The largest program counter.
pub const PC_MOST: u32 = 64;
