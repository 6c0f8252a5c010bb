// The sound tables and the schedule that the cases change a few bytes of, and the largest table of each version.

// Document 01's sample: one process with TAKE, ADD, SEND, JUMP.
pub const SAMPLE: [u8; 37] = [
    0, 35, 1, 2, 1, 2, 255, 0, 0, 255, 0, 1, 4, 3, 0, 0, 0, 0, 0, 2, 1, 0, 0, 0, 0, 5, 1, 0, 0, 0,
    1, 6, 0, 0, 0, 0, 0,
];

// Three boards, two processes, six channels: 0 and 5 from the outside to process 0, 1 from process 0 to 1, 2 from 1 to 0, 3 from 0 to
// itself, 4 from 1 to the outside. Process 0 (from byte 18) has SET, ADD, TAKE, FIRST, SEND, JUMP; process 1 (from byte 57) TAKE, SEND.
// The table ends at byte 72, and zeros follow.
pub const PAIR: [u8; 80] = [
    0, 70, 1, 3, 2, 6, 255, 0, 0, 1, 1, 0, 0, 0, 1, 255, 255, 0, 0, 1, 6, 1, 0, 0, 0, 0, 7, 2, 1,
    0, 0, 0, 0, 3, 2, 0, 0, 0, 2, 4, 0, 0, 0, 0, 45, 5, 0, 0, 0, 0, 3, 6, 1, 0, 0, 0, 2, 1, 2, 2,
    3, 0, 0, 0, 0, 1, 5, 0, 0, 0, 0, 4, 0, 0, 0, 0, 0, 0, 0, 0,
];

// A process with no instruction that reads four channels from the outside, or five.
pub const FOUR: [u8; 17] = [0, 15, 1, 2, 1, 4, 255, 0, 255, 0, 255, 0, 255, 0, 0, 1, 0];

pub const FIVE: [u8; 19] = [
    0, 17, 1, 2, 1, 5, 255, 0, 255, 0, 255, 0, 255, 0, 255, 0, 0, 1, 0,
];

// Version 2: two boards, two processes and a channel to process 0. Process 0 (from byte 8) has limit 1 and no instruction, process 1 (from byte
// 12) limit 16 and SET.
pub const LIMITED: [u8; 22] = [
    0, 20, 2, 2, 2, 1, 255, 0, 0, 1, 1, 0, 1, 0, 16, 1, 1, 0, 0, 0, 0, 0,
];

// Two records: step 0, carry 0.
pub const SCHEDULE: [u8; 15] = [0, 13, 1, 1, 0, 0, 0, 0, 0, 3, 0, 0, 0, 0, 0];

// A byte of the record of a process of the largest table, less the limit that it has in version 2.
fn record_byte(at: usize) -> u8 {
    match at {
        0 => 0,
        1 => 1,
        2 => 64,
        _ => if at % 6 == 3 { 1 } else { 0 },
    }
}

// The same with its limit, 16.
fn limited_byte(at: usize) -> u8 {
    match at {
        0 => 0,
        1 => 1,
        2 => 16,
        _ => record_byte(at - 1),
    }
}

// A byte of the largest table: 16 boards, 16 processes of 64 times SET, 32 channels from process 0 to the outside.
fn largest_byte(version: u8, i: usize) -> u8 {
    if i < 6 {
        let head = [24, 116, version, 16, 16, 32];
        return head[i];
    }
    if i < 70 {
        return if i % 2 == 0 { 0 } else { 255 };
    }
    if version == 2 {
        return limited_byte((i - 70) % 388);
    }
    record_byte((i - 70) % 387)
}

// The largest table of a version, and what would follow.
pub fn largest_table(version: u8) -> [u8; 6300] {
    let mut t = [0u8; 6300];
    for i in 0..6300 {
        t[i] = largest_byte(version, i);
    }
    t
}
