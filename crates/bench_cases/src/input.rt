// The inputs of the cases, each a table and a schedule given byte by byte: a byte is a number that its place makes, so that the same input is
// soon written in another language.

// The table: the sample, or the largest one, of version 1 or 2.
#[derive(Clone, Copy)]
pub enum Table {
    Sample,
    Largest,
    Limited,
}

// A table; the place of a byte of the input that is changed, and what it becomes; the schedule's length field.
#[derive(Clone, Copy)]
pub struct Case {
    pub table: Table,
    pub changed: Option<(usize, u8)>,
    pub field: usize,
}

impl Case {
    // A byte of the input is changed.
    pub fn with_byte(self, at: usize, byte: u8) -> Case {
        Case {
            changed: Some((at, byte)),
            ..self
        }
    }

    // The schedule says another length.
    pub fn with_field(self, field: usize) -> Case {
        Case {
            field: field,
            ..self
        }
    }
}

// The three tables, with a schedule that says ten records.
pub const SAMPLE: Case = Case {
    table: Table::Sample,
    changed: None,
    field: 61,
};

pub const LARGEST: Case = Case {
    table: Table::Largest,
    changed: None,
    field: 61,
};

pub const LIMITED: Case = Case {
    table: Table::Limited,
    changed: None,
    field: 61,
};

// Document 01's sample.
const FIRST: [u8; 37] = [
    0, 35, 1, 2, 1, 2, 255, 0, 0, 255, 0, 1, 4, 3, 0, 0, 0, 0, 0, 2, 1, 0, 0, 0, 0, 5, 1, 0, 0, 0,
    1, 6, 0, 0, 0, 0, 0,
];

fn low(x: usize) -> u8 {
    (x % 256) as u8
}

// The byte of a word, from the left, in which one bit is set.
fn bit_byte(bit: usize, byte: usize) -> u8 {
    if bit / 8 % 4 + byte % 4 != 3 {
        return 0;
    }
    match bit % 8 {
        0 => 1,
        1 => 2,
        2 => 4,
        3 => 8,
        4 => 16,
        5 => 32,
        6 => 64,
        _ => 128,
    }
}

// The byte of a word below 256.
fn word_byte(word: usize, byte: usize) -> u8 {
    if byte == 3 { low(word) } else { 0 }
}

// Instruction j of process p: FIRST of its two channels, ADD, SEND, and SET or, at the end, JUMP to the start.
fn code(j: usize) -> u8 {
    match j {
        63 => 6,
        _ => match j % 4 {
            0 => 4,
            1 => 2,
            2 => 5,
            _ => 1,
        },
    }
}

fn register(j: usize) -> u8 {
    match j % 4 {
        0 => 0,
        3 => if j == 63 { 2 } else { 3 },
        _ => 2,
    }
}

fn operand_byte(p: usize, j: usize, byte: usize) -> u8 {
    match j % 4 {
        0 => bit_byte(p, byte) | bit_byte(16 + (p % 16 + 15) % 16, byte),
        1 => 0,
        2 => word_byte(16 + p % 16, byte),
        _ => if j == 63 { 0 } else { word_byte(j, byte) },
    }
}

fn instruction_byte(p: usize, j: usize, byte: usize) -> u8 {
    match byte {
        0 => code(j),
        1 => register(j),
        _ => operand_byte(p, j, byte - 2),
    }
}

// The record of process p of the largest table, and the same with its limit, p + 1.
fn process_byte(p: usize, at: usize) -> u8 {
    match at {
        0 => low(p),
        1 => low((p % 16 + 1) % 16),
        2 => 64,
        _ => instruction_byte(p, (at - 3) / 6 % 64, (at - 3) % 6),
    }
}

fn limited_byte(p: usize, at: usize) -> u8 {
    match at {
        0 | 1 => process_byte(p, at),
        2 => low(p % 16 + 1),
        _ => process_byte(p, at - 1),
    }
}

// 16 boards, 16 processes of 64 instructions, 32 channels: one from the outside to each process, and one from each to the next; in version 1,
// or in version 2.
fn large_byte(limited: bool, i: usize) -> u8 {
    if i < 6 {
        let head = [24, 116, 1, 16, 16, 32];
        let limited_head = [24, 132, 2, 16, 16, 32];
        return if limited { limited_head[i] } else { head[i] };
    }
    if i < 70 {
        let k = (i - 6) / 2;
        let sender = if k < 16 { 255 } else { low(k - 16) };
        let reader = if k < 16 { low(k) } else { low((k - 15) % 16) };
        return if i % 2 == 0 { sender } else { reader };
    }
    if limited {
        return limited_byte((i - 70) / 388 % 16, (i - 70) % 388);
    }
    process_byte((i - 70) / 387 % 16, (i - 70) % 387)
}

// Record r: steps, carries, syncs and feeds by turns that differ, among them some of things that no table has, and now and then a crash.
fn turn(r: usize) -> usize {
    (r % 65536 * 7919 + 31) % 65521
}

fn kind(r: usize) -> u8 {
    if r % 1000 == 999 {
        return 5;
    }
    match turn(r) % 16 {
        0..=8 => 1,
        9 | 10 => 3,
        11 => 2,
        _ => 4,
    }
}

fn record_byte(r: usize, byte: usize) -> u8 {
    let kind = kind(r);
    let turn = turn(r) % 65536;
    match byte {
        0 => kind,
        1 => if kind == 4 {
            low(turn / 16 % 33)
        } else {
            low(turn / 16 % 17)
        },
        _ => if kind == 4 {
            low(turn + 64 * (byte % 8))
        } else {
            0
        },
    }
}

fn schedule_byte(field: usize, i: usize) -> u8 {
    match i {
        0 => low(field / 256),
        1 => low(field),
        2 => 1,
        _ => record_byte((i - 3) / 6, (i - 3) % 6),
    }
}

fn input_byte(c: Case, i: usize) -> u8 {
    if let Some((at, byte)) = c.changed {
        if i == at {
            return byte;
        }
    }
    match c.table {
        Table::Sample => if i < 37 {
            FIRST[i]
        } else {
            schedule_byte(c.field, i - 37)
        },
        Table::Largest => if i < 6262 {
            large_byte(false, i)
        } else {
            schedule_byte(c.field, i - 6262)
        },
        Table::Limited => if i < 6278 {
            large_byte(true, i)
        } else {
            schedule_byte(c.field, i - 6278)
        },
    }
}

// All of a buffer.
pub fn fill(input: &mut [u8], c: Case) {
    for (i, byte) in input.iter_mut().enumerate() {
        *byte = input_byte(c, i);
    }
}
