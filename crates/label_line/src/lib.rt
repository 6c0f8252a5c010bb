// The label line (document 02, W-203): "one scanner, one numbering program and one printer program on two boards". It is given a first
// serial, makes the table and runs schedules on it, with nothing but the cabinet's promises.
#![tactic(auto)]

ghost use Rattle.std.specs.Prelude.{◌≡◌, ◌≤◌};
ghost use Rattle.rules.specs.Run.{buffers_of};
ghost use Rattle.label_line.specs.Line.{line_bytes};
ghost use Rattle.label_line.specs.Puts.{frame_bytes, instruction_in};
ghost use Rattle.label_line.specs.Labels.{MakesTable, RunsLine};

use cabinet::run::{Ended, run};
use numbers::runs::Refusal;
use plan::ENVIRONMENT;
use records::store::put_six;

// Bytes of a label line's table.
pub const TABLE: usize = 84;

// The last first serial that isn't refused: 10,000 serials from there on fit a word.
pub const SERIAL_MOST: u32 = 4294957295;

// The instructions' codes.
const SET: u8 = 1;

const ADD: u8 = 2;

const TAKE: u8 = 3;

const SEND: u8 = 5;

const JUMP: u8 = 6;

// The table but for its instructions.
fn frame() -> [u8; TABLE]
    ensures { result ≡ frame_bytes }
{
    let mut t = [0; TABLE];
    t[1] = 82; // the length of what follows
    t[2] = 1; // version
    t[3] = 2; // boards
    t[4] = 2; // processes
    t[5] = 3; // channels: 0 from the scanner to process 0, 1 from there to process 1, 2 from there to the outlet
    t[6] = ENVIRONMENT;
    t[9] = 1;
    t[10] = 1;
    t[11] = ENVIRONMENT;
    t[13] = 1; // process 0: board 0, stand-by 1, seven instructions
    t[14] = 7;
    t[57] = 1; // process 1: board 1, stand-by 0, four instructions
    t[59] = 4;
    t
}

// An instruction at a place of the table: code, a, operand.
fn set_instruction(table: &mut [u8; TABLE], at: usize, code: u8, a: u8, operand: u32)
    requires { at ≤ 78 }
    ensures { table.new ≡ instruction_in table.old at code a operand }
{
    put_six(table, at, code, a, operand);
}

fn line_bytes(first: u32) -> [u8; TABLE]
    ensures { result ≡ line_bytes first }
{
    let mut t = frame();
    set_instruction(&mut t, 15, SET, 1, first); // register 1: the next serial
    set_instruction(&mut t, 21, SET, 2, 1);
    set_instruction(&mut t, 27, TAKE, 0, 0); // a carton's code, from the scanner
    set_instruction(&mut t, 33, SEND, 0, 1); // the code
    set_instruction(&mut t, 39, SEND, 1, 1); // the serial
    set_instruction(&mut t, 45, ADD, 1, 2); // the next serial
    set_instruction(&mut t, 51, JUMP, 2, 2);
    set_instruction(&mut t, 60, SET, 1, 1);
    set_instruction(&mut t, 66, TAKE, 0, 1); // a word to the printer program
    set_instruction(&mut t, 72, SEND, 0, 2); // the same to the outlet
    set_instruction(&mut t, 78, JUMP, 1, 1);
    t
}

// The table of a first serial, or 46.
pub fn make_table(first: u32) -> Result<[u8; TABLE], Refusal>
    ensures { MakesTable first result }
{
    if first > SERIAL_MOST {
        return Err(Refusal::FirstSerial);
    }
    Ok(line_bytes(first))
}

// A schedule on the table of a first serial.
pub fn run_line(
    first: u32,
    schedule: &[u8],
    answers: &mut [u8],
    reasons: &mut [u8],
    report: &mut [u8],
    origins: &mut [u8],
) -> Result<Ended, Refusal>
    ensures { RunsLine first schedule.now
        (buffers_of answers.old reasons.old report.old origins.old) result
        (buffers_of answers.new reasons.new report.new origins.new) }
{
    let table = make_table(first)?;
    run(&table, schedule, answers, reasons, report, origins)
}
