// A schedule's bytes: numbers 9 and 10, and its commands.
ghost use Rattle.std.specs.Prelude.{◌≡◌, ◌<◌, ◌≤◌, get_or};
ghost use Rattle.rules.specs.Schedule.{decode_schedule, command, commands_in};
ghost use Rattle.records.specs.Commands.{command_of, move_in, ScheduleJudged};

use crate::bytes::byte;
use crate::head::VERSION;
use crate::six::{six_at, six_of};
use numbers::runs::Refusal;
use words::pair;

// Where the commands begin: behind the length's two bytes and the version.
pub const FIRST_COMMAND: usize = 3;
// Commands that a schedule has at most, and the bytes of one that has so many.
pub const COMMANDS_MOST: usize = 10000;

pub const SCHEDULE_MOST: usize = FIRST_COMMAND + 6 * COMMANDS_MOST;

// W-214's move 8, which takes a record back: no move of a cabinet.
pub const UNDO: u8 = 8;

// A schedule record: move, `a` and word.
#[derive(Clone, Copy)]
pub struct Command {
    pub mv: u8,
    pub a: u8,
    pub word: u32,
}

// How many commands a schedule has, or what refuses it. 9: "schedule under 3 bytes, wrong length field, broken record or over 10,000"; 10: "its
// version".
pub fn judge_schedule(schedule: &[u8]) -> Result<usize, Refusal>
    ensures { ScheduleJudged schedule.now result }
{
    let len = schedule.len();
    if len < FIRST_COMMAND {
        return Err(Refusal::ScheduleLength);
    }
    let field = pair(schedule[0], schedule[1]);
    let version = schedule[VERSION];
    let records = (len - FIRST_COMMAND) / 6;
    if field + 2 != len {
        return Err(Refusal::ScheduleLength);
    }
    if FIRST_COMMAND + 6 * records != len {
        return Err(Refusal::ScheduleLength);
    }
    if records > COMMANDS_MOST {
        return Err(Refusal::ScheduleLength);
    }
    if version != 1 {
        return Err(Refusal::ScheduleVersion);
    }
    Ok(records)
}

// The i-th command of a schedule; one of zeros from its end on.
pub fn command_at(schedule: &[u8], i: usize) -> Command
    ensures { command_of result ≡ get_or (decode_schedule schedule.now) i (command 0 0 0) }
{
    if schedule.len() < FIRST_COMMAND {
        return Command {
            mv: 0,
            a: 0,
            word: 0,
        };
    }
    let s = six_of(&schedule[FIRST_COMMAND..], i);
    Command {
        mv: s.first,
        a: s.second,
        word: s.word,
    }
}

// The move of the i-th command, read by itself.
pub fn move_at(schedule: &[u8], i: usize) -> u8
    requires { i ≤ commands_in schedule.now }
    ensures { i < commands_in schedule.now → result ≡ move_in schedule.now i }
{
    byte(schedule, FIRST_COMMAND + 6 * i)
}

// The i-th command of a schedule that has so many, its move being known.
pub fn command_of(schedule: &[u8], i: usize, mv: u8) -> Command
    requires { (i < commands_in schedule.now) × (mv ≡ move_in schedule.now i) }
    ensures { command_of result ≡ get_or (decode_schedule schedule.now) i (command 0 0 0) }
{
    let s = six_at(schedule, FIRST_COMMAND + 6 * i);
    Command {
        mv: mv,
        a: s.second,
        word: s.word,
    }
}
