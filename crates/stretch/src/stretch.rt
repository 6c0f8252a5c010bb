// A stretch of a schedule's records: which they are, and how many there are at all.
ghost use Rattle.std.specs.Prelude.{◌≡◌, min};
ghost use Rattle.rules.specs.Schedule.{commands_in};
ghost use Rattle.stretch.specs.Reach.{ReachOf};

use records::schedule::{FIRST_COMMAND, command_at};
use state::entry::Entry;
use state::queue::ENTRIES;
use words::least;

// Records of a schedule that are to be played: those from number `from` on, before number `to` and before the schedule's end. `entries` are those
// of all queues, as they are before the first of them.
#[derive(Drop)]
pub struct Stretch {
    pub from: usize,
    pub to: usize,
    pub entries: [Entry; ENTRIES],
}

// How many records a schedule has, as its length says.
pub fn count(schedule: &[u8]) -> usize
    ensures { result ≡ commands_in schedule.now }
{
    let len = schedule.len();
    if len < FIRST_COMMAND {
        return 0;
    }
    (len - FIRST_COMMAND) / 6
}

// The number of the first record that is not to be played: `to`, or how many there are.
pub fn last(schedule: &[u8], to: usize) -> usize
    ensures { result ≡ min to (commands_in schedule.now) }
{
    least(to, count(schedule))
}

// How far a stretch reaches: the number of the first record that is not to be played, and the move of the first that is.
#[derive(Clone, Copy)]
pub struct Reach {
    pub end: usize,
    pub first: u8,
}

// From one record on, before another, and before the schedule's end. Where there is no first record its move is any number.
pub fn reach_of(schedule: &[u8], from: usize, to: usize) -> Reach
    ensures { ReachOf schedule.now from to result }
{
    let first = command_at(schedule, from);
    Reach {
        end: least(to, count(schedule)),
        first: first.mv,
    }
}
