// 32 and 33, which any record may be answered before its move is made, and their causes.
ghost use Rattle.std.specs.Prelude.{◌≡◌, ◌<◌};
ghost use Rattle.rules.specs.Moves.{move_of};
ghost use Rattle.numbers.specs.Answers.{cause_in};
ghost use Rattle.command.specs.Judges.{beyond_of, absent_of, stray_of, judge_of, fault_of, cause_by};

use numbers::answers::Reason;
use plan::Counts;
use records::schedule::Command;
use words::byte_wide;

const FEED: u8 = 4;

// 33 where a is none of so many.
fn beyond(a: u8, most: usize, reason: Reason) -> Option<Reason>
    ensures { result ≡ beyond_of a most reason }
{
    if byte_wide(a) >= most {
        Some(reason)
    } else {
        None
    }
}

// "33 if a is no process, board or channel of this table", of moves from 4 on; 32 for an unknown one. W-206: "Code 33: 1 for a board, 2 for a
// channel."
fn absent_above_3(counts: Counts, mv: u8, a: u8) -> Option<Reason>
    requires { 3 < mv }
    ensures { result ≡ absent_of counts a (move_of mv) }
{
    match mv {
        4 => beyond(a, counts.channels, Reason::NoSuchChannel),
        5 => beyond(a, counts.boards, Reason::NoSuchBoard),
        6 => beyond(a, counts.boards, Reason::NoSuchBoard),
        7 => beyond(a, counts.processes, Reason::NoSuchProcess),
        _ => Some(Reason::NoSuchMove),
    }
}

// The same of any move. Steps, syncs and carries are most of a schedule's records: told by themselves they need no jump by a table, which
// nobody can foretell.
fn absent(counts: Counts, mv: u8, a: u8) -> Option<Reason>
    ensures { result ≡ absent_of counts a (move_of mv) }
{
    match mv {
        1 => beyond(a, counts.processes, Reason::NoSuchProcess),
        2 => beyond(a, counts.processes, Reason::NoSuchProcess),
        3 => beyond(a, counts.boards, Reason::NoSuchBoard),
        _ => {
            if mv > 3 {
                absent_above_3(counts, mv, a)
            } else {
                Some(Reason::NoSuchMove)
            }
        }
    }
}

// 32 for a word that should be 0. W-206: "Code 32: 1 when the move is known and the word is at fault."
fn stray(mv: u8) -> Reason
    ensures { result ≡ stray_of (move_of mv) }
{
    match mv {
        1..=7 => Reason::WordNotZero,
        _ => Reason::NoSuchMove,
    }
}

// "Any record: 32 for an unknown move or a word that should be 0", then 33; nothing for a record whose move is made. "The word is 0 except in a
// feed": so a feed is told from the others once, and first.
pub fn judge(counts: Counts, c: Command) -> Option<Reason>
    ensures { result ≡ judge_of counts c }
{
    if c.mv == FEED {
        return absent(counts, FEED, c.a);
    }
    if c.word != 0 {
        return Some(stray(c.mv));
    }
    absent(counts, c.mv, c.a)
}

// A reason's cause.
fn cause_for(reason: Reason) -> u32
    ensures { result ≡ cause_in reason }
{
    (reason.number() % 4) as u32
}

// W-206, of a known move: "Code 32: 1 when the move is known and the word is at fault"; of a 33 what it says there.
fn fault(number: u32, of_33: Reason) -> u32
    ensures { result ≡ fault_of number (cause_in of_33) }
{
    if number == Reason::WordNotZero.code() as u32 {
        cause_for(Reason::WordNotZero)
    } else {
        cause_for(of_33)
    }
}

// The cause of a 32 or a 33, by the move: "Code 33: 1 for a board, 2 for a channel."
pub fn cause(number: u32, mv: u8) -> u32
    ensures { result ≡ cause_by number (move_of mv) }
{
    match mv {
        1 => fault(number, Reason::NoSuchProcess),
        2 => fault(number, Reason::NoSuchProcess),
        3 => fault(number, Reason::NoSuchBoard),
        4 => fault(number, Reason::NoSuchChannel),
        5 => fault(number, Reason::NoSuchBoard),
        6 => fault(number, Reason::NoSuchBoard),
        7 => fault(number, Reason::NoSuchProcess),
        _ => cause_for(Reason::NoSuchMove),
    }
}
