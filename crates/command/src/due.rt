// A schedule's record, read and judged before its move is made; and what it is answered where that refuses it.
ghost use Rattle.std.specs.Prelude.{◌≡◌};
ghost use Rattle.command.specs.Judges.{number_said, turned_away};
ghost use Rattle.command.specs.Dues.{DueOf};

use crate::judge::{cause, judge};
use numbers::answers::Reason;
use plan::Counts;
use records::schedule::Command;
use state::moved::{Answer, refusal};
use words::byte_word;

// The record's move, a and word, and 32, 33 or 0 for neither.
#[derive(Clone, Copy)]
pub struct Due {
    pub number: u32,
    pub mv: u8,
    pub a: u32,
    pub word: u32,
}

// The code of what the judging says.
fn number_said(said: Option<Reason>) -> u32
    ensures { result ≡ number_said said }
{
    match said {
        None => 0,
        Some(reason) => reason.code() as u32,
    }
}

// A record that was read.
pub fn due_of(counts: Counts, c: Command) -> Due
    ensures { DueOf counts c result }
{
    Due {
        number: number_said(judge(counts, c)),
        mv: c.mv,
        a: byte_word(c.a),
        word: c.word,
    }
}

// The answer to one with a number.
pub fn turned_away(d: Due) -> Answer
    ensures { result ≡ turned_away d.number d.mv d.a }
{
    refusal(d.number, cause(d.number, d.mv), d.a)
}
