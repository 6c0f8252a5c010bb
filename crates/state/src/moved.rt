// What a move answers, and where an entry joins a queue by it. An answer is numbers; the moves make each of a `Reason`.
ghost use Rattle.std.specs.Prelude.{◌≡◌};
ghost use Rattle.state.specs.Moved.{answer_of, refusal_of, refusal_for, answer_for, alone_of, refused_with, refused_for};

use numbers::answers::Reason;

// An answer's three numbers, and its cause (W-206).
#[derive(Clone, Copy)]
pub struct Answer {
    pub code: u32,
    pub cause: u32,
    pub a: u32,
    pub word: u32,
}

// An answer, and the place of the entry that joins a queue by the move, if one does. Which entry that is the loop knows from the move: it alone
// holds the entries.
#[derive(Clone, Copy)]
pub struct Moved {
    pub answer: Answer,
    pub at: Option<usize>,
}

// Of any numbers.
fn told(code: u32, cause: u32, a: u32, word: u32) -> Answer
    ensures { result ≡ answer_of code cause a word }
{
    Answer {
        code: code,
        cause: cause,
        a: a,
        word: word,
    }
}

// For a reason: its code and its cause.
pub fn answer_for(reason: Reason, a: u32, word: u32) -> Answer
    ensures { result ≡ answer_for reason a word }
{
    let number = reason.number() as u32;
    told(number / 4, number % 4, a, word)
}

// A refusal repeats a with word 0.
pub fn refusal(code: u32, cause: u32, a: u32) -> Answer
    ensures { result ≡ refusal_of code cause a }
{
    told(code, cause, a, 0)
}

pub fn refusal_for(reason: Reason, a: u32) -> Answer
    ensures { result ≡ refusal_for reason a }
{
    answer_for(reason, a, 0)
}

// An answer with no entry.
pub fn alone(answer: Answer) -> Moved
    ensures { result ≡ alone_of answer }
{
    Moved {
        answer: answer,
        at: None,
    }
}

pub fn refused(code: u32, cause: u32, a: u32) -> Moved
    ensures { result ≡ refused_with code cause a }
{
    alone(refusal(code, cause, a))
}

pub fn refused_for(reason: Reason, a: u32) -> Moved
    ensures { result ≡ refused_for reason a }
{
    let r = refusal_for(reason, a);
    refused(r.code, r.cause, r.a)
}
