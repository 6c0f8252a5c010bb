// Answers in bytes: "One six-byte answer a record: code, a, word."; why (W-206): "one byte a record: the answer's code times 4, plus a
// cause"; and where its word comes from (W-212): "two bytes a record: sender and place". That the buffers have room for all records is asked
// once, before the first.
ghost use Rattle.std.specs.Prelude.{◌≡◌, ◌+◌, ◌*◌, ◌≤◌, length};
ghost use Rattle.std.proofs.lemmas.List.Edits.{sets};
ghost use Rattle.rules.specs.Run.{origin_bytes};
ghost use Rattle.rules.specs.Moves.{no_origin};
ghost use Rattle.bus.specs.Origins.{origin_in};
ghost use Rattle.stretch.specs.Written.{reason_byte};
ghost use Rattle.stretch.specs.Plays.{sheets_of, RoomAt, Writes};

use bus::origin::{Origin, nowhere};
use numbers::answers::Reason;
use records::store::put_six;
use state::moved::Answer;
use words::low_byte;

// A code is below 64, and a cause below 4.
fn reason(code: u32, cause: u32) -> u8
    ensures { result ≡ reason_byte code cause }
{
    ((code % 64) * 4 + cause % 4) as u8
}

// The i-th origin of a buffer.
fn put_origin(origins: &mut [u8], i: usize, o: Origin)
    requires { 2 * i + 2 ≤ length origins.old }
    ensures { origins.new ≡ sets origins.old (2 * i) (origin_bytes (origin_in o)) }
{
    let at = 2 * i;
    origins[at] = o.sender;
    origins[at + 1] = o.place;
}

// The i-th answer, why, and where its word on the bus comes from.
pub fn write_from(
    answers: &mut [u8],
    reasons: &mut [u8],
    origins: &mut [u8],
    i: usize,
    r: Answer,
    o: Origin,
)
    requires { RoomAt i (sheets_of answers.old reasons.old origins.old) }
    ensures { Writes (sheets_of answers.old reasons.old origins.old) i r (origin_in o)
        (sheets_of answers.new reasons.new origins.new) }
{
    put_six(answers, 6 * i, low_byte(r.code), low_byte(r.a), r.word);
    reasons[i] = reason(r.code, r.cause);
    put_origin(origins, i, o);
}

// The i-th answer, of a record that puts no word on the bus.
pub fn write(answers: &mut [u8], reasons: &mut [u8], origins: &mut [u8], i: usize, r: Answer)
    requires { RoomAt i (sheets_of answers.old reasons.old origins.old) }
    ensures { Writes (sheets_of answers.old reasons.old origins.old) i r no_origin
        (sheets_of answers.new reasons.new origins.new) }
{
    write_from(answers, reasons, origins, i, r, nowhere());
}

// The i-th answer, of a step. The most frequent is written by itself: its bytes are then known beforehand.
pub fn write_step(answers: &mut [u8], reasons: &mut [u8], origins: &mut [u8], i: usize, r: Answer)
    requires { RoomAt i (sheets_of answers.old reasons.old origins.old) }
    ensures { Writes (sheets_of answers.old reasons.old origins.old) i r no_origin
        (sheets_of answers.new reasons.new origins.new) }
{
    if r.code == Reason::Calculated.code() as u32 {
        write(answers, reasons, origins, i, r);
        return;
    }
    write(answers, reasons, origins, i, r);
}
