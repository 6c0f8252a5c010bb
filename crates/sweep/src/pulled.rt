// A schedule with the crash of a board put in: "the crash put at each of the n + 1 places".
ghost use Rattle.std.specs.Prelude.{◌≡◌, ◌+◌, ◌≤◌, length};
ghost use Rattle.std.proofs.lemmas.List.Edits.{sets};
ghost use Rattle.sweep.specs.Pulled.{pulled_most, pulled_bytes, HasPlace};

use crate::judge::{CRASH, SWEEP_MOST};
use records::schedule::FIRST_COMMAND;

// The bytes of the longest schedule that is swept, with the crash.
pub const PULLED: usize = FIRST_COMMAND + 6 * (SWEEP_MOST + 1);

// Bytes stored from a place on.
fn lay(from: &[u8], out: &mut [u8], at: usize)
    requires { at + length from.now ≤ length out.old }
    ensures { out.new ≡ sets out.old at from.now }
{
    out[at..at + from.len()].copy_from_slice(from);
}

// The schedule with the crash of a board behind so many records, to the front of `out`.
pub fn put_in(schedule: &[u8], place: usize, board: u8, out: &mut [u8])
    requires has_place { HasPlace schedule.now place }
    requires pulled_most_in_bounds { pulled_most ≤ length out.old }
    ensures { out.new ≡ sets out.old 0 (pulled_bytes schedule.now place board) }
{
    let follows = schedule.len() + 4;
    let at = FIRST_COMMAND + 6 * place;
    let front = [(follows / 256) as u8, (follows % 256) as u8];
    let crash = [CRASH, board, 0, 0, 0, 0];
    lay(&front, out, 0);
    lay(&schedule[2..at], out, 2);
    lay(&crash, out, at);
    lay(&schedule[at..], out, at + 6);
}
