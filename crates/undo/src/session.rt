// A schedule's records from the start on, moves 8 among them: stretches between them are played, and a move 8 takes a record back.
ghost use Rattle.std.specs.Prelude.{◌≡◌, ◌<◌};
ghost use Rattle.rules.specs.Schedule.{commands_in};
ghost use Rattle.plan.specs.Plan.{plan_of};
ghost use Rattle.stretch.specs.Plays.{Roomy, sheets_of};
ghost use Rattle.undo.specs.Sessions.{undo_answer_of, Sessions};

use crate::history::{HELD, HISTORY, KEPT, remember};
use crate::replay::{follow, replay};
use numbers::answers::Reason;
use plan::Plan;
use play::play::play;
use records::schedule::{Command, UNDO, command_at};
use state::entry::Entry;
use state::moved::{Answer, answer_for, refusal_for};
use state::queue::ENTRIES;
use state::store::Store;
use stretch::answer::write;
use stretch::stretch::{Stretch, count};
use words::{byte_word, least};

// What a move 8 is answered where so many records are kept: "with a and word 0 (else 32, cause 1)"; "53, no record is kept to go back to". (Its a
// is a byte.)
fn undo_answer(c: Command, kept: usize) -> Answer
    ensures { (result ≡ undo_answer_of c kept) × (c.a < 256) }
{
    let a = byte_word(c.a);
    if c.a != 0 {
        return refusal_for(Reason::WordNotZero, a);
    }
    if c.word != 0 {
        return refusal_for(Reason::WordNotZero, a);
    }
    if kept == 0 {
        return refusal_for(Reason::NoneKept, a);
    }
    answer_for(Reason::TakenBack, 0, 0)
}

// All records of a schedule, on a store that holds the start. The base is a copy of it, `held` records behind; the last `kept` of these may be
// taken back. The base follows when HELD are held, so that a move 8 costs at most so many records, and a run's time grows with its records.
pub fn session(
    table: &[u8],
    schedule: &[u8],
    plan: &Plan,
    store: &mut Store,
    answers: &mut [u8],
    reasons: &mut [u8],
    origins: &mut [u8],
    entries: [Entry; ENTRIES],
) -> [Entry; ENTRIES]
    requires { Roomy (commands_in schedule.now) (sheets_of answers.old reasons.old origins.old) }
    ensures { Sessions (plan_of table.now plan.now) schedule.now store.old entries
        (sheets_of answers.old reasons.old origins.old) store.new result
        (sheets_of answers.new reasons.new origins.new) }
{
    let records = count(schedule);
    let mut base = *store;
    let mut base_entries = entries;
    let mut now_entries = entries;
    let mut history = [0u8; HISTORY];
    let mut held = 0;
    let mut kept = 0;
    let mut i = 0;
    // A while: a stretch goes forward by as many records as it plays.
    while i < records {
        let k = i;
        let c = command_at(schedule, k);
        if c.mv == UNDO {
            let r = undo_answer(c, kept);
            write(answers, reasons, origins, k, r);
            i += 1;
            if r.code == Reason::TakenBack.code() as u32 {
                held -= 1;
                kept -= 1;
                *store = base;
                let before = replay(table, &history, plan, store, base_entries, held);
                now_entries = before;
            }
            continue;
        }
        let forward = Stretch {
            from: k,
            to: least(k + (HELD - held), records),
            entries: now_entries,
        };
        let left = play(
            table, schedule, plan, store, answers, reasons, origins, forward,
        );
        now_entries = left.entries;
        i = left.from;
        remember(schedule, k, i, &mut history, held);
        held += i - k;
        kept = least(kept + (i - k), KEPT);
        if held == HELD {
            let followed = follow(table, &mut history, plan, &mut base, base_entries);
            base_entries = followed;
            held = KEPT;
        }
    }
    now_entries
}
