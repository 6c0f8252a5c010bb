// The loop over a schedule's records: each is judged, its move made, and its answer written. The loop alone holds the entries of all queues, one
// flat array: it hands a carry the oldest entry of a board, and makes the entry by which a step, a sync or a resync ends. A record's move is read
// one record ahead: which move comes is what nobody can foretell, and so the processor knows it sooner.
ghost use Rattle.plan.specs.Plan.{plan_of};
ghost use Rattle.stretch.specs.Plays.{sheets_of, Roomy, Plays};

use bus::inject::inject;
use bus::oldest::oldest_of;
use bus::origin::{carried, fed};
use bus::transmit::transmit;
use command::due::{due_of, turned_away};
use numbers::answers::Reason;
use plan::Plan;
use records::schedule::{UNDO, command_at, command_of, move_at};
use rejoin::rebackup::transfer_entry;
use state::store::Store;
use step::entry::{checkpoint_of, place_of, sync_entry, word_entry};
use step::issue::issue;
use step::step::step;
use stretch::answer::{write, write_from};
use stretch::mend::mend;
use stretch::stretch::{Stretch, last};

// A stretch of a schedule's records, on a store that holds any cabinet that commands reach. It ends before a move 8, and with the schedule. What is
// returned is what is left of the stretch: the next record's number, and the entries then. The buffers have room for all records before `to`.
// The buffers stay three parameters: of one struct that lends them each call on the way would have to promise that its references are still the same,
// and each record would fetch them from it anew.
pub fn play(
    table: &[u8],
    schedule: &[u8],
    plan: &Plan,
    store: &mut Store,
    answers: &mut [u8],
    reasons: &mut [u8],
    origins: &mut [u8],
    stretch: Stretch,
) -> Stretch
    requires { Roomy stretch.to (sheets_of answers.old reasons.old origins.old) }
    ensures { Plays (plan_of table.now plan.now) schedule.now stretch store.old
        (sheets_of answers.old reasons.old origins.old) result store.new
        (sheets_of answers.new reasons.new origins.new) }
{
    let to = stretch.to;
    let end = last(schedule, to);
    let mut entries = stretch.entries;
    let mut i = stretch.from;
    let mut ahead = command_at(schedule, i).mv;
    // A while: it ends early before a move 8, and the number at which it ended is handed back.
    while i < end {
        let k = i;
        i += 1;
        let c = command_of(schedule, k, ahead);
        ahead = move_at(schedule, i);
        let d = due_of(plan.counts, c);
        let mv = d.mv;
        let a = d.a;
        let r = if d.number != 0 {
            if mv == UNDO {
                return Stretch {
                    from: k,
                    to: to,
                    entries: entries,
                };
            }
            turned_away(d)
        } else {
            match mv {
                1 => {
                    let place = place_of(store, a);
                    let m = step(table, plan, store, a);
                    if let Some(at) = m.at {
                        entries[at] = word_entry(m.answer, place);
                    }
                    // The most frequent answer is written by itself: its bytes are then known beforehand.
                    if m.answer.code == Reason::Calculated.code() as u32 {
                        write(answers, reasons, origins, k, m.answer);
                        continue;
                    }
                    write(answers, reasons, origins, k, m.answer);
                    continue;
                }
                2 => {
                    let checkpoint = checkpoint_of(store, a);
                    let m = issue(store, a);
                    if let Some(at) = m.at {
                        entries[at] = sync_entry(a, checkpoint);
                    }
                    m.answer
                }
                3 => {
                    let at = oldest_of(&store.queues, a);
                    let e = entries[at];
                    let r = transmit(plan, store, a, e);
                    let o = carried(&plan.wires, r.code, e);
                    write_from(answers, reasons, origins, k, r, o);
                    continue;
                }
                4 => {
                    let r = inject(plan, store, a, d.word);
                    write_from(answers, reasons, origins, k, r, fed(r.code));
                    continue;
                }
                _ => {
                    let m = mend(plan, store, mv, a);
                    if let Some(at) = m.at {
                        entries[at] = transfer_entry(a);
                    }
                    m.answer
                }
            }
        };
        write(answers, reasons, origins, k, r);
    }
    Stretch {
        from: i,
        to: to,
        entries: entries,
    }
}
