// The records that are no step, no sync and no carry: those that are refused before their move is looked at, feeds, and moves 5 to 7. Each is
// done and its answer written, by one call of the loop.
ghost use Rattle.stretch.specs.Others.{Others};
ghost use Rattle.stretch.specs.Plays.{sheets_of, RoomAt};

use crate::answer::{write, write_from};
use crate::mend::mend;
use bus::inject::inject;
use bus::origin::fed;
use command::due::{Due, turned_away};
use plan::Plan;
use state::store::Store;

// Record i, which is d. What is returned is where an entry joins a queue by it, if one does: a transfer, which the loop makes.
pub fn others(
    plan: &Plan,
    store: &mut Store,
    answers: &mut [u8],
    reasons: &mut [u8],
    origins: &mut [u8],
    i: usize,
    d: Due,
) -> Option<usize>
    requires { RoomAt i (sheets_of answers.old reasons.old origins.old) }
    ensures { Others plan.now i d store.old (sheets_of answers.old reasons.old origins.old)
        store.new (sheets_of answers.new reasons.new origins.new) result }
{
    if d.number != 0 {
        write(answers, reasons, origins, i, turned_away(d));
        return None;
    }
    let mv = d.mv;
    match mv {
        4 => {
            let r = inject(plan, store, d.a, d.word);
            write_from(answers, reasons, origins, i, r, fed(r.code));
            None
        }
        _ => {
            let m = mend(plan, store, mv, d.a);
            write(answers, reasons, origins, i, m.answer);
            m.at
        }
    }
}
