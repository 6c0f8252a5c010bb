// All records of a schedule, from the start on. They are one stretch where there is no move 8. Where there is one, a session does them all once
// more: nothing is held of a schedule that takes nothing back.
ghost use Rattle.rules.specs.Schedule.{commands_in};
ghost use Rattle.plan.specs.Plan.{plan_of};
ghost use Rattle.stretch.specs.Plays.{Roomy, sheets_of};
ghost use Rattle.undo.specs.Sessions.{PlaysAll};

use crate::session::session;
use outcome::start::start;
use plan::{PROCESSES, Placement, Plan};
use play::play::play;
use state::entry::Entry;
use state::queue::ENTRIES;
use state::store::Store;
use stretch::stretch::{Stretch, count};

// On a store that may hold anything. What is returned are the entries of all queues.
pub fn play_all(
    table: &[u8],
    schedule: &[u8],
    plan: &Plan,
    placements: &[Placement; PROCESSES],
    store: &mut Store,
    answers: &mut [u8],
    reasons: &mut [u8],
    origins: &mut [u8],
) -> [Entry; ENTRIES]
    requires { Roomy (commands_in schedule.now) (sheets_of answers.old reasons.old origins.old) }
    ensures { PlaysAll (plan_of table.now plan.now) schedule.now placements.now
        (sheets_of answers.old reasons.old origins.old) store.new result
        (sheets_of answers.new reasons.new origins.new) }
{
    let records = count(schedule);
    let entries = start(store, placements, plan.counts.processes);
    let all = Stretch {
        from: 0,
        to: records,
        entries: entries,
    };
    let left = play(table, schedule, plan, store, answers, reasons, origins, all);
    if left.from >= records {
        return left.entries;
    }
    let anew = start(store, placements, plan.counts.processes);
    session(
        table, schedule, plan, store, answers, reasons, origins, anew,
    )
}
