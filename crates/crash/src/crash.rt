// Move 5: "crash board a: its queue is lost." "Crash: 34 already dead"; W-210: "Crash refuses with 44 now exactly while some process has no
// backup." The totals: a dead queue's words go, and the inbox of a process that went on takes the place of the one that it had.
ghost use Rattle.state.specs.Moved.{BackupsStay};
ghost use Rattle.crash.specs.Crashes.{Crashes};

use crate::losses::{lose_words, some_unbacked};
use crate::processes::crash_all;
use crate::recount::{Unread, recount};
use numbers::answers::Reason;
use plan::{BOARDS, CHANNELS, PROCESSES, Plan};
use state::moved::{Answer, answer_for, refusal_for};
use state::store::Store;
use words::{index, most};

pub fn crash(plan: &Plan, store: &mut Store, a: u32) -> Answer
    ensures crashes { Crashes plan.now store.old a store.new result }
    ensures backups_stay { BackupsStay store.old store.new }
{
    let b = index::<BOARDS>(a);
    if store.queues[b].is_dead() {
        return refusal_for(Reason::CrashOfDead, a);
    }
    let p = most::<PROCESSES>(plan.counts.processes);
    if some_unbacked(p, &store.processes) {
        return refusal_for(Reason::SomeUnbacked, a);
    }
    let k = most::<CHANNELS>(plan.counts.channels);
    recount(k, plan, Unread::Out, &store.processes, &mut store.totals);
    lose_words(k, plan, &store.processes, a, &mut store.totals);
    crash_all(p, plan, &mut store.processes, a);
    recount(k, plan, Unread::In, &store.processes, &mut store.totals);
    store.queues[b].die();
    answer_for(Reason::BoardCrashed, 0, 0)
}
