// Move 2: a process's checkpoint joins its board's queue. The loop makes the entry, of the process as it was before. "Sync: 40 no backup, 41
// one waiting, 38 queue full."
ghost use Rattle.std.specs.Prelude.{◌≡◌};
ghost use Rattle.state.specs.Moved.{MailsStay, BackupsStay};
ghost use Rattle.step.specs.Issues.{Issues};

use numbers::answers::Reason;
use plan::{BOARDS, PROCESSES};
use state::moved::{Moved, answer_for, refused_for};
use state::store::Store;
use words::index;

pub fn issue(store: &mut Store, a: u32) -> Moved
    ensures issues { Issues store.old a store.new result }
    ensures mails_stay { MailsStay store.old store.new }
    ensures backups_stay { BackupsStay store.old store.new }
    ensures totals_stay { store.new.totals ≡ store.old.totals }
{
    let p = index::<PROCESSES>(a);
    if !store.processes[p].is_backed() {
        return refused_for(Reason::NoBackup, a);
    }
    if store.processes[p].is_waiting() {
        return refused_for(Reason::SyncWaiting, a);
    }
    let b = index::<BOARDS>(store.processes[p].board);
    if store.queues[b].is_full() {
        return refused_for(Reason::QueueFullForSync, a);
    }
    let at = store.queues[b].place(b);
    store.processes[p].waits = 1;
    store.processes[p].issue();
    store.queues[b].push();
    Moved {
        answer: answer_for(Reason::SyncIssued, 0, 0),
        at: Some(at),
    }
}
