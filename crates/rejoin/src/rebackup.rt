// Move 7: a process's new record is made, and the transfer of its state joins its board's queue. "Move 7 refuses in the order 50, 49, 41 (for a
// waiting resync too), 38." "49, hold-back above 0 or, on one channel it reads, more than 8 words unread and in queues together; 50, the process
// has a backup or its other table board is dead."
ghost use Rattle.std.specs.Prelude.{◌≡◌, ◌<◌, min};
ghost use Rattle.facts.specs.Tests.{any_below};
ghost use Rattle.backup.specs.Limits.{ports};
ghost use Rattle.plan.specs.Plan.{arity_in};
ghost use Rattle.rules.specs.Sizes.{processes_most};
ghost use Rattle.state.specs.Moved.{MailsStay};
ghost use Rattle.rejoin.specs.Rebackups.{crowded_on, transfer_entry, Rebackups};

use numbers::answers::Reason;
use plan::{BOARDS, CHANNELS, INPUTS, PROCESSES, Plan};
use state::channel::OCCUPANCY;
use state::entry::{Entry, Item};
use state::moved::{Moved, answer_for, refused_for};
use state::store::Store;
use words::{index, least, wide};

// Whether a channel at one of process p's ports has more words than it may.
fn crowded(plan: &Plan, totals: &[u32; CHANNELS], p: usize) -> bool
    requires { p < processes_most }
    ensures { result ≡ any_below (crowded_on plan.now.programs totals.now p) (min (arity_in plan.now.programs p) ports) }
{
    let n = least(wide(plan.arity(p)), INPUTS);
    let mut found = false;
    for port in 0..n {
        let k = wide(plan.input(p, port)) % CHANNELS;
        if totals[k] > OCCUPANCY {
            found = true;
        }
    }
    found
}

pub fn rebackup(plan: &Plan, store: &mut Store, a: u32) -> Moved
    ensures rebackups { Rebackups plan.now store.old a store.new result }
    ensures mails_stay { MailsStay store.old store.new }
    ensures totals_stay { store.new.totals ≡ store.old.totals }
{
    let p = index::<PROCESSES>(a);
    if store.processes[p].is_backed() {
        return refused_for(Reason::HasBackup, a);
    }
    let other = index::<BOARDS>(store.processes[p].standby);
    if store.queues[other].is_dead() {
        return refused_for(Reason::HasBackup, a);
    }
    if store.processes[p].suppress != 0 {
        return refused_for(Reason::NotReady, a);
    }
    if crowded(plan, &store.totals, p) {
        return refused_for(Reason::NotReady, a);
    }
    if store.processes[p].is_waiting() {
        return refused_for(Reason::ResyncWaiting, a);
    }
    let b = index::<BOARDS>(store.processes[p].board);
    if store.queues[b].is_full() {
        return refused_for(Reason::QueueFullForResync, a);
    }
    let at = store.queues[b].place(b);
    store.processes[p].waits = 1;
    store.processes[p].begin_transfer(&plan.wires);
    store.queues[b].push();
    Moved {
        answer: answer_for(Reason::ReturnedOrResync, 0, 0),
        at: Some(at),
    }
}

// The entry that joins.
pub fn transfer_entry(process: u32) -> Entry
    ensures { result ≡ transfer_entry process }
{
    Entry {
        item: Item::Transfer { process: process },
    }
}
