// A step that sends a word: "A SEND with hold-back above 0 lowers it by one and sends nothing. Otherwise the word joins its board's
// queue." "For a SEND not held back: 37 likewise, 38 queue full, 39 held."
ghost use Rattle.state.specs.Moved.{MailsStay, BackupsStay};
ghost use Rattle.step.specs.Parts.{SendTurns};

use crate::guards::{blame, owing};
use instruction::instruction::{queue_send, suppress_send};
use numbers::answers::Reason;
use plan::{BOARDS, CHANNELS, PROCESSES, Plan};
use state::channel::full;
use state::moved::{Moved, alone, answer_for, refused_for};
use state::store::Store;
use words::index;

// Process a sends a word to a channel of its own.
pub fn send(plan: &Plan, store: &mut Store, limit: u32, a: u32, channel: u32, word: u32) -> Moved
    ensures sends { SendTurns plan.now store.old limit a channel word store.new result }
    ensures mails_stay { MailsStay store.old store.new }
    ensures backups_stay { BackupsStay store.old store.new }
{
    let p = index::<PROCESSES>(a);
    if store.processes[p].suppress > 0 {
        suppress_send(&mut store.processes[p]);
        return alone(answer_for(Reason::HeldBack, channel, word));
    }
    if owing(&store.processes[p], limit) {
        return refused_for(blame(&store.processes[p], limit), a);
    }
    let b = index::<BOARDS>(store.processes[p].board);
    if store.queues[b].is_full() {
        return refused_for(Reason::QueueFullForSend, a);
    }
    let k = index::<CHANNELS>(channel);
    if full(plan.reader(k), store.totals[k]) {
        return refused_for(Reason::HeldForSend, a);
    }
    let at = store.queues[b].place(b);
    queue_send(&mut store.processes[p]);
    store.queues[b].push();
    store.totals[k] = std::num::wrapping_add_u32(store.totals[k], 1);
    Moved {
        answer: answer_for(Reason::Queued, channel, word),
        at: Some(at),
    }
}
