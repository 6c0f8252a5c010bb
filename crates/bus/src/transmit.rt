// Move 3: the oldest entry of a board's queue is carried. "Carry: 34 board dead, 42 queue empty."
ghost use Rattle.bus.specs.Transmits.{Transmits};

use crate::sync::transmit_sync;
use crate::transfer::transmit_transfer;
use crate::word::transmit_word;
use numbers::answers::Reason;
use plan::{BOARDS, Plan};
use state::entry::{Entry, Item};
use state::moved::{Answer, refusal_for};
use state::store::Store;
use words::index;

// `oldest` is what stands where the board's oldest entry does, if it has one.
pub fn transmit(plan: &Plan, store: &mut Store, a: u32, oldest: Entry) -> Answer
    ensures { Transmits plan.now store.old a oldest store.new result }
{
    let b = index::<BOARDS>(a);
    if store.queues[b].is_dead() {
        return refusal_for(Reason::CarryOfDead, a);
    }
    let Some(item) = store.queues[b].peek(oldest) else {
        return refusal_for(Reason::QueueEmpty, a);
    };
    store.queues[b].pop();
    if let Item::Word {
        channel,
        word,
        place: _,
    } = item
    {
        return transmit_word(plan, store, channel, word);
    }
    if let Item::Sync {
        process,
        checkpoint,
    } = item
    {
        return transmit_sync(store, process, checkpoint);
    }
    // What is neither is a transfer: this else is never taken.
    let Item::Transfer { process } = item else {
        return refusal_for(Reason::QueueEmpty, a);
    };
    transmit_transfer(store, process)
}
