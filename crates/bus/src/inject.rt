// Move 4: a word comes in from outside. "Feed: 43 sender not outside, 39 held."
ghost use Rattle.std.specs.Prelude.{◌≡◌};
ghost use Rattle.bus.specs.Injects.{Injects};

use crate::delivery::deliver;
use numbers::answers::Reason;
use plan::{CHANNELS, Plan};
use state::channel::{ENVIRONMENT, full};
use state::moved::{Answer, answer_for, refusal_for};
use state::store::Store;
use words::index;

pub fn inject(plan: &Plan, store: &mut Store, a: u32, word: u32) -> Answer
    ensures injects { Injects plan.now store.old a word store.new result }
    ensures queues_stay { store.new.queues ≡ store.old.queues }
{
    let k = index::<CHANNELS>(a);
    if plan.sender(k) != ENVIRONMENT {
        return refusal_for(Reason::NotFromOutside, a);
    }
    if full(plan.reader(k), store.totals[k]) {
        return refusal_for(Reason::HeldForFeed, a);
    }
    deliver(plan, store, a, word);
    store.totals[k] = std::num::wrapping_add_u32(store.totals[k], 1);
    answer_for(Reason::Fed, a, word)
}
