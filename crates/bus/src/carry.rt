// Move 3 with where the word comes from that it puts on the bus (W-212).
ghost use Rattle.bus.specs.Carried.{CarriedBy};

use crate::origin::{Origin, carried};
use crate::transmit::transmit;
use plan::Plan;
use state::entry::Entry;
use state::moved::Answer;
use state::store::Store;

// An answer, and the origin of its word.
#[derive(Clone, Copy)]
pub struct Carried {
    pub answer: Answer,
    pub origin: Origin,
}

// `oldest` is what stands where the board's oldest entry does, if it has one.
pub fn carry(plan: &Plan, store: &mut Store, a: u32, oldest: Entry) -> Carried
    ensures { CarriedBy plan.now store.old a oldest store.new result }
{
    let answer = transmit(plan, store, a, oldest);
    let origin = carried(&plan.wires, answer.code, oldest);
    Carried {
        answer: answer,
        origin: origin,
    }
}
