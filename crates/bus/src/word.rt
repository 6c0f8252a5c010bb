// A word is carried. Document 01: "A word goes, in one move, to the reader's inbox, the reader's backup record, and the sender's backup
// record, which counts it and keeps no copy."
ghost use Rattle.bus.specs.Carries.{Carries};

use crate::delivery::deliver;
use numbers::answers::Reason;
use plan::{CHANNELS, PROCESSES, Plan};
use state::channel::ENVIRONMENT;
use state::moved::{Answer, answer_for};
use state::store::Store;
use words::index;

// The sender's half, and then the reader's, which may be the same process. The sender of a word in a queue is a process, never the outside. The
// channel's total stays, with a word less in the queues and one more unread; of a word that the outside reads it is one less.
pub fn transmit_word(plan: &Plan, store: &mut Store, channel: u32, word: u32) -> Answer
    ensures { Carries plan.now store.old channel word store.new result }
{
    let k = index::<CHANNELS>(channel);
    let p = index::<PROCESSES>(plan.sender(k));
    store.processes[p].counts();
    let answer = answer_for(Reason::Carried, channel, word);
    if plan.reader(k) == ENVIRONMENT {
        store.totals[k] = std::num::wrapping_sub_u32(store.totals[k], 1);
        return answer;
    }
    deliver(plan, store, channel, word);
    answer
}
