// A word reaches its reader, a process: "to the reader's inbox, the reader's backup record".
ghost use Rattle.bus.specs.Delivers.{Delivers};

use plan::{CHANNELS, PROCESSES, Plan};
use state::store::Store;
use words::index;

pub fn deliver(plan: &Plan, store: &mut Store, channel: u32, word: u32)
    ensures { Delivers plan.now store.old channel word store.new }
{
    let k = index::<CHANNELS>(channel);
    let p = index::<PROCESSES>(plan.reader(k));
    store.processes[p].receive(plan.port(k), channel, word);
}
