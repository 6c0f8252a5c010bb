// A checkpoint is carried: its process's backup keeps it, if there is one, and it waits no more. A record that is being made is none.
// "5 sync carried, 6 sync with no backup left (process, 0)"; W-202: "A carried sync then answers 5 with the total dropped as its word".
ghost use Rattle.bus.specs.Syncs.{Syncs};

use backup::place::Checkpoint;
use numbers::answers::Reason;
use plan::PROCESSES;
use state::moved::{Answer, answer_for};
use state::store::Store;
use words::index;

pub fn transmit_sync(store: &mut Store, process: u32, checkpoint: Checkpoint) -> Answer
    ensures { Syncs store.old process checkpoint store.new result }
{
    let p = index::<PROCESSES>(process);
    let dropped = store.processes[p].keep(checkpoint);
    store.processes[p].waits = 0;
    if !store.processes[p].is_backed() {
        return answer_for(Reason::SyncUnbacked, process, 0);
    }
    answer_for(Reason::SyncCarried, process, dropped)
}
