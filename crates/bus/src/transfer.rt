// A state transfer is carried: the record that was being made is its process's backup, and it waits no more.
// W-210: "When that entry is carried, its other table board holds a new record". "Its carry answers 5 with word 0"; "under 5 [..] a resync" has
// cause 3.
ghost use Rattle.bus.specs.Transfers.{Transfers};

use numbers::answers::Reason;
use plan::PROCESSES;
use state::moved::{Answer, answer_for};
use state::store::Store;
use words::index;

pub fn transmit_transfer(store: &mut Store, process: u32) -> Answer
    ensures { Transfers store.old process store.new result }
{
    let p = index::<PROCESSES>(process);
    store.processes[p].end_transfer();
    store.processes[p].waits = 0;
    answer_for(Reason::ResyncCarried, process, 0)
}
