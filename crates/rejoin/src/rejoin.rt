// Move 6: "Move 6 returns board a with an empty queue; nothing runs there yet." "48, a return of a live board, after 33".
ghost use Rattle.std.specs.Prelude.{◌≡◌};
ghost use Rattle.rejoin.specs.Rejoins.{Rejoins};

use numbers::answers::Reason;
use plan::BOARDS;
use state::moved::{Answer, answer_for, refusal_for};
use state::store::Store;
use words::index;

pub fn rejoin(store: &mut Store, a: u32) -> Answer
    ensures rejoins { Rejoins store.old a store.new result }
    ensures processes_stay { store.new.processes ≡ store.old.processes }
    ensures totals_stay { store.new.totals ≡ store.old.totals }
{
    let b = index::<BOARDS>(a);
    let live = !store.queues[b].is_dead();
    if live {
        return refusal_for(Reason::BoardLive, a);
    }
    store.queues[b].revive();
    answer_for(Reason::ReturnedOrResync, 0, 0)
}
