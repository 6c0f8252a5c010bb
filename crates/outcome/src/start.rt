// The start: "every board live, each process on its primary board, inboxes and queues empty, each backup record as it starts, all else 0".
ghost use Rattle.std.specs.Prelude.{◌≡◌};
ghost use Rattle.outcome.specs.Starts.{seated_in, Seats, Starts};

use plan::{BOARDS, CHANNELS, PROCESSES, Placement};
use process::process::{COMPLETE, NO_PROCESS, Process};
use state::entry::{Entry, blank};
use state::queue::{ENTRIES, NO_QUEUE};
use state::store::Store;
use words::least;

// A store with nothing in it.
pub const EMPTY: Store = Store {
    processes: [NO_PROCESS; PROCESSES],
    queues: [NO_QUEUE; BOARDS],
    totals: [0; CHANNELS],
};

// One process, by its two boards.
fn seat_one(x: &mut Process, boards: Placement)
    ensures { x.new ≡ seated_in x.old boards }
{
    x.board = boards.primary;
    x.standby = boards.standby;
    x.protection = COMPLETE;
}

// All processes, of which there are 16 at most.
fn seat(processes: &mut [Process; PROCESSES], placements: &[Placement; PROCESSES], count: usize)
    ensures { Seats processes.old placements.now count processes.new }
{
    let most = least(count, PROCESSES);
    for p in 0..most {
        seat_one(&mut processes[p], placements[p]);
    }
}

// The store as the table gives it, whatever it held, and the entries of all queues, which are handed back.
pub fn start(
    store: &mut Store,
    placements: &[Placement; PROCESSES],
    processes: usize,
) -> [Entry; ENTRIES]
    ensures { Starts placements.now processes store.new result }
{
    *store = EMPTY;
    seat(&mut store.processes, placements, processes);
    let none = blank();
    [none; ENTRIES]
}
