// Moves 5 to 7, by which a board fails or comes back and a process gets a new backup: rare beside the others, and one call for the loop.
ghost use Rattle.stretch.specs.Mends.{Mends};

use crash::crash::crash;
use numbers::answers::Reason;
use plan::Plan;
use rejoin::rebackup::rebackup;
use rejoin::rejoin::rejoin;
use state::moved::{Moved, alone, refused_for};
use state::store::Store;

// The move of this number, of the process or board a.
pub fn mend(plan: &Plan, store: &mut Store, mv: u8, a: u32) -> Moved
    ensures { Mends plan.now mv a store.old store.new result }
{
    match mv {
        5 => alone(crash(plan, store, a)),
        6 => alone(rejoin(store, a)),
        7 => rebackup(plan, store, a),
        // Never reached: the loop keeps moves 1 to 4 for itself, and `judge` passes none but the seven; a match over numbers wants the rest.
        _ => refused_for(Reason::NoSuchMove, a),
    }
}
