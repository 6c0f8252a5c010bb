// Where the entry stands that a carry looks at.
ghost use Rattle.std.specs.Prelude.{◌≡◌, ◌<◌, slice_index_or};
ghost use Rattle.rules.specs.Sizes.{boards_most, entries_most};
ghost use Rattle.state.specs.Queue.{no_queue, oldest_of};

use plan::BOARDS;
use state::queue::Queue;
use words::index;

// Board a's oldest entry, if it has one; whatever a is, a place among the entries.
pub fn oldest_of(queues: &[Queue; BOARDS], a: u32) -> usize
    ensures { (result < entries_most) × (a < boards_most → result ≡ oldest_of (slice_index_or queues.now a no_queue) a) }
{
    let b = index::<BOARDS>(a);
    queues[b].oldest(b)
}
