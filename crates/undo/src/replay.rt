// Records that are held, done once more.
ghost use Rattle.std.specs.Prelude.{◌≡◌, ◌≤◌, length};
ghost use Rattle.plan.specs.Plan.{plan_of};
ghost use Rattle.undo.specs.History.{held_most, history_length};
ghost use Rattle.undo.specs.Replays.{Replays, Follows};

use crate::history::{HELD, HISTORY, KEPT, remember};
use plan::Plan;
use play::play::play;
use state::entry::Entry;
use state::queue::ENTRIES;
use state::store::Store;
use stretch::stretch::Stretch;

// The first n records of a history, on a store that holds the cabinet before them. What they answer nobody reads.
pub fn replay(
    table: &[u8],
    history: &[u8; HISTORY],
    plan: &Plan,
    store: &mut Store,
    entries: [Entry; ENTRIES],
    n: usize,
) -> [Entry; ENTRIES]
    requires { n ≤ held_most }
    ensures { Replays (plan_of table.now plan.now) history.now n store.old entries
        store.new result }
{
    let mut answers = [0u8; 6 * HELD];
    let mut reasons = [0u8; HELD];
    let mut origins = [0u8; 2 * HELD];
    let all = Stretch {
        from: 0,
        to: n,
        entries: entries,
    };
    let r = play(
        table,
        history,
        plan,
        store,
        &mut answers,
        &mut reasons,
        &mut origins,
        all,
    );
    r.entries
}

// The base follows: the older half of a full history is done on it for good, and the other half is held.
pub fn follow(
    table: &[u8],
    history: &mut [u8; HISTORY],
    plan: &Plan,
    store: &mut Store,
    entries: [Entry; ENTRIES],
) -> [Entry; ENTRIES]
    requires { length history.old ≡ history_length }
    ensures { Follows (plan_of table.now plan.now) history.old store.old entries history.new
        store.new result }
{
    let e = replay(table, history, plan, store, entries, KEPT);
    let old = *history;
    remember(&old, KEPT, HELD, history, 0);
    e
}
