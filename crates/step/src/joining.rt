// Moves 1 and 2 with the entry by which each joins a queue: that is made of the process as it was before the move.
ghost use Rattle.step.specs.Joining.{StepJoins, IssueJoins};

use crate::entry::{checkpoint_of, place_of, sync_entry, word_entry};
use crate::issue::issue;
use crate::step::step;
use plan::Plan;
use state::entry::Entry;
use state::moved::Answer;
use state::store::Store;

// An answer, the place of the entry that joins by the move, if one does, and that entry.
#[derive(Clone, Copy)]
pub struct Joining {
    pub answer: Answer,
    pub at: Option<usize>,
    pub entry: Entry,
}

// A step of process a. The entry is the word that its answer shows.
pub fn step_joining(table: &[u8], plan: &Plan, store: &mut Store, a: u32) -> Joining
    ensures { StepJoins table.now plan.now store.old a store.new result }
{
    let place = place_of(store, a);
    let m = step(table, plan, store, a);
    let answer = m.answer;
    let entry = word_entry(answer, place);
    Joining {
        answer: answer,
        at: m.at,
        entry: entry,
    }
}

// A sync of process a. The entry is its checkpoint.
pub fn issue_joining(store: &mut Store, a: u32) -> Joining
    ensures { IssueJoins store.old a store.new result }
{
    let checkpoint = checkpoint_of(store, a);
    let m = issue(store, a);
    let answer = m.answer;
    let entry = sync_entry(a, checkpoint);
    Joining {
        answer: answer,
        at: m.at,
        entry: entry,
    }
}
