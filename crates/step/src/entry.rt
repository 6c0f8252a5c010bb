// The entries by which a step and a sync join a queue, and what of the process must be kept for them before the move.
ghost use Rattle.std.specs.Prelude.{◌≡◌, ◌%◌, ◌<◌};
ghost use Rattle.process.specs.Row.{checkpoint_in};
ghost use Rattle.rules.specs.Sizes.{processes_most};
ghost use Rattle.state.specs.Store.{lists_at};
ghost use Rattle.step.specs.Parts.{sent_as};
ghost use Rattle.step.specs.Issues.{synced_as};

use backup::place::Checkpoint;
use plan::PROCESSES;
use state::entry::{Entry, Item};
use state::moved::Answer;
use state::store::Store;
use words::{index, low_byte};

// The place at which process a stands.
pub fn place_of(store: &Store, a: u32) -> u8
    ensures { a < processes_most → result ≡ (lists_at store.now a).pc % 256 }
{
    low_byte(store.processes[index::<PROCESSES>(a)].pc)
}

// Process a as a checkpoint.
pub fn checkpoint_of(store: &Store, a: u32) -> Checkpoint
    ensures { a < processes_most → result ≡ checkpoint_in (lists_at store.now a) }
{
    store.processes[index::<PROCESSES>(a)].snapshot()
}

// A word that a step's answer shows, and the place of its SEND.
pub fn word_entry(answer: Answer, place: u8) -> Entry
    ensures { result ≡ sent_as answer place }
{
    Entry {
        item: Item::Word {
            channel: answer.a,
            word: answer.word,
            place: place,
        },
    }
}

// A sync of a process.
pub fn sync_entry(process: u32, checkpoint: Checkpoint) -> Entry
    ensures { result ≡ synced_as process checkpoint }
{
    Entry {
        item: Item::Sync {
            process: process,
            checkpoint: checkpoint,
        },
    }
}
