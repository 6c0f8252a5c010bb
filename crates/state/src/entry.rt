// An entry of an outgoing queue: a word, which names its channel and the place of its SEND; a checkpoint, which names its process and has its
// numbers as single fields; or a state transfer, which names its process. All queues together are one flat array of these entries, a ring of
// 32 for each board.
ghost use Rattle.std.specs.Prelude.{◌≡◌};
ghost use Rattle.state.specs.Store.{blank_entry};

use backup::place::Checkpoint;

// Document 01: "An entry of an outgoing queue is a word or a sync". W-210: or a resync, "its snapshot and copies of all its unread words [..]
// as one entry". Snapshot and copies stand in the record that is being made. W-212: a word keeps "the place of its SEND"; its sender stands in
// the channel's wire.
#[derive(Clone, Copy)]
pub enum Item {
    Word {
        channel: u32,
        word: u32,
        place: u8,
    },
    Sync {
        process: u32,
        checkpoint: Checkpoint,
    },
    Transfer {
        process: u32,
    },
}

#[derive(Clone, Copy)]
pub struct Entry {
    pub item: Item,
}

// What stands where no entry was ever put.
pub fn blank() -> Entry
    ensures { result ≡ blank_entry }
{
    Entry {
        item: Item::Word {
            channel: 0,
            word: 0,
            place: 0,
        },
    }
}
