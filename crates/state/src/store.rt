// The cabinet: its processes; for each board its queue; for each channel its total, its unread words and its words in queues together. The entries
// of the queues stand in one flat array beside it. `specs/Store.antt` says which cabinet of the rules it is.
use crate::queue::Queue;
use plan::{BOARDS, CHANNELS, PROCESSES};
use process::process::Process;

#[derive(Clone, Copy)]
pub struct Store {
    pub processes: [Process; PROCESSES],
    pub queues: [Queue; BOARDS],
    pub totals: [u32; CHANNELS],
}
