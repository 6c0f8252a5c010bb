// A board's queue: where its ring begins among the entries, how many entries it has, and whether the board is dead (1) or live (0). Everything
// that is done to it: an entry joins behind the newest, the oldest is looked at and leaves, the board dies or comes back.
ghost use Rattle.std.specs.Prelude.{◌≡◌, ◌+◌, ◌*◌, ◌%◌, ◌^◌, ◌<◌, nat_le};
ghost use Rattle.rules.specs.Sizes.{boards_most, entries_most, outbox_most};
ghost use Rattle.state.specs.Queue.{place_of, oldest_of, pushed_in, front_of, popped_in, reset_in, is_dead};

use crate::entry::{Entry, Item};
use plan::BOARDS;
use words::wide;

// Entries that a queue holds at most.
pub const QUEUE: u32 = 32;
// The same, as how many places its ring has.
pub const RING: usize = QUEUE as usize;
// All queues together.
pub const ENTRIES: usize = BOARDS * RING;

#[derive(Clone, Copy)]
pub struct Queue {
    pub first: u32,
    pub count: u32,
    pub dead: u32,
}

// Of a live board, with no entry.
pub const NO_QUEUE: Queue = Queue {
    first: 0,
    count: 0,
    dead: 0,
};

impl Queue {
    // Where the entry that joins board b's queue next is put.
    pub fn place(&self, b: usize) -> usize
        ensures { (result < entries_most) × (b < boards_most → result ≡ place_of self.now b) }
    {
        RING * (b % BOARDS) + (wide(self.first) + wide(self.count)) % RING
    }

    // Whether the board is dead.
    pub fn is_dead(&self) -> bool
        ensures { result ≡ is_dead self.now }
    {
        self.dead != 0
    }

    // Whether no further entry can join.
    pub fn is_full(&self) -> bool
        ensures { result ≡ nat_le outbox_most self.now.count }
    {
        self.count >= QUEUE
    }

    // An entry joined.
    pub fn push(&mut self)
        ensures { self.new ≡ pushed_in self.old }
    {
        self.count = std::num::wrapping_add_u32(self.count, 1);
    }

    // Where board b's oldest entry stands, if it has one.
    pub fn oldest(&self, b: usize) -> usize
        ensures { (result < entries_most) × (b < boards_most → result ≡ oldest_of self.now b) }
    {
        RING * (b % BOARDS) + wide(self.first) % RING
    }

    // Document 01: "Carry looks at the oldest entry; with none the answer is 42." What stands where the oldest entry does is the oldest entry, if
    // the board has one.
    pub fn peek(&self, oldest: Entry) -> Option<Item>
        ensures { result ≡ front_of self.now oldest }
    {
        if self.count == 0 {
            return None;
        }
        let item = oldest.item;
        Some(item)
    }

    // The oldest entry left.
    pub fn pop(&mut self)
        ensures { self.new ≡ popped_in self.old }
    {
        self.first = std::num::wrapping_add_u32(self.first, 1) % QUEUE;
        self.count = std::num::wrapping_sub_u32(self.count, 1);
    }

    // No entry is left, and the board is dead (1) or live (0).
    fn reset(&mut self, dead: u32)
        ensures { self.new ≡ reset_in self.old dead }
    {
        self.count = 0;
        self.dead = dead;
    }

    // The board crashed: "its queue is lost".
    pub fn die(&mut self)
        ensures { self.new ≡ reset_in self.old 1 }
    {
        self.reset(1);
    }

    // The board is back, "with an empty queue".
    pub fn revive(&mut self)
        ensures { self.new ≡ reset_in self.old 0 }
    {
        self.reset(0);
    }
}
