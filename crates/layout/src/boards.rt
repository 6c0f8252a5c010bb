// The numbers of one board: dead or live, and its queue, oldest entry first.
ghost use Rattle.std.specs.Prelude.{◌≡◌, cond, ◌+◌, ◌≤◌, ◌<◌, length};
ghost use Rattle.std.proofs.lemmas.List.Edits.{sets};
ghost use Rattle.rules.specs.Sizes.{boards_most};
ghost use Rattle.state.specs.Store.{item_of};
ghost use Rattle.state.specs.Queue.{is_dead};
ghost use Rattle.layout.specs.View.{item_numbers};
ghost use Rattle.layout.specs.Lists.{entry_place, entry_at, board_numbers_in};

use crate::lay::lay;
use plan::BOARDS;
use state::entry::{Entry, Item};
use state::queue::{ENTRIES, Queue, RING};
use words::{byte_word, wide};

// The numbers of an entry, where a board's entries begin, and how many numbers a board has.
const ENTRY: usize = 13;

const QUEUE: usize = 2;

pub const BOARD: usize = QUEUE + ENTRY * RING;

// Kind; channel and word; process; place, registers and takes of each slot.
fn numbers_of(item: Item) -> [u32; ENTRY]
    ensures { result ≡ item_numbers (item_of item) }
{
    match item {
        Item::Word {
            channel,
            word,
            place,
        } => [
            1,
            channel,
            word,
            0,
            byte_word(place),
            0,
            0,
            0,
            0,
            0,
            0,
            0,
            0,
        ],
        Item::Sync {
            process,
            checkpoint,
        } => [
            2,
            0,
            0,
            process,
            checkpoint.pc,
            checkpoint.r0,
            checkpoint.r1,
            checkpoint.r2,
            checkpoint.r3,
            checkpoint.t0,
            checkpoint.t1,
            checkpoint.t2,
            checkpoint.t3,
        ],
        Item::Transfer { process } => [3, 0, 0, process, 0, 0, 0, 0, 0, 0, 0, 0, 0],
    }
}

// Where entry i of board b's queue stands, the oldest at 0.
fn place_of(queue: &Queue, b: usize, i: usize) -> usize
    requires { (b < boards_most) × (i < 32) }
    ensures { (result ≡ entry_place queue.now b i) × (result < 512) }
{
    RING * b + (wide(queue.first) + i) % RING
}

// Entry i, from what stands there: zeros where the queue is shorter.
fn entry(queue: &Queue, e: Entry, i: usize) -> [u32; ENTRY]
    ensures { result ≡ entry_at queue.now e i }
{
    if i >= wide(queue.count) {
        return [0u32; ENTRY];
    }
    let item = e.item;
    numbers_of(item)
}

// 1 for a dead board.
fn dead(queue: &Queue) -> u32
    ensures { result ≡ cond (is_dead queue.now) 1 0 }
{
    if queue.is_dead() { 1 } else { 0 }
}

// All of them, of board b, whose queue this is.
pub fn put_board(queue: &Queue, entries: &[Entry; ENTRIES], b: usize, out: &mut [u32], at: usize)
    requires { (b < boards_most) × (at + 418 ≤ length out.old) }
    ensures { out.new ≡ sets out.old at (board_numbers_in queue.now entries.now b) }
{
    let head = [dead(queue), queue.count];
    lay(&head, out, at);
    for i in 0..RING {
        let e = entries[place_of(queue, b, i)];
        let x = entry(queue, e, i);
        lay(&x, out, at + QUEUE + ENTRY * i);
    }
}
