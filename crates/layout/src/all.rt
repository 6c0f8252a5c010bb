// The numbers of all processes, of all boards and of all channels, from the store that holds a cabinet: zeros for those that the table doesn't have.
ghost use Rattle.std.specs.Prelude.{◌≡◌, ◌+◌, ◌%◌, ◌^◌, ◌≤◌, ◌<◌, length};
ghost use Rattle.std.proofs.lemmas.List.Edits.{sets};
ghost use Rattle.rules.specs.Sizes.{processes_most, boards_most, channels_most};
ghost use Rattle.layout.specs.View.{each, view_most};
ghost use Rattle.layout.specs.Lists.{process_for, queue_for, total_for, process_block, board_block, total_block, view_of};

use crate::boards::{BOARD, put_board};
use crate::lay::lay;
use crate::processes::{PROCESS, put_process};
use plan::{BOARDS, CHANNELS, Counts, PROCESSES};
use process::process::{NO_PROCESS, Process};
use state::entry::Entry;
use state::queue::{ENTRIES, NO_QUEUE, Queue};
use state::store::Store;

// Where the view has its parts: first the counts, then processes, boards and totals.
const AT_PROCESSES: usize = 3;

const AT_BOARDS: usize = AT_PROCESSES + PROCESS * PROCESSES;

const AT_TOTALS: usize = AT_BOARDS + BOARD * BOARDS;

pub const VIEW: usize = AT_TOTALS + CHANNELS;

// A count as a number of 32 bits.
fn short(n: usize) -> u32
    ensures { result ≡ n % 2 ^ 32 }
{
    (n % 4294967296) as u32
}

// ---- processes

fn process_at(processes: &[Process; PROCESSES], count: usize, p: usize) -> Process
    requires { p < processes_most }
    ensures { result ≡ process_for processes.now count p }
{
    if p >= count {
        return NO_PROCESS;
    }
    processes[p]
}

fn put_processes(count: usize, processes: &[Process; PROCESSES], out: &mut [u32], at: usize)
    requires { at + 4464 ≤ length out.old }
    ensures { out.new ≡ sets out.old at (each (process_block count processes.now) processes_most) }
{
    for p in 0..PROCESSES {
        let x = process_at(processes, count, p);
        put_process(&x, out, at + PROCESS * p);
    }
}

// ---- boards

fn queue_at(queues: &[Queue; BOARDS], boards: usize, b: usize) -> Queue
    requires { b < boards_most }
    ensures { result ≡ queue_for queues.now boards b }
{
    if b >= boards {
        return NO_QUEUE;
    }
    queues[b]
}

fn put_boards(
    boards: usize,
    queues: &[Queue; BOARDS],
    entries: &[Entry; ENTRIES],
    out: &mut [u32],
    at: usize,
)
    requires { at + 6688 ≤ length out.old }
    ensures { out.new ≡ sets out.old at (each (board_block boards queues.now entries.now) boards_most) }
{
    for b in 0..BOARDS {
        let queue = queue_at(queues, boards, b);
        put_board(&queue, entries, b, out, at + BOARD * b);
    }
}

// ---- channels

fn total_at(totals: &[u32; CHANNELS], channels: usize, k: usize) -> u32
    requires { k < channels_most }
    ensures { result ≡ total_for totals.now channels k }
{
    if k >= channels {
        return 0;
    }
    totals[k]
}

fn put_totals(channels: usize, totals: &[u32; CHANNELS], out: &mut [u32], at: usize)
    requires { at + 32 ≤ length out.old }
    ensures { out.new ≡ sets out.old at (each (total_block channels totals.now) channels_most) }
{
    for k in 0..CHANNELS {
        let x = [total_at(totals, channels, k)];
        lay(&x, out, at + k);
    }
}

// ---- the whole view

pub fn put_view(counts: Counts, store: &Store, entries: &[Entry; ENTRIES], out: &mut [u32])
    requires { view_most ≤ length out.old }
    ensures { out.new ≡ sets out.old 0 (view_of counts store.now entries.now) }
{
    let head = [
        short(counts.boards),
        short(counts.processes),
        short(counts.channels),
    ];
    lay(&head, out, 0);
    put_processes(counts.processes, &store.processes, out, AT_PROCESSES);
    put_boards(counts.boards, &store.queues, entries, out, AT_BOARDS);
    put_totals(counts.channels, &store.totals, out, AT_TOTALS);
}
