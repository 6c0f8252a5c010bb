// What a board's crash takes with it: "its queue is lost", and with it the words of the processes that run there.
ghost use Rattle.std.specs.Prelude.{◌≡◌, ◌≤◌};
ghost use Rattle.facts.specs.Tests.{any_below};
ghost use Rattle.rules.specs.Sizes.{processes_most, channels_most};
ghost use Rattle.crash.specs.Losses.{runs_on_board, unbacked_in, Zeroed, lost_words};

use plan::{CHANNELS, PROCESSES, Plan};
use process::process::Process;
use words::wide;

// Whether p is a process that runs on board a.
fn runs_on(processes: &[Process; PROCESSES], p: usize, a: u32) -> bool
    ensures { result ≡ runs_on_board processes.now a p }
{
    if p < PROCESSES {
        processes[p].board == a
    } else {
        false
    }
}

// Whether one of n processes has no backup, or one that is being made.
pub fn some_unbacked(n: usize, processes: &[Process; PROCESSES]) -> bool
    requires { n ≤ processes_most }
    ensures { result ≡ any_below (unbacked_in processes.now) n }
{
    let mut found = false;
    for p in 0..n {
        if !processes[p].is_backed() {
            found = true;
        }
    }
    found
}

// Of the words in queues those of a process that runs on board a are lost.
pub fn lose_words(
    n: usize,
    plan: &Plan,
    processes: &[Process; PROCESSES],
    a: u32,
    totals: &mut [u32; CHANNELS],
)
    requires { n ≤ channels_most }
    ensures { Zeroed (lost_words plan.now.wires processes.now a) n totals.old totals.new }
{
    for k in 0..n {
        if runs_on(processes, wide(plan.sender(k)), a) {
            totals[k] = 0;
        }
    }
}
