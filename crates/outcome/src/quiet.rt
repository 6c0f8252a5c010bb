// "Quiet: each process is halted or would answer 36, and no queue has an entry."
ghost use Rattle.std.specs.Prelude.{◌≡◌};
ghost use Rattle.outcome.specs.Quiets.{rests_of, Rests, AllRest, AllEmpty, Quiets};

use instruction::instruction::{Intent, examine};
use plan::{BOARDS, PROCESSES, Plan};
use process::process::Process;
use records::fetch::fetch;
use state::queue::Queue;
use state::store::Store;
use words::{most, wide};

// Halted, or waits for a word.
fn idle(intent: Intent) -> bool
    ensures { result ≡ rests_of intent }
{
    match intent {
        Intent::Halted => true,
        Intent::NoMail => true,
        Intent::Internal => false,
        Intent::Take { .. } => false,
        Intent::Send { .. } => false,
    }
}

// Whether a process rests whose program, of `length` instructions, begins at byte `at` of the table.
fn rests(table: &[u8], at: u32, length: u32, x: &Process) -> bool
    ensures { Rests table.now at length x.now result }
{
    let i = fetch(table, wide(at), wide(x.pc));
    idle(examine(x, length, i))
}

fn all_rest(table: &[u8], plan: &Plan, store: &Store) -> bool
    ensures { AllRest table.now plan.now store.now result }
{
    let n = most::<PROCESSES>(plan.counts.processes);
    for p in 0..n {
        if !rests(table, plan.start(p), plan.length(p), &store.processes[p]) {
            return false;
        }
    }
    true
}

fn all_empty(boards: usize, queues: &[Queue; BOARDS]) -> bool
    ensures { AllEmpty boards queues.now result }
{
    let n = most::<BOARDS>(boards);
    for b in 0..n {
        if queues[b].count != 0 {
            return false;
        }
    }
    true
}

pub fn quiescent(table: &[u8], plan: &Plan, store: &Store) -> bool
    ensures { Quiets table.now plan.now store.now result }
{
    if !all_rest(table, plan, store) {
        return false;
    }
    all_empty(plan.counts.boards, &store.queues)
}
