// A step that takes a word: "For TAKE and FIRST: [..] 37 if backed and acts are 8", its limit since W-207, or 64 instructions (W-204). The
// word leaves the mailbox, and its channel's total is one less.
ghost use Rattle.std.specs.Prelude.{◌≡◌};
ghost use Rattle.state.specs.Moved.{BackupsStay};
ghost use Rattle.step.specs.Parts.{TakeTurns};

use crate::guards::{blame, owing};
use instruction::instruction::take_word;
use numbers::answers::Reason;
use plan::{CHANNELS, PROCESSES, Plan};
use process::mail::{channel_of, word_of};
use records::fetch::Instruction;
use state::moved::{Moved, alone, answer_for, refused_for};
use state::store::Store;
use words::index;

// Process a's instruction takes the word at a position of its mailbox into a register.
pub fn take(plan: &Plan, store: &mut Store, limit: u32, a: u32, i: Instruction, at: usize) -> Moved
    ensures takes { TakeTurns plan.now store.old limit a i.code i.a at store.new result }
    ensures queues_stay { store.new.queues ≡ store.old.queues }
    ensures backups_stay { BackupsStay store.old store.new }
{
    let p = index::<PROCESSES>(a);
    if owing(&store.processes[p], limit) {
        return refused_for(blame(&store.processes[p], limit), a);
    }
    let x = store.processes[p].word_at(at);
    let channel = channel_of(x);
    let k = index::<CHANNELS>(channel);
    take_word(&mut store.processes[p], i, at, plan.port(k));
    store.totals[k] = std::num::wrapping_sub_u32(store.totals[k], 1);
    alone(answer_for(Reason::Took, channel, word_of(x)))
}
