// Move 1: one instruction of a process. "Step: 35 halted. For TAKE and FIRST: 36 no such word, then 37 [..]."
ghost use Rattle.std.specs.Prelude.{◌≡◌};
ghost use Rattle.state.specs.Moved.{BackupsStay};
ghost use Rattle.step.specs.Parts.{missing_of};
ghost use Rattle.step.specs.Steps.{Steps};

use crate::calculate::calculate;
use crate::send::send;
use crate::take::take;
use instruction::instruction::{Intent, examine};
use numbers::answers::Reason;
use plan::{PROCESSES, Plan};
use records::fetch::fetch_at;
use state::moved::{Moved, refused_for};
use state::store::Store;
use words::index;

// W-206: "Code 36: 1 for FIRST."
fn missing(code: u8) -> Reason
    ensures { result ≡ missing_of code }
{
    if code == 4 {
        Reason::NoWordForFirst
    } else {
        Reason::NoWordForTake
    }
}

pub fn step(table: &[u8], plan: &Plan, store: &mut Store, a: u32) -> Moved
    ensures steps { Steps table.now plan.now store.old a store.new result }
    ensures backups_stay { BackupsStay store.old store.new }
{
    let p = index::<PROCESSES>(a);
    let limit = plan.limit(p);
    let x = &store.processes[p];
    let i = fetch_at(table, plan.start(p), x.pc);
    match examine(x, plan.length(p), i) {
        Intent::Halted => refused_for(Reason::Halted, a),
        Intent::NoMail => refused_for(missing(i.code), a),
        Intent::Internal => calculate(&mut store.processes[p], a, i),
        Intent::Take { at } => take(plan, store, limit, a, i, at),
        Intent::Send { channel, word } => send(plan, store, limit, a, channel, word),
    }
}
