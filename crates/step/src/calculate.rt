// A step that computes: a SET, an ADD or a JUMP. "SET, ADD and JUMP always succeed", but for W-204: "a sync after 64 instructions [..]. Every
// kind of instruction then answers 37", and W-206: the instructions are always to blame for it.
ghost use Rattle.process.specs.Change.{ListsStay};
ghost use Rattle.step.specs.Parts.{Calculates};

use crate::guards::overrun;
use instruction::instruction::compute;
use numbers::answers::Reason;
use process::process::Process;
use records::fetch::Instruction;
use state::moved::{Moved, alone, answer_for, refused_for};

// Process a does the instruction.
pub fn calculate(x: &mut Process, a: u32, i: Instruction) -> Moved
    ensures calculates { Calculates x.old a i.code i.a i.operand x.new result }
    ensures lists_stay { ListsStay x.old x.new }
{
    if overrun(x) {
        return refused_for(Reason::OwesForInstructions, a);
    }
    compute(x, i);
    alone(answer_for(Reason::Calculated, 0, 0))
}
