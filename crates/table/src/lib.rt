// Tables: bytes are read, judged and turned into a plan by proved code.
#![tactic(auto)]

ghost use Rattle.table.specs.Plan.{Decodes};

mod boards;
pub mod counts;
mod ends;
mod extent;
pub mod format;
mod instructions;
pub mod record;

use crate::boards::{judge_boards, limits_ok};
use crate::counts::counts_of;
use crate::ends::{ends_ok, judge_ports};
use crate::extent::judge_extent;
use crate::instructions::instructions_ok;
use numbers::runs::Refusal;
use plan::{PROCESSES, Placement, Plan};

// What a table's bytes say: its plan, and both boards of each process.
#[derive(Clone, Copy)]
pub struct Decoded {
    pub plan: Plan,
    pub placements: [Placement; PROCESSES],
}

// Reads a table: "A refused one, lowest number first", and 47 "checked after 8". Each number is judged over the whole table before the next.
pub fn decode(table: &[u8]) -> Result<Decoded, Refusal>
    ensures { Decodes table.now result }
{
    judge_extent(table)?;
    if !ends_ok(table) {
        return Err(Refusal::ChannelEnds);
    }
    let Some(ports) = judge_ports(table) else {
        return Err(Refusal::ChannelsRead);
    };
    let Some(boards) = judge_boards(table, &ports.programs) else {
        return Err(Refusal::Boards);
    };
    if !instructions_ok(table) {
        return Err(Refusal::Instruction);
    }
    let counts = counts_of(table);
    if !limits_ok(&boards.programs, counts.processes) {
        return Err(Refusal::Limit);
    }
    let wires = ports.wires;
    let programs = boards.programs;
    let placements = boards.placements;
    Ok(Decoded {
        plan: Plan {
            counts: counts,
            programs: programs,
            wires: wires,
        },
        placements: placements,
    })
}
