// Every place to pull a board (document 02, W-213): "the crash put at each of the n + 1 places of a schedule of n records, for each of the B
// boards", and how many of these runs end quiet, unquiet with some hold-back left, and unquiet with none. It has nothing but the cabinet's promise.
#![tactic(auto)]

ghost use Rattle.sweep.specs.Sweeps.{Sweeps};

mod count;
mod ending;
mod judge;
mod pulled;
pub mod tally;

use crate::count::count_all;
use crate::judge::judge_sweep;
use crate::tally::Tally;
use numbers::runs::Refusal;

// The sweep of a table and a schedule, whatever bytes they are: the three counts, or what refuses it.
pub fn sweep(table: &[u8], schedule: &[u8]) -> Result<Tally, Refusal>
    ensures { Sweeps table.now schedule.now result }
{
    let admitted = judge_sweep(table, schedule)?;
    Ok(count_all(table, schedule, admitted.counts, admitted.records))
}
