// The whole cabinet after a run, as numbers in a fixed layout (docs/FORMATS.md, "View"): the run's parts with another end, which writes neither
// answers nor a report but everything that the rules speak of.
#![tactic(auto)]

ghost use Rattle.numbers.specs.Runs.{number_in};
ghost use Rattle.rules.specs.Schedule.{commands_in};
ghost use Rattle.stretch.specs.Plays.{Roomy, sheets_of};
ghost use Rattle.std.specs.Prelude.{◌≤◌, length};
ghost use Rattle.layout.specs.View.{view_most};
ghost use Rattle.view.specs.Shows.{Shows};
ghost use Rattle.view.specs.Views.{Views};

mod judge;

use crate::judge::judge_view;
use layout::all::put_view;
use numbers::runs::Refusal;
use outcome::start::EMPTY;
use records::schedule::COMMANDS_MOST;
use table::Decoded;
use undo::all::play_all;

// The view after all records, from the start on; what they answer goes to three more lists, and nobody reads it.
fn show(
    table: &[u8],
    schedule: &[u8],
    decoded: &Decoded,
    answers: &mut [u8],
    reasons: &mut [u8],
    origins: &mut [u8],
    out: &mut [u32],
)
    requires roomy { Roomy (commands_in schedule.now) (sheets_of answers.old reasons.old origins.old) }
    requires view_most_in_bounds { view_most ≤ length out.old }
    ensures { Shows table.now schedule.now decoded.now out.old out.new }
{
    let plan = &decoded.plan;
    let mut store = EMPTY;
    let entries = play_all(
        table,
        schedule,
        plan,
        &decoded.placements,
        &mut store,
        answers,
        reasons,
        origins,
    );
    put_view(plan.counts, &store, &entries, out);
}

// The view of a table and a schedule, whatever bytes they are, unless it is refused.
pub fn view(table: &[u8], schedule: &[u8], out: &mut [u32]) -> Result<(), Refusal>
    ensures { Views table.now schedule.now out.old (number_in result) out.new }
{
    let decoded = judge_view(table, schedule, out.len())?;
    let mut answers = [0u8; ANSWERS];
    let mut reasons = [0u8; COMMANDS_MOST];
    let mut origins = [0u8; ORIGINS];
    show(
        table,
        schedule,
        &decoded,
        &mut answers,
        &mut reasons,
        &mut origins,
        out,
    );
    Ok(())
}

// Six bytes and two for each record of the longest schedule.
const ANSWERS: usize = 6 * COMMANDS_MOST;

const ORIGINS: usize = 2 * COMMANDS_MOST;
