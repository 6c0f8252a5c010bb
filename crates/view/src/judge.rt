// Whether a view is refused: by the numbers of the table and of the schedule, as a run is, then by 54 for a list that is shorter than a view.
ghost use Rattle.view.specs.Judged.{ViewJudged};

use layout::all::VIEW;
use numbers::runs::Refusal;
use records::schedule::judge_schedule;
use table::{Decoded, decode};

// What the table says of a view that is not refused.
pub fn judge_view(table: &[u8], schedule: &[u8], room: usize) -> Result<Decoded, Refusal>
    ensures { ViewJudged table.now schedule.now room result }
{
    let decoded = decode(table)?;
    judge_schedule(schedule)?;
    if room < VIEW {
        return Err(Refusal::ViewShort);
    }
    Ok(decoded)
}
