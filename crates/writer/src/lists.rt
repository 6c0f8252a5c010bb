// Lists that say a table, and their numbers 2, 3 and 4: the version, the counts, and whether each list is as long as they say.
ghost use Rattle.std.specs.Prelude.{◌≡◌, true, ◌*◌, OnOk};
ghost use Rattle.numbers.specs.Runs.{number_in};
ghost use Rattle.rules.specs.Sizes.{limit_bytes};
ghost use Rattle.rules.specs.Format.{counts_fit};
ghost use Rattle.rules.specs.Encode.{lists_ok};
ghost use Rattle.writer.specs.Given.{given_by, framing, Fitting};

use crate::write::Lists;
use numbers::runs::Refusal;
use table::counts::{counts_fit, version_ok};
use table::format::{PROGRAM_MOST, WITH_LIMITS};
use words::wide;

// How many limits so many processes have: one each, or none where the version has none.
fn limits_long(version: u32, processes: usize) -> usize
    ensures { result ≡ limit_bytes version * processes }
{
    if version == WITH_LIMITS { processes } else { 0 }
}

impl Lists<'_> {
    // 4: two numbers for each channel, three for each process, of which the third is at most 64, its limits, and three for each instruction.
    fn lists_ok(&self) -> bool
        requires { counts_fit self.now.head.boards self.now.head.processes self.now.head.channels ≡ true }
        ensures { result ≡ lists_ok (given_by self.now) }
    {
        let processes = wide(self.head.processes);
        let channels = wide(self.head.channels);
        if self.ends.len() != 2 * channels {
            return false;
        }
        if self.placements.len() != 3 * processes {
            return false;
        }
        if self.limits.len() != limits_long(self.head.version, processes) {
            return false;
        }
        let mut total = 0;
        for p in 0..processes {
            let n = wide(self.placements[3 * p + 2]);
            if n > PROGRAM_MOST {
                return false;
            }
            total += n;
        }
        self.instructions.len() == 3 * total
    }

    // Numbers 2 to 4, the lowest that doesn't hold.
    pub(crate) fn judge_lists(&self) -> Result<(), Refusal>
        ensures number { number_in result ≡ framing (given_by self.now) }
        ensures fits { OnOk result (Fitting (given_by self.now)) }
    {
        let head = self.head;
        if !version_ok(head.version) {
            return Err(Refusal::TableVersion);
        }
        if !counts_fit(wide(head.boards), wide(head.processes), wide(head.channels)) {
            return Err(Refusal::TableCounts);
        }
        if !self.lists_ok() {
            return Err(Refusal::TableExtent);
        }
        Ok(())
    }
}
