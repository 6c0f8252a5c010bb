// Every place to pull a board, exported (document 02, W-213): the number and the three counts in one.
ghost use Rattle.std.specs.Prelude.{◌≡◌, ◌+◌, ◌≤◌, ◌<◌, IfOk};
ghost use Rattle.numbers.specs.Runs.{number_in};
ghost use Rattle.sweep.specs.Sweeps.{runs_most, swept_by};
ghost use Rattle.kunzeastylus.specs.Sweep.{packed_swept, SweepsPacked};

use numbers::runs::Refusal;
use sweep::sweep;
use sweep::tally::Tally;

// number + 2^16 quiet + 2^32 held + 2^48 free
fn pack_swept(r: Result<Tally, Refusal>) -> u64
    requires { IfOk r (λ x. x.quiet + (x.held + x.free) ≤ runs_most) }
    ensures { (result ≡ packed_swept (swept_by r)) × (number_in r < 256) }
{
    match r {
        Ok(x) => {
            65536 * (x.quiet as u64)
                + 4294967296 * (x.held as u64)
                + 281474976710656 * (x.free as u64)
        }
        Err(refusal) => refusal.number() as u64,
    }
}

// The sweep of a table and a schedule, whatever bytes they are.
pub fn ks_sweep(table: &[u8], schedule: &[u8]) -> u64
    ensures { SweepsPacked table.now schedule.now result }
{
    pack_swept(sweep(table, schedule))
}
