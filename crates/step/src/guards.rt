// Whether a process owes a sync. "37 if backed and acts are 8", its limit since W-207; W-204: "A backed process now also owes a sync after
// 64 instructions done since its last sync was issued."
ghost use Rattle.std.specs.Prelude.{◌≡◌};
ghost use Rattle.step.specs.Parts.{exhausted_in, overrun_in, owing_in, blame_in};

use numbers::answers::Reason;
use process::process::Process;

// Instructions that a process with a record has at most.
const INSTRUCTIONS_MOST: u32 = 64;

// Whether a process has a record and its events are used up.
fn exhausted(x: &Process, limit: u32) -> bool
    ensures { result ≡ exhausted_in limit x.now }
{
    x.has_record() && x.events >= limit
}

// Whether a process has a record and its instructions are used up.
pub fn overrun(x: &Process) -> bool
    ensures { result ≡ overrun_in x.now }
{
    x.has_record() && x.instructions >= INSTRUCTIONS_MOST
}

// Whether either is so.
pub fn owing(x: &Process, limit: u32) -> bool
    ensures { result ≡ owing_in limit x.now }
{
    exhausted(x, limit) || overrun(x)
}

// W-206, of a process that owes a sync: "1 when only the 64 instructions are to blame".
pub fn blame(x: &Process, limit: u32) -> Reason
    ensures { result ≡ blame_in limit x.now }
{
    if exhausted(x, limit) {
        Reason::OwesForActs
    } else {
        Reason::OwesForInstructions
    }
}
