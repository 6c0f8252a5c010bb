// The processes after a crash: "Each process running there goes on at its backup board".
ghost use Rattle.std.specs.Prelude.{◌≡◌, ◌<◌, ◌≤◌};
ghost use Rattle.backup.specs.Limits.{ports};
ghost use Rattle.rules.specs.Sizes.{processes_most};
ghost use Rattle.crash.specs.Processes.{port_channel, AllCrashed};

use plan::{PROCESSES, Plan};
use process::process::Process;
use words::wide;

// The channel of a port of process p; 0 stands for one that it doesn't have.
fn input_at(plan: &Plan, p: usize, port: usize) -> u32
    requires { (p < processes_most) × (port < ports) }
    ensures { result ≡ port_channel plan.now.programs p port }
{
    if port < wide(plan.arity(p)) {
        plan.input(p, port)
    } else {
        0
    }
}

// Board a crashes, in each of n processes.
pub fn crash_all(n: usize, plan: &Plan, processes: &mut [Process; PROCESSES], a: u32)
    requires { n ≤ processes_most }
    ensures { AllCrashed n plan.now.programs processes.old a processes.new }
{
    for p in 0..n {
        let channels = [
            input_at(plan, p, 0),
            input_at(plan, p, 1),
            input_at(plan, p, 2),
            input_at(plan, p, 3),
        ];
        processes[p].crash(a, channels);
    }
}
