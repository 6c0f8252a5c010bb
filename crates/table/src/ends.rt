// Numbers 5 and 6 of a table: the ends of its channels, and how many a process reads. The pass over the pairs for 6 leaves its part of the plan.
ghost use Rattle.std.specs.Prelude.{◌≡◌, true};
ghost use Rattle.rules.specs.Judge.{end_ok, ends_ok};
ghost use Rattle.rules.specs.Format.{counts_ok, decode_table};
ghost use Rattle.table.specs.Parts.{pair_ok, PortsRead};

use crate::format::{CHANNELS_AT, PAIR_READER, PAIR_SENDER, PROCESSES_AT};
use backup::limits::PORTS;
use plan::{CHANNELS, ENVIRONMENT, NO_PROGRAM, NO_WIRE, PROCESSES, Program, Wire};
use records::bytes::byte;
use words::{byte_wide, byte_word, wide};

// What number 6 finds where no process reads too many channels: both ends of each channel and its port within its reader, and for each process
// how many channels it reads and which.
#[derive(Clone, Copy)]
pub struct Ports {
    pub wires: [Wire; CHANNELS],
    pub programs: [Program; PROCESSES],
}

// An end is a process or the environment.
fn end_ok(processes: u8, end: u8) -> bool
    ensures { result ≡ end_ok processes end }
{
    end < processes || end == ENVIRONMENT
}

// Both ends of a channel, never both the environment.
fn pair_ok(processes: u8, sender: u8, reader: u8) -> bool
    ensures { result ≡ pair_ok processes sender reader }
{
    end_ok(processes, sender)
        && (end_ok(processes, reader) && (sender != ENVIRONMENT || reader != ENVIRONMENT))
}

// 5: the ends of every channel.
pub fn ends_ok(table: &[u8]) -> bool
    ensures { result ≡ ends_ok (decode_table table.now) }
{
    let processes = byte(table, PROCESSES_AT);
    let channels = byte_wide(byte(table, CHANNELS_AT));
    for k in 0..channels {
        let sender = byte(table, 2 * k + PAIR_SENDER);
        let reader = byte(table, 2 * k + PAIR_READER);
        if !pair_ok(processes, sender, reader) {
            return false;
        }
    }
    true
}

// 6: a process reads at most four channels, which are its ports in ascending order.
pub fn judge_ports(table: &[u8]) -> Option<Ports>
    requires { counts_ok table.now ≡ true }
    ensures { PortsRead table.now result }
{
    let processes = byte(table, PROCESSES_AT);
    let channels = byte_wide(byte(table, CHANNELS_AT));
    let mut wires = [NO_WIRE; CHANNELS];
    let mut programs = [NO_PROGRAM; PROCESSES];
    for k in 0..channels {
        let sender = byte(table, 2 * k + PAIR_SENDER);
        let reader = byte(table, 2 * k + PAIR_READER);
        let mut port = 0;
        if reader < processes {
            let p = byte_wide(reader);
            port = programs[p].arity;
            if port >= PORTS {
                return None;
            }
            programs[p].inputs[wide(port)] = k as u32;
            programs[p].arity = port + 1;
        }
        wires[k] = Wire {
            sender: byte_word(sender),
            reader: byte_word(reader),
            port: port,
        };
    }
    Some(Ports {
        wires: wires,
        programs: programs,
    })
}
