// A table's plan, as the moves are lent it: a program for each process and a wire for each channel, laid out so that a step of any process finds
// its numbers at once, and how many boards, processes and channels there are. What it says of the table is `specs/Plan.antt`.
#![tactic(auto)]

ghost use Rattle.std.specs.Prelude.{◌≡◌, ◌<◌, slice_index_or};
ghost use Rattle.rules.specs.Sizes.{processes_most, channels_most};
ghost use Rattle.plan.specs.Plan.{no_program, no_wire, start_in, length_in, limit_in, arity_in, input_in, sender_in, reader_in, port_in};

// Boards, processes and channels that a table has at most.
pub const BOARDS: usize = 16;

pub const PROCESSES: usize = 16;

pub const CHANNELS: usize = 32;

// Channels that a process reads at most, which are its ports 0 to 3.
pub const INPUTS: usize = 4;

// An end of a channel that is no process (document 01: "a process number, or 255 for the outside").
pub const ENVIRONMENT: u8 = 255;

// Document 01: "boards B", "processes P", "channels C".
#[derive(Clone, Copy)]
pub struct Counts {
    pub boards: usize,
    pub processes: usize,
    pub channels: usize,
}

// What a process does: where in the table its program begins, how many instructions it has, the limit of its acts, how many channels it reads,
// and the channel at each of its ports.
#[derive(Clone, Copy)]
pub struct Program {
    pub start: u32,
    pub length: u32,
    pub limit: u32,
    pub arity: u32,
    pub inputs: [u32; INPUTS],
}

// Of a process that the table doesn't have.
pub const NO_PROGRAM: Program = Program {
    start: 0,
    length: 0,
    limit: 0,
    arity: 0,
    inputs: [0; INPUTS],
};

// A channel: its ends, and its port within a reader that is a process.
#[derive(Clone, Copy)]
pub struct Wire {
    pub sender: u32,
    pub reader: u32,
    pub port: u32,
}

// Of a channel that the table doesn't have.
pub const NO_WIRE: Wire = Wire {
    sender: 0,
    reader: 0,
    port: 0,
};

// The two boards of a process.
#[derive(Clone, Copy)]
pub struct Placement {
    pub primary: u32,
    pub standby: u32,
}

// Of a process that the table doesn't have.
pub const NO_PLACEMENT: Placement = Placement {
    primary: 0,
    standby: 0,
};

// The whole plan.
#[derive(Clone, Copy)]
pub struct Plan {
    pub counts: Counts,
    pub programs: [Program; PROCESSES],
    pub wires: [Wire; CHANNELS],
}

impl Plan {
    // ---- process p's

    fn program(&self, p: usize) -> Program
        ensures { p < processes_most → result ≡ slice_index_or self.now.programs p no_program }
    {
        self.programs[p % PROCESSES]
    }

    pub fn start(&self, p: usize) -> u32
        ensures { p < processes_most → result ≡ start_in self.now.programs p }
    {
        self.program(p).start
    }

    pub fn length(&self, p: usize) -> u32
        ensures { p < processes_most → result ≡ length_in self.now.programs p }
    {
        self.program(p).length
    }

    pub fn limit(&self, p: usize) -> u32
        ensures { p < processes_most → result ≡ limit_in self.now.programs p }
    {
        self.program(p).limit
    }

    pub fn arity(&self, p: usize) -> u32
        ensures { p < processes_most → result ≡ arity_in self.now.programs p }
    {
        self.program(p).arity
    }

    // The channel at a port.
    pub fn input(&self, p: usize, port: usize) -> u32
        ensures { p < processes_most → port < 4 → result ≡ input_in self.now.programs p port }
    {
        self.program(p).inputs[port % INPUTS]
    }

    // ---- channel k's

    fn wire(&self, k: usize) -> Wire
        ensures { k < channels_most → result ≡ slice_index_or self.now.wires k no_wire }
    {
        self.wires[k % CHANNELS]
    }

    pub fn sender(&self, k: usize) -> u32
        ensures { k < channels_most → result ≡ sender_in self.now.wires k }
    {
        self.wire(k).sender
    }

    pub fn reader(&self, k: usize) -> u32
        ensures { k < channels_most → result ≡ reader_in self.now.wires k }
    {
        self.wire(k).reader
    }

    pub fn port(&self, k: usize) -> u32
        ensures { k < channels_most → result ≡ port_in self.now.wires k }
    {
        self.wire(k).port
    }
}
