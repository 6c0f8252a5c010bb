// One instruction of a process: what it would do, looked at before anything is changed, and then what it does to the process.
// Document 01: "Instructions, each moving the place on by one unless said". Codes 1 to 6 are SET, ADD, TAKE, FIRST, SEND and JUMP; any other,
// which no accepted table has, is not executed.
ghost use Rattle.std.specs.Prelude.{◌≡◌, ◌+◌, ◌%◌, ◌^◌, slice_index};
ghost use Rattle.process.specs.Change.{BackupStays, ListsStay};
ghost use Rattle.instruction.specs.Instruction.{Sorted, one_in, tallied, loaded_in, event_in, Examined, Sought, word_after, place_after, evaluated_in, computed_in, suppressed_in};
ghost use Rattle.instruction.specs.Instruction.{Computes, Takes, Suppresses, Queues};

use crate::mailbox::{look, remove};
use backup::limits::LOG;
use process::mail::{PLACES, channel_of, place, word_of};
use process::process::Process;
use records::fetch::Instruction;
use words::wide;

// What the instruction at a process's place would do.
#[derive(Clone, Copy)]
pub enum Intent {
    // nothing: it is halted, or the code is none
    Halted,
    // nothing: a TAKE or a FIRST finds no such word
    NoMail,
    // a SET, an ADD or a JUMP
    Internal,
    // a TAKE or a FIRST of the word at this position of the mailbox
    Take { at: usize },
    // a SEND of this word to this channel
    Send { channel: u32, word: u32 },
}

// The kinds of instructions, by what they ask for.
#[derive(Clone, Copy)]
enum Kind {
    // a SET, an ADD or a JUMP
    Calculation,
    // a TAKE or a FIRST
    Taking,
    // a SEND
    Sending,
    // none
    Unknown,
}

// Each code stands by itself, so that the compiler tells the kinds by one bit test each, with no jump by a table.
fn kind_of(code: u8) -> Kind
    ensures { Sorted code result }
{
    match code {
        1 => Kind::Calculation,
        2 => Kind::Calculation,
        3 => Kind::Taking,
        4 => Kind::Taking,
        5 => Kind::Sending,
        6 => Kind::Calculation,
        _ => Kind::Unknown,
    }
}

// The place of register a; a is 0 to 3, and any other number stands for one of these.
fn lane(a: u32) -> usize
    ensures { result ≡ a % 4 }
{
    wide(a % 4)
}

// The place of register a + 1, a being 0 to 2.
fn next_lane(a: u32) -> usize
    ensures { result ≡ 1 + a % 3 }
{
    1 + wide(a % 3)
}

fn register(x: &Process, a: u32) -> u32
    ensures { result ≡ slice_index x.now.registers (a % 4) }
{
    x.registers[lane(a)]
}

// What an act or an instruction of the process counts for. Document 01: "A backed process has acts".
fn one(x: &Process) -> u32
    ensures { result ≡ one_in x.now }
{
    if x.has_record() { 1 } else { 0 }
}

// A counter with one more, if the process's acts and instructions are counted.
fn tally(x: &Process, counter: u32) -> u32
    ensures { result ≡ tallied x.now counter }
{
    std::num::wrapping_add_u32(counter, one(x))
}

// A TAKE or a FIRST would take the oldest word that it names.
fn seek(x: &Process, i: Instruction) -> Intent
    ensures { Sought x.now i.code i.operand result }
{
    let unread = wide(x.unread);
    let at = look(&x.mail, wide(x.oldest), unread, i.code, i.operand);
    if at < unread {
        Intent::Take { at: at }
    } else {
        Intent::NoMail
    }
}

// What the instruction would do, `length` being how many the program has. Nothing is changed.
pub fn examine(x: &Process, length: u32, i: Instruction) -> Intent
    ensures { Examined x.now length i.code i.a i.operand result }
{
    if x.pc >= length {
        return Intent::Halted;
    }
    match kind_of(i.code) {
        Kind::Calculation => Intent::Internal,
        Kind::Taking => seek(x, i),
        Kind::Sending => Intent::Send {
            channel: i.operand,
            word: register(x, i.a),
        },
        Kind::Unknown => Intent::Halted,
    }
}

// ADD: register a plus register b, modulo 2^32.
fn sum(x: &Process, a: u32, b: u32) -> u32
    ensures { result ≡ (slice_index x.now.registers (a % 4) + slice_index x.now.registers (b % 4)) % 2 ^ 32 }
{
    std::num::wrapping_add_u32(register(x, a), register(x, b))
}

// What register a, which held `old`, holds after a SET, an ADD, whose sum this is, or a JUMP.
fn word_after(code: u8, old: u32, sum: u32, operand: u32) -> u32
    ensures { result ≡ word_after code old sum operand }
{
    let computed = match code {
        1 => operand,
        _ => sum,
    };
    match code {
        6 => old,
        _ => computed,
    }
}

// The place after it: the next one, or of a JUMP where register a is not 0 its operand.
#[tactic(auto, using(std::proofs::lemmas::Bool::Decides::nat_tests))]
fn place_after(code: u8, old: u32, next: u32, operand: u32) -> u32
    ensures { result ≡ place_after code old next operand }
{
    let jumps = match code {
        6 => old,
        _ => 0,
    };
    if jumps == 0 { next } else { operand }
}

// What a SET, an ADD or a JUMP does to registers and place. Word and place are chosen by the code and stored once, with no branch: which of the
// three comes next nobody can foretell.
fn evaluate(x: &mut Process, i: Instruction)
    ensures { x.new ≡ evaluated_in i.code i.a i.operand x.old }
{
    let old = register(x, i.a);
    let both = sum(x, i.a, i.operand);
    let next = std::num::wrapping_add_u32(x.pc, 1);
    x.registers[lane(i.a)] = word_after(i.code, old, both, i.operand);
    x.pc = place_after(i.code, old, next, i.operand);
}

// A SET, an ADD or a JUMP is done, an instruction more.
pub fn compute(x: &mut Process, i: Instruction)
    ensures exact { x.new ≡ computed_in i.code i.a i.operand x.old }
    ensures became { Computes x.old i.code i.a i.operand x.new }
    ensures lists_stay { ListsStay x.old x.new }
{
    evaluate(x, i);
    x.instructions = tally(x, x.instructions);
}

// One more event, the place moves on, and an instruction more.
fn event(x: &mut Process)
    ensures { x.new ≡ event_in x.old }
{
    x.events = tally(x, x.events);
    x.pc = std::num::wrapping_add_u32(x.pc, 1);
    x.instructions = tally(x, x.instructions);
}

// A word goes into register a; of a FIRST its channel goes into register a + 1.
fn load(x: &mut Process, i: Instruction, word: u64)
    ensures { x.new ≡ loaded_in i.code i.a word x.old }
{
    x.registers[lane(i.a)] = word_of(word);
    if i.code == 4 {
        x.registers[next_lane(i.a)] = channel_of(word);
    }
}

// A TAKE or a FIRST is done: the word at a position of the mailbox leaves it, and counts as an event and a receive on its port. Where no
// unread word stands there nothing changes.
pub fn take_word(x: &mut Process, i: Instruction, at: usize, port: u32)
    ensures became { Takes x.old i.code i.a at port x.new }
    ensures backup_stays { BackupStays x.old x.new }
{
    let unread = wide(x.unread);
    if unread > LOG {
        return;
    }
    if at >= unread {
        return;
    }
    let first = wide(x.oldest);
    load(x, i, x.mail[place(first, at)]);
    remove(&mut x.mail, first, at);
    x.unread = std::num::wrapping_sub_u32(x.unread, 1);
    x.oldest = std::num::wrapping_add_u32(x.oldest, 1) % PLACES;
    let k = lane(port);
    x.taken[k] = tally(x, x.taken[k]);
    event(x);
}

// A SEND is done that is to be suppressed: one less is left to suppress.
pub fn suppress_send(x: &mut Process)
    ensures exact { x.new ≡ suppressed_in x.old }
    ensures became { Suppresses x.old x.new }
    ensures lists_stay { ListsStay x.old x.new }
{
    x.suppress = std::num::wrapping_sub_u32(x.suppress, 1);
    x.pc = std::num::wrapping_add_u32(x.pc, 1);
}

// A SEND is done whose word joins the outbox: an event.
pub fn queue_send(x: &mut Process)
    ensures exact { x.new ≡ event_in x.old }
    ensures became { Queues x.old x.new }
    ensures lists_stay { ListsStay x.old x.new }
{
    event(x);
}
