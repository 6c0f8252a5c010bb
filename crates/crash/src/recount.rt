// The unread words of each channel, counted in its reader's mailbox: a take-over's inbox replaces them in the channel's total.
ghost use Rattle.std.specs.Prelude.{◌≡◌, ◌<◌, ◌≤◌};
ghost use Rattle.backup.specs.Limits.{log_most};
ghost use Rattle.rules.specs.Cabinet.{unread_on};
ghost use Rattle.process.specs.Row.{mails_in};
ghost use Rattle.rules.specs.Sizes.{channels_most};
ghost use Rattle.crash.specs.Recount.{unread_here, unread_at, counted_by, Recounted};

use backup::limits::LOG;
use plan::{CHANNELS, PROCESSES, Plan};
use process::mail::channel_of;
use process::process::Process;
use words::{least, wide};

// How many of the n oldest words of a process's mailbox are on channel k.
#[tactic(auto, using(crate::proofs::Recounting::one_word_more))]
fn count_on(x: &Process, n: usize, k: usize) -> u32
    requires { n ≤ log_most }
    ensures { result ≡ unread_on k (mails_in x.now.oldest n x.now.mail) }
{
    let mut count = 0;
    for i in 0..n {
        if wide(channel_of(x.word_at(i))) == k {
            count = std::num::wrapping_add_u32(count, 1);
        }
    }
    count
}

// How many unread words of channel k a process has.
fn unread_of(x: &Process, k: usize) -> u32
    ensures { result ≡ unread_here x.now k }
{
    count_on(x, least(wide(x.unread), LOG), k)
}

// How many process p has; none where p is no process.
fn unread_at(processes: &[Process; PROCESSES], p: usize, k: usize) -> u32
    ensures { result ≡ unread_at processes.now p k }
{
    if p < PROCESSES {
        unread_of(&processes[p], k)
    } else {
        0
    }
}

// What becomes of a channel's unread words in its total: they are taken out, so that the words in queues are left, or they are put in.
#[derive(Clone, Copy)]
pub enum Unread {
    Out,
    In,
}

// A total with unread words taken out, or put in.
fn counted(way: Unread, total: u32, unread: u32) -> u32
    ensures { result ≡ counted_by way total unread }
{
    match way {
        Unread::Out => std::num::wrapping_sub_u32(total, unread),
        Unread::In => std::num::wrapping_add_u32(total, unread),
    }
}

// Each of n totals with its channel's unread words taken out, or put in.
pub fn recount(
    n: usize,
    plan: &Plan,
    way: Unread,
    processes: &[Process; PROCESSES],
    totals: &mut [u32; CHANNELS],
)
    requires { n ≤ channels_most }
    ensures { Recounted way n plan.now.wires processes.now totals.old totals.new }
{
    for k in 0..n {
        let unread = unread_at(processes, wide(plan.reader(k)), k);
        totals[k] = counted(way, totals[k], unread);
    }
}
