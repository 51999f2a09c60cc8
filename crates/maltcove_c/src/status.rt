//! What the calls answer: numbers that C knows by the names in `maltcove.h`.

ghost use Rattle.std.specs.Prelude.{◌≡◌, ◌≢◌};
ghost use Rattle.journal_core.specs.declared.step.Refusal.TheVariants as step_refusal;
ghost use Rattle.maltcove_c.specs.Statuses.{carried_code, close_code, enqueue_code, moment_code, refusal_code, verdict_code};
ghost use Rattle.queue_disc_core.specs.declared.answers.EnqueueFault.TheVariants as enqueue_fault;

use header_core::{Carried, Verdict};
use queue_disc_core::EnqueueFault;
use sched_core::{CloseFault, MomentFault, Refusal};

/// The call was made.
pub(crate) const OK: i32 = 0;

/// The call was made, and nothing waits.
pub(crate) const IDLE: i32 = 1;

/// There is no scheduler.
pub(crate) const NOT_OPEN: i32 = -1;

/// The moment is 2^60 microseconds or more.
pub(crate) const TOO_LARGE: i32 = -2;

/// The moment is before that of the last call.
pub(crate) const BACKWARDS: i32 = -3;

/// There was a close.
pub(crate) const CLOSED: i32 = -4;

/// There are no more ids.
pub(crate) const EXHAUSTED: i32 = -5;

/// A growth was refused.
pub(crate) const MEMORY: i32 = -6;

/// A field of a packet is out of its range.
pub(crate) const BAD_PACKET: i32 = -7;

/// A word is no parameter.
pub(crate) const BAD_WORDS: i32 = -8;

/// Drops of earlier calls weren't read.
pub(crate) const UNREAD: i32 = -9;

/// There is a scheduler already.
pub(crate) const ALREADY_OPEN: i32 = -10;

/// A seed has another length than 16 bytes.
pub(crate) const BAD_SEED: i32 = -11;

/// There is no flow of that number.
pub(crate) const BAD_FLOW: i32 = -12;

/// The scheduler chooses the flow by a hash.
pub(crate) const HASHED: i32 = -13;

/// The bytes are a packet that breaks no rule.
pub(crate) const FINE: i32 = 0;

/// The link delivered less than a header of fixed length.
pub(crate) const SHORT: i32 = -20;

/// No packet of IP, or not of the version that the link says.
pub(crate) const NOT_IP: i32 = -21;

/// The header length of IPv4 is below its least.
pub(crate) const BAD_IHL: i32 = -22;

/// The total length of IPv4 is below the header's.
pub(crate) const BAD_LENGTH: i32 = -23;

/// The packet is longer than what the link delivered.
pub(crate) const OVERRUN: i32 = -24;

/// An extension header passes the packet's end.
pub(crate) const BAD_CHAIN: i32 = -25;

/// The packet is longer than 65,535 bytes.
pub(crate) const TOO_LONG: i32 = -26;

/// The length of IPv6 is left to an option that isn't there, or says too little.
pub(crate) const BAD_JUMBO: i32 = -27;

/// The captured bytes end inside a header.
pub(crate) const CUT: i32 = -28;

/// No link type has that number.
pub(crate) const UNKNOWN_LINK: i32 = -29;

/// The packet was marked.
pub(crate) const MARKED: i32 = 1;

/// The packet was not marked.
pub(crate) const UNMARKED: i32 = 0;

/// The number of a verdict.
pub(crate) fn verdict_code(verdict: Verdict) -> i32
    ensures { result ≡ verdict_code verdict }
{
    match verdict {
        Verdict::Fine => FINE,
        Verdict::Short => SHORT,
        Verdict::NotIp => NOT_IP,
        Verdict::BadIhl => BAD_IHL,
        Verdict::BadLength => BAD_LENGTH,
        Verdict::Overrun => OVERRUN,
        Verdict::BadChain => BAD_CHAIN,
        Verdict::TooLong => TOO_LONG,
        Verdict::BadJumbo => BAD_JUMBO,
        Verdict::Cut => CUT,
    }
}

/// The number of what a link delivered.
pub(crate) fn carried_code(carried: &Carried) -> i32
    ensures { result ≡ carried_code carried.now }
{
    match carried {
        Carried::Packet(_) => FINE,
        Carried::Another(_) => NOT_IP,
        Carried::Cut => CUT,
        Carried::Unknown => UNKNOWN_LINK,
    }
}

/// Why a moment was refused.
pub(crate) fn moment_code(fault: MomentFault) -> i32
    ensures value { result ≡ moment_code fault }
    ensures memory { result ≢ MEMORY }
{
    match fault {
        MomentFault::TooLarge => TOO_LARGE,
        MomentFault::Backwards { .. } => BACKWARDS,
    }
}

/// Why a step was refused.
fn refusal_code(refusal: Refusal) -> i32
    ensures value { result ≡ refusal_code refusal }
    ensures memory { refusal ≢ step_refusal.Memory → result ≢ MEMORY }
{
    match refusal {
        Refusal::Moment(fault) => moment_code(fault),
        Refusal::ClosedAlready => CLOSED,
        Refusal::Exhausted => EXHAUSTED,
        Refusal::Memory => MEMORY,
    }
}

/// Why an enqueue was refused.
pub(crate) fn enqueue_code(fault: EnqueueFault) -> i32
    ensures value { result ≡ enqueue_code fault }
    ensures memory { fault ≢ enqueue_fault.Refused step_refusal.Memory → result ≢ MEMORY }
{
    match fault {
        EnqueueFault::Unread => UNREAD,
        EnqueueFault::Refused(refusal) => refusal_code(refusal),
    }
}

/// Why a close was refused.
pub(crate) fn close_code(fault: CloseFault) -> i32
    ensures { result ≡ close_code fault }
{
    match fault {
        CloseFault::Moment(fault) => moment_code(fault),
        CloseFault::ClosedAlready => CLOSED,
    }
}
