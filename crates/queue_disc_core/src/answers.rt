//! What a queue disc answers.

use sched_core::{Cause, Refusal, Sent};
use thiserror::Error;

/// What a packet is known by.
#[derive(Clone, Copy, Debug, PartialEq, Eq)]
pub struct Handle {
    /// The packet's tag.
    pub tag: u64,
    /// The id that it was accepted with.
    pub id: u64,
}

/// A packet that was flushed.
pub type Flushed = Handle;

/// A packet that was dropped.
#[derive(Clone, Copy, Debug, PartialEq, Eq)]
pub struct Dropped {
    /// The packet's tag.
    pub tag: u64,
    /// The id that it was accepted with.
    pub id: u64,
    /// Why it was dropped.
    pub cause: Cause,
}

/// The answer to an enqueue that is accepted.
#[derive(Clone, Copy, Debug, PartialEq, Eq)]
pub struct Enqueued {
    /// The packet's place in the order of acceptance, from 0. It goes on over renewals.
    pub id: u64,
    /// The flow whose queue it went to.
    pub flow: u32,
    /// How many packets were dropped since more waited than the limits allow. They are there to be read.
    pub drops: u64,
}

/// The answer to a dequeue.
#[derive(Clone, Copy, Debug, PartialEq, Eq)]
pub struct Dequeued {
    /// The packet that is sent, or none where none waits.
    pub sent: Option<Sent>,
    /// How many packets CoDel dropped before it. They are there to be read.
    pub drops: u64,
}

/// Why an enqueue is refused.
#[derive(Clone, Copy, Debug, PartialEq, Eq, Error)]
pub enum EnqueueFault {
    /// Drops of earlier calls weren't read. This is tested before all else.
    #[error("drops of earlier calls were not read")]
    Unread,
    /// The scheduler refuses the step.
    #[error("{0}")]
    Refused(Refusal),
}

impl From<Refusal> for EnqueueFault {
    ghost use Rattle.std.specs.Prelude.{◌≡◌};
    ghost use Rattle.queue_disc_core.specs.declared.answers.EnqueueFault.TheVariants as fault;

    ghost from_gives = { λ refusal f. f ≡ fault.Refused refusal };

    fn from(refusal: Refusal) -> EnqueueFault {
        EnqueueFault::Refused(refusal)
    }
}
