//! The steps of a scheduler, their refusals and their answers.

ghost use Rattle.std.specs.Prelude.{◌≡◌};
ghost use Rattle.journal_core.specs.declared.step.Refusal.TheVariants.{Moment, Memory};
ghost use Rattle.journal_core.specs.declared.step.CloseFault.TheVariants as close_fault;
ghost use Rattle.journal_core.specs.Calls.{close_refusal};

use codel_core::Mark;
use packet_core::Packet;
use std::alloc::{AllocError, AllocFailed};
use thiserror::Error;

/// A moment is below this many microseconds.
pub const MAX_MOMENT: u64 = 1 << 60;

/// Want of memory: a growth was refused.
pub type Memory = AllocError;

/// What a scheduler is asked to do, each at a moment in microseconds.
#[derive(Clone, Copy, Debug, PartialEq, Eq)]
pub enum Step {
    /// A packet comes in.
    Enqueue {
        /// The moment.
        moment: u64,
        /// The lane that it comes from.
        lane: u32,
        /// The packet.
        packet: Packet,
    },
    /// The device asks for a packet.
    Dequeue {
        /// The moment.
        moment: u64,
    },
    /// From here on nothing is accepted.
    Close {
        /// The moment.
        moment: u64,
    },
}

/// Why a step's moment is refused.
#[derive(Clone, Copy, Debug, PartialEq, Eq, Error)]
pub enum MomentFault {
    /// The moment is 2^60 microseconds or more.
    #[error("the moment is 2^60 microseconds or more")]
    TooLarge,
    /// The moment is before that of the last step that wasn't refused.
    #[error("the moment is before {last} microseconds, that of the last step")]
    Backwards {
        /// The last step's moment, in microseconds.
        last: u64,
    },
}

/// Why a close is refused.
#[derive(Clone, Copy, Debug, PartialEq, Eq, Error)]
pub enum CloseFault {
    /// The moment won't do.
    #[error("{0}")]
    Moment(MomentFault),
    /// There was a close already.
    #[error("there was a close already")]
    ClosedAlready,
}

/// Why a step is refused. The cases are tested in this order.
#[derive(Clone, Copy, Debug, PartialEq, Eq, Error)]
pub enum Refusal {
    /// The moment won't do.
    #[error("{0}")]
    Moment(MomentFault),
    /// There was a close already.
    #[error("there was a close already")]
    ClosedAlready,
    /// 2^40 packets were accepted, and there are no more ids.
    #[error("2^40 packets were accepted")]
    Exhausted,
    /// A growth was refused.
    #[error("a growth was refused")]
    Memory,
}

/// The answer to an enqueue that is accepted.
#[derive(Clone, Copy, Debug, PartialEq, Eq)]
pub struct Admitted {
    /// The packet's place in the order of acceptance, from 0.
    pub id: u64,
    /// The moment of acceptance, in microseconds.
    pub moment: u64,
    /// The flow whose queue it went to.
    pub flow: u32,
}

/// The answer to a dequeue that gives a packet.
#[derive(Clone, Copy, Debug, PartialEq, Eq)]
pub struct Sent {
    /// The id that the packet was accepted with.
    pub id: u64,
    /// The moment of the dequeue, in microseconds.
    pub moment: u64,
    /// The packet with its ECN field as sent.
    pub packet: Packet,
    /// Whether it was marked on the way, and by what.
    pub mark: Mark,
}

impl From<MomentFault> for Refusal {
    ghost from_gives = { λ fault r. r ≡ Moment fault };

    fn from(fault: MomentFault) -> Refusal {
        Refusal::Moment(fault)
    }
}

impl From<AllocError> for Refusal {
    ghost from_gives = { λ _ r. r ≡ Memory };

    fn from(_: AllocError) -> Refusal {
        Refusal::Memory
    }
}

impl<T: Drop> From<AllocFailed<T>> for Refusal {
    ghost from_gives = { λ _ r. r ≡ Memory };

    fn from(_: AllocFailed<T>) -> Refusal {
        Refusal::Memory
    }
}

impl From<CloseFault> for Refusal {
    ghost from_gives = { λ fault r. r ≡ close_refusal fault };

    fn from(fault: CloseFault) -> Refusal {
        match fault {
            CloseFault::Moment(fault) => Refusal::Moment(fault),
            CloseFault::ClosedAlready => Refusal::ClosedAlready,
        }
    }
}

impl From<MomentFault> for CloseFault {
    ghost from_gives = { λ fault r. r ≡ close_fault.Moment fault };

    fn from(fault: MomentFault) -> CloseFault {
        CloseFault::Moment(fault)
    }
}
