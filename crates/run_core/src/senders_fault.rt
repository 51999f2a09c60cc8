//! Why a run by senders fails.
ghost use Rattle.std.specs.Prelude.{◌≡◌};
ghost use Rattle.run_core.specs.declared.senders_fault.SendersFault.TheVariants as senders_fault;

use port_core::{OpenFault, PublishFault};
use sched_core::Refusal;
use std::alloc::{AllocError, AllocFailed};

/// Why a run by senders failed.
#[derive(Clone, Copy, Debug, PartialEq, Eq)]
pub enum SendersFault {
    /// A growth was refused.
    Memory,
    /// The journal isn't what the senders were told, or isn't that of a whole run by their calls. It would show a fault of
    /// the locked port itself.
    Settle,
    /// The sender of that lane has more packets than a lane has room for, which is 1,048,576, or its lane has no end.
    Lane(u32),
    /// The monitor of that number read more events than the journal has. It would show a fault of the run itself.
    Monitor(usize),
}

/// Why a call of the locked port or of the device is refused, where it isn't for a second close: the moments of a trace
/// are below 2^60 and it has less than 2^40 rows, so memory was wanting.
impl From<Refusal> for SendersFault {
    ghost from_gives = { λ _ e. e ≡ senders_fault.Memory };

    fn from(_: Refusal) -> SendersFault {
        SendersFault::Memory
    }
}

/// Why lanes aren't opened. There is a place for each monitor.
impl From<OpenFault> for SendersFault {
    ghost from_gives = { λ _ e. e ≡ senders_fault.Memory };

    fn from(_: OpenFault) -> SendersFault {
        SendersFault::Memory
    }
}

/// Why statistics aren't published.
impl From<PublishFault> for SendersFault {
    ghost from_gives = { λ _ e. e ≡ senders_fault.Memory };

    fn from(_: PublishFault) -> SendersFault {
        SendersFault::Memory
    }
}

impl From<AllocError> for SendersFault {
    ghost from_gives = { λ _ e. e ≡ senders_fault.Memory };

    fn from(_: AllocError) -> SendersFault {
        SendersFault::Memory
    }
}

impl<T: Drop> From<AllocFailed<T>> for SendersFault {
    ghost from_gives = { λ _ e. e ≡ senders_fault.Memory };

    fn from(_: AllocFailed<T>) -> SendersFault {
        SendersFault::Memory
    }
}
