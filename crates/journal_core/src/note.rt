//! What a report says of an event.

ghost use Rattle.std.specs.Prelude.{◌≡◌};
ghost use Rattle.journal_core.specs.Notes.{note_of, noted_id};

use crate::event::{Cause, Event};
use packet_core::Ecn;

/// What a report says of an event. Ids count acceptances from 0.
// The short part of each stands first, in the place behind the mark of the variant.
#[derive(Clone, Copy, Debug, PartialEq, Eq)]
pub enum Note {
    /// A packet was accepted into the queue of a flow.
    Accepted {
        /// The flow.
        flow: u32,
        /// The packet's id.
        id: u64,
    },
    /// A packet was given to the device.
    Sent {
        /// Its ECN field as sent.
        ecn: Ecn,
        /// The packet's id.
        id: u64,
    },
    /// A packet was dropped.
    Dropped {
        /// Why.
        cause: Cause,
        /// The packet's id.
        id: u64,
    },
    /// The close.
    Closed,
}

impl Note {
    /// What a report says of that event.
    #[inline(always)]
    pub fn of(event: &Event) -> Note
        ensures { result ≡ note_of event.now }
    {
        match *event {
            Event::Accepted { id, flow, .. } => Note::Accepted { flow, id },
            Event::Sent { id, ecn, .. } => Note::Sent { ecn, id },
            Event::Dropped { id, cause, .. } => Note::Dropped { cause, id },
            Event::Closed { .. } => Note::Closed,
        }
    }

    /// The id of the packet that the event is of; a close is of none.
    pub(crate) fn packet_id(&self) -> Option<u64>
        ensures { result ≡ noted_id self.now }
    {
        match *self {
            Note::Accepted { id, .. } => Some(id),
            Note::Sent { id, .. } => Some(id),
            Note::Dropped { id, .. } => Some(id),
            Note::Closed => None,
        }
    }
}

// An event has 80 bytes.
const _: () = prove!(size_of::<Note>() == 16);
