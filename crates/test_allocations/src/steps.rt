//! The calls that a scheduler and an engine have in common, and what they are answered.

use crate::calls::{Answer, compared};
use packet_core::Packet;
use sched_core::{Admitted, Memory, Refusal, Sent, Totals, TupleRow};

/// A call, and what it is answered.
#[derive(Clone, Copy)]
pub(crate) enum Call {
    /// An enqueue at that moment, and the packet's id.
    Enqueue(u64, Result<u64, Refusal>),
    /// A dequeue at that moment, and the id of the packet that it gives.
    Dequeue(u64, Result<Option<u64>, Refusal>),
    /// A close at that moment.
    Close(u64, Result<(), Refusal>),
    /// Memory for so many steps.
    Reserve(u8),
    /// The rows of the five-tuples: one, of so many packets accepted, sent and waiting.
    TupleRows(u64, u64, u64),
    /// The statistics: so many packets accepted, sent and waiting, and whether there was a close.
    Totals(u64, u64, u64, bool),
}

/// What an enqueue at that moment answers.
pub(crate) fn admitted(moment: u64, id: Result<u64, Refusal>) -> Result<Admitted, Refusal> {
    match id {
        Ok(id) => Ok(Admitted {
            id,
            moment,
            flow: 0,
        }),
        Err(refusal) => Err(refusal),
    }
}

/// Whether a dequeue gave the packet with that id.
pub(crate) fn gave(
    answer: Result<Option<Sent>, Refusal>,
    wanted: Result<Option<u64>, Refusal>,
) -> Answer {
    let given = match answer {
        Ok(Some(sent)) => Ok(Some(sent.id)),
        Ok(None) => Ok(None),
        Err(refusal) => Err(refusal),
    };
    compared(given, wanted)
}

/// Whether there is room.
pub(crate) fn has_room(answer: Result<(), Memory>) -> Answer {
    match answer {
        Ok(()) => Answer::Right,
        Err(_) => Answer::Refused,
    }
}

/// Whether the rows of the five-tuples are one, of that packet's five-tuple and so many packets.
pub(crate) fn is_row(
    answer: Result<Vec<TupleRow>, Memory>,
    packet: Packet,
    accepted: u64,
    sent: u64,
    queued: u64,
) -> Answer {
    let row = TupleRow {
        tuple: packet.tuple(),
        flow: 0,
        accepted,
        sent,
        dropped: 0,
        queued,
    };
    match answer {
        Ok(rows) => Answer::of(rows.as_slice() == [row].as_slice()),
        Err(_) => Answer::Refused,
    }
}

/// Whether so many packets were accepted, were sent and wait, and whether there was a close.
pub(crate) fn is_total(totals: &Totals, wanted: (u64, u64, u64, bool)) -> Answer {
    let balance = (totals.accepted, totals.sent, totals.queued, totals.closed);
    Answer::of(balance == wanted)
}
