//! A scheduler that is its own journal.

use crate::calls::Memory::{EnqueueRooms, Takes};
use crate::calls::{Answer, Calls, Row, Subject, compared};
use crate::pictures::{Picture, of_sched};
use crate::steps::Call::{self, Close, Dequeue, Enqueue, Reserve, Totals, TupleRows};
use crate::steps::{admitted, gave, has_room, is_row, is_total};
use crate::values::{SEED, Values};
use packet_core::Packet;
use sched_core::{Refusal, Sched};

/// Packets come and one goes; the rows of the five-tuples are gathered; then room is taken for packets that come.
static SCHED: [Row<'static, Call>; 17] = [
    (Takes, Enqueue(0, Ok(0)), "Sched::enqueue"),
    (Takes, Enqueue(1, Ok(1)), "Sched::enqueue"),
    (Takes, Enqueue(2, Ok(2)), "Sched::enqueue"),
    (Takes, Enqueue(3, Ok(3)), "Sched::enqueue"),
    (Takes, Enqueue(4, Ok(4)), "Sched::enqueue"),
    (Takes, Enqueue(5, Ok(5)), "Sched::enqueue"),
    (EnqueueRooms, Dequeue(6, Ok(Some(0))), "Sched::dequeue"),
    (Takes, TupleRows(6, 1, 5), "Sched::tuple_rows"),
    (Takes, Reserve(6), "Sched::reserve"),
    (
        EnqueueRooms,
        Enqueue(6, Ok(6)),
        "Sched::enqueue after Sched::reserve",
    ),
    (
        EnqueueRooms,
        Enqueue(7, Ok(7)),
        "Sched::enqueue after Sched::reserve",
    ),
    (
        EnqueueRooms,
        Enqueue(8, Ok(8)),
        "Sched::enqueue after Sched::reserve",
    ),
    (
        EnqueueRooms,
        Enqueue(9, Ok(9)),
        "Sched::enqueue after Sched::reserve",
    ),
    (
        EnqueueRooms,
        Enqueue(10, Ok(10)),
        "Sched::enqueue after Sched::reserve",
    ),
    (
        EnqueueRooms,
        Enqueue(11, Ok(11)),
        "Sched::enqueue after Sched::reserve",
    ),
    (EnqueueRooms, Close(12, Ok(())), "Sched::close"),
    (EnqueueRooms, Totals(12, 1, 11, true), "Sched::totals"),
];

/// Makes the calls of the sequence.
pub(crate) fn sched(values: &Values, calls: &mut Calls<'_>) {
    plays(values, &SCHED, calls);
}

/// Makes the calls with a new scheduler.
pub(crate) fn plays<'a>(values: &Values, rows: &[Row<'a, Call>], calls: &mut Calls<'a>) {
    match new_sched(values, calls) {
        Some(mut sched) => calls.makes(&mut sched, values.packet, rows),
        None => calls.wanted(false, "Sched::try_new"),
    }
}

/// A new scheduler. Where memory was refused, the same call with ample memory gives one.
pub(crate) fn new_sched(values: &Values, calls: &mut Calls<'_>) -> Option<Sched> {
    match Sched::try_new(values.alloc, values.params, SEED) {
        Ok(sched) => Some(sched),
        Err(_) => {
            calls.note();
            Sched::try_new(values.alloc, values.params, SEED).ok()
        }
    }
}

impl Subject for Sched {
    type Call = Call;

    type Picture = Picture;

    fn picture(&mut self) -> Picture {
        of_sched(self)
    }

    fn answer(&mut self, call: Call, packet: Packet) -> Answer {
        match call {
            Enqueue(moment, wanted) => {
                compared(self.enqueue(moment, 0, packet), admitted(moment, wanted))
            }
            Dequeue(moment, wanted) => gave(self.dequeue(moment).map_err(Refusal::from), wanted),
            Close(moment, wanted) => compared(self.close(moment).map_err(Refusal::from), wanted),
            Reserve(enqueues) => has_room(self.reserve(u64::from(enqueues))),
            TupleRows(accepted, sent, queued) => {
                is_row(self.tuple_rows(), packet, accepted, sent, queued)
            }
            Totals(accepted, sent, queued, closed) => {
                is_total(&self.totals(), (accepted, sent, queued, closed))
            }
        }
    }
}
