//! Calls that take memory by the right measure: for what they are asked for, and by no larger number at hand.
//!
//! The calls are made one after another. Each takes about as much memory as the others do, and it is free again before
//! the next. `.ci/refused-allocations` makes them under a limit of some tenth more, so that a call which takes twice
//! the memory is refused.

use crate::calls::Calls;
use crate::ports;
use crate::recorders::{take, take_steps};
use crate::schedulers::new_sched;
use crate::steps::is_row;
use crate::values::Values;
use link_report::Packets;
use packet_core::Params;
use sched_core::{Event, EventList, StepList};
use std::alloc::Global;
use std::sync::Wait;
use test_support::by_port;

/// So many packets come, and each goes before the next. The journal has an event for each of both.
const PACKETS: u64 = 250_000;

/// A list of events has 80 bytes for each of so many.
const EVENTS: usize = 740_000;

/// A list of steps has 72 bytes for each of so many.
const STEPS: usize = 820_000;

/// At most so many packets wait.
const MOST_LIMIT: u32 = 1_048_576;

/// Makes the calls of the sequence.
pub(crate) fn sizes<R: Wait>(rt: &R, values: &Values, calls: &mut Calls<'_>) {
    tables(values, calls);
    events(values, calls);
    steps(values, calls);
    seat(rt, values, calls);
}

/// The tables of a journal have memory for its packets and for their one five-tuple.
fn tables(values: &Values, calls: &mut Calls<'_>) {
    let Some(mut sched) = new_sched(values, calls) else {
        calls.wanted(false, "Sched::try_new");
        return;
    };
    for _ in 0..PACKETS {
        let _ = sched.enqueue(0, 0, values.packet);
        let _ = sched.dequeue(0);
    }
    let has_packets = has_packets(values.alloc, sched.events());
    calls.wanted(has_packets, "Packets::of");
    let row = is_row(sched.tuple_rows(), values.packet, PACKETS, PACKETS, 0);
    calls.wanted(row.is_right(), "Sched::tuple_rows");
}

/// Whether the packets of those events are all of them, with one five-tuple.
fn has_packets(alloc: Global, events: &[Event]) -> bool {
    match Packets::of(alloc, events) {
        Ok(packets) => packets.records().len() as u64 == PACKETS && packets.tuples().len() == 1,
        Err(_) => false,
    }
}

/// A list has memory for the events that are reserved.
fn events(values: &Values, calls: &mut Calls<'_>) {
    let mut events = EventList::new(values.alloc);
    take(&mut events, EVENTS, calls);
}

/// A list has memory for the steps that are reserved.
fn steps(values: &Values, calls: &mut Calls<'_>) {
    let mut steps = StepList::new(values.alloc);
    take_steps(&mut steps, STEPS, calls);
}

/// A seat has memory for the ten packets that it is told of, and not for as many as may wait. Memory is short beside a
/// list.
fn seat<R: Wait>(rt: &R, values: &Values, calls: &mut Calls<'_>) {
    let Values { alloc, packet, .. } = *values;
    let Some(params) = one_flow_of_many() else {
        calls.wanted(false, "Params::try_new");
        return;
    };
    let mut events = EventList::new(alloc);
    take(&mut events, EVENTS, calls);
    let values = Values {
        alloc,
        params,
        packet,
    };
    ports::locked(rt, &values, calls);
}

/// One flow, in which as many packets may wait as ever may.
fn one_flow_of_many() -> Option<Params> {
    let mut fields = by_port(1);
    fields.limit = MOST_LIMIT;
    Params::try_new(fields).ok()
}
