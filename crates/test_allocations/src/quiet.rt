//! Calls that take no memory, when the next allocation is refused.
//!
//! Each sequence takes the memory that it needs, and then makes calls that take none, once each: a call that took
//! memory after all would be refused in one of the runs, and answer so. At last each allocates once, so that in one run
//! the allocation that is refused comes right after these calls.

use crate::calls::Memory::{EnqueueRooms, Takes};
use crate::calls::{Calls, Row};
use crate::devices::{self, Call as DeviceCall};
use crate::steps::Call;
use crate::values::{SEED, Values};
use crate::{engines, ports, schedulers};
use packet_core::{Classify, Params};
use sched_core::{FlowChooser, MomentFault, Refusal};
use std::alloc::Global;
use std::sync::Wait;
use test_support::by_port;

/// What comes after the close is refused.
const CLOSED: Refusal = Refusal::ClosedAlready;

/// What comes with a moment before 2 is refused.
const BACKWARDS: Refusal = Refusal::Moment(MomentFault::Backwards { last: 2 });

/// Packets come and go to a scheduler with room for them, it is closed, and what comes then is refused as closed.
static SCHED: [Row<'static, Call>; 8] = [
    (Takes, Call::Reserve(2), "Sched::reserve"),
    (
        EnqueueRooms,
        Call::Enqueue(0, Ok(0)),
        "Sched::enqueue after Sched::reserve",
    ),
    (
        EnqueueRooms,
        Call::Enqueue(1, Ok(1)),
        "Sched::enqueue after Sched::reserve",
    ),
    (
        EnqueueRooms,
        Call::Dequeue(2, Ok(Some(0))),
        "Sched::dequeue",
    ),
    (EnqueueRooms, Call::Close(2, Ok(())), "Sched::close"),
    (
        EnqueueRooms,
        Call::Enqueue(2, Err(CLOSED)),
        "Sched::enqueue after Sched::close",
    ),
    (
        EnqueueRooms,
        Call::Dequeue(1, Err(BACKWARDS)),
        "Sched::dequeue",
    ),
    (EnqueueRooms, Call::Totals(2, 1, 1, true), "Sched::totals"),
];

/// The same of an engine.
static ENGINE: [Row<'static, Call>; 8] = [
    (Takes, Call::Reserve(4), "Engine::reserve"),
    (
        EnqueueRooms,
        Call::Enqueue(0, Ok(0)),
        "Engine::enqueue after Engine::reserve",
    ),
    (
        EnqueueRooms,
        Call::Enqueue(1, Ok(1)),
        "Engine::enqueue after Engine::reserve",
    ),
    (
        EnqueueRooms,
        Call::Dequeue(2, Ok(Some(0))),
        "Engine::dequeue after Engine::reserve",
    ),
    (EnqueueRooms, Call::Close(2, Ok(())), "Engine::close"),
    (
        EnqueueRooms,
        Call::Enqueue(2, Err(CLOSED)),
        "Engine::enqueue after Engine::close",
    ),
    (
        EnqueueRooms,
        Call::Close(2, Err(CLOSED)),
        "Engine::close once more",
    ),
    (EnqueueRooms, Call::Totals(2, 1, 1, true), "Engine::totals"),
];

/// The same of a device with a lane and a monitor, which was shown something before. A pump is of as many packets as
/// are submitted before, so that what is reserved is enough. A publish after the first one has room for what it shows.
static DEVICE: [Row<'static, DeviceCall>; 11] = [
    (Takes, DeviceCall::Reserve(4), "Device::reserve"),
    (Takes, DeviceCall::Publish(0), "Device::publish"),
    (EnqueueRooms, DeviceCall::Submit, "LaneSender::submit"),
    (EnqueueRooms, DeviceCall::Submit, "LaneSender::submit"),
    (
        EnqueueRooms,
        DeviceCall::Pump(2, 2, Ok(2)),
        "Device::pump after Device::reserve",
    ),
    (
        EnqueueRooms,
        DeviceCall::Dequeue(2, Ok(Some(0))),
        "Device::dequeue",
    ),
    (EnqueueRooms, DeviceCall::Close(2, Ok(())), "Device::close"),
    (EnqueueRooms, DeviceCall::Submit, "LaneSender::submit"),
    (
        EnqueueRooms,
        DeviceCall::Pump(2, 2, Err(CLOSED)),
        "Device::pump after Device::close",
    ),
    (EnqueueRooms, DeviceCall::Publish(4), "Device::publish"),
    (EnqueueRooms, DeviceCall::Seen(4, 2, 1), "Monitor::totals"),
];

/// Allocates once, and notes where that was refused.
pub(crate) fn allocate(alloc: Global, calls: &mut Calls<'_>) {
    let mut one: Vec<u8> = Vec::new(alloc);
    if one.push(0).is_err() {
        calls.note();
    }
}

/// The choice of flows for fifteen packets, and a scheduler for which room was taken.
pub(crate) fn sched(values: &Values, calls: &mut Calls<'_>) {
    let chosen = chooses_for(values.alloc, 15);
    calls.wanted(chosen, "FlowChooser::try_new_for");
    schedulers::plays(values, &SCHED, calls);
    allocate(values.alloc, calls);
}

/// Whether the flows of so many packets can be chosen by the hash.
fn chooses_for(alloc: Global, packets: u64) -> bool {
    let mut fields = by_port(4);
    fields.classify = Classify::Hash;
    match Params::try_new(fields) {
        Ok(params) => FlowChooser::try_new_for(alloc, params, SEED, packets).is_ok(),
        Err(_) => false,
    }
}

/// An engine for which room was taken.
pub(crate) fn engine(values: &Values, calls: &mut Calls<'_>) {
    engines::plays(values, &ENGINE, calls);
    allocate(values.alloc, calls);
}

/// A device for which room was taken.
pub(crate) fn device<R: Wait>(rt: &R, values: &Values, calls: &mut Calls<'_>) {
    devices::plays(rt, values, &DEVICE, calls);
    allocate(values.alloc, calls);
}

/// A locked port for which room was taken.
pub(crate) fn port<R: Wait>(rt: &R, values: &Values, calls: &mut Calls<'_>) {
    ports::quiet(rt, values, calls);
    allocate(values.alloc, calls);
}
