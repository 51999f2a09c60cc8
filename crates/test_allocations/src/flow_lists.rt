//! Queues of flows and their lists.

ghost use Rattle.std.specs.Prelude.{◌≡◌, ◌<◌, true};
ghost use Rattle.flow_core.specs.FlowLists.{waiting_in};

use crate::calls::Memory::Takes;
use crate::calls::{Answer, Calls, Row, Subject};
use crate::values::Values;
use flow_core::Flows;
use packet_core::{Packet, Waiting};
use std::alloc::Global;

/// Room is taken for so many pushes after the first one.
static ROOM: [Row<'static, u8>; 3] = [
    (Takes, 2, "Flows::reserve"),
    (Takes, 9, "Flows::reserve"),
    (Takes, 40, "Flows::reserve"),
];

/// Flows are made, and room is taken for pushes before and after one.
pub(crate) fn flows(values: &Values, calls: &mut Calls<'_>) {
    match new_flows(values.alloc, calls) {
        Some(mut flows) => flow_calls(&mut flows, values.packet, calls),
        None => calls.wanted(false, "Flows::try_new"),
    }
}

/// New queues of two flows. Where memory was refused, the same call with ample memory gives them.
fn new_flows(alloc: Global, calls: &mut Calls<'_>) -> Option<Flows> {
    match Flows::try_new(alloc, 2) {
        Ok(flows) => Some(flows),
        Err(_) => {
            calls.note();
            Flows::try_new(alloc, 2).ok()
        }
    }
}

/// Makes the calls of flows that were made.
fn flow_calls(flows: &mut Flows, packet: Packet, calls: &mut Calls<'_>) {
    push_one(flows, packet, calls);
    calls.makes(flows, packet, &ROOM);
    calls.wanted(flows.total_len() == 1, "Flows::push");
}

/// Takes room for a packet, and pushes it.
fn push_one(flows: &mut Flows, packet: Packet, calls: &mut Calls<'_>) {
    let has_room = takes_room(flows, calls);
    calls.wanted(has_room, "Flows::reserve");
    if has_room && flows.total_len() == 0 && flows.flows() == 2 {
        let waiting = Waiting {
            id: 0,
            stamp: 0,
            packet,
        };
        flows.push(1, waiting);
    }
}

/// Takes room for a push, and reports whether there is.
fn takes_room(flows: &mut Flows, calls: &mut Calls<'_>) -> bool
    ensures { result ≡ true → waiting_in flows.new.lists < flows.new.capacity }
{
    if flows.reserve(1).is_ok() {
        return true;
    }
    calls.note();
    flows.reserve(1).is_ok()
}

impl Subject for Flows {
    /// Room for so many pushes.
    type Call = u8;

    type Picture = [Option<u64>; 7];

    fn picture(&mut self) -> [Option<u64>; 7] {
        [
            Some(self.total_len()),
            Some(self.total_bytes()),
            Some(u64::from(self.flows())),
            Some(u64::from(self.levels())),
            Some(self.comparisons()),
            self.fattest().map(u64::from),
            self.head_new().or(self.head_old()).map(u64::from),
        ]
    }

    fn answer(&mut self, pushes: u8, _: Packet) -> Answer {
        match self.reserve(u64::from(pushes)) {
            Ok(()) => Answer::Right,
            Err(_) => Answer::Refused,
        }
    }
}
