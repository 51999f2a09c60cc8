//! The parameters, the seed, the packets and the lanes of the tests. Where a step fails the test ends there: each `?`
//! would be one more way out of a function, and its proof takes each of them.

ghost use Rattle.std.specs.Prelude.{◌≡◌, ◌≤◌, ◌<◌};
ghost use Rattle.port_core.specs.Devices.{rings_of};
ghost use Rattle.test_lanes.specs.Ends.{AreFirst, sender_rings};

use packet_core::{Ecn, Packet, Params};
use port_core::{
    BookBlank, BookName, Layout, LeftRight, MAX_CAPACITY, MAX_LANES, Opened, Shown, lanes,
    lanes_with_recorders,
};
use sched_core::{Event, NullRecorder, Step};
use std::alloc::Global;
use std::process::Abort;
use std::sync::Wait;
use test_support::{SEED, by_port, tuple};

/// One flow, chosen by the destination port.
fn one_flow<R: Abort>(rt: &R) -> Params {
    Params::try_new(by_port(1)).expect(rt, "parameters")
}

/// A packet of 100 bytes to that destination port.
pub(crate) fn packet<R: Abort>(rt: &R, dport: u16) -> Packet {
    packet_of(rt, dport, 100)
}

/// A packet of so many bytes to that destination port, which is its tag, too.
pub(crate) fn packet_of<R: Abort>(rt: &R, dport: u16, len: u32) -> Packet {
    let packet = Packet::try_new(tuple(dport), len, Ecn::NotEct).expect(rt, "a packet");
    packet.with_tag(u64::from(dport))
}

/// Six packets of 100 bytes, to the destination ports from that one.
pub(crate) fn packets<R: Abort>(rt: &R, first: u16) -> [Packet; 6] {
    assert!(rt; first <= 1000);
    [
        packet(rt, first),
        packet(rt, first + 1),
        packet(rt, first + 2),
        packet(rt, first + 3),
        packet(rt, first + 4),
        packet(rt, first + 5),
    ]
}

/// The acceptance at 7 of the packet with that id from that lane.
pub(crate) fn accepted(lane: u32, id: u64, packet: Packet) -> Event {
    Event::Accepted {
        lane,
        id,
        moment: 7,
        flow: 0,
        packet,
    }
}

/// Lanes with room for so many packets each, to a device without monitors.
pub(crate) fn open<'a, J: BookName, R: Wait + Abort>(
    rt: &'a R,
    alloc: Global,
    blank: BookBlank,
    number: u32,
    capacity: u32,
) -> Opened<J, LeftRight<Shown<J>, &'a R>>
    requires book { blank ≡ J.book }
    requires number { (0 < number) × (number ≤ MAX_LANES) }
    requires capacity { (0 < capacity) × (capacity ≤ MAX_CAPACITY) }
    ensures { AreFirst (sender_rings result.senders.items) (rings_of result.device.lanes) }
{
    let layout = Layout {
        lanes: number,
        capacity,
        monitors: 0,
    };
    lanes(rt, alloc, blank, one_flow(rt), SEED, layout).expect(rt, "lanes")
}

/// The same to a device that keeps neither events nor steps.
pub(crate) fn open_unstored<'a, J: BookName, R: Wait + Abort>(
    rt: &'a R,
    alloc: Global,
    blank: BookBlank,
    number: u32,
    capacity: u32,
) -> Opened<J, LeftRight<Shown<J>, &'a R>, NullRecorder, NullRecorder>
    requires book { blank ≡ J.book }
    requires number { (0 < number) × (number ≤ MAX_LANES) }
    requires capacity { (0 < capacity) × (capacity ≤ MAX_CAPACITY) }
    ensures { AreFirst (sender_rings result.senders.items) (rings_of result.device.lanes) }
{
    let (events, steps) = (NullRecorder::new(), NullRecorder::new());
    let layout = Layout {
        lanes: number,
        capacity,
        monitors: 0,
    };
    lanes_with_recorders(rt, alloc, blank, one_flow(rt), SEED, layout, events, steps).expect(
        rt, "lanes",
    )
}
