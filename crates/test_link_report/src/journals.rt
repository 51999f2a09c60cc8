//! The journal that the tests make tables of: six packets of two five-tuples, of which one is dropped by CoDel, one for a
//! full queue, and two are sent with a mark.

use journal_core::{Cause, Event, Mark};
use packet_core::{Ecn, FiveTuple, Ip, Packet};
use std::process::Abort;

/// A moment of the year 2023, counted from 1970.
const LATE: u64 = 1_700_000_000_000_000;

/// TCP to port 443, flow 443.
fn web() -> FiveTuple {
    FiveTuple {
        proto: 6,
        src: Ip::V4([10, 0, 0, 1]),
        dst: Ip::V4([10, 0, 0, 9]),
        sport: 5_000,
        dport: 443,
    }
}

/// UDP to port 53, flow 53.
fn names() -> FiveTuple {
    FiveTuple {
        proto: 17,
        src: Ip::V4([10, 0, 0, 2]),
        dst: Ip::V4([10, 0, 0, 9]),
        sport: 6_000,
        dport: 53,
    }
}

/// A packet was accepted into the flow of its port.
fn accepted<R: Abort>(rt: &R, id: u64, moment: u64, tuple: FiveTuple, len: u32, ecn: Ecn) -> Event {
    Event::Accepted {
        lane: 0,
        id,
        moment,
        flow: u32::from(tuple.dport),
        packet: Packet::try_new(tuple, len, ecn).expect(rt, "a packet"),
    }
}

/// A packet was sent.
fn sent(id: u64, moment: u64, ecn: Ecn, mark: Mark) -> Event {
    Event::Sent {
        id,
        moment,
        ecn,
        mark,
    }
}

/// A packet was dropped.
fn dropped(id: u64, moment: u64, cause: Cause) -> Event {
    Event::Dropped { id, moment, cause }
}

/// The journal.
pub(crate) fn journal<R: Abort>(rt: &R) -> [Event; 12] {
    [
        accepted(rt, 0, 0, web(), 1_000, Ecn::Ect0),
        accepted(rt, 1, 0, web(), 1_000, Ecn::Ect0),
        sent(0, 0, Ecn::Ect0, Mark::NoMark),
        accepted(rt, 2, 500, names(), 200, Ecn::Ect0),
        dropped(1, 999, Cause::Codel),
        accepted(rt, 3, 1_000, web(), 100, Ecn::NotEct),
        sent(2, 1_000, Ecn::Ce, Mark::CodelMark),
        dropped(3, 1_500, Cause::Overflow),
        accepted(rt, 4, 2_500, names(), 300, Ecn::Ect1),
        sent(4, 4_000, Ecn::Ce, Mark::Threshold),
        accepted(rt, 5, 4_999, web(), 50, Ecn::NotEct),
        sent(5, 5_000, Ecn::NotEct, Mark::NoMark),
    ]
}

/// A packet that comes and goes at once, and another one long after.
pub(crate) fn late_journal<R: Abort>(rt: &R) -> [Event; 4] {
    [
        accepted(rt, 0, 0, web(), 1_000, Ecn::Ect0),
        sent(0, 0, Ecn::Ect0, Mark::NoMark),
        accepted(rt, 1, LATE, web(), 500, Ecn::Ect0),
        sent(1, LATE + 1, Ecn::Ect0, Mark::NoMark),
    ]
}

/// A packet that waits through four bins of a millisecond, and the close.
pub(crate) fn closed_journal<R: Abort>(rt: &R) -> [Event; 3] {
    [
        accepted(rt, 0, 0, web(), 1_000, Ecn::Ect0),
        sent(0, 5_500, Ecn::Ect0, Mark::NoMark),
        Event::Closed { moment: 6_000 },
    ]
}

/// So many packets come at once, each of another five-tuple.
pub(crate) fn crowd<R: Abort + AllocGlobal>(rt: &R, count: u16) -> Vec<Event> {
    let mut events = Vec::new(rt.alloc());
    for number in 0..count {
        let mut tuple = web();
        tuple.sport = number;
        let event = accepted(rt, u64::from(number), 0, tuple, 100, Ecn::NotEct);
        events.push(event).ok().expect(rt, "memory");
    }
    events
}
