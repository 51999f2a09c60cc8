//! Locked ports with any number of seats, which are settled with their seats in any order.

use crate::calls::{Call, Sending};
use crate::fixtures::{Form, counted, flows};
use crate::seats::{Part, plays};
use port_core::{MAX_SEATS, Stop};
use sched_core::Mark;

const PACKET: Form = Form::Ip4(53, 100);

/// A seat sends one packet.
const SENDS_ONE: [Call<'static>; 2] = [
    Call::Send(Sending {
        packets: &[(0, PACKET)],
        calls: 1,
        stop: Stop::Done,
    }),
    Call::Told(&[(0, PACKET)]),
];

/// The seat sends another one.
const SENDS_ANOTHER: [Call<'static>; 2] = [
    Call::Send(Sending {
        packets: &[(0, PACKET)],
        calls: 1,
        stop: Stop::Done,
    }),
    Call::Told(&[(0, PACKET), (0, PACKET)]),
];

/// A port has any number of seats from 1 to 65, and it is settled with all of them. Each sends a packet, and another
/// one once all have sent theirs: no seat's packet closes the port.
#[test]
fn any_number_of_seats(rt: HostRuntime) {
    for seats in 1..=MAX_SEATS {
        let part = Part::Rounds(&[&SENDS_ONE, &SENDS_ANOTHER]);
        let engine = plays(&rt, rt.alloc(), flows(&rt, 1), seats, part, &[]);
        assert!(&rt; !engine.is_closed());
        let all = u64::from(seats).saturating_mul(2);
        assert_eq!(rt; counted(&engine.totals()), (all, 0));
    }
}

/// A port is settled with three seats in each of their six orders. The one that is handed in last was given a packet.
#[test]
fn seats_in_any_order(rt: HostRuntime) {
    let later = [Call::Goes(1, PACKET, 0, 1, Mark::NoMark)];
    for places in ORDERS {
        let part = Part::Each(&SENDS_ONE, places);
        let engine = plays(&rt, rt.alloc(), flows(&rt, 1), 3, part, &later);
        assert_eq!(rt; counted(&engine.totals()), (3, 1));
    }
}

/// Which places are changed for each order.
const ORDERS: [&[(usize, usize)]; 6] = [
    // 0, 1, 2.
    &[],
    // 2, 1, 0.
    &[(0, 2)],
    // 1, 0, 2.
    &[(0, 1)],
    // 0, 2, 1.
    &[(1, 2)],
    // 1, 2, 0.
    &[(0, 1), (1, 2)],
    // 2, 0, 1.
    &[(1, 2), (0, 1)],
];
