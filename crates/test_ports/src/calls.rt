//! A list of a seat's calls, each with what it is answered.

use crate::fixtures::{Form, counted, packet, packets};
use crate::gates::{Asked, Closing};
use packet_core::Packet;
use port_core::{Gate, LockedPort, Open, PortSeat, Stop, send_locked};
use sched_core::{Admitted, Event, Mark, Refusal, Sent, Totals};
use std::alloc::Global;
use std::process::Abort;
use std::sync::Wait;
use std::sync::ledger::Ledger;

/// What a sender is to do: the packets with their moments, how many calls it makes, and why it stops.
#[derive(Clone, Copy)]
pub(crate) struct Sending<'a> {
    pub(crate) packets: &'a [(u64, Form)],
    pub(crate) calls: u64,
    pub(crate) stop: Stop,
}

/// A call, and what it is answered.
#[derive(Clone, Copy)]
pub(crate) enum Call<'a> {
    /// An enqueue at that moment, which is accepted with that id into that flow, at the last moment.
    Comes(u64, Form, u64, u32, u64),
    /// An enqueue at that moment that is refused.
    ComesNot(u64, Form, Refusal),
    /// A dequeue at that moment, which gives the packet with that id at the last moment, with that mark.
    Goes(u64, Form, u64, u64, Mark),
    /// So many packets, with the ids from 0 on: each comes into the flow 0 at that moment and goes then.
    Pass(u64, Form, u64),
    /// A dequeue at that moment that gives none.
    Idle(u64),
    /// A dequeue at that moment that is refused.
    GoesNot(u64, Refusal),
    /// A close at that moment.
    Close(u64, Result<u64, Refusal>),
    /// The statistics, of which so many packets were accepted and so many were sent.
    Counts(u64, u64),
    /// The statistics.
    Totals(Totals),
    /// The seat was told of so many acceptances, and so many packets were sent to it.
    Seat(u64, u64),
    /// The seat was told of those packets, in this order, and of no other.
    Told(&'a [(u64, Form)]),
    /// A sender whose gate is open.
    Send(Sending<'a>),
    /// A sender with that gate.
    Ask(&'a Asked, Sending<'a>),
    /// A sender whose gate closes the port before the third call.
    CloseBetween(Sending<'a>),
}

/// The calls are made in turn.
pub(crate) fn makes<A: Ledger, S: Ledger, R: Wait + Abort>(
    rt: &R,
    alloc: Global,
    port: &LockedPort<A, S>,
    seat: PortSeat<A, S>,
    calls: &[Call<'_>],
) -> PortSeat<A, S> {
    let mut seat = seat;
    for call in calls {
        seat = match *call {
            Call::Send(sending) => sends(rt, alloc, port, seat, &Open, sending),
            Call::Ask(gate, sending) => sends(rt, alloc, port, seat, gate, sending),
            Call::CloseBetween(sending) => {
                sends(rt, alloc, port, seat, &Closing { rt, port }, sending)
            }
            _ => {
                is_answered(rt, alloc, port, &mut seat, call);
                seat
            }
        };
    }
    seat
}

/// The sender makes its calls.
fn sends<A: Ledger, S: Ledger, G: Gate, R: Wait + Abort>(
    rt: &R,
    alloc: Global,
    port: &LockedPort<A, S>,
    seat: PortSeat<A, S>,
    gate: &G,
    sending: Sending<'_>,
) -> PortSeat<A, S> {
    let packets = packets(rt, alloc, sending.packets);
    let done = send_locked(rt, port, seat, &packets, gate);
    assert_eq!(rt; (done.calls, done.stop), (sending.calls, sending.stop));
    done.seat
}

/// The call is answered as it has to be.
fn is_answered<A: Ledger, S: Ledger, R: Wait + Abort>(
    rt: &R,
    alloc: Global,
    port: &LockedPort<A, S>,
    seat: &mut PortSeat<A, S>,
    call: &Call<'_>,
) {
    match *call {
        Call::Comes(now, form, id, flow, moment) => {
            comes(rt, port, seat, now, form, Ok(Admitted { id, moment, flow }));
        }
        Call::ComesNot(now, form, refusal) => comes(rt, port, seat, now, form, Err(refusal)),
        Call::Goes(now, form, id, moment, mark) => {
            goes(
                rt,
                port,
                seat,
                now,
                Ok(Some(sent(rt, form, id, moment, mark))),
            );
        }
        Call::Pass(now, form, packets) => {
            for id in 0..packets {
                passes(rt, port, seat, now, form, id);
            }
        }
        Call::Idle(now) => goes(rt, port, seat, now, Ok(None)),
        Call::GoesNot(now, refusal) => goes(rt, port, seat, now, Err(refusal)),
        Call::Close(now, wanted) => assert_eq!(rt; port.close(rt, now), wanted),
        Call::Counts(accepted, sent) => {
            assert_eq!(rt; counted(&port.totals(rt, seat)), (accepted, sent));
        }
        Call::Totals(wanted) => assert_eq!(rt; port.totals(rt, seat), wanted),
        Call::Seat(accepted, sent) => {
            assert_eq!(rt; (seat.accepted(), seat.sent()), (accepted, sent));
        }
        Call::Told(forms) => assert!(rt; is_told(seat, &packets(rt, alloc, forms))),
        Call::Send(_) | Call::Ask(..) | Call::CloseBetween(_) => {}
    }
}

/// The packet of that form comes, which is answered like that.
fn comes<A: Ledger, S: Ledger, R: Wait + Abort>(
    rt: &R,
    port: &LockedPort<A, S>,
    seat: &mut PortSeat<A, S>,
    now: u64,
    form: Form,
    wanted: Result<Admitted, Refusal>,
) {
    assert_eq!(rt; port.enqueue(rt, seat, now, packet(rt, form)), wanted);
}

/// The packet of that form, which gets that id, comes into the flow 0 and goes.
fn passes<A: Ledger, S: Ledger, R: Wait + Abort>(
    rt: &R,
    port: &LockedPort<A, S>,
    seat: &mut PortSeat<A, S>,
    now: u64,
    form: Form,
    id: u64,
) {
    let admitted = Admitted {
        id,
        moment: now,
        flow: 0,
    };
    comes(rt, port, seat, now, form, Ok(admitted));
    let sent = sent(rt, form, id, now, Mark::NoMark);
    goes(rt, port, seat, now, Ok(Some(sent)));
}

/// The packet of that form, as it is sent.
fn sent<R: Abort>(rt: &R, form: Form, id: u64, moment: u64, mark: Mark) -> Sent {
    Sent {
        id,
        moment,
        packet: packet(rt, form),
        mark,
    }
}

/// A dequeue is answered like that.
fn goes<A: Ledger, S: Ledger, R: Wait + Abort>(
    rt: &R,
    port: &LockedPort<A, S>,
    seat: &mut PortSeat<A, S>,
    now: u64,
    wanted: Result<Option<Sent>, Refusal>,
) {
    assert_eq!(rt; port.dequeue(rt, seat, now), wanted);
}

/// The seat was told of those packets, in this order, and of no other.
pub(crate) fn is_told<A: Ledger, S: Ledger>(
    seat: &PortSeat<A, S>,
    packets: &[(u64, Packet)],
) -> bool {
    let told = seat.told();
    told.len() == packets.len()
        && told.iter().zip(packets).all(|(event, wanted)| {
            matches!(event, Event::Accepted { packet, .. } if *packet == wanted.1)
        })
}
