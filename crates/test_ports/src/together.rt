//! Locked ports by several threads: senders run at once, and nothing of what they were told is lost.

ghost use denote.Param.Send.{IsSend, IsSync};

use crate::calls::is_told;
use crate::fixtures::{Form, counted, flows, packet};
use crate::seats::{Part, plays};
use packet_core::Packet;
use port_core::{Gate, LockedDone, LockedPort, Open, PortSeat, Stop, send_locked};
use std::alloc::{AllocError, Global};
use std::process::Abort;
use std::sync::Wait;
use std::sync::atomic::{AtomicU64, Ordering};
use std::sync::ledger::Ledger;
use std::thread::{self, Threads};

/// A sender's gate: from one call on it waits for the other sender's first answer.
#[derive(Drop)]
struct Side<'a> {
    from: u64,
    mine: &'a AtomicU64,
    other: &'a AtomicU64,
}

impl<'a> Gate for Side<'a> {
    fn pass(&self, call: u64) -> bool {
        self.mine.store(call.saturating_sub(1), Ordering::SeqCst);
        call < self.from || self.other.load(Ordering::SeqCst) >= 1
    }
}

/// What one sender is given.
#[derive(Drop)]
struct Job<'a, A: Ledger, S: Ledger> {
    seat: PortSeat<A, S>,
    packets: &'a [(u64, Packet)],
    gate: Side<'a>,
}

/// Sender 0's first call waits for sender 1's first answer, and sender 1's second call for sender 0's first.
fn jobs<'a, A: Ledger, S: Ledger>(
    seats: (PortSeat<A, S>, PortSeat<A, S>),
    packets: &'a [(u64, Packet)],
    answered: &'a (AtomicU64, AtomicU64),
) -> (Job<'a, A, S>, Job<'a, A, S>) {
    let first = Side {
        from: 1,
        mine: &answered.0,
        other: &answered.1,
    };
    let second = Side {
        from: 2,
        mine: &answered.1,
        other: &answered.0,
    };
    let (zero, one) = seats;
    (
        Job {
            seat: zero,
            packets,
            gate: first,
        },
        Job {
            seat: one,
            packets,
            gate: second,
        },
    )
}

fn send<A: Ledger, S: Ledger, R: Wait>(
    rt: &R,
    port: &LockedPort<A, S>,
    job: Job<'_, A, S>,
) -> LockedDone<A, S> {
    let Job {
        seat,
        packets,
        gate,
    } = job;
    send_locked(rt, port, seat, packets, &gate)
}

/// The sender made so many calls, stopped so, and was told of all its packets.
fn seat_of<A: Ledger, S: Ledger, R: Abort>(
    rt: &R,
    done: LockedDone<A, S>,
    wanted: (u64, Stop),
) -> PortSeat<A, S> {
    assert_eq!(rt; (done.calls, done.stop), wanted);
    assert_eq!(rt; done.seat.accepted(), wanted.0);
    done.seat
}

/// Two senders that wait for one another's answers both come to their end.
#[test]
fn gate_locked(rt: HostRuntime) {
    at_gates(&rt, rt.alloc(), true, [(2, Stop::Done), (2, Stop::Done)]);
}

/// The same senders one after the other: each would wait for the other's answer, and stops as stalled.
#[test]
fn senders_in_turn_stall(rt: HostRuntime) {
    at_gates(
        &rt,
        rt.alloc(),
        false,
        [(0, Stop::Stalled), (1, Stop::Stalled)],
    );
}

/// The two senders, at once or in turn, make so many calls each and stop so.
fn at_gates<R: Threads + Wait + Abort + Sync>(
    rt: &R,
    alloc: Global,
    at_once: bool,
    wanted: [(u64, Stop); 2],
) {
    let engine = plays(
        rt,
        alloc,
        flows(rt, 1),
        2,
        Part::Gates(at_once, wanted),
        &[],
    );
    let calls = (wanted[0].0.min(9) + wanted[1].0.min(9), 0);
    assert_eq!(rt; counted(&engine.totals()), calls);
}

/// The two senders make so many calls each and stop so. Gives their seats.
pub(crate) fn both_send<
    A: Ledger + Send + Sync,
    S: Ledger + Send + Sync,
    R: Threads + Wait + Abort + Sync,
>(
    rt: &R,
    port: &LockedPort<A, S>,
    seats: Vec<PortSeat<A, S>>,
    at_once: bool,
    wanted: [(u64, Stop); 2],
) -> Vec<PortSeat<A, S>> {
    let mut seats = seats;
    let one = seats.pop().expect(rt, "seat 1");
    let zero = seats.pop().expect(rt, "seat 0");
    let (zero, one) = both(rt, port, (zero, one), at_once);
    seats
        .push(seat_of(rt, zero, wanted[0]))
        .expect(rt, "memory");
    seats.push(seat_of(rt, one, wanted[1])).expect(rt, "memory");
    seats
}

/// Each of the two senders has a thread of its own, or one comes after the other.
fn both<A: Ledger + Send + Sync, S: Ledger + Send + Sync, R: Threads + Wait + Abort + Sync>(
    rt: &R,
    port: &LockedPort<A, S>,
    seats: (PortSeat<A, S>, PortSeat<A, S>),
    at_once: bool,
) -> (LockedDone<A, S>, LockedDone<A, S>) {
    let packets = [
        (0, packet(rt, Form::Ip4(53, 100))),
        (1, packet(rt, Form::Ip4(54, 100))),
    ];
    let answered = (AtomicU64::new(0), AtomicU64::new(0));
    let (zero, one) = jobs(seats, &packets, &answered);
    if at_once {
        thread::join(
            rt,
            move || send(rt, port, zero),
            move || send(rt, port, one),
        )
    } else {
        (send(rt, port, zero), send(rt, port, one))
    }
}

/// Eight senders with a thousand packets each and a device that takes packets and reads the statistics meanwhile, each
/// in a thread, ten times: whatever the schedule, each sender is told of its packets in their order, and the engine has
/// all of them.
#[test]
fn eight_senders_lose_nothing(rt: HostRuntime) {
    for _time in 0..10 {
        let engine = plays(&rt, rt.alloc(), flows(&rt, 1), 9, Part::Beside, &[]);
        assert_eq!(rt; engine.totals().accepted, 8_000);
    }
}

/// All seats but the last send a thousand packets each, and the last one is the device's. Gives all seats.
pub(crate) fn all_send<
    A: Ledger + Send + Sync,
    S: Ledger + Send + Sync,
    R: Threads + Wait + Abort + Sync,
>(
    rt: &R,
    alloc: Global,
    port: &LockedPort<A, S>,
    seats: Vec<PortSeat<A, S>>,
) -> Vec<PortSeat<A, S>> {
    let mut seats = seats;
    let device = seats.pop().expect(rt, "the device's seat");
    let packets = thousand(rt, alloc);
    let (done, device) = senders_and_device(rt, port, seats, &packets, device);
    seats_told(rt, alloc, done.expect(rt, "memory"), &packets, device)
}

/// A thousand packets, each to a port of its own.
fn thousand<R: Abort>(rt: &R, alloc: Global) -> Vec<(u64, Packet)> {
    let mut packets = Vec::new(alloc);
    for dport in 0..1_000u16 {
        packets
            .push((u64::from(dport), packet(rt, Form::Ip4(dport, 100))))
            .expect(rt, "memory");
    }
    packets
}

/// The device dequeues while the senders send.
fn senders_and_device<
    A: Ledger + Send + Sync,
    S: Ledger + Send + Sync,
    R: Threads + Wait + Abort + Sync,
>(
    rt: &R,
    port: &LockedPort<A, S>,
    seats: Vec<PortSeat<A, S>>,
    packets: &[(u64, Packet)],
    device: PortSeat<A, S>,
) -> (Result<Vec<LockedDone<A, S>>, AllocError>, PortSeat<A, S>) {
    let senders = move || -> Result<Vec<LockedDone<A, S>>, AllocError>
        requires { IsSync R.row × IsSend A.row × IsSend S.row × IsSync A.row × IsSync S.row }
    { send_all(rt, port, seats, packets) };
    thread::join(rt, senders, move || take_some(rt, port, device))
}

/// Each seat's sender has a thread of its own.
fn send_all<A: Ledger + Send + Sync, S: Ledger + Send + Sync, R: Threads + Wait + Sync>(
    rt: &R,
    port: &LockedPort<A, S>,
    seats: Vec<PortSeat<A, S>>,
    packets: &[(u64, Packet)],
) -> Result<Vec<LockedDone<A, S>>, AllocError> {
    let send = move |seat: PortSeat<A, S>| send_locked(rt, port, seat, packets, &Open);
    thread::map_vec(rt, seats, &send)
}

fn take_some<A: Ledger, S: Ledger, R: Wait + Abort>(
    rt: &R,
    port: &LockedPort<A, S>,
    seat: PortSeat<A, S>,
) -> PortSeat<A, S> {
    let mut seat = seat;
    for now in 0..1_000 {
        assert!(rt; port.dequeue(rt, &mut seat, now).is_ok());
        balances(rt, port, &mut seat);
        thread::yield_now();
    }
    seat
}

/// The statistics are those of one point: what was accepted was sent, dropped or waits.
fn balances<A: Ledger, S: Ledger, R: Wait + Abort>(
    rt: &R,
    port: &LockedPort<A, S>,
    seat: &mut PortSeat<A, S>,
) {
    let totals = port.totals(rt, seat);
    let left = totals.sent + totals.dropped_codel + totals.dropped_overflow + totals.queued;
    assert_eq!(rt; totals.accepted, left);
    assert!(rt; totals.sent >= seat.sent());
}

/// All seats, where each sender was told of its packets in their order.
fn seats_told<A: Ledger, S: Ledger, R: Abort>(
    rt: &R,
    alloc: Global,
    done: Vec<LockedDone<A, S>>,
    packets: &[(u64, Packet)],
    device: PortSeat<A, S>,
) -> Vec<PortSeat<A, S>> {
    let mut seats = Vec::new(alloc);
    for one in done {
        assert_eq!(rt; one.stop, Stop::Done);
        assert!(rt; is_told(&one.seat, packets));
        seats.push(one.seat).expect(rt, "memory");
    }
    seats.push(device).expect(rt, "memory");
    seats
}
