//! Senders in threads of their own.
ghost use Rattle.std.specs.Prelude.{◌≡◌, ◌+◌, ◌<◌, ◌≤◌, length};

use crate::gates::has_asked;
use crate::packets::packet;
use packet_core::{Packet, Seed, read_params};
use port_core::{Gate, LockedDone, LockedPort, PortSeat, Stop};
use program_core::start_locked;
use std::alloc::Global;
use std::marker::Brand;
use std::process::Abort;
use std::sync::Wait;
use std::sync::atomic::{AtomicU64, Ordering};
use std::sync::ledger::{Blank, Ledger};
use std::thread::Threads;

/// Holds a sender's calls, from the first that it is to hold on, until one of the other sender's was answered. It
/// counts how often it let a call through.
#[derive(Drop)]
struct Side<'a> {
    first_held: u64,
    answered: &'a AtomicU64,
    answered_there: &'a AtomicU64,
    passed: AtomicU64,
}

impl Gate for Side<'_> {
    fn pass(&self, call: u64) -> bool {
        self.answered
            .store(call.saturating_sub(1), Ordering::SeqCst);
        let passes = call < self.first_held || self.answered_there.load(Ordering::SeqCst) >= 1;
        if passes {
            self.passed.fetch_add(1, Ordering::SeqCst);
        }
        passes
    }
}

/// Sender 0's first call waits for the answer of sender 1's first, and sender 1's second for that of sender 0's first.
/// So neither list can be sent after the other: on one thread a gate would stay closed. The device waits for the answer
/// of sender 0's first call, so its part isn't made before them.
#[test]
fn gate_locked(rt: HostRuntime) {
    at_gates::<Brand, Brand, _>(&rt, rt.alloc(), 2, Blank::new(3), Blank::new(3));
}

/// The same while 61 other senders send as they like, and one more stalls before its second call: what all senders did
/// is given back all the same, and the port stays open.
#[test]
fn gate_locked_of_64_senders(rt: HostRuntime) {
    at_gates::<Brand, Brand, _>(&rt, rt.alloc(), 64, Blank::new(65), Blank::new(65));
}

/// So many senders and the device, of which the first two wait for one another.
fn at_gates<A: Ledger + Send + Sync, S: Ledger + Send + Sync, R: Threads + Wait + Abort + Sync>(
    rt: &R,
    alloc: Global,
    senders: u32,
    accepted: Blank,
    sent: Blank,
)
    requires few { (0 < senders) × (senders ≤ 64) }
    requires accepted { (accepted.name ≡ A.name) × (accepted.parts ≡ A.parts) × (A.parts ≡ senders + 1) }
    requires sent { (sent.name ≡ S.name) × (sent.parts ≡ S.parts) × (S.parts ≡ senders + 1) }
{
    let params = read_params(&["classify", "dport", "flows", "4"]).expect(rt, "parameters");
    let seed = Seed([0; 16]);
    let (port, mut seats) = LockedPort::<A, S>::start(
        alloc,
        params,
        seed,
        senders + 1,
        accepted,
        sent,
    ).expect(rt, "a port");
    let device = seats.pop().expect(rt, "the device's seat");
    let seats = send_by_gates(rt, alloc, &port, seats, device);
    let engine = port.settle(seats).ok().expect(rt, "an engine");
    assert!(rt; !engine.is_closed());
    let stalled = if senders > 2 { 1 } else { 0 };
    assert_eq!(rt; engine.totals().accepted, 2 * u64::from(senders) - stalled);
}

/// Two packets for each of so many senders.
fn lists<R: Abort>(rt: &R, alloc: Global, senders: usize) -> Vec<Vec<(u64, Packet)>> {
    let mut lists = Vec::new(alloc);
    for _ in 0..senders {
        let two = vec![in alloc; (0u64, packet(rt, 1)), (1, packet(rt, 2))].expect(rt, "memory");
        lists.push(two).expect(rt, "memory");
    }
    lists
}

/// The gates of so many senders: the first two hold one another, the last of more holds its sender's second call, and the
/// others are open.
fn sides<'a, R: Abort>(
    rt: &R,
    alloc: Global,
    senders: usize,
    zero: &'a AtomicU64,
    one: &'a AtomicU64,
    others: &'a AtomicU64,
    never: &'a AtomicU64,
) -> Vec<Side<'a>> {
    let mut sides = Vec::new(alloc);
    for sender in 0..senders {
        let (first_held, answered, answered_there) = match sender {
            0 => (1, zero, one),
            1 => (2, one, zero),
            _ if sender == senders - 1 => (2, others, never),
            _ => (u64::MAX, others, others),
        };
        let side = Side {
            first_held,
            answered,
            answered_there,
            passed: AtomicU64::new(0),
        };
        sides.push(side).expect(rt, "memory");
    }
    sides
}

/// Senders, two of which wait for one another's answers, while the device waits for one of these answers too, and then
/// asks for a packet. Gives their seats and its own.
fn send_by_gates<
    A: Ledger + Send + Sync,
    S: Ledger + Send + Sync,
    R: Threads + Wait + Abort + Sync,
>(
    rt: &R,
    alloc: Global,
    port: &LockedPort<A, S>,
    seats: Vec<PortSeat<A, S>>,
    device: PortSeat<A, S>,
) -> Vec<PortSeat<A, S>> {
    let lists = lists(rt, alloc, seats.len());
    let (zero, one, others) = (AtomicU64::new(0), AtomicU64::new(0), AtomicU64::new(0));
    let never = AtomicU64::new(0);
    let gates = sides(rt, alloc, seats.len(), &zero, &one, &others, &never);
    assert!(rt; lists.len() == seats.len() && gates.len() == seats.len());
    let (done, device) = send_held(rt, alloc, port, seats, device, &lists, &gates, &zero);
    passed_once(rt, &done, &gates);
    seats_of(rt, alloc, done, device)
}

/// Starts the senders with these gates, and gives what they did and the device's seat.
fn send_held<A: Ledger + Send + Sync, S: Ledger + Send + Sync, R: Threads + Wait + Abort + Sync>(
    rt: &R,
    alloc: Global,
    port: &LockedPort<A, S>,
    seats: Vec<PortSeat<A, S>>,
    device: PortSeat<A, S>,
    lists: &[Vec<(u64, Packet)>],
    gates: &[Side<'_>],
    answered: &AtomicU64,
) -> (Vec<LockedDone<A, S>>, PortSeat<A, S>)
    requires { (length lists.now ≡ length seats.items) × (length gates.now ≡ length seats.items) }
{
    let part = move || waits(rt, port, device, answered);
    let (done, (device, saw)) = start_locked(rt, alloc, port, seats, lists, gates, part).expect(
        rt, "memory",
    );
    assert!(rt; saw);
    (done, device)
}

/// The device's part: once a sender has an answer, it asks for a packet. It says whether there was an answer.
fn waits<A: Ledger, S: Ledger, R: Wait>(
    rt: &R,
    port: &LockedPort<A, S>,
    device: PortSeat<A, S>,
    answered: &AtomicU64,
) -> (PortSeat<A, S>, bool) {
    let mut device = device;
    let saw = has_asked(answered, 1);
    let _ = port.dequeue(rt, &mut device, 0);
    (device, saw)
}

/// Each gate let a call through once for each call that its sender made.
fn passed_once<A: Ledger, S: Ledger, R: Abort>(
    rt: &R,
    done: &[LockedDone<A, S>],
    gates: &[Side<'_>],
) {
    assert_eq!(rt; gates.len(), done.len());
    for (sender, gate) in done.iter().zip(gates) {
        assert_eq!(rt; gate.passed.load(Ordering::SeqCst), sender.calls);
    }
}

/// The seats of senders that made both their calls, and the device's after them. Of more than two senders the last one
/// stalled after its first call.
fn seats_of<A: Ledger, S: Ledger, R: Abort>(
    rt: &R,
    alloc: Global,
    done: Vec<LockedDone<A, S>>,
    device: PortSeat<A, S>,
) -> Vec<PortSeat<A, S>> {
    let last = done.len().saturating_sub(1);
    let mut seats = Vec::new(alloc);
    for sender in done {
        let stalls = last > 1 && seats.len() == last;
        let (calls, stop) = if stalls {
            (1, Stop::Stalled)
        } else {
            (2, Stop::Done)
        };
        assert_eq!(rt; (sender.calls, sender.stop), (calls, stop));
        assert_eq!(rt; sender.seat.accepted(), calls);
        seats.push(sender.seat).expect(rt, "memory");
    }
    seats.push(device).expect(rt, "memory");
    seats
}
