//! How many packets go through a locked port that several threads use at once.

ghost use Rattle.std.specs.Prelude.{◌≡◌, ◌≤◌, ◌<◌, ◌+◌};
ghost use denote.Param.Send.{IsSend, IsSync};

use crate::times::{Times, no_times};
use crate::timing::{Fault, SEED, START, nanoseconds_since, now, packet_to};
use crate::workload::{REPETITIONS, ROUNDS};
use packet_core::{Ecn, Packet, ParamFields, Params};
use port_core::{LockedDone, LockedPort, Open, PortSeat, send_locked};
use std::alloc::{AllocError, Global};
use std::marker::Brand;
use std::rt::Clock;
use std::sync::Wait;
use std::sync::ledger::{Blank, Ledger};
use std::thread::{self, Threads};

/// The most packets that wait: all.
const LIMIT: u32 = 1_048_576;

/// The device asks so often for a packet at most, so that it ends where no thread can be made for a sender.
const MAX_ASKINGS: u32 = 10_000_000;

/// What so many senders and a device took for all packets of a repetition.
pub fn times_sending<R: AllocGlobal + Clock + Threads + Wait + Sync>(
    rt: &R,
    senders: u32,
) -> Result<Times, Fault>
    requires { (0 < senders) × (senders ≤ 4) }
{
    let parts = u64::from(senders) + 1;
    let mut times = no_times(rt.alloc(), REPETITIONS)?;
    for _ in 0..REPETITIONS {
        times.push(sending::<Brand, Brand, _>(rt, senders, Blank::new(parts), Blank::new(parts))?)?;
    }
    Times::of(times).ok_or(Fault::OutOfRange)
}

/// The time that they took once, through a port with these ledgers, in nanoseconds.
fn sending<
    A: Ledger + Send + Sync,
    S: Ledger + Send + Sync,
    R: AllocGlobal + Clock + Threads + Wait + Sync,
>(rt: &R, senders: u32, accepted: Blank, sent: Blank) -> Result<u128, Fault>
    requires number { (0 < senders) × (senders ≤ 4) }
    requires accepted { (accepted.name ≡ A.name) × (accepted.parts ≡ A.parts) × (A.parts ≡ senders + 1) }
    requires sent { (sent.name ≡ S.name) × (sent.parts ≡ S.parts) × (S.parts ≡ senders + 1) }
{
    let params = Params::try_new(ParamFields {
        limit: LIMIT,
        ..ParamFields::standard()
    })?;
    let packets = packets_of(rt.alloc(), ROUNDS / senders)?;
    let (port, seats) = LockedPort::<A, S>::start(
        rt.alloc(),
        params,
        SEED,
        senders + 1,
        accepted,
        sent,
    )?;
    timed(rt, &port, seats, &packets)
}

/// The time in which the senders' packets go through a port, in nanoseconds. The last seat is the device's.
fn timed<A: Ledger + Send + Sync, S: Ledger + Send + Sync, R: Clock + Threads + Wait + Sync>(
    rt: &R,
    port: &LockedPort<A, S>,
    seats: Vec<PortSeat<A, S>>,
    packets: &[(u64, Packet)],
) -> Result<u128, Fault> {
    let mut seats = seats;
    match seats.pop() {
        Some(device) => timed_with(rt, port, seats, packets, device),
        None => Err(Fault::Refused),
    }
}

/// The same with the device's seat apart. It owns all seats, and so has one way out.
fn timed_with<A: Ledger + Send + Sync, S: Ledger + Send + Sync, R: Clock + Threads + Wait + Sync>(
    rt: &R,
    port: &LockedPort<A, S>,
    seats: Vec<PortSeat<A, S>>,
    packets: &[(u64, Packet)],
    device: PortSeat<A, S>,
) -> Result<u128, Fault> {
    let begun = now(rt);
    let (done, device) = at_once(rt, port, seats, packets, device);
    nanoseconds_since(
        rt,
        begun,
        done.is_ok() && device.sent() == u64::from(ROUNDS),
    )
}

/// So many packets to one flow, all at the start.
fn packets_of(alloc: Global, number: u32) -> Result<Vec<(u64, Packet)>, Fault> {
    let packet = packet_to(0, Ecn::NotEct)?;
    Ok(vec![in alloc; (START / 1_000, packet); number as usize]?)
}

/// The device takes packets while the senders send theirs.
fn at_once<A: Ledger + Send + Sync, S: Ledger + Send + Sync, R: Threads + Wait + Sync>(
    rt: &R,
    port: &LockedPort<A, S>,
    seats: Vec<PortSeat<A, S>>,
    packets: &[(u64, Packet)],
    device: PortSeat<A, S>,
) -> (Result<Vec<LockedDone<A, S>>, AllocError>, PortSeat<A, S>) {
    let senders = move || -> Result<Vec<LockedDone<A, S>>, AllocError>
        requires { IsSync R.row × IsSend A.row × IsSend S.row × IsSync A.row × IsSync S.row }
    { send_all(rt, port, seats, packets) };
    thread::join(rt, senders, move || take_all(rt, port, device))
}

/// Each seat's sender has a thread of its own.
fn send_all<A: Ledger + Send + Sync, S: Ledger + Send + Sync, R: Threads + Wait + Sync>(
    rt: &R,
    port: &LockedPort<A, S>,
    seats: Vec<PortSeat<A, S>>,
    packets: &[(u64, Packet)],
) -> Result<Vec<LockedDone<A, S>>, AllocError> {
    let send = move |seat: PortSeat<A, S>| send_locked(rt, port, seat, packets, &Open);
    thread::map_vec(rt, seats, &send)
}

/// The device takes packets until it has all, or is refused, or has asked too often.
fn take_all<A: Ledger, S: Ledger, R: Wait>(
    rt: &R,
    port: &LockedPort<A, S>,
    seat: PortSeat<A, S>,
) -> PortSeat<A, S> {
    let mut seat = seat;
    for _ in 0..MAX_ASKINGS {
        if seat.sent() == u64::from(ROUNDS) {
            break;
        }
        match port.dequeue(rt, &mut seat, START / 1_000) {
            Ok(Some(_)) => {}
            Ok(None) => thread::yield_now(),
            Err(_) => break,
        }
    }
    seat
}
