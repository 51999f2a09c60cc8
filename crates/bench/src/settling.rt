//! How long the settling of a locked port takes.

ghost use Rattle.std.specs.Prelude.{◌≡◌};

use crate::device::Refused;
use crate::times::{Times, no_times};
use crate::timing::{Fault, SEED, START, nanoseconds_since, now, packet_to};
use crate::workload::REPETITIONS;
use packet_core::{Ecn, Packet, ParamFields, Params};
use port_core::{LockedPort, PortSeat};
use std::marker::Brand;
use std::rt::Clock;
use std::sync::Wait;
use std::sync::ledger::{Blank, Ledger};
use std::time::Instant;

/// How many packets a port accepted before it is settled.
pub const SETTLED: u32 = 1_000_000;

/// How many seats it has.
const SEATS: u32 = 64;

/// In which times a port was settled.
pub fn times_settling<R: AllocGlobal + Clock + Wait>(rt: &R) -> Result<Times, Fault> {
    let mut times = no_times(rt.alloc(), REPETITIONS)?;
    for _ in 0..REPETITIONS {
        times.push(settling::<Brand, Brand, _>(rt, Blank::new(64), Blank::new(64))?)?;
    }
    Times::of(times).ok_or(Fault::OutOfRange)
}

/// The time in which a port with these ledgers was settled, in nanoseconds. What its seats did before isn't counted.
fn settling<A: Ledger, S: Ledger, R: AllocGlobal + Clock + Wait>(
    rt: &R,
    accepted: Blank,
    sent: Blank,
) -> Result<u128, Fault>
    requires accepted { (accepted.name ≡ A.name) × (accepted.parts ≡ A.parts) × (A.parts ≡ 64) }
    requires sent { (sent.name ≡ S.name) × (sent.parts ≡ S.parts) × (S.parts ≡ 64) }
{
    let params = Params::try_new(ParamFields::standard())?;
    let (port, seats) = LockedPort::<A, S>::start(rt.alloc(), params, SEED, SEATS, accepted, sent)?;
    settled_in(rt, port, seats)
}

/// The time in which a port with these seats was settled. It owns both, and so has one way out.
fn settled_in<A: Ledger, S: Ledger, R: Clock + Wait>(
    rt: &R,
    port: LockedPort<A, S>,
    mut seats: Vec<PortSeat<A, S>>,
) -> Result<u128, Fault> {
    let begun = begun_after_use(rt, &port, &mut seats);
    let settled = port.settle(seats);
    nanoseconds_since(rt, begun, settled.is_ok())
}

/// The moment at which the seats have been used.
fn begun_after_use<A: Ledger, S: Ledger, R: Clock + Wait>(
    rt: &R,
    port: &LockedPort<A, S>,
    seats: &mut Vec<PortSeat<A, S>>,
) -> Result<Instant, Fault> {
    use_in_turn(rt, port, seats)?;
    now(rt)
}

/// The seats send the packets in turn, and each takes one after its own.
fn use_in_turn<A: Ledger, S: Ledger, R: Wait>(
    rt: &R,
    port: &LockedPort<A, S>,
    seats: &mut Vec<PortSeat<A, S>>,
) -> Result<(), Fault> {
    let packet = packet_to(0, Ecn::NotEct)?;
    for _ in 0..SETTLED / SEATS {
        for place in 0..seats.len() {
            send_and_take(rt, port, &mut seats[place], packet)?;
        }
    }
    Ok(())
}

/// The seat sends a packet, and takes one.
fn send_and_take<A: Ledger, S: Ledger, R: Wait>(
    rt: &R,
    port: &LockedPort<A, S>,
    seat: &mut PortSeat<A, S>,
    packet: Packet,
) -> Result<(), Refused> {
    if port.enqueue(rt, seat, START / 1_000, packet).is_err() {
        return Err(Refused);
    }
    if port.dequeue(rt, seat, START / 1_000).is_err() {
        return Err(Refused);
    }
    Ok(())
}
