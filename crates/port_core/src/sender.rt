//! A sender: it calls a locked port for each of its packets.

ghost use Rattle.std.specs.Prelude.{◌≡◌, ◌≤◌, ◌<◌, ◌+◌, ℕ, length, map};
ghost use Rattle.port_core.specs.Senders.{SendsAt, SendsSome, StopsAs, calls_answered};
ghost use Rattle.port_core.specs.declared.gate.Stop.TheVariants as stop;

use crate::gate::{Gate, Stop, passes};
use crate::port::LockedPort;
use crate::seat::PortSeat;
use packet_core::Packet;
use sched_core::Refusal;
use std::sync::Wait;
use std::sync::ledger::Ledger;

/// What a sender did.
#[derive(Drop)]
pub struct LockedDone<A: Ledger, S: Ledger> {
    /// How many calls it made.
    pub calls: u64,
    /// Why it stopped.
    pub stop: Stop,
    /// Its seat.
    pub seat: PortSeat<A, S>,
}

/// Enqueues packets through a port, each at its moment, in order, and asks the gate before each call, at most
/// 1,000,000 times. It stops as `Stop::Done` after the last packet, as `Stop::Stalled` where the gate stays closed,
/// and as `Stop::Refused` where a call is refused; packets that come after the close are passed over.
pub fn send_locked<A: Ledger, S: Ledger, R: Wait, G: Gate>(
    rt: &R,
    port: &LockedPort<A, S>,
    seat: PortSeat<A, S>,
    packets: &[(u64, Packet)],
    gate: &G,
) -> LockedDone<A, S>
    ensures told { SendsSome seat (map (λ p. p.1) packets.now) result.calls result.seat }
    ensures calls { result.calls ≤ length packets.now }
    ensures done { result.stop ≡ stop.Done → result.calls ≡ length packets.now }
    ensures moments { SendsAt seat packets.now (calls_answered result.stop result.calls) result.seat }
    ensures stop { StopsAs packets.now result.calls result.stop }
    ensures gate { (call : ℕ) → 0 < call → call ≤ result.calls → G.LetThrough gate.now call }
    ensures stalled { result.stop ≡ stop.Stalled → G.HeldUp gate.now (result.calls + 1) }
{
    let mut seat = seat;
    let mut calls = 0u64;
    for (now, packet) in packets {
        if !passes(gate, calls + 1) {
            return LockedDone {
                calls,
                stop: Stop::Stalled,
                seat,
            };
        }
        calls += 1;
        match port.enqueue(rt, &mut seat, *now, *packet) {
            Ok(_) => {}
            Err(refusal) => match refusal {
                Refusal::ClosedAlready => {}
                _ => {
                    return LockedDone {
                        calls,
                        stop: Stop::Refused(refusal),
                        seat,
                    };
                }
            },
        }
    }
    LockedDone {
        calls,
        stop: Stop::Done,
        seat,
    }
}
