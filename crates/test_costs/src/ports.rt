//! A locked port that is to be settled while a seat is missing.

ghost use Rattle.std.specs.Prelude.{◌≡◌};

use crate::Fault;
use packet_core::{Params, Seed};
use port_core::{LockedPort, PortSeat, Why};
use sched_core::Step;
use std::alloc::Global;
use std::marker::Brand;
use std::sync::Wait;
use std::sync::ledger::{Blank, Ledger};

/// So often the port is asked.
const TIMES: usize = 1_000;

/// How often a port isn't settled that has packets of one seat, while the other seat is missing.
pub(crate) fn unsettled<R: Wait>(
    rt: &R,
    alloc: Global,
    seed: Seed,
    steps: &[Step],
) -> Result<usize, Fault> {
    let (accepted, sent) = (Blank::new(2), Blank::new(2));
    asked::<Brand, Brand, _>(rt, alloc, seed, steps, accepted, sent)
}

/// The same of a port with these ledgers.
fn asked<A: Ledger, S: Ledger, R: Wait>(
    rt: &R,
    alloc: Global,
    seed: Seed,
    steps: &[Step],
    accepted: Blank,
    sent: Blank,
) -> Result<usize, Fault>
    requires accepted { (accepted.name ≡ A.name) × (accepted.parts ≡ A.parts) × (A.parts ≡ 2) }
    requires sent { (sent.name ≡ S.name) × (sent.parts ≡ S.parts) × (S.parts ≡ 2) }
{
    let params = Params::standard();
    let (mut port, mut seats) = LockedPort::<A, S>::start(alloc, params, seed, 2, accepted, sent)?;
    let _missing = seats.pop();
    if let Some(seat) = seats.first_mut() {
        send_all(rt, &port, seat, steps)?;
    }
    for _ in 0..TIMES {
        match port.settle(seats) {
            Ok(_) => return Err(Fault::Settled(None)),
            Err(left) => {
                if left.why != Why::NotAll {
                    return Err(Fault::Settled(Some(left.why)));
                }
                port = left.port;
                seats = left.seats;
            }
        }
    }
    Ok(TIMES)
}

/// The packets of the steps come from that seat.
fn send_all<A: Ledger, S: Ledger, R: Wait>(
    rt: &R,
    port: &LockedPort<A, S>,
    seat: &mut PortSeat<A, S>,
    steps: &[Step],
) -> Result<(), Fault> {
    for step in steps {
        if let Step::Enqueue { moment, packet, .. } = *step {
            port.enqueue(rt, seat, moment, packet)?;
        }
    }
    Ok(())
}
