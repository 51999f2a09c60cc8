//! A plain queue over a recorder whose room is fixed.

ghost use Rattle.std.specs.Prelude.{◌≡◌, []};

use crate::runs::{arrival, plain};
use codel_core::Served;
use link_core::{Arrival, Link, run_fifo_with_recorder};
use packet_core::{Params, Waiting};
use sched_core::{Cause, Event, GhostList, Memory, Recorder};
use std::alloc::AllocError;
use std::process::Abort;
use test_support::{SEED, by_port};

/// So many packets come.
const PACKETS: usize = 100;

/// A recorder that has room for so many events more, and never for others.
#[derive(Debug, Drop)]
struct Fixed {
    left: usize,
    told: GhostList<Event>,
    sent: GhostList<Waiting>,
    lost: GhostList<Waiting>,
}

impl Fixed {
    /// One with that room.
    fn with_room(left: usize) -> Fixed
        ensures told { result.told.items ≡ [] }
        ensures sent { result.sent.items ≡ [] }
        ensures lost { result.lost.items ≡ [] }
    {
        Fixed {
            left,
            told: GhostList::new(),
            sent: GhostList::new(),
            lost: GhostList::new(),
        }
    }
}

impl Recorder for Fixed {
    ghost told = { λ fixed. fixed.told.items };

    ghost sent = { λ fixed. fixed.sent.items };

    ghost lost = { λ fixed. fixed.lost.items };

    ghost room = { λ fixed. fixed.left };

    fn accept(&mut self, packet: &Waiting, lane: u32, flow: u32) {
        self.left -= 1;
        self.told = self.told.and(&Event::acceptance(packet, lane, flow));
    }

    fn send(&mut self, served: &Served, moment: u64) {
        self.left -= 1;
        self.told = self.told.and(&Event::departure(served, moment));
        self.sent = self.sent.and(&served.waiting);
    }

    fn lose(&mut self, packet: &Waiting, moment: u64, cause: Cause) {
        self.left -= 1;
        self.told = self.told.and(&Event::loss(packet, moment, cause));
        self.lost = self.lost.and(packet);
    }

    fn close(&mut self, moment: u64) {
        self.left -= 1;
        self.told = self.told.and(&Event::Closed { moment });
    }

    fn reserve(&mut self, more: usize) -> Result<(), Memory> {
        if more > self.left {
            return Err(AllocError);
        }
        Ok(())
    }
}

/// Packets come to a plain queue, each after the one before it was sent, over a recorder with that room. It answers how
/// much is left, if it was enough.
fn left_of(rt: &(impl Abort + AllocGlobal), room: usize) -> Option<usize> {
    let link = Link::try_new(plain(1_000_000)).ok().expect(rt, "a link");
    let params = Params::try_new(by_port(4)).ok().expect(rt, "parameters");
    let mut arrivals = Vec::new(rt.alloc());
    for number in 0..PACKETS {
        let next = arrival(rt, 10_000 * number as u64, 1, 1_000);
        arrivals.push(next).ok().expect(rt, "memory");
    }
    assert!(rt; Arrival::may_come(&arrivals));
    let fixed = Fixed::with_room(room);
    let ran = run_fifo_with_recorder(rt.alloc(), params, SEED, &link, &arrivals, fixed);
    ran.ok().map(|recorder| recorder.left)
}

/// A packet has two events, and no more room than for these is asked for.
#[test]
fn room_for_just_the_events(rt: HostRuntime) {
    assert_eq!(rt; left_of(&rt, 2 * PACKETS), Some(0));
    assert_eq!(rt; left_of(&rt, 2 * PACKETS - 1), None);
}
