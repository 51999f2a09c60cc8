//! Renewals of a queue disc.

use crate::calls::Calls;
use crate::values::{SEED, Values};
use packet_core::{Ecn, Packet, Params};
use queue_disc_core::QueueDisc;
use std::alloc::Global;
use test_support::{by_port, tuple};

/// A queue disc is renewed after so many packets, at the next one that comes while none waits.
const PACKETS: u64 = 2;

/// A queue disc is renewed three times. Where memory for a renewal is refused, its packet is accepted all the same, and
/// the renewal comes with the next packet. That counts as refused. A renewal that asked for more than once for each part
/// of a scheduler would be refused in more runs than the sequence has.
pub(crate) fn renewed(values: &Values, calls: &mut Calls<'_>) {
    let Some(mut disc) = new_disc(values.alloc, calls) else {
        calls.wanted(false, "QueueDisc::open_with");
        return;
    };
    pass(&mut disc, 1, calls);
    for _renewal in 0..3 {
        pass(&mut disc, 2, calls);
        calls.wanted(!is_new(&disc), "a renewal that isn't due");
        pass(&mut disc, 1, calls);
        if !is_new(&disc) {
            calls.note();
            pass(&mut disc, 1, calls);
            calls.wanted(is_new(&disc), "a renewal at the next packet");
        }
    }
}

/// A queue disc of four flows. Where memory was refused, the same call with ample memory gives it.
fn new_disc(alloc: Global, calls: &mut Calls<'_>) -> Option<QueueDisc> {
    let params = Params::try_new(by_port(4)).ok()?;
    match QueueDisc::open_with(alloc, params, SEED, PACKETS) {
        Ok(disc) => Some(disc),
        Err(_) => {
            calls.note();
            QueueDisc::open_with(alloc, params, SEED, PACKETS).ok()
        }
    }
}

/// A packet to that port comes, and is sent.
fn pass(disc: &mut QueueDisc, port: u16, calls: &mut Calls<'_>) {
    let Ok(packet) = Packet::try_new(tuple(port), 1_000, Ecn::NotEct) else {
        calls.wanted(false, "Packet::try_new");
        return;
    };
    calls.wanted(disc.enqueue(0, packet).is_ok(), "QueueDisc::enqueue");
    calls.wanted(disc.dequeue(0).is_ok(), "QueueDisc::dequeue");
    calls.wanted(disc.queued() == 0, "QueueDisc::queued");
}

/// Whether the scheduler is as new for flow 2, in which a packet leaves other credits than none.
fn is_new(disc: &QueueDisc) -> bool {
    disc.params().flows() > 2 && disc.flow_view(2).credits == 0
}
