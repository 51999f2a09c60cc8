//! Runs by senders, and their lists of packets: how often each asks for memory.
//!
//! The lists of a run have memory for all of it where so many packets are known to come, and else none ahead. No answer
//! shows it: where memory is refused ahead, a list grows as it is filled. So each sequence allocates once after its
//! calls, and notes that allocation alone: it is the refused one where these calls make as many as come before it.

use crate::calls::Calls;
use crate::quiet::allocate;
use crate::values::{SEED, Values};
use packet_core::{Classify, Packet, Params};
use run_core::{SendersFault, run_locked};
use sched_core::Step;
use sender_core::lists_of;
use std::marker::Sync;
use std::sync::Wait;
use std::thread::Threads;
use test_support::by_port;

/// More packets than a list has room for after its first growth.
const PACKETS: usize = 6;

/// More dequeues than twice the packets that are taken ahead.
const DEQUEUES: usize = 200;

/// For so many packets of one flow a table of flows is made.
const FOR_A_TABLE: usize = 16;

/// The first moment that is too large.
const TOO_LARGE: u64 = 1 << 60;

/// The packets of one flow by the hash, each in the sender's list: too few of them for a table of flows, beside other
/// steps, and then just enough.
pub(crate) fn lists(values: &Values, calls: &mut Calls<'_>) {
    let many = [enqueue(values.packet); FOR_A_TABLE];
    let mut few = [enqueue(values.packet); FOR_A_TABLE + 1];
    few[0] = Step::Dequeue { moment: 0 };
    few[FOR_A_TABLE] = Step::Close { moment: 0 };
    match by_hash() {
        Some(params) => {
            has_list(values, &params, &few, FOR_A_TABLE - 1, calls);
            has_list(values, &params, &many, FOR_A_TABLE, calls);
        }
        None => calls.wanted(false, "Params::try_new"),
    }
    allocate(values.alloc, calls);
}

/// One flow, by the hash.
fn by_hash() -> Option<Params> {
    let mut fields = by_port(1);
    fields.classify = Classify::Hash;
    Params::try_new(fields).ok()
}

/// The one sender's list of those steps has so many packets, where memory isn't refused.
fn has_list(
    values: &Values,
    params: &Params,
    steps: &[Step],
    packets: usize,
    calls: &mut Calls<'_>,
) {
    if let Ok(lists) = lists_of(values.alloc, params, &SEED, 1, steps) {
        let is_right = match lists.get(0) {
            Some(list) => list.len() == packets,
            None => false,
        };
        calls.wanted(is_right, "lists_of");
    }
}

/// Steps with a close, of which no packet is expected. The close is refused for its moment, so that each packet is
/// accepted whatever the schedule of the threads. The run reports that refusal as one of memory.
pub(crate) fn closed<H: Threads + Wait + Sync>(rt: &H, values: &Values, calls: &mut Calls<'_>) {
    let mut steps = [enqueue(values.packet); PACKETS + 1];
    steps[PACKETS] = Step::Close { moment: TOO_LARGE };
    let fault = fault_of(rt, values, &steps);
    calls.wanted(fault == Some(SendersFault::Memory), "run_locked");
    allocate(values.alloc, calls);
}

/// Steps with one packet, and with more dequeues than the lists have room for beside the packets.
pub(crate) fn dequeues<H: Threads + Wait + Sync>(rt: &H, values: &Values, calls: &mut Calls<'_>) {
    let mut steps = [Step::Dequeue { moment: 0 }; DEQUEUES + 1];
    steps[DEQUEUES] = enqueue(values.packet);
    let fault = fault_of(rt, values, &steps);
    let is_right = fault.is_none() || fault == Some(SendersFault::Memory);
    calls.wanted(is_right, "run_locked");
    allocate(values.alloc, calls);
}

/// An enqueue of the packet at 0.
fn enqueue(packet: Packet) -> Step {
    Step::Enqueue {
        moment: 0,
        lane: 0,
        packet,
    }
}

/// Why the run of those steps by one sender and this thread failed, if it did.
fn fault_of<H: Threads + Wait + Sync>(
    rt: &H,
    values: &Values,
    steps: &[Step],
) -> Option<SendersFault> {
    run_locked(rt, values.alloc, values.params, SEED, 1, steps).err()
}
