//! The queues of the flows and the fattest flow, against plain lists and a scan of all flows.

ghost use Rattle.std.specs.Prelude.{◌+◌, ◌^◌, ◌<◌, length};

use crate::queued::{next, push, waiting};
use flow_core::{Flows, MAX_FLOWS};
use packet_core::Ecn;
use std::process::Abort;

/// A call, and what it is answered.
#[derive(Clone, Copy)]
enum Call {
    /// A packet of so many bytes comes to that flow. The packets have the ids 0, 1 and so on.
    Push(u32, u32),
    /// That flow gives the packet with that id.
    Pop(u32, Option<u64>),
    /// The fattest flow, and the bytes of all flows.
    Fattest(Option<u32>, u64),
    /// So many levels are over the flows.
    Levels(u32),
    /// So many comparisons were made.
    Comparisons(u64),
    /// They are counted from 0 again.
    Clear,
}

/// The calls are made in turn with so many new flows.
fn plays(rt: &(impl Abort + AllocGlobal), count: u32, calls: &[Call]) {
    assert!(rt; 1 <= count && count <= MAX_FLOWS);
    let mut flows = Flows::try_new(rt.alloc(), count).expect(rt, "memory");
    makes(rt, &mut flows, calls);
}

fn makes(rt: &impl Abort, flows: &mut Flows, calls: &[Call]) {
    let mut id = 0u64;
    for (place, call) in calls.iter().enumerate() {
        if let Call::Push(flow, len) = *call {
            push(rt, flows, flow, waiting(rt, id, len, Ecn::NotEct));
            id = id.wrapping_add(1);
        } else {
            assert!(rt;
                is_answered(flows, call),
                "call {place} is answered otherwise"
            );
        }
    }
}

/// Whether a call that is no push is answered as it has to be.
fn is_answered(flows: &mut Flows, call: &Call) -> bool {
    match *call {
        Call::Pop(flow, id) => flow < flows.flows() && pop(flows, flow) == id,
        Call::Fattest(fattest, bytes) => {
            flows.fattest() == fattest && flows.total_bytes() == bytes
        }
        Call::Levels(levels) => flows.levels() == levels,
        Call::Comparisons(comparisons) => flows.comparisons() == comparisons,
        Call::Clear => {
            flows.clear_comparisons();
            true
        }
        Call::Push(..) => false,
    }
}

/// The id of the packet that a flow gives.
fn pop(flows: &mut Flows, flow: u32) -> Option<u64>
    requires { flow < length flows.old.lists.queues }
{
    Some(flows.pop(flow)?.id)
}

#[test]
fn least_number_at_a_tie(rt: HostRuntime) {
    plays(&rt, 4, &LEAST_NUMBER);
}

const LEAST_NUMBER: [Call; 14] = [
    Call::Push(3, 500),
    Call::Push(1, 200),
    Call::Push(1, 300),
    Call::Push(0, 499),
    Call::Fattest(Some(1), 1_499),
    Call::Pop(1, Some(1)),
    Call::Fattest(Some(3), 1_299),
    Call::Pop(3, Some(0)),
    Call::Fattest(Some(0), 799),
    Call::Pop(0, Some(3)),
    Call::Fattest(Some(1), 300),
    Call::Pop(1, Some(2)),
    Call::Fattest(None, 0),
    Call::Pop(0, None),
];

/// The flow with the most bytes, by a look at each of them.
fn scan(flows: &Flows) -> Option<u32> {
    let mut most = 0;
    let mut fattest = None;
    for flow in 0..flows.flows() {
        let bytes = flows.bytes(flow);
        if bytes > most {
            most = bytes;
            fattest = Some(flow);
        }
    }
    fattest
}

/// The bytes of all flows, by a look at each of them.
fn sum(flows: &Flows) -> u64 {
    let mut bytes = 0u64;
    for flow in 0..flows.flows() {
        bytes = bytes.wrapping_add(flows.bytes(flow));
    }
    bytes
}

#[test]
fn fattest_as_by_a_scan(rt: HostRuntime) {
    let mut flows = Flows::try_new(rt.alloc(), 7).expect(&rt, "memory");
    compare_with_scans(&rt, &mut flows);
}

/// Packets come to seven flows or leave them, and the fattest flow and all bytes are those of a scan after each.
fn compare_with_scans(rt: &impl Abort, flows: &mut Flows) {
    let mut seed = 1;
    for id in 0..2000 {
        let (after, random) = next(seed);
        seed = after;
        let flow = (random % 7) as u32;
        // Five come where four go. There are few lengths, so that flows are often equally fat.
        if random / 7 % 9 < 5 {
            let len = 500 * (random / 63 % 3) as u32 + 100;
            push(rt, flows, flow, waiting(rt, id, len, Ecn::NotEct));
        } else {
            assert!(rt; flow < flows.flows());
            let _ = flows.pop(flow);
        }
        assert_eq!(rt; flows.fattest(), scan(flows));
        assert_eq!(rt; flows.total_bytes(), sum(flows));
    }
}

/// A flow gets two packets, the second of which takes one comparison. A look at the fattest flow takes none.
#[test]
fn a_flow_that_wins_compares_once_as_it_grows(rt: HostRuntime) {
    for (count, flow) in [(2, 0), (2, 1), (1024, 700)] {
        let calls = [
            Call::Comparisons(0),
            Call::Push(flow, 100),
            Call::Clear,
            Call::Push(flow, 100),
            Call::Comparisons(1),
            Call::Fattest(Some(flow), 200),
            Call::Comparisons(1),
        ];
        plays(&rt, count, &calls);
    }
}

#[test]
fn pops_compare_where_there_is_a_packet(rt: HostRuntime) {
    plays(&rt, 4, &POPS);
}

/// Flow 2 falls below flow 1: both nodes above it get their winners anew.
const POPS: [Call; 9] = [
    Call::Push(1, 100),
    Call::Push(2, 1_500),
    Call::Clear,
    Call::Pop(3, None),
    Call::Comparisons(0),
    Call::Pop(2, Some(1)),
    Call::Comparisons(2),
    Call::Pop(2, None),
    Call::Comparisons(2),
];

#[test]
fn each_comparison_is_counted(rt: HostRuntime) {
    plays(&rt, 8, &COUNTED);
}

/// Among eight flows, where two, four and eight are below the three nodes above each. The comments say which flow is
/// compared with which others.
const COUNTED: [Call; 22] = [
    // 0 with the winner so far, which has nothing.
    Call::Push(0, 5_000),
    Call::Comparisons(1),
    // 4 with 0, where their ways meet.
    Call::Push(4, 200),
    Call::Comparisons(2),
    // 7 with 0, the winner of all, then with 6, and with 4, the winner of four.
    Call::Push(7, 300),
    Call::Comparisons(5),
    // 7 with 0: below the root it won already.
    Call::Push(7, 100),
    Call::Comparisons(6),
    // 5 with 0, and with 4, which still wins.
    Call::Push(5, 100),
    Call::Comparisons(8),
    // 5 with 0, with 4, and with 7.
    Call::Push(5, 350),
    Call::Comparisons(11),
    // 0 with 1, with 2, the winner of two that have nothing, and with 5.
    Call::Pop(0, Some(0)),
    Call::Comparisons(14),
    Call::Fattest(Some(5), 1_050),
    // 5 with 4, and with 7, which wins; 7 with 0.
    Call::Pop(5, Some(4)),
    Call::Comparisons(17),
    Call::Fattest(Some(7), 950),
    // 4 won nowhere.
    Call::Pop(4, Some(1)),
    Call::Comparisons(17),
    Call::Fattest(Some(7), 750),
    Call::Levels(3),
];

/// The first flow has the most bytes, and one comes in the other half. Then the last flow is compared with the first
/// one and at each level but the highest, where it wins. As it leaves it is compared at these again, and the first one
/// at all levels.
#[test]
fn comparisons_at_each_level(rt: HostRuntime) {
    for (count, half, last, made) in AT_EACH_LEVEL {
        let [one, two, grown, fallen, all] = made;
        let calls = [
            Call::Push(0, 5_000),
            Call::Comparisons(one),
            Call::Push(half, 100),
            Call::Comparisons(two),
            Call::Push(last, 200),
            Call::Comparisons(grown),
            Call::Pop(last, Some(2)),
            Call::Comparisons(fallen),
            Call::Pop(0, Some(0)),
            Call::Comparisons(all),
            Call::Fattest(Some(half), 100),
        ];
        plays(&rt, count, &calls);
    }
}

/// How many flows, the first one of the other half, the last one, and the comparisons so far after each packet: of 3,
/// 10 and 16 levels.
const AT_EACH_LEVEL: [(u32, u32, u32, [u64; 5]); 3] = [
    (8, 4, 7, [1, 2, 5, 7, 10]),
    (1024, 512, 1023, [1, 2, 12, 21, 31]),
    (65536, 32768, 65535, [1, 2, 18, 33, 49]),
];

#[test]
fn one_flow_is_compared_with_none(rt: HostRuntime) {
    let calls = [
        Call::Push(0, 100),
        Call::Push(0, 200),
        Call::Pop(0, Some(0)),
        Call::Comparisons(0),
        Call::Fattest(Some(0), 200),
    ];
    plays(&rt, 1, &calls);
}

#[test]
fn levels_over_the_flows(rt: HostRuntime) {
    for &(count, levels) in &LEVELS {
        plays(&rt, count, &[Call::Levels(levels), Call::Fattest(None, 0)]);
    }
}

/// How many flows, and how many levels over them.
const LEVELS: [(u32, u32); 8] = [
    (1, 0),
    (2, 1),
    (3, 2),
    (4, 2),
    (5, 3),
    (1024, 10),
    (1025, 11),
    (65536, 16),
];
