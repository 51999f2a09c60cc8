//! Monitors of a journal with every kind of event: acceptances, drops by CoDel and at an overflow, marks of both kinds,
//! and the close. The run is worked out in `test_ports`.

use crate::calls::{Call, Given, plays};
use crate::totals::NOTHING;
use packet_core::{Classify, Ecn, ParamFields, Params};
use port_core::Layout;
use sched_core::{Mark, Totals};
use std::alloc::Global;
use std::process::Abort;
use std::sync::Wait;
use std::thread::Threads;

/// What each publish shows is seen.
#[test]
fn every_kind_of_event_is_seen(rt: HostRuntime) {
    publishes_kinds(&rt, rt.alloc(), 1);
}

/// Each publish is made where nobody reads.
#[test]
fn every_kind_of_event_is_published(rt: HostRuntime) {
    publishes_kinds(&rt, rt.alloc(), 0);
}

fn publishes_kinds<R: Threads + Wait + Abort + Sync>(rt: &R, alloc: Global, monitors: u32) {
    let layout = Layout {
        lanes: 1,
        capacity: 11,
        monitors,
    };
    plays(rt, alloc, room_for_ten(rt), layout, &KINDS);
}

/// One flow with room for ten packets, which loses one packet at an overflow, and with a threshold of 200 ms.
fn room_for_ten<R: Abort>(rt: &R) -> Params {
    let mut fields = ParamFields::standard();
    fields.flows = 1;
    fields.classify = Classify::Dport;
    fields.limit = 10;
    fields.drop_batch = 1;
    fields.ce_threshold = Some(200_000);
    Params::try_new(fields).expect(rt, "parameters")
}

/// Packets of 1,000 to 1,010 bytes come at 0 and are published at once. Of the fifth and the sixth the sender takes part
/// in ECN. Then each departure is published, then the close, with three packets left, and then one departure more.
const KINDS: [Call; 43] = [
    Call::Submit(1_000, Ecn::NotEct),
    Call::Submit(1_001, Ecn::NotEct),
    Call::Submit(1_002, Ecn::NotEct),
    Call::Submit(1_003, Ecn::NotEct),
    Call::Submit(1_004, Ecn::Ect0),
    Call::Submit(1_005, Ecn::Ect0),
    Call::Submit(1_006, Ecn::NotEct),
    Call::Submit(1_007, Ecn::NotEct),
    Call::Submit(1_008, Ecn::NotEct),
    Call::Submit(1_009, Ecn::NotEct),
    Call::Submit(1_010, Ecn::NotEct),
    Call::Pump(0, 11),
    Call::Publish(12),
    Call::Journal(12, ELEVEN),
    Call::EachComesTo(0, 12, ELEVEN),
    Call::Dequeue(5_000, Given(1, 1_001, Ecn::NotEct, Mark::NoMark)),
    Call::Publish(13),
    Call::Journal(13, FIRST),
    Call::EachComesTo(0, 13, FIRST),
    Call::Dequeue(105_000, Given(3, 1_003, Ecn::NotEct, Mark::NoMark)),
    Call::Publish(15),
    Call::Journal(15, SECOND),
    Call::EachComesTo(0, 15, SECOND),
    Call::Dequeue(205_000, Given(4, 1_004, Ecn::Ce, Mark::CodelMark)),
    Call::Publish(16),
    Call::Journal(16, THIRD),
    Call::EachComesTo(0, 16, THIRD),
    Call::Dequeue(205_001, Given(5, 1_005, Ecn::Ce, Mark::Threshold)),
    Call::Publish(17),
    Call::Journal(17, FOURTH),
    Call::EachComesTo(0, 17, FOURTH),
    Call::Dequeue(275_710, Given(7, 1_007, Ecn::NotEct, Mark::NoMark)),
    Call::Publish(19),
    Call::Journal(19, FIFTH),
    Call::EachComesTo(0, 19, FIFTH),
    Call::Close(275_710),
    Call::Publish(20),
    Call::Journal(20, CLOSED),
    Call::EachComesTo(0, 20, CLOSED),
    Call::Dequeue(275_711, Given(8, 1_008, Ecn::NotEct, Mark::NoMark)),
    Call::Publish(21),
    Call::Journal(21, WHOLE),
    Call::EachComesTo(0, 21, WHOLE),
];

/// Eleven packets came, and the first of them was lost at the overflow.
const ELEVEN: Totals = Totals {
    accepted: 11,
    accepted_bytes: 11_055,
    dropped_overflow: 1,
    dropped_bytes: 1_000,
    queued: 10,
    queued_bytes: 10_055,
    ..NOTHING
};

/// The second was sent.
const FIRST: Totals = Totals {
    sent: 1,
    sent_bytes: 1_001,
    queued: 9,
    queued_bytes: 9_054,
    ..ELEVEN
};

/// CoDel dropped the third, and the fourth was sent.
const SECOND: Totals = Totals {
    sent: 2,
    sent_bytes: 2_004,
    dropped_codel: 1,
    dropped_bytes: 2_002,
    queued: 7,
    queued_bytes: 7_049,
    ..FIRST
};

/// The fifth was sent with CoDel's mark.
const THIRD: Totals = Totals {
    sent: 3,
    sent_bytes: 3_008,
    marked: 1,
    queued: 6,
    queued_bytes: 6_045,
    ..SECOND
};

/// The sixth was sent with the threshold's mark.
const FOURTH: Totals = Totals {
    sent: 4,
    sent_bytes: 4_013,
    threshold_marked: 1,
    queued: 5,
    queued_bytes: 5_040,
    ..THIRD
};

/// CoDel dropped the seventh, and the eighth was sent.
const FIFTH: Totals = Totals {
    sent: 5,
    sent_bytes: 5_020,
    dropped_codel: 2,
    dropped_bytes: 3_008,
    queued: 3,
    queued_bytes: 3_027,
    ..FOURTH
};

/// The close was made.
const CLOSED: Totals = Totals {
    closed: true,
    ..FIFTH
};

/// The ninth was sent after the close.
const WHOLE: Totals = Totals {
    sent: 6,
    sent_bytes: 6_028,
    queued: 2,
    queued_bytes: 2_019,
    ..CLOSED
};
