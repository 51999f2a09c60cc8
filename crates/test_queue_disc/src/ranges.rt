//! QueueDiscs with a parameter at an end of its range. Such a queue disc opens where memory is ample, and a packet
//! passes.

use crate::queue_discs::{packet, tag_of};
use packet_core::{Classify, EcnUse, ParamFields, Params};
use queue_disc_core::{Dropped, QueueDisc};
use sched_core::Cause;
use std::process::Abort;
use test_support::{SEED, by_port};

/// A queue disc is opened with those parameters, and a packet of 1,000 bytes comes, which dropped so many.
fn opens(rt: &(impl Abort + AllocGlobal), fields: ParamFields, drops: u64) -> QueueDisc {
    let params = Params::try_new(fields).ok().expect(rt, "parameters");
    let mut disc = QueueDisc::open(rt.alloc(), params, SEED).expect(rt, "a queue disc");
    let enqueued = disc.enqueue(1, packet(rt, 1, tag_of(0))).ok();
    let enqueued = enqueued.expect(rt, "an accepted packet");
    assert_eq!(rt; (enqueued.id, enqueued.drops), (0, drops));
    disc
}

/// A packet passes a queue disc with those parameters.
fn passes(rt: &(impl Abort + AllocGlobal), fields: ParamFields) {
    let mut disc = opens(rt, fields, 0);
    let dequeued = disc.dequeue(1).ok().expect(rt, "a dequeue");
    let sent = dequeued.sent.expect(rt, "a packet");
    assert_eq!(rt; (sent.id, sent.packet.tag()), (0, tag_of(0)));
}

/// Each parameter at its least value, where the others are as usual.
#[test]
fn least_of_each(rt: HostRuntime) {
    let usual = by_port(4);
    for fields in [
        ParamFields { limit: 1, ..usual },
        ParamFields { flows: 1, ..usual },
        ParamFields {
            quantum: 1,
            ..usual
        },
        ParamFields { mtu: 0, ..usual },
        ParamFields { target: 0, ..usual },
        ParamFields {
            interval: 1,
            ..usual
        },
        ParamFields {
            ce_threshold: Some(0),
            ..usual
        },
        ParamFields {
            drop_batch: 1,
            ..usual
        },
    ] {
        passes(&rt, fields);
    }
}

/// Each parameter but the limit at its greatest value, where the others are as usual.
#[test]
fn greatest_of_each(rt: HostRuntime) {
    let usual = by_port(4);
    for fields in [
        ParamFields {
            flows: 65_536,
            ..usual
        },
        ParamFields {
            quantum: 1_000_000,
            ..usual
        },
        ParamFields {
            mtu: 65_535,
            ..usual
        },
        ParamFields {
            target: 1_000_000_000,
            ..usual
        },
        ParamFields {
            interval: 1_000_000_000,
            ..usual
        },
        ParamFields {
            ce_threshold: Some(1_000_000_000),
            ..usual
        },
        ParamFields {
            memory_limit: Some(1 << 40),
            ..usual
        },
        ParamFields {
            drop_batch: 1_048_576,
            ..usual
        },
    ] {
        passes(&rt, fields);
    }
}

/// Where one byte may wait, the packet that came is lost at once.
#[test]
fn least_memory_limit(rt: HostRuntime) {
    let fields = ParamFields {
        memory_limit: Some(1),
        ..by_port(4)
    };
    let mut disc = opens(&rt, fields, 1);
    let dropped = Dropped {
        tag: tag_of(0),
        id: 0,
        cause: Cause::Overflow,
    };
    assert!(rt; disc.next_drop() == Some(dropped) && disc.queued() == 0);
}

/// All parameters at their least values, but the limit of bytes, which would leave no packet.
const LEAST: ParamFields = ParamFields {
    limit: 1,
    flows: 1,
    quantum: 1,
    mtu: 0,
    target: 0,
    interval: 1,
    ce_threshold: Some(0),
    memory_limit: None,
    drop_batch: 1,
    ecn: EcnUse::Drop,
    classify: Classify::Dport,
};

/// All parameters at their greatest values, but the limit of packets, whose memory takes long.
const GREATEST: ParamFields = ParamFields {
    limit: 4,
    flows: 65_536,
    quantum: 1_000_000,
    mtu: 65_535,
    target: 1_000_000_000,
    interval: 1_000_000_000,
    ce_threshold: Some(1_000_000_000),
    memory_limit: Some(1 << 40),
    drop_batch: 1_048_576,
    ecn: EcnUse::Mark,
    classify: Classify::Hash,
};

/// All of them at once.
#[test]
fn all_at_once(rt: HostRuntime) {
    passes(&rt, LEAST);
    passes(&rt, GREATEST);
}
