//! Packets that wait are given back by a flush.

use crate::queue_discs::{credits_of, disc, packet, tag_of};
use queue_disc_core::{Dropped, Flushed, QueueDisc, QueueDiscTotals};
use sched_core::Cause;
use std::process::Abort;

/// What stands where no packet was written.
const NONE: Flushed = Flushed { tag: 999, id: 999 };

/// The packet with that id, whose tag is 100 more.
fn flushed(id: u64) -> Flushed {
    Flushed {
        tag: tag_of(id),
        id,
    }
}

/// A packet comes to that port, with a tag 100 more than its id.
fn come<R: Abort>(rt: &R, disc: &mut QueueDisc, moment: u64, port: u16, id: u64) {
    let enqueued = disc.enqueue(moment, packet(rt, port, tag_of(id))).ok();
    assert!(rt; enqueued.expect(rt, "an accepted packet").id == id);
}

/// Packets 0, 2 and 4 wait in one flow, and 1 and 3 in another. A quantum is 1,514 bytes, so two packets of 1,000 go in
/// a flow's first turn.
fn flush_in_parts<R: Abort>(rt: &R, disc: &mut QueueDisc) {
    for id in 0..5 {
        come(rt, disc, 7, 1 + (id % 2) as u16, id);
    }
    let mut three = [NONE; 3];
    assert!(rt; disc.flush(&mut three) == 3 && disc.queued() == 2);
    assert!(rt; three == [flushed(0), flushed(2), flushed(1)]);
    assert!(rt; disc.flush(&mut []) == 0 && disc.queued() == 2);
    let mut four = [NONE; 4];
    assert!(rt; disc.flush(&mut four) == 2 && disc.queued() == 0);
    assert!(rt; four == [flushed(3), flushed(4), NONE, NONE]);
    assert!(rt; disc.flush(&mut four) == 0 && disc.unread() == 0);
    assert!(rt; four == [flushed(3), flushed(4), NONE, NONE] && disc.last_moment() == 7);
}

/// Five packets of 1,000 bytes were accepted, and all of them flushed.
fn all_flushed() -> QueueDiscTotals {
    QueueDiscTotals {
        accepted: 5,
        accepted_bytes: 5_000,
        flushed: 5,
        flushed_bytes: 5_000,
        ..QueueDiscTotals::default()
    }
}

#[test]
fn flush_gives_all_that_waits(rt: HostRuntime) {
    let mut disc = disc(&rt, 30);
    flush_in_parts(&rt, &mut disc);
    assert!(rt; disc.totals() == all_flushed());
    assert!(rt; disc.close(7) == Ok(()) && disc.totals().closed);
}

/// Where a flush has room for more than what waits, a dequeue finds none at its end, and so the flows leave their lists:
/// the next packet's flow is a new one, with a whole quantum.
#[test]
fn flush_ends_with_a_dequeue(rt: HostRuntime) {
    let mut disc = disc(&rt, 30);
    for id in 0..5 {
        come(&rt, &mut disc, 7, 1 + (id % 2) as u16, id);
    }
    assert!(rt; disc.flush(&mut [NONE; 10]) == 5 && disc.queued() == 0);
    come(&rt, &mut disc, 7, 1, 5);
    assert!(rt; credits_of(&rt, &disc, 1) == 1_514);
}

/// One packet is sent after 200 ms, which CoDel notes, and an arrival moves the moment on by more than an interval. So
/// the flush's first packet is dropped by CoDel, and the others are flushed.
fn flush_after_long_wait<R: Abort>(rt: &R, disc: &mut QueueDisc) {
    for id in 0..6 {
        come(rt, disc, 0, 1, id);
    }
    let dequeued = disc.dequeue(200_000).ok().expect(rt, "a dequeue");
    assert!(rt; dequeued.sent.expect(rt, "a packet").id == 0 && dequeued.drops == 0);
    come(rt, disc, 310_000, 1, 6);
    let mut out = [NONE; 10];
    assert!(rt; disc.flush(&mut out) == 5 && disc.queued() == 0);
    for (place, packet) in out[..5].iter().enumerate() {
        assert!(rt; *packet == flushed(2 + place as u64));
    }
    assert!(rt; out[5] == NONE && out[9] == NONE);
    let dropped = Dropped {
        tag: 101,
        id: 1,
        cause: Cause::Codel,
    };
    assert!(rt; disc.next_drop() == Some(dropped) && disc.next_drop().is_none());
}

#[test]
fn flush_drops_what_waited_long(rt: HostRuntime) {
    let mut disc = disc(&rt, 30);
    flush_after_long_wait(&rt, &mut disc);
    let totals = disc.totals();
    assert!(rt; totals.accepted == 7 && totals.accepted_bytes == 7_000);
    assert!(rt; totals.sent == 1 && totals.sent_bytes == 1_000);
    assert!(rt; totals.flushed == 5 && totals.flushed_bytes == 5_000);
    assert!(rt; totals.dropped_codel == 1 && totals.dropped_bytes == 1_000);
    assert!(rt; totals.queued == 0 && totals.queued_bytes == 0);
}
