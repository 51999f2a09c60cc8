//! A queue disc goes on with a scheduler as new after a number of packets.

use crate::queue_discs::{credits_of, disc_renewed_after, packet, tag_of};
use packet_core::Params;
use queue_disc_core::{Dropped, EnqueueFault, Flushed, QueueDisc, RENEW_AFTER};
use sched_core::{MomentFault, Refusal};
use std::process::Abort;
use test_support::{SEED, by_port};

/// A packet comes to that port, with a tag 100 more than its id.
fn come<R: Abort>(rt: &R, disc: &mut QueueDisc, moment: u64, port: u16, id: u64) {
    let enqueued = disc.enqueue(moment, packet(rt, port, tag_of(id))).ok();
    assert!(rt; enqueued.expect(rt, "an accepted packet").id == id);
}

/// The packet with that id is sent.
fn send<R: Abort>(rt: &R, disc: &mut QueueDisc, moment: u64, id: u64) {
    let dequeued = disc.dequeue(moment).ok().expect(rt, "a dequeue");
    let sent = dequeued.sent.expect(rt, "a packet");
    assert!(rt; sent.id == id && sent.packet.tag() == tag_of(id) && sent.moment == moment);
}

/// Two packets of flow 2 are sent, and one of flow 1 is flushed. Flow 2 had two quanta of 1,514 bytes, and sent 2,000.
fn pass_three<R: Abort>(rt: &R, disc: &mut QueueDisc) {
    come(rt, disc, 1, 2, 0);
    come(rt, disc, 1, 2, 1);
    come(rt, disc, 2, 1, 2);
    send(rt, disc, 3, 0);
    send(rt, disc, 4, 1);
    let mut out = [Flushed { tag: 0, id: 0 }];
    assert!(rt; disc.flush(&mut out) == 1 && out[0] == Flushed { tag: 102, id: 2 });
    assert!(rt; disc.queued() == 0 && credits_of(rt, disc, 2) == 1_028);
}

/// The next packet comes to a scheduler as new, whose flow 2 has no credits. A moment before the last one is refused
/// before it and after it. Ids and totals go on.
fn renew_once<R: Abort>(rt: &R, disc: &mut QueueDisc) {
    pass_three(rt, disc);
    let before = MomentFault::Backwards { last: 4 };
    let refused = EnqueueFault::Refused(Refusal::Moment(before));
    assert!(rt; disc.enqueue(3, packet(rt, 1, 103)) == Err(refused));
    assert!(rt; credits_of(rt, disc, 2) == 1_028);
    come(rt, disc, 4, 1, 3);
    assert!(rt; credits_of(rt, disc, 2) == 0 && disc.queued() == 1);
    assert!(rt; disc.dequeue(3) == Err(before) && disc.last_moment() == 4);
    send(rt, disc, 5, 3);
    let totals = disc.totals();
    assert!(rt; totals.accepted == 4 && totals.accepted_bytes == 4_000);
    assert!(rt; totals.sent == 3 && totals.sent_bytes == 3_000);
    assert!(rt; totals.flushed == 1 && totals.flushed_bytes == 1_000 && totals.queued == 0);
}

#[test]
fn ids_totals_and_moments_go_on(rt: HostRuntime) {
    let mut disc = disc_renewed_after(&rt, 4, 3);
    renew_once(&rt, &mut disc);
}

/// Each round of three packets comes to a scheduler as new, whose flow 2 has no credits. The round takes some.
fn renew_each_time<R: Abort>(rt: &R, disc: &mut QueueDisc) {
    for round in 0..4 {
        let id = 3 * round;
        come(rt, disc, id, 1, id);
        assert!(rt; credits_of(rt, disc, 2) == 0);
        come(rt, disc, id, 2, id + 1);
        come(rt, disc, id, 2, id + 2);
        for sent in id..id + 3 {
            send(rt, disc, id, sent);
        }
        assert!(rt; credits_of(rt, disc, 2) != 0);
    }
    assert!(rt; disc.totals().accepted == 12 && disc.totals().sent == 12);
}

#[test]
fn renewed_after_each_three_packets(rt: HostRuntime) {
    let mut disc = disc_renewed_after(&rt, 4, 3);
    renew_each_time(&rt, &mut disc);
}

/// In each round the packet of flow 1 comes to a scheduler as new, whose flow 2 has no credits. That of flow 2 comes
/// while the first one waits.
fn renew_whenever_idle<R: Abort>(rt: &R, disc: &mut QueueDisc) {
    for round in 0..4 {
        let id = 2 * round;
        assert!(rt; disc.queued() == 0);
        come(rt, disc, round, 1, id);
        assert!(rt; credits_of(rt, disc, 2) == 0);
        come(rt, disc, round, 2, id + 1);
        send(rt, disc, round, id);
        send(rt, disc, round, id + 1);
        assert!(rt; credits_of(rt, disc, 2) != 0);
    }
    let totals = disc.totals();
    assert!(rt; totals.accepted == 8 && totals.accepted_bytes == 8_000);
    assert!(rt; totals.sent == 8 && totals.sent_bytes == 8_000 && totals.queued == 0);
}

/// A queue disc may be renewed after no packet at all: then it is whenever nothing waits. Ids and totals go on.
#[test]
fn renewed_after_no_packet(rt: HostRuntime) {
    let mut disc = disc_renewed_after(&rt, 4, 0);
    renew_whenever_idle(&rt, &mut disc);
}

/// So many packets come to each scheduler of a long run. Twice as many are more than 2^20.
const MANY: u64 = 525_000;

/// Packets of flow 2 pass, one after another, until so many came to the scheduler.
fn pass_many<R: Abort>(rt: &R, disc: &mut QueueDisc, first: u64) {
    for id in first.saturating_add(1)..first.saturating_add(MANY) {
        come(rt, disc, id, 2, id);
        send(rt, disc, id, id);
    }
}

/// The next packet comes to a scheduler as new, whose flow 2 has no credits, however many came before.
fn renew_after_many<R: Abort>(rt: &R, disc: &mut QueueDisc) {
    for round in 0..4 {
        let first = MANY * round;
        come(rt, disc, first, 1, first);
        assert!(rt; credits_of(rt, disc, 2) == 0);
        send(rt, disc, first, first);
        if round < 3 {
            pass_many(rt, disc, first);
            assert!(rt; credits_of(rt, disc, 2) != 0);
        }
    }
    assert!(rt; disc.totals().sent == 3 * MANY + 1);
}

#[test]
fn renewed_after_more_than_a_million_packets(rt: HostRuntime) {
    let mut disc = disc_renewed_after(&rt, 4, MANY);
    renew_after_many(&rt, &mut disc);
}

/// A queue disc is opened for so many packets, and a packet passes, whether a batch of drops is smaller than the limit
/// or not.
fn open_greatest(rt: &(impl Abort + AllocGlobal), flows: u32, limit: u32) {
    for drop_batch in [1, 64, 1_048_576] {
        let mut fields = by_port(flows);
        fields.limit = limit;
        fields.drop_batch = drop_batch;
        let params = Params::try_new(fields).ok().expect(rt, "parameters");
        let mut disc = QueueDisc::open(rt.alloc(), params, SEED).expect(rt, "memory");
        come(rt, &mut disc, 1, 1, 0);
        send(rt, &mut disc, 1, 0);
    }
}

/// Where memory is ample the most flows can be had, and the greatest limit.
#[test]
fn greatest_parameters(rt: HostRuntime) {
    open_greatest(&rt, 65_536, 1);
    open_greatest(&rt, 5_000, 100_001);
    open_greatest(&rt, 4, 1_048_576);
}

/// After 2^39 packets of one scheduler, and not after three. Whoever wants none may ask for the greatest number.
#[test]
fn renewed_late_unless_asked_for(rt: HostRuntime) {
    for after in [RENEW_AFTER, u64::MAX] {
        let mut disc = disc_renewed_after(&rt, 4, after);
        pass_three(&rt, &mut disc);
        come(&rt, &mut disc, 4, 1, 3);
        assert!(rt; credits_of(&rt, &disc, 2) == 1_028);
    }
}

/// No renewal while a packet waits, and none while a drop is unread, since then no packet is accepted. Drops have their
/// ids after a renewal, too.
fn drop_after_renewal<R: Abort>(rt: &R, disc: &mut QueueDisc) {
    for round in 0..3 {
        come(rt, disc, round, 1, 2 * round);
        come(rt, disc, round, 1, 2 * round + 1);
        let refused = disc.enqueue(round, packet(rt, 1, 0));
        assert!(rt; refused == Err(EnqueueFault::Unread));
        let dropped = disc.next_drop().expect(rt, "a drop");
        let Dropped { tag, id, .. } = dropped;
        assert!(rt; id == 2 * round && tag == tag_of(id) && disc.unread() == 0);
        send(rt, disc, round, 2 * round + 1);
    }
    let totals = disc.totals();
    assert!(rt; totals.accepted == 6 && totals.sent == 3 && totals.dropped_overflow == 3);
}

#[test]
fn drops_keep_their_ids(rt: HostRuntime) {
    let mut disc = disc_renewed_after(&rt, 1, 2);
    drop_after_renewal(&rt, &mut disc);
}

/// Of four packets CoDel drops the second one: from 10 to 110 milliseconds each head waited for longer than the target.
fn pass_four_with_a_drop<R: Abort>(rt: &R, disc: &mut QueueDisc) {
    for id in 0..4 {
        come(rt, disc, 0, 2, id);
    }
    send(rt, disc, 10_000, 0);
    send(rt, disc, 110_000, 2);
    send(rt, disc, 110_000, 3);
    let dropped = disc.next_drop().expect(rt, "a drop");
    assert!(rt; dropped.id == 1 && dropped.tag == tag_of(1) && disc.unread() == 0);
    let totals = disc.totals();
    assert!(rt; totals.dropped_codel == 1 && totals.sent == 3 && credits_of(rt, disc, 2) != 0);
}

/// The packet after them comes to a scheduler as new, whose flow 2 has no credits. What CoDel dropped is still counted.
#[test]
fn renewed_after_a_drop_of_codel(rt: HostRuntime) {
    let mut disc = disc_renewed_after(&rt, 4, 4);
    pass_four_with_a_drop(&rt, &mut disc);
    come(&rt, &mut disc, 110_000, 1, 4);
    assert!(rt; credits_of(&rt, &disc, 2) == 0 && disc.totals().dropped_codel == 1);
}

#[test]
fn closed_queue_disc_stays_closed(rt: HostRuntime) {
    let mut disc = disc_renewed_after(&rt, 4, 3);
    pass_three(&rt, &mut disc);
    assert!(rt; disc.close(4) == Ok(()));
    let refused = disc.enqueue(5, packet(&rt, 1, 103));
    assert!(rt; refused == Err(EnqueueFault::Refused(Refusal::ClosedAlready)));
    assert!(rt; disc.is_closed() && credits_of(&rt, &disc, 2) == 1_028);
}

/// A scheduler has ids for 2^40 packets, and is renewed after half of them.
#[test]
fn renewed_after_half_of_the_ids(rt: HostRuntime) {
    assert_eq!(rt; RENEW_AFTER, 549_755_813_888);
}
