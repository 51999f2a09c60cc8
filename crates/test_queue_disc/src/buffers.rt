//! Packets whose tags are numbers of buffers, each of which is given back once.

use crate::queue_discs::{disc, packet};
use queue_disc_core::QueueDisc;
use sched_core::Cause;
use std::process::Abort;

/// How many buffers there are. A packet's tag is the number of its buffer, from 0.
const BUFFERS: usize = 120;

/// How often each buffer was given back.
type Returns = [u8; BUFFERS];

/// The buffer is given back once more.
fn give_back(returns: &mut Returns, tag: u64) {
    if tag < BUFFERS as u64 {
        let times = &mut returns[tag as usize];
        *times = times.saturating_add(1);
    }
}

/// The drops that weren't read are read: so many, each of them since more waited than the limit, or each by CoDel.
fn read_drops<R: Abort>(
    rt: &R,
    disc: &mut QueueDisc,
    drops: u64,
    cause: Cause,
    returns: &mut Returns,
) {
    assert!(rt; disc.unread() == drops);
    for _ in 0..drops {
        let dropped = disc.next_drop().expect(rt, "a drop");
        assert!(rt; dropped.cause == cause && dropped.tag == dropped.id);
        give_back(returns, dropped.tag);
    }
    assert!(rt; disc.next_drop().is_none());
}

/// A packet comes, and the drops are read.
fn come<R: Abort>(
    rt: &R,
    disc: &mut QueueDisc,
    moment: u64,
    port: u16,
    tag: u64,
    lost: &mut Returns,
) {
    let enqueued = disc.enqueue(moment, packet(rt, port, tag)).ok();
    let enqueued = enqueued.expect(rt, "an accepted packet");
    assert!(rt; enqueued.id == tag);
    read_drops(rt, disc, enqueued.drops, Cause::Overflow, lost);
}

/// The next packet is sent, if one waits, and the drops are read.
fn send_next<R: Abort>(
    rt: &R,
    disc: &mut QueueDisc,
    moment: u64,
    sent: &mut Returns,
    lost: &mut Returns,
) {
    let dequeued = disc.dequeue(moment).ok().expect(rt, "a dequeue");
    if let Some(given) = &dequeued.sent {
        assert!(rt; given.packet.tag() == given.id);
        give_back(sent, given.packet.tag());
    }
    read_drops(rt, disc, dequeued.drops, Cause::Codel, lost);
}

/// Packets come from each buffer in turn, three every 10 milliseconds, to three flows. One is sent each time.
fn pass_buffers<R: Abort>(rt: &R, disc: &mut QueueDisc, sent: &mut Returns, lost: &mut Returns) {
    for round in 0..40 {
        for port in 0..3 {
            let tag = 3 * round + u64::from(port);
            come(rt, disc, 10_000 * round, port, tag, lost);
        }
        send_next(rt, disc, 10_000 * round, sent, lost);
    }
}

/// Each buffer was given back once at most, where its packet was sent or where it was lost, and so many weren't yet.
fn left_out<R: Abort>(rt: &R, sent: &Returns, lost: &Returns) -> usize {
    for (sent, lost) in sent.iter().zip(lost.iter()) {
        assert!(rt; *sent <= 1 && *lost <= 1 && (*sent == 0 || *lost == 0));
    }
    sent.iter()
        .zip(lost.iter())
        .filter(|times| *times.0 == 0 && *times.1 == 0)
        .count()
}

#[test]
fn each_buffer_given_back_once(rt: HostRuntime) {
    let mut disc = disc(&rt, 30);
    let (mut sent, mut lost) = ([0; BUFFERS], [0; BUFFERS]);
    pass_buffers(&rt, &mut disc, &mut sent, &mut lost);
    let waiting = left_out(&rt, &sent, &lost);
    assert!(rt; waiting > 0 && waiting as u64 == disc.queued());
    for round in 40..100 {
        send_next(&rt, &mut disc, 10_000 * round, &mut sent, &mut lost);
    }
    assert!(rt; left_out(&rt, &sent, &lost) == 0);
    let totals = disc.totals();
    assert!(rt; totals.dropped_codel > 0 && totals.dropped_overflow > 0);
    assert!(rt; totals.accepted == 120 && totals.queued == 0);
}
