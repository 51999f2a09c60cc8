//! Why an enqueue is refused, and drops that wait to be read.

use crate::queue_discs::{disc, packet};
use queue_disc_core::{Dropped, EnqueueFault, Enqueued, QueueDisc};
use sched_core::{Cause, CloseFault, MomentFault, Refusal};
use std::process::Abort;

/// What a packet to the destination port 1 with that tag is answered at that moment.
fn come<R: Abort>(
    rt: &R,
    disc: &mut QueueDisc,
    moment: u64,
    tag: u64,
) -> Result<Enqueued, EnqueueFault> {
    disc.enqueue(moment, packet(rt, 1, tag))
}

/// An enqueue with that id, which dropped so many packets.
fn enqueued(id: u64, drops: u64) -> Result<Enqueued, EnqueueFault> {
    Ok(Enqueued { id, flow: 1, drops })
}

/// The refusal of a moment before 5.
fn backwards() -> EnqueueFault {
    EnqueueFault::Refused(Refusal::Moment(MomentFault::Backwards { last: 5 }))
}

/// One packet may wait: the second that comes drops the first.
fn overflow<R: Abort>(rt: &R, disc: &mut QueueDisc) {
    assert!(rt; come(rt, disc, 3, 70) == enqueued(0, 0));
    assert!(rt; come(rt, disc, 5, 71) == enqueued(1, 1));
}

/// While a drop wasn't read no packet is accepted, and packets are sent all the same.
fn waits_for_reader<R: Abort>(rt: &R, disc: &mut QueueDisc) {
    overflow(rt, disc);
    assert!(rt; come(rt, disc, 5, 72) == Err(EnqueueFault::Unread));
    let dequeued = disc.dequeue(6).ok().expect(rt, "a dequeue");
    let sent = dequeued.sent.expect(rt, "a packet");
    assert!(rt; sent.id == 1 && sent.packet.tag() == 71 && dequeued.drops == 0);
    assert!(rt; come(rt, disc, 6, 72) == Err(EnqueueFault::Unread));
    let overflowed = Dropped {
        tag: 70,
        id: 0,
        cause: Cause::Overflow,
    };
    assert!(rt; disc.next_drop() == Some(overflowed));
    assert!(rt; disc.next_drop().is_none());
    assert!(rt; come(rt, disc, 6, 72) == enqueued(2, 0));
}

#[test]
fn unread_drops_keep_packets_out(rt: HostRuntime) {
    let mut disc = disc(&rt, 1);
    waits_for_reader(&rt, &mut disc);
}

/// A drop that wasn't read is told before a bad moment, that before the close, and the close last.
fn tests_in_order<R: Abort>(rt: &R, disc: &mut QueueDisc) {
    overflow(rt, disc);
    assert!(rt; disc.close(5) == Ok(()));
    assert!(rt; disc.close(5) == Err(CloseFault::ClosedAlready));
    assert!(rt; come(rt, disc, 4, 72) == Err(EnqueueFault::Unread));
    assert!(rt; disc.next_drop().is_some());
    assert!(rt; come(rt, disc, 4, 72) == Err(backwards()));
    assert!(rt; come(rt, disc, 5, 72) == Err(EnqueueFault::Refused(Refusal::ClosedAlready)));
    assert!(rt; disc.is_closed() && disc.queued() == 1 && disc.last_moment() == 5);
}

#[test]
fn refusals_in_order(rt: HostRuntime) {
    let mut disc = disc(&rt, 1);
    tests_in_order(&rt, &mut disc);
}

/// What a person reads of each refusal.
#[test]
fn texts_of_refusals(rt: HostRuntime) -> Result<(), std::test::Fail> {
    let late = MomentFault::Backwards { last: 5 };
    for (fault, wanted) in [
        (EnqueueFault::Unread, "drops of earlier calls were not read"),
        (
            EnqueueFault::Refused(Refusal::Moment(late)),
            "the moment is before 5 microseconds, that of the last step",
        ),
        (
            EnqueueFault::Refused(Refusal::Moment(MomentFault::TooLarge)),
            "the moment is 2^60 microseconds or more",
        ),
        (
            EnqueueFault::Refused(Refusal::ClosedAlready),
            "there was a close already",
        ),
        (
            EnqueueFault::Refused(Refusal::Exhausted),
            "2^40 packets were accepted",
        ),
        (
            EnqueueFault::Refused(Refusal::Memory),
            "a growth was refused",
        ),
    ] {
        let text = format!(in rt.alloc(); "{fault}")?;
        assert_eq!(rt; text.as_str(), wanted);
    }
    Ok(())
}

/// And of each of a close.
#[test]
fn texts_of_refused_closes(rt: HostRuntime) -> Result<(), std::test::Fail> {
    let late = MomentFault::Backwards { last: 5 };
    for (fault, wanted) in [
        (
            CloseFault::Moment(late),
            "the moment is before 5 microseconds, that of the last step",
        ),
        (
            CloseFault::Moment(MomentFault::TooLarge),
            "the moment is 2^60 microseconds or more",
        ),
        (CloseFault::ClosedAlready, "there was a close already"),
    ] {
        let text = format!(in rt.alloc(); "{fault}")?;
        assert_eq!(rt; text.as_str(), wanted);
    }
    Ok(())
}
