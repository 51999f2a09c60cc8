//! Drops that are read several at once.

use crate::queue_discs::{disc_of, packet, tag_of};
use queue_disc_core::{Dropped, QueueDisc};
use sched_core::Cause;
use std::process::Abort;

/// What stands where no drop was written.
const NONE: Dropped = Dropped {
    tag: 999,
    id: 999,
    cause: Cause::Codel,
};

/// The drop of the packet with that id, whose tag is 100 more.
fn overflowed(id: u64) -> Dropped {
    Dropped {
        tag: tag_of(id),
        id,
        cause: Cause::Overflow,
    }
}

/// Twelve packets of one flow may wait. The thirteenth drops six: half of the flow's packets, rounded down.
fn drop_six<R: Abort>(rt: &R, disc: &mut QueueDisc) {
    for id in 0..13 {
        let enqueued = disc.enqueue(5, packet(rt, 1, tag_of(id))).ok();
        let drops = enqueued.expect(rt, "an accepted packet").drops;
        assert!(rt; drops == if id == 12 { 6 } else { 0 });
    }
}

/// Four drops are read, then one, then the last one into a longer list, whose rest stays as it was.
fn read_in_parts<R: Abort>(rt: &R, disc: &mut QueueDisc) {
    let mut four = [NONE; 4];
    assert!(rt; disc.drops(&mut four) == 4 && disc.unread() == 2);
    assert!(rt; four == [overflowed(0), overflowed(1), overflowed(2), overflowed(3)]);
    assert!(rt; disc.next_drop() == Some(overflowed(4)));
    assert!(rt; disc.drops(&mut []) == 0 && disc.unread() == 1);
    let mut three = [NONE; 3];
    assert!(rt; disc.drops(&mut three) == 1 && disc.unread() == 0);
    assert!(rt; three == [overflowed(5), NONE, NONE]);
    assert!(rt; disc.drops(&mut three) == 0 && three == [overflowed(5), NONE, NONE]);
    assert!(rt; disc.next_drop().is_none() && disc.queued() == 7);
}

#[test]
fn drops_read_in_parts(rt: HostRuntime) {
    let mut disc = disc_of(&rt, 12, 64);
    drop_six(&rt, &mut disc);
    read_in_parts(&rt, &mut disc);
}
