//! The queue discs and the packets of the tests.

use packet_core::{Ecn, EcnUse, Packet, Params};
use queue_disc_core::QueueDisc;
use std::process::Abort;
use test_support::{SEED, by_port, tuple};

/// A queue disc with four flows by the destination port, without marks, in which so many packets may wait. More of them
/// are dropped one by one.
pub(crate) fn disc(rt: &(impl Abort + AllocGlobal), limit: u32) -> QueueDisc {
    disc_of(rt, limit, 1)
}

/// The same, but more of them are dropped so many at once at most.
pub(crate) fn disc_of(rt: &(impl Abort + AllocGlobal), limit: u32, batch: u32) -> QueueDisc {
    let params = params(rt, limit, batch);
    QueueDisc::open(rt.alloc(), params, SEED).expect(rt, "a queue disc")
}

/// A queue disc that is renewed after so many packets, in which so many may wait.
pub(crate) fn disc_renewed_after(
    rt: &(impl Abort + AllocGlobal),
    limit: u32,
    packets: u64,
) -> QueueDisc {
    let params = params(rt, limit, 1);
    let disc = QueueDisc::open_with(rt.alloc(), params, SEED, packets);
    disc.expect(rt, "a queue disc")
}

fn params<R: Abort>(rt: &R, limit: u32, batch: u32) -> Params {
    let mut fields = by_port(4);
    fields.ecn = EcnUse::Drop;
    fields.limit = limit;
    fields.drop_batch = batch;
    Params::try_new(fields).ok().expect(rt, "parameters")
}

/// The tag of the packet with that id: 100 more.
pub(crate) fn tag_of(id: u64) -> u64 {
    id.saturating_add(100)
}

/// The credits of a flow.
pub(crate) fn credits_of<R: Abort>(rt: &R, disc: &QueueDisc, flow: u32) -> i64 {
    assert!(rt; flow < disc.params().flows());
    disc.flow_view(flow).credits
}

/// A packet of 1,000 bytes to that destination port, with that tag.
pub(crate) fn packet<R: Abort>(rt: &R, dport: u16, tag: u64) -> Packet {
    let packet = Packet::try_new(tuple(dport), 1_000, Ecn::NotEct);
    packet.expect(rt, "a packet").with_tag(tag)
}
