//! Arrivals, links and what the tests read of runs. Where a step fails the test ends there.

use link_core::{Arrival, Link, LinkFields, run_fifo, run_fifo_to_end, run_link, run_link_to_end};
use packet_core::{Ecn, Packet, ParamFields, Params};
use sched_core::{Cause, Event, NullRecorder, Step};
use std::process::Abort;
use test_support::{SEED, tuple};

/// A packet of `len` bytes to that port comes at that moment.
pub(crate) fn arrival<R: Abort>(rt: &R, moment: u64, dport: u16, len: u32) -> Arrival {
    Arrival {
        moment,
        packet: Packet::try_new(tuple(dport), len, Ecn::NotEct).expect(rt, "a packet"),
    }
}

/// A link of that rate, in bits per second, where a packet has its own bytes on the wire.
pub(crate) fn plain(rate: u64) -> LinkFields {
    LinkFields {
        rate,
        overhead: 0,
        mpu: 0,
    }
}

/// What became of a packet, at which moment.
#[derive(Clone, Copy, Debug, PartialEq, Eq)]
pub(crate) enum Fate {
    Sent(u64, u64),
    Overflow(u64, u64),
    Codel(u64, u64),
}

/// The fates in that journal, in order, each with the packet's id and the moment.
fn fates_in<R: Abort + AllocGlobal>(rt: &R, events: &[Event]) -> Vec<Fate> {
    let mut fates = Vec::new(rt.alloc());
    for event in events {
        let fate = match *event {
            Event::Sent { id, moment, .. } => Some(Fate::Sent(id, moment)),
            Event::Dropped { id, moment, cause } => Some(match cause {
                Cause::Overflow => Fate::Overflow(id, moment),
                Cause::Codel => Fate::Codel(id, moment),
            }),
            _ => None,
        };
        if let Some(fate) = fate {
            fates.push(fate).ok().expect(rt, "memory");
        }
    }
    fates
}

/// The steps are dequeues at these moments, with each arrival's enqueue somewhere between them; and these are the fates.
pub(crate) fn link_asks<R: Abort + AllocGlobal>(
    rt: &R,
    fields: LinkFields,
    params: ParamFields,
    arrivals: &[Arrival],
    moments: &[u64],
    fates: &[Fate],
) {
    let link = Link::try_new(fields).ok().expect(rt, "a link");
    let params = Params::try_new(params).ok().expect(rt, "parameters");
    assert!(rt; Arrival::may_come(arrivals));
    let engine = run_link(rt.alloc(), params, SEED, &link, arrivals).expect(rt, "memory");
    let mut asked = Vec::new(rt.alloc());
    let mut came = Vec::new(rt.alloc());
    for step in engine.steps() {
        match *step {
            Step::Dequeue { moment } => asked.push(moment).ok().expect(rt, "memory"),
            Step::Enqueue { moment, packet, .. } => came
                .push(Arrival { moment, packet })
                .ok()
                .expect(rt, "memory"),
            Step::Close { .. } => assert!(rt; false, "no link closes"),
        }
    }
    assert_eq!(rt; asked.as_slice(), moments);
    assert_eq!(rt; came.as_slice(), arrivals);
    assert_eq!(rt; fates_in(rt, engine.events()).as_slice(), fates);
}

/// These are the fates over a plain queue.
pub(crate) fn fifo_gives<R: Abort + AllocGlobal>(
    rt: &R,
    fields: LinkFields,
    params: ParamFields,
    arrivals: &[Arrival],
    fates: &[Fate],
) {
    let link = Link::try_new(fields).ok().expect(rt, "a link");
    let params = Params::try_new(params).ok().expect(rt, "parameters");
    assert!(rt; Arrival::may_come(arrivals));
    let events = run_fifo(rt.alloc(), params, SEED, &link, arrivals).expect(rt, "memory");
    assert_eq!(rt; fates_in(rt, &events).as_slice(), fates);
}

/// The link has sent its last packet whole at that moment.
pub(crate) fn link_ends_at<R: Abort + AllocGlobal>(
    rt: &R,
    fields: LinkFields,
    params: ParamFields,
    arrivals: &[Arrival],
    moment: u64,
) {
    let link = Link::try_new(fields).ok().expect(rt, "a link");
    let params = Params::try_new(params).ok().expect(rt, "parameters");
    assert!(rt; Arrival::may_come(arrivals));
    let (events, steps) = (NullRecorder::new(), NullRecorder::new());
    let (_, end) = run_link_to_end(rt.alloc(), params, SEED, &link, arrivals, events, steps).expect(
        rt, "memory",
    );
    assert_eq!(rt; end, moment);
}

/// The same over FQ-CoDel and over a plain queue.
pub(crate) fn ends_at<R: Abort + AllocGlobal>(
    rt: &R,
    fields: LinkFields,
    params: ParamFields,
    arrivals: &[Arrival],
    moment: u64,
) {
    link_ends_at(rt, fields, params, arrivals, moment);
    let link = Link::try_new(fields).ok().expect(rt, "a link");
    let params = Params::try_new(params).ok().expect(rt, "parameters");
    assert!(rt; Arrival::may_come(arrivals));
    let events = NullRecorder::new();
    let (_, end) = run_fifo_to_end(rt.alloc(), params, SEED, &link, arrivals, events).expect(
        rt, "memory",
    );
    assert_eq!(rt; end, moment);
}
