//! Runs of a link, and the tables and the picture of them.

use crate::sizes::{BELOW, LARGEST, SIZES, first, packet, params, size};
use link_core::{
    Arrival, Link, LinkFields, run_fifo, run_fifo_with_recorder, run_link, run_link_with_recorders,
};
use link_picture::{Settings, picture_text};
use link_report::{
    Binned, Gathered, MAX_EVENTS, Packets, Queue, RunEvents, flows_text, packets_text,
    series_text_with_seed, steps_text,
};
use sched_core::{Event, NullRecorder};
use std::process::Abort;
use test_support::SEED;

/// The link's rate, in bits a second.
const RATE: u64 = 10_000_000_000;

/// The width of bins, in microseconds.
const EVERY: u64 = 100_000;

/// So many packets come to a link, and their runs are stored.
#[test]
fn runs_of_a_link(rt: HostRuntime) {
    let arrivals = arrivals(&rt);
    let link = the_link(&rt);
    for number in 0..BELOW {
        stored(&rt, &link, first(&rt, &arrivals, size(number)));
    }
}

#[test]
fn long_runs_of_a_link(rt: HostRuntime) {
    let arrivals = arrivals(&rt);
    let link = the_link(&rt);
    for number in BELOW..SIZES {
        stored(&rt, &link, first(&rt, &arrivals, size(number)));
    }
}

/// The tables of five-tuples and of packets are made of the first events of a journal.
#[test]
fn tables_of_packets(rt: HostRuntime) {
    let events = journal(&rt);
    for number in 0..BELOW {
        tables(&rt, first(&rt, &events, 2 * size(number)));
    }
}

#[test]
fn tables_of_many_packets(rt: HostRuntime) {
    let events = journal(&rt);
    for number in BELOW..SIZES {
        tables(&rt, first(&rt, &events, 2 * size(number)));
    }
}

/// And the table of bins, and the picture.
#[test]
fn tables_of_bins(rt: HostRuntime) {
    let events = journal(&rt);
    for number in 0..BELOW {
        pictures(&rt, first(&rt, &events, 2 * size(number)));
    }
}

#[test]
fn tables_of_bins_of_many(rt: HostRuntime) {
    let events = journal(&rt);
    for number in BELOW..SIZES {
        pictures(&rt, first(&rt, &events, 2 * size(number)));
    }
}

/// What makes packets while a run tells its events has them all at the end.
#[test]
fn packets_as_they_are_told(rt: HostRuntime) {
    let arrivals = arrivals(&rt);
    let link = the_link(&rt);
    for number in 0..SIZES {
        gathered(&rt, &link, first(&rt, &arrivals, size(number)));
    }
}

/// What makes the rows of bins while a run tells its events has a text at the end.
#[test]
fn bins_as_they_are_told(rt: HostRuntime) {
    let arrivals = arrivals(&rt);
    let link = the_link(&rt);
    for number in 0..SIZES {
        binned(&rt, &link, first(&rt, &arrivals, size(number)));
    }
}

fn arrivals(rt: &(impl Abort + AllocGlobal)) -> Vec<Arrival> {
    let mut arrivals = Vec::new(rt.alloc());
    for number in 0..LARGEST {
        let arrival = Arrival {
            moment: number as u64,
            packet: packet(rt, number),
        };
        arrivals.push(arrival).ok().expect(rt, "memory");
    }
    arrivals
}

fn the_link(rt: &impl Abort) -> Link {
    let fields = LinkFields {
        rate: RATE,
        overhead: 0,
        mpu: 0,
    };
    Link::try_new(fields).ok().expect(rt, "a link")
}

/// The runs of these arrivals, and the table of their steps.
fn stored(rt: &(impl Abort + AllocGlobal), link: &Link, arrivals: &[Arrival]) {
    assert!(rt; Arrival::may_come(arrivals));
    let engine = run_link(rt.alloc(), params(rt), SEED, link, arrivals).expect(rt, "memory");
    let fifo = run_fifo(rt.alloc(), params(rt), SEED, link, arrivals).expect(rt, "memory");
    assert_eq!(rt; engine.events().len(), fifo.len());
    let steps = steps_text(rt.alloc(), engine.steps()).expect(rt, "memory");
    assert!(rt; steps.len() > arrivals.len());
}

/// The journal of a FIFO, in which most packets are sent before the next one comes.
fn journal(rt: &(impl Abort + AllocGlobal)) -> Vec<Event> {
    let arrivals = arrivals(rt);
    assert!(rt; Arrival::may_come(&arrivals));
    run_fifo(rt.alloc(), params(rt), SEED, &the_link(rt), &arrivals).expect(rt, "memory")
}

/// The tables that have rows of packets or of five-tuples.
fn tables(rt: &(impl Abort + AllocGlobal), events: &[Event]) {
    let alloc = rt.alloc();
    assert!(rt; events.len() <= MAX_EVENTS);
    let packets = Packets::with_seed(alloc, &SEED, events).expect(rt, "memory");
    assert_eq!(rt; packets.tuples().len(), packets.records().len());
    assert!(rt; flows_text(alloc, RunEvents { events, end: 0 }, None).is_ok());
    assert!(rt; packets_text(alloc, events, None).is_ok());
}

/// What is counted in bins.
fn pictures(rt: &(impl Abort + AllocGlobal), events: &[Event]) {
    let alloc = rt.alloc();
    assert!(rt; events.len() <= MAX_EVENTS);
    assert!(rt; series_text_with_seed(alloc, &SEED, EVERY, events, None).is_ok());
    let settings = Settings {
        rate: RATE,
        overhead: 0,
        mpu: 0,
        every: EVERY,
        params: params(rt),
    };
    assert!(rt; picture_text(alloc, &settings, events, None).is_ok());
}

/// The same runs, of which packets are made as they are told.
fn gathered(rt: &(impl Abort + AllocGlobal), link: &Link, arrivals: &[Arrival]) {
    let alloc = rt.alloc();
    assert!(rt; Arrival::may_come(arrivals));
    let made = Gathered::new(alloc, &SEED, u64::MAX);
    let engine = run_link_with_recorders(
        alloc,
        params(rt),
        SEED,
        link,
        arrivals,
        made,
        NullRecorder::new(),
    )
    .expect(rt, "memory");
    has_all(rt, engine.recorder(), arrivals.len());
    let made = Gathered::new(alloc, &SEED, u64::MAX);
    let fifo = run_fifo_with_recorder(alloc, params(rt), SEED, link, arrivals, made).expect(
        rt, "memory",
    );
    has_all(rt, &fifo, arrivals.len());
}

/// So many packets were made.
fn has_all(rt: &impl Abort, made: &Gathered, number: usize) {
    let packets = made.packets().expect(rt, "memory");
    assert_eq!(rt; packets.records().len(), number);
}

/// The same runs, of which rows of bins are made as they are told.
fn binned(rt: &(impl Abort + AllocGlobal), link: &Link, arrivals: &[Arrival]) {
    let alloc = rt.alloc();
    assert!(rt; Arrival::may_come(arrivals));
    let rows = Binned::try_new(alloc, &SEED, Queue::FqCodel, EVERY).expect(rt, "memory");
    let steps = NullRecorder::new();
    let engine = run_link_with_recorders(
        alloc,
        params(rt),
        SEED,
        link,
        arrivals,
        rows,
        steps,
    ).expect(rt, "memory");
    assert!(rt; !engine.recorder().is_short());
    let rows = Binned::try_new(alloc, &SEED, Queue::Fifo, EVERY).expect(rt, "memory");
    let rows = run_fifo_with_recorder(alloc, params(rt), SEED, link, arrivals, rows).expect(
        rt, "memory",
    );
    assert!(rt; rows.into_text().is_ok());
}
