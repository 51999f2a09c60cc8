//! The tables and the picture that the program writes of a run are those of the journals of the same run.

use crate::calls::called;
use journal_core::{EventList, StepList};
use link_command::read_arrivals;
use link_core::{Arrival, Link, LinkFields, run_fifo_to_end, run_link_to_end};
use link_picture::{Settings, picture_text};
use link_report::{MAX_EVENTS, RunEvents, flows_text, packets_text, series_text, steps_text};
use packet_core::{Params, Seed, read_params};
use std::process::Abort;

/// The rate of the link, in bits a second.
const RATE: u64 = 10_000_000;

/// The width of a bin, in microseconds. The program's words have the same.
const EVERY: u64 = 5_000;

/// A table that the program writes.
#[derive(Clone, Copy, PartialEq)]
enum Table {
    Flows,
    Packets,
    Series,
    Steps,
    Svg,
}

impl Table {
    /// The word for it.
    fn word(self) -> &'static str {
        match self {
            Table::Flows => "flows",
            Table::Packets => "packets",
            Table::Series => "series",
            Table::Steps => "steps",
            Table::Svg => "svg",
        }
    }
}

/// The next number of a row of made ones (a linear congruential generator, by its high bits).
fn next(state: &mut u64) -> u64 {
    *state = state
        .wrapping_mul(6_364_136_223_846_793_005)
        .wrapping_add(1_442_695_040_888_963_407);
    *state >> 33
}

/// Arrivals above the link's rate, of both kinds of addresses, with five-tuples that share flows.
pub(crate) fn rows<R: Abort + AllocGlobal>(rt: &R, count: u64) -> String {
    let alloc = rt.alloc();
    let mut text = String::new(alloc);
    text.push_str("version,2\n").expect(rt, "memory");
    let mut state = count;
    let mut moment = 0u64;
    for _row in 0..count {
        moment = moment.saturating_add(next(&mut state) % 1_000);
        let (port, ecn) = (next(&mut state) % 90, next(&mut state) % 4);
        let len = 40 + next(&mut state) % 1_475;
        let ends = if port % 3 == 0 {
            "20010db8000000000000000000000001,20010db8000000000000000000000002"
        } else {
            "10.0.0.1,10.0.0.9"
        };
        let row = format!(in alloc; "enq,{moment},17,{ends},{port},443,{len},{ecn}\n");
        text.push_str(row.expect(rt, "memory").as_str())
            .expect(rt, "memory");
    }
    text
}

/// What the program writes for these arrivals.
fn written<R: Abort + AllocGlobal>(rt: &R, table: Table, with_fifo: bool, text: &str) -> Vec<u8> {
    let begin = [
        "--rate",
        "10mbit",
        "--every",
        "5ms",
        "--write",
        table.word(),
    ];
    let mut words = Vec::new(rt.alloc());
    words.extend_from_slice(&begin).expect(rt, "memory");
    if with_fifo {
        words
            .extend_from_slice(&["--compare", "fifo"])
            .expect(rt, "memory");
    }
    words
        .extend_from_slice(&["limit", "40", "flows", "4096"])
        .expect(rt, "memory");
    let (status, output, _) = called(rt, &words, text);
    assert_eq!(rt; status, 0);
    output
}

/// The settings that a picture of such a run shows.
fn settings(params: Params) -> Settings {
    Settings {
        rate: RATE,
        overhead: 0,
        mpu: 0,
        every: EVERY,
        params,
    }
}

/// The same from the journals of the run, and from its steps.
fn of_journals<R: Abort + AllocGlobal>(
    rt: &R,
    table: Table,
    with_fifo: bool,
    text: &str,
) -> Vec<u8> {
    let alloc = rt.alloc();
    let params = read_params(&["limit", "40", "flows", "4096"])
        .ok()
        .expect(rt, "parameters");
    let fields = LinkFields {
        rate: RATE,
        overhead: 0,
        mpu: 0,
    };
    let link = Link::try_new(fields).ok().expect(rt, "a link");
    let arrivals = read_arrivals(alloc, &mut text.as_bytes())
        .ok()
        .expect(rt, "arrivals");
    assert!(rt; Arrival::may_come(&arrivals));
    let seed = Seed([0; 16]);
    let (events, steps) = (EventList::new(alloc), StepList::new(alloc));
    let (engine, end) = run_link_to_end(
        alloc, params, seed, &link, &arrivals, events, steps,
    ).expect(rt, "memory");
    let events = EventList::new(alloc);
    let (fifo, fifo_end) = run_fifo_to_end(alloc, params, seed, &link, &arrivals, events).expect(
        rt, "memory",
    );
    let fifo = fifo.into_events();
    let events = engine.events();
    assert!(rt; events.len() <= MAX_EVENTS && fifo.len() <= MAX_EVENTS);
    let fifo = if with_fifo {
        Some(fifo.as_slice())
    } else {
        None
    };
    let settings = settings(params);
    let made = match (table, fifo) {
        (Table::Flows, Some(events_of_fifo)) => {
            assert!(rt; events_of_fifo.len() <= MAX_EVENTS);
            let fifo = RunEvents {
                events: events_of_fifo,
                end: fifo_end,
            };
            flows_text(alloc, RunEvents { events, end }, Some(fifo))
        }
        (Table::Flows, None) => flows_text(alloc, RunEvents { events, end }, None),
        (Table::Packets, fifo) => packets_text(alloc, events, fifo),
        (Table::Series, fifo) => series_text(alloc, EVERY, events, fifo),
        (Table::Steps, _) => steps_text(alloc, engine.steps()),
        (Table::Svg, Some(fifo)) => {
            assert!(rt; fifo.len() <= MAX_EVENTS);
            picture_text(alloc, &settings, events, Some(fifo))
        }
        (Table::Svg, None) => picture_text(alloc, &settings, events, None),
    };
    made.expect(rt, "memory")
}

/// Each table, alone and beside a FIFO, of no packet, of one, of some and of a thousand.
#[test]
fn tables_of_journals(rt: HostRuntime) {
    let tables = [
        Table::Flows,
        Table::Packets,
        Table::Series,
        Table::Steps,
        Table::Svg,
    ];
    for count in [0, 1, 60, 1_000] {
        let text = rows(&rt, count);
        for table in &tables {
            for with_fifo in [false, true] {
                let found = written(&rt, *table, with_fifo, text.as_str());
                let wanted = of_journals(&rt, *table, with_fifo, text.as_str());
                assert!(&rt; found == wanted, "{} of {count}", table.word());
            }
        }
    }
}
