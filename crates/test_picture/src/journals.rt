//! Journals, and the pictures of them. Where a step fails the test ends there.

ghost use Rattle.std.specs.Prelude.{◌≤◌, length};

use journal_core::{Cause, Event};
use link_picture::{Settings, picture_text, picture_text_of};
use link_report::{MAX_EVENTS, Packets};
use packet_core::{Ecn, Packet, Params};
use std::process::Abort;
use test_support::tuple;

/// What became of a packet, and when, in microseconds.
#[derive(Clone, Copy)]
pub(crate) enum Fate {
    Sent(u64),
    /// Sent with CoDel's mark.
    Marked(u64),
    /// Dropped because a queue was full.
    Lost(u64),
    /// Dropped by CoDel.
    Dropped(u64),
}

/// A packet: when it came, to which port, how long it is, and what became of it.
#[derive(Clone, Copy)]
pub(crate) struct Given(pub u64, pub u16, pub u32, pub Fate);

/// The journal of these packets: all of them come in, and then each has its fate.
pub(crate) fn journal<R: Abort + AllocGlobal>(rt: &R, packets: &[Given]) -> Vec<Event> {
    let mut events = Vec::new(rt.alloc());
    for (id, given) in packets.iter().enumerate() {
        let packet = Packet::try_new(tuple(given.1), given.2, Ecn::NotEct).expect(rt, "a packet");
        let event = Event::Accepted {
            lane: 0,
            id: id as u64,
            moment: given.0,
            flow: 0,
            packet,
        };
        events.push(event).ok().expect(rt, "memory");
    }
    for (id, given) in packets.iter().enumerate() {
        let id = id as u64;
        let event = match given.3 {
            Fate::Sent(moment) => Event::Sent {
                id,
                moment,
                ecn: Ecn::NotEct,
                mark: journal_core::Mark::NoMark,
            },
            Fate::Marked(moment) => Event::Sent {
                id,
                moment,
                ecn: Ecn::Ce,
                mark: journal_core::Mark::CodelMark,
            },
            Fate::Lost(moment) => Event::Dropped {
                id,
                moment,
                cause: Cause::Overflow,
            },
            Fate::Dropped(moment) => Event::Dropped {
                id,
                moment,
                cause: Cause::Codel,
            },
        };
        events.push(event).ok().expect(rt, "memory");
    }
    events
}

/// The packets of a journal.
fn packets_of<R: Abort + AllocGlobal>(rt: &R, events: &[Event]) -> Packets
    ensures { length result.packets ≤ MAX_EVENTS }
{
    let packets = Packets::of(rt.alloc(), events).expect(rt, "memory");
    assert!(rt; packets.records().len() <= MAX_EVENTS);
    packets
}

/// The settings of a run at that rate, in bits per second, in bins of a millisecond. The rest is as by default.
pub(crate) fn settings(rate: u64) -> Settings {
    Settings {
        rate,
        overhead: 0,
        mpu: 0,
        every: 1_000,
        params: Params::standard(),
    }
}

/// The picture of a link of 10 Mbit/s with that journal, in bins of a millisecond. That of the journal's packets is the
/// same.
pub(crate) fn picture<R: Abort + AllocGlobal>(
    rt: &R,
    events: &[Event],
    fifo: Option<&[Event]>,
) -> String {
    assert!(rt; events.len() <= MAX_EVENTS);
    if let Some(fifo) = fifo {
        assert!(rt; fifo.len() <= MAX_EVENTS);
    }
    let settings = settings(10_000_000);
    let text = picture_text(rt.alloc(), &settings, events, fifo).expect(rt, "memory");
    let packets = packets_of(rt, events);
    let same = match fifo {
        Some(fifo) => {
            let others = packets_of(rt, fifo);
            picture_text_of(rt.alloc(), &settings, &packets, Some(&others))
        }
        None => picture_text_of(rt.alloc(), &settings, &packets, None),
    };
    assert_eq!(rt; same.expect(rt, "memory").as_slice(), text.as_slice());
    String::from_utf8(text).ok().expect(rt, "a text")
}

/// The text has each of these parts.
pub(crate) fn has_all<R: Abort>(rt: &R, text: &str, parts: &[&str]) {
    for part in parts {
        assert!(rt; text.contains(part), "{part} isn't in {text}");
    }
}
