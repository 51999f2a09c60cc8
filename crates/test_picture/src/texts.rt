//! The texts of a picture stay in it, and none touches another. A letter or digit of the viewer's font has at most 8
//! pixels, and any other sign at most 5, but for the sign of "at most", which has 10 (DejaVu Sans, one of the widest).

use crate::journals::Fate::{Lost, Sent};
use crate::journals::{Given, has_all, journal, picture};
use journal_core::{Event, Mark};
use packet_core::{Ecn, FiveTuple, Ip, Packet};
use std::process::Abort;

/// A text of a picture: where its place is, which point of it lies there, and its signs.
#[derive(Clone, Copy)]
struct Text<'a> {
    x: u64,
    y: u64,
    anchor: &'a str,
    signs: &'a str,
}

/// The text of an element, behind `<text `.
fn text_of(element: &str) -> Option<Text<'_>> {
    let (x, rest) = element.strip_prefix("x=\"")?.split_once("\" y=\"")?;
    let (y, rest) = rest.split_once("\" text-anchor=\"")?;
    let (anchor, rest) = rest.split_once('"')?;
    let (_, rest) = rest.split_once('>')?;
    let (signs, _) = rest.split_once("</text>")?;
    Some(Text {
        x: x.parse().ok()?,
        y: y.parse().ok()?,
        anchor,
        signs,
    })
}

/// The first and the last pixel of a text.
fn extent(text: Text<'_>) -> (u64, u64) {
    let (mut width, signs) = match text.signs.strip_prefix("&#8804;") {
        Some(rest) => (10u64, rest),
        None => (0, text.signs),
    };
    for sign in signs.bytes() {
        let own = if sign.is_ascii_alphanumeric() { 8 } else { 5 };
        width = width.saturating_add(own);
    }
    let before = match text.anchor {
        "start" => 0,
        "middle" => width / 2,
        _ => width,
    };
    let from = text.x.saturating_sub(before);
    (from, from.saturating_add(width))
}

/// The packet of an event that came at 0 with that number, in a five-tuple of its own between long addresses.
fn long_names<R: Abort>(rt: &R, number: u8) -> Packet {
    let numbers = |last| {
        [
            0x20, 0x01, 0xfd, 0xb8, 0x12, 0x34, 0xab, 0x56, 0x78, 0x9a, 0xbc, 0xde, 0xf0, 0x11,
            0xcc, last,
        ]
    };
    let tuple = FiveTuple {
        proto: 58,
        src: Ip::V6(numbers(number)),
        dst: Ip::V6(numbers(0xff)),
        sport: 50_000,
        dport: 60_000,
    };
    Packet::try_new(tuple, 100, Ecn::NotEct).expect(rt, "a packet")
}

/// The journal of seven packets of as many five-tuples with long names.
fn long_journal<R: Abort + AllocGlobal>(rt: &R) -> Vec<Event> {
    let mut events = Vec::new(rt.alloc());
    for number in 0..7u8 {
        let (id, packet) = (u64::from(number), long_names(rt, number));
        events
            .push(Event::Accepted {
                lane: 0,
                id,
                moment: 0,
                flow: 0,
                packet,
            })
            .ok()
            .expect(rt, "memory");
        events
            .push(Event::Sent {
                id,
                moment: 10,
                ecn: Ecn::NotEct,
                mark: Mark::NoMark,
            })
            .ok()
            .expect(rt, "memory");
    }
    events
}

/// The longest names of two addresses of IPv6 are broken behind a colon, and go on below. Six of them, the others and the
/// waits of both queues keep apart, and end in the picture.
#[test]
fn long_names_in_the_legend(rt: HostRuntime) {
    let events = long_journal(&rt);
    let text = picture(&rt, &events, Some(&events));
    let (mut rows, mut last) = (0u32, 0u64);
    for element in text.split("<text ").skip(1) {
        if let Some(text) = text_of(element)
            && text.x > 700
        {
            let (_, upto) = extent(text);
            assert!(rt;
                upto <= 1_010 && text.y <= 970,
                "{} ends at {upto}",
                text.signs
            );
            assert!(rt;
                last.saturating_add(12) <= text.y,
                "{} is at {}",
                text.signs,
                text.y
            );
            rows = rows.saturating_add(1);
            last = text.y;
        }
    }
    // Two queues, the link's rate, seven rows for each of six five-tuples, and four for the others.
    assert_eq!(rt; rows, 49);
    let parts = [
        ">0: icmpv6 [2001:fdb8:1234:ab56:</text>",
        "<text x=\"748\" y=\"170\" text-anchor=\"start\">789a:bcde:f011:cc00]:50000</text>",
        ">to [2001:fdb8:1234:ab56:789a:bcde:</text>",
        ">f011:ccff]:60000</text>",
    ];
    has_all(&rt, &text, &parts);
}

/// A long row of numbers begins at the left edge of the legend, so that it ends in the picture.
#[test]
fn long_rows_in_the_legend(rt: HostRuntime) {
    let mut packets = Vec::new(rt.alloc());
    for _packet in 0..1_000 {
        packets
            .push(Given(0, 443, 100, Lost(5)))
            .ok()
            .expect(&rt, "memory");
    }
    packets
        .push(Given(0, 443, 100, Sent(999_999_900_000)))
        .ok()
        .expect(&rt, "memory");
    let wanted = [
        "<text x=\"736\" y=\"186\" text-anchor=\"start\" font-size=\"11\" fill=\"#444\">\
        fq_codel: p50 999999.9 s, p99 999999.9 s</text>",
        "<text x=\"708\" y=\"218\" text-anchor=\"start\" font-size=\"11\" fill=\"#444\">\
        fifo: p50 999999.9 s, p99 999999.9 s, 1000 drops</text>",
    ];
    let events = journal(&rt, &packets);
    has_all(&rt, &picture(&rt, &events, Some(&events)), &wanted);
}

/// The texts of waits below the distribution keep apart, however long the longest wait is: from a millisecond to some
/// thirty years. There are three at least.
#[test]
fn waits_below_the_distribution(rt: HostRuntime) {
    for power in 0..41u32 {
        let longest = 1_000u64 << power;
        let text = picture(
            &rt,
            &journal(&rt, &[Given(0, 443, 100, Sent(longest))]),
            None,
        );
        let (mut texts, mut end) = (0u32, 0u64);
        for element in text.split("<text ").skip(1) {
            if let Some(text) = text_of(element)
                && text.y == 550
            {
                let (from, upto) = extent(text);
                assert!(rt;
                    end <= from && upto <= 700,
                    "{} up to {longest} us",
                    text.signs
                );
                texts = texts.saturating_add(1);
                end = upto;
            }
        }
        assert!(rt; texts >= 3, "{texts} texts up to {longest} us");
    }
}

/// A text at the right edge of a panel ends there, and so does one that begins to reach the legend. Of 62 milliseconds
/// the sixtieth is 20 pixels from the edge, and of 63 it is 30.
#[test]
fn texts_near_the_legend(rt: HostRuntime) {
    for (last, wanted) in [
        (
            62_500,
            "<text x=\"674\" y=\"298\" text-anchor=\"end\">60 ms</text>",
        ),
        (
            63_500,
            "<text x=\"660\" y=\"298\" text-anchor=\"middle\">60 ms</text>",
        ),
        (
            70_500,
            "<text x=\"694\" y=\"298\" text-anchor=\"end\">70 ms</text>",
        ),
    ] {
        let packets = [Given(0, 443, 100, Sent(0)), Given(0, 443, 100, Sent(last))];
        has_all(&rt, &picture(&rt, &journal(&rt, &packets), None), &[wanted]);
    }
}

/// A run of 500 days has four times below its panels, ten million seconds apart.
#[test]
fn times_of_more_than_a_year(rt: HostRuntime) {
    let packets = [
        Given(0, 443, 100, Sent(0)),
        Given(0, 443, 100, Sent(43_200_000_000_000)),
    ];
    let parts = [
        "<text x=\"221\" y=\"298\" text-anchor=\"middle\">10000000 s</text>",
        ">20000000 s</text>",
        ">30000000 s</text>",
        ">40000000 s</text>",
    ];
    has_all(&rt, &picture(&rt, &journal(&rt, &packets), None), &parts);
}
