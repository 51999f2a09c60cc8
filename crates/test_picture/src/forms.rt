//! The form of pictures: elements that are closed, points within the picture, and what is there for no, one, ten and
//! three thousand flows.

use crate::journals::Fate::{Lost, Sent};
use crate::journals::{Given, has_all, journal, picture};
use std::process::Abort;

/// Each element that is opened is closed, in the reverse order, and no bracket stands alone.
fn is_balanced<R: Abort + AllocGlobal>(rt: &R, text: &str) -> bool {
    let mut open: Vec<&str> = Vec::new(rt.alloc());
    let mut pieces = text.split('<');
    if pieces.next() != Some("") {
        return false;
    }
    for piece in pieces {
        let Some((tag, _)) = piece.split_once('>') else {
            return false;
        };
        if let Some(name) = tag.strip_prefix('/') {
            if open.pop() != Some(name) {
                return false;
            }
        } else if !tag.ends_with('/') {
            let name = tag.split(' ').next().unwrap_or("");
            open.push(name).ok().expect(rt, "memory");
        }
    }
    open.is_empty()
}

/// All points of lines lie in the panels: 80 to 690 pixels from the left, 90 to 784 from above. It returns how many lines
/// there are.
fn lines_in_panels<R: Abort>(rt: &R, text: &str) -> usize {
    let mut lines = 0usize;
    for part in text.split("points=\"").skip(1) {
        lines = lines.saturating_add(1);
        let points = part.split('"').next().unwrap_or("");
        for point in points.split(' ') {
            let (x, y) = point.split_once(',').expect(rt, "a point");
            let x: u64 = x.parse().ok().expect(rt, "a number");
            let y: u64 = y.parse().ok().expect(rt, "a number");
            assert!(rt; 80 <= x && x <= 690, "{x}");
            assert!(rt; 90 <= y && y <= 784, "{y}");
        }
    }
    lines
}

/// So many flows, each with three packets, of which the second is lost. The waits are 10, 20, 30 .. us.
fn flows<R: Abort + AllocGlobal>(rt: &R, count: u16) -> Vec<Given> {
    let mut packets = Vec::new(rt.alloc());
    for flow in 0..count {
        let came = u64::from(flow) * 100;
        let wait = u64::from(flow) * 10 + 10;
        for given in [
            Given(came, flow, 1_000, Sent(came + wait)),
            Given(came, flow, 1_000, Lost(came)),
            Given(came, flow, 500, Sent(came + 5_000)),
        ] {
            packets.push(given).ok().expect(rt, "memory");
        }
    }
    packets
}

/// One flow has one colour and one tick for its drop. Without another queue the link's rate alone is dashed, in its panel
/// and in the legend.
#[test]
fn one_flow(rt: HostRuntime) {
    let text = picture(&rt, &journal(&rt, &flows(&rt, 1)), None);
    assert!(rt; is_balanced(&rt, &text));
    assert!(rt; lines_in_panels(&rt, &text) > 0);
    has_all(
        &rt,
        &text,
        &[
            "<path d=\"M80 872v3\" stroke=\"#0072b2\" stroke-width=\"2\"/>",
            ">0: udp 10.0.0.1:5000</text>",
            ">fq_codel: p50 10 us, p99 5.0 ms</text>",
            ">drops: 0 CoDel, 1 overflow; CE: 0</text>",
        ],
    );
    assert_eq!(rt; text.split("stroke-dasharray").skip(1).count(), 2);
    assert!(rt; !text.contains("fifo"));
    assert!(rt; !text.contains("#d55e00"));
}

/// Of ten flows with as many packets the first six have names, and the other four share a line.
#[test]
fn ten_flows(rt: HostRuntime) {
    let events = journal(&rt, &flows(&rt, 10));
    let text = picture(&rt, &events, Some(&events));
    assert!(rt; is_balanced(&rt, &text));
    assert!(rt; lines_in_panels(&rt, &text) >= 14);
    has_all(
        &rt,
        &text,
        &[
            ">5: udp 10.0.0.1:5000</text>",
            ">to 10.0.0.2:5</text>",
            ">others (4)</text>",
            "stroke=\"#777777\" stroke-width=\"2\" points=",
            "stroke=\"#444444\" stroke-width=\"1.3\" stroke-dasharray=\"1 2\" points=",
            "<path d=\"M80 942v3\" stroke=\"#777777\" stroke-width=\"2\"/>",
            ">fq_codel: p50 100 us, p99 5.0 ms</text>",
            ">drops: 0 CoDel, 4 overflow; CE: 0</text>",
            ">fifo: p50 100 us, p99 5.0 ms, 4 drops</text>",
        ],
    );
    assert!(rt; !text.contains(">6: udp"));
}

/// Of three thousand flows the one with most packets has a name, wherever it came. The picture is no longer for that.
#[test]
fn three_thousand_flows(rt: HostRuntime) {
    let mut packets = flows(&rt, 3_000);
    let late = Given(299_900, 2_999, 100, Sent(400_000));
    packets.push(late).ok().expect(&rt, "memory");
    let text = picture(&rt, &journal(&rt, &packets), None);
    assert!(rt; is_balanced(&rt, &text));
    assert!(rt; lines_in_panels(&rt, &text) > 0);
    has_all(
        &rt,
        &text,
        &[
            ">2999: udp 10.0.0.1:5000</text>",
            ">to 10.0.0.2:2999</text>",
            ">4: udp",
            ">others (2994)</text>",
        ],
    );
    assert!(rt; !text.contains(">5: udp"));
    assert!(rt; text.len() < 60_000);
}

/// Times count from the first bin, and the axis's name says when that is, be it less than a second.
#[test]
fn late_start(rt: HostRuntime) {
    let late = [Given(1_700_000_000_000_900, 1, 100, Sent(1_700_000_000_003_000))];
    let text = picture(&rt, &journal(&rt, &late), None);
    has_all(
        &rt,
        &text,
        &[">time after 1700000000000000 us</text>", ">3000 us</text>"],
    );
    let soon = [Given(1_500, 1, 100, Sent(1_500))];
    let text = picture(&rt, &journal(&rt, &soon), None);
    has_all(&rt, &text, &[">time after 1000 us</text>"]);
}

/// A delay of a second or more is in seconds. A flow of which nothing was sent has its drops.
#[test]
fn long_waits_and_lost_flows(rt: HostRuntime) {
    let packets = [
        Given(0, 443, 100, Sent(1_500_000)),
        Given(0, 53, 100, Lost(5)),
        Given(0, 53, 100, Lost(6)),
    ];
    let parts = [
        ">fq_codel: p50 1.5 s, p99 1.5 s</text>",
        ">fq_codel: none sent</text>",
        ">drops: 0 CoDel, 2 overflow; CE: 0</text>",
    ];
    has_all(&rt, &picture(&rt, &journal(&rt, &packets), None), &parts);
}

/// The scale of rates goes from the least rate to that of the link: 100 and 10 bytes in a millisecond are 800,000 and 80,000
/// bits per second. From 10 kbit/s, 13,538, to an octave above 10 Mbit/s, 24,772, they are 6,456 and 3,072 of 11,234 steps.
#[test]
fn hardly_used(rt: HostRuntime) {
    let packets = [Given(0, 443, 100, Sent(0)), Given(0, 443, 10, Sent(1_000))];
    let text = picture(&rt, &journal(&rt, &packets), None);
    let parts = [
        "points=\"80,675 690,733\"",
        ">&#8804; 10k</text>",
        ">50k</text>",
        ">10M</text>",
        ">20M</text>",
    ];
    has_all(&rt, &text, &parts);
    assert!(rt; !text.contains(">50M</text>"));
}

/// Seven steps of time end at the last bin, and each has its text.
#[test]
fn seven_steps_of_time(rt: HostRuntime) {
    let packets = [Given(0, 443, 100, Sent(0)), Given(0, 443, 100, Sent(7_500))];
    let text = picture(&rt, &journal(&rt, &packets), None);
    has_all(
        &rt,
        &text,
        &[">1 ms</text>", ">6 ms</text>", ">7 ms</text>"],
    );
}
