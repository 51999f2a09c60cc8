//! A run of 100 seconds over FQ-CoDel alone, and what each panel of its picture has. In bins of 100 milliseconds there
//! are more than 610, so a bin has 200, and there are 501. Bin 50 is 61 pixels right of bin 0. A bin in which a line sent
//! a packet has 50,000 bits per second, 2,360 of 11,234 steps from 10 kbit/s up, or 39 of 190 pixels. No packet waits.

use crate::journals::Fate::{Lost, Sent};
use crate::journals::{Given, has_all, journal, picture};

/// A second, in microseconds.
const SECOND: u64 = 1_000_000;

/// Six five-tuples send a packet each, ten seconds apart, and all of them one more at the end. The two others send one
/// each in between, and one of them loses a second one.
const PACKETS: [Given; 15] = [
    Given(0, 0, 1_250, Sent(0)),
    Given(10 * SECOND, 1, 1_250, Sent(10 * SECOND)),
    Given(20 * SECOND, 2, 1_250, Sent(20 * SECOND)),
    Given(30 * SECOND, 3, 1_250, Sent(30 * SECOND)),
    Given(40 * SECOND, 4, 1_250, Sent(40 * SECOND)),
    Given(50 * SECOND, 5, 1_250, Sent(50 * SECOND)),
    Given(70 * SECOND, 6, 1_250, Sent(70 * SECOND)),
    Given(80 * SECOND, 6, 1_250, Lost(80 * SECOND)),
    Given(90 * SECOND, 7, 1_250, Sent(90 * SECOND)),
    Given(100 * SECOND, 0, 1_250, Sent(100 * SECOND)),
    Given(100 * SECOND, 1, 1_250, Sent(100 * SECOND)),
    Given(100 * SECOND, 2, 1_250, Sent(100 * SECOND)),
    Given(100 * SECOND, 3, 1_250, Sent(100 * SECOND)),
    Given(100 * SECOND, 4, 1_250, Sent(100 * SECOND)),
    Given(100 * SECOND, 5, 1_250, Sent(100 * SECOND)),
];

/// The six five-tuples have the colours of Okabe and Ito, and the others share the grey one. In the first panel each has
/// a circle where its packet was sent.
#[test]
fn colours_of_seven_lines(rt: HostRuntime) {
    let parts = [
        "<circle cx=\"80\" cy=\"280\" r=\"2\" fill=\"#0072b2\" ",
        "<circle cx=\"141\" cy=\"280\" r=\"2\" fill=\"#d55e00\" ",
        "<circle cx=\"202\" cy=\"280\" r=\"2\" fill=\"#009e73\" ",
        "<circle cx=\"263\" cy=\"280\" r=\"2\" fill=\"#cc79a7\" ",
        "<circle cx=\"324\" cy=\"280\" r=\"2\" fill=\"#e69f00\" ",
        "<circle cx=\"385\" cy=\"280\" r=\"2\" fill=\"#56b4e9\" ",
        "<circle cx=\"507\" cy=\"280\" r=\"2\" fill=\"#777777\" ",
        "<circle cx=\"629\" cy=\"280\" r=\"2\" fill=\"#777777\" ",
    ];
    has_all(&rt, &picture(&rt, &journal(&rt, &PACKETS), None), &parts);
}

/// The throughput of each of the six goes on to the last bin, however many points it has. That of the others goes from
/// bin 350 to bin 450. The loss in bin 400 has a tick in their row, the seventh.
#[test]
fn throughput_and_losses_of_late_bins(rt: HostRuntime) {
    let text = picture(&rt, &journal(&rt, &PACKETS), None);
    assert_eq!(rt; text.split(" 690,745\"/>").skip(1).count(), 6);
    let parts = [
        ">Throughput, in each 200 ms; ",
        "stroke=\"#0072b2\" stroke-width=\"2\" points=\"80,745 81,784 ",
        "stroke=\"#777777\" stroke-width=\"2\" points=\"507,745 508,784 ",
        " 629,745\"/>",
        "<path d=\"M568 890v3\" stroke=\"#777777\" stroke-width=\"2\"/>",
    ];
    has_all(&rt, &text, &parts);
}

/// Times below the panels go on to the last bin, in steps of 20 seconds. In steps of ten they are more than seven.
#[test]
fn times_of_more_than_a_minute(rt: HostRuntime) {
    let parts = [
        "<text x=\"202\" y=\"298\" text-anchor=\"middle\">20 s</text>",
        "<text x=\"568\" y=\"298\" text-anchor=\"middle\">80 s</text>",
        "<text x=\"568\" y=\"802\" text-anchor=\"middle\">80 s</text>",
        ">100 s</text>",
    ];
    has_all(&rt, &picture(&rt, &journal(&rt, &PACKETS), None), &parts);
}

/// The link's rate has a text in the legend, each of six lines four and that of the others three. Each text is lower than
/// the one before by the 12 pixels of its letters or more.
#[test]
fn texts_of_the_legend(rt: HostRuntime) {
    let text = picture(&rt, &journal(&rt, &PACKETS), None);
    let mut least = 0u64;
    let mut texts = 0u32;
    for part in text.split("<text x=\"736\" y=\"").skip(1) {
        let y: u64 = part
            .split('"')
            .next()
            .unwrap_or("")
            .parse()
            .ok()
            .expect(&rt, "a number");
        assert!(rt; y >= least, "{part} at {y}");
        least = y.saturating_add(12);
        texts = texts.saturating_add(1);
    }
    assert_eq!(rt; texts, 28);
}
