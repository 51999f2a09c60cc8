//! A worked example at 10 Mbit/s, of two five-tuples, over FQ-CoDel and over a plain queue: where the lines of its picture
//! lie. The scale of waits goes from that of 100 us, 6,720, to that of the longest wait, 2,592 us, which is 11,536, and
//! 128 more: 4,944 in all. There are ten bins of a millisecond, 67 and 68 pixels apart.

use crate::journals::Fate::Sent;
use crate::journals::{Given, has_all, journal, picture};

/// What becomes of the packets over FQ-CoDel.
const FAIR: [Given; 6] = [
    Given(0, 443, 1_514, Sent(0)),
    Given(0, 443, 1_514, Sent(1_553)),
    Given(100, 16_384, 214, Sent(1_211)),
    Given(1_211, 443, 1_514, Sent(2_764)),
    Given(1_212, 16_384, 214, Sent(1_382)),
    Given(9_000, 16_384, 214, Sent(9_000)),
];

/// And over a plain queue.
const PLAIN: [Given; 6] = [
    Given(0, 443, 1_514, Sent(0)),
    Given(0, 443, 1_514, Sent(1_211)),
    Given(100, 16_384, 214, Sent(2_422)),
    Given(1_211, 443, 1_514, Sent(2_593)),
    Given(1_212, 16_384, 214, Sent(3_804)),
    Given(9_000, 16_384, 214, Sent(9_000)),
];

/// The first five-tuple waits 0, 1,553 and 1,553 us in bins 0, 1 and 2 over FQ-CoDel: 10,769 is 4,049 steps above the
/// least, 155 of 190 pixels. It waits 0, 1,211 and 1,382 us over the plain queue: 3,707 and 3,878 steps, 142 and 149
/// pixels. The second waits 2,322 us in bin 2 and 2,592 us in bin 3 there: 4,681 and 4,816 steps, 179 and 185 pixels.
#[test]
fn longest_waits(rt: HostRuntime) {
    let (fair, plain) = (journal(&rt, &FAIR), journal(&rt, &PLAIN));
    let text = picture(&rt, &fair, Some(&plain));
    has_all(
        &rt,
        &text,
        &[
            "stroke=\"#0072b2\" stroke-width=\"2\" points=\"80,280 147,125 215,125\"",
            "stroke=\"#004470\" stroke-width=\"1.3\" stroke-dasharray=\"5 3\" points=\"80,280 147,138 215,131\"",
            "stroke=\"#8a3d00\" stroke-width=\"1.3\" stroke-dasharray=\"3 3\" points=\"215,101 283,95\"",
            "<circle cx=\"690\" cy=\"280\" r=\"2\" fill=\"#d55e00\" stroke=\"#d55e00\"/>",
            "<circle cx=\"690\" cy=\"280\" r=\"2\" fill=\"none\" stroke=\"#8a3d00\"/>",
        ],
    );
}

/// 1,514 bytes in a millisecond are 12,112,000 bits per second, and the least rate above 0 is that of 214 bytes, 1,712,000.
/// A tenth of the greatest is less, so the scale goes from 1 Mbit/s, 20,385, to 24,006 and an octave more, 4,645 steps.
/// 12,112,000 is 3,621 of them, 148 of 190 pixels. The second five-tuple has 428, 0 .. 0 and 214 bytes from bin 1 to bin 9
/// over FQ-CoDel: 1,766 and 742 steps, 72 and 30 pixels. The link's rate is 3,363 steps and 137 pixels.
#[test]
fn throughput(rt: HostRuntime) {
    let fair = journal(&rt, &FAIR);
    has_all(
        &rt,
        &picture(&rt, &fair, None),
        &[
            "points=\"80,636 147,636 215,636\"",
            "points=\"147,712 215,784 283,784 351,784 418,784 486,784 554,784 622,784 690,754\"",
            "<path d=\"M80 647h610\" stroke=\"#000000\" stroke-width=\"1\" stroke-dasharray=\"2 4\"/>",
            "<text x=\"73\" y=\"788\" text-anchor=\"end\">&#8804; 1M</text>",
            "<text x=\"73\" y=\"651\" text-anchor=\"end\">10M</text>",
            ">20M</text>",
            ">bit/s</text>",
        ],
    );
}

/// Of three delays the second is the median, and the third the 99th percentile.
#[test]
fn legend(rt: HostRuntime) {
    let (fair, plain) = (journal(&rt, &FAIR), journal(&rt, &PLAIN));
    has_all(
        &rt,
        &picture(&rt, &fair, Some(&plain)),
        &[
            "<title>fq_codel and fifo (dashed) before a 10 Mbit/s link: 6 packets</title>",
            ">0: udp 10.0.0.1:5000</text>",
            ">to 10.0.0.2:443</text>",
            ">the link's rate, 10 Mbit/s</text>",
            ">fq_codel: p50 1.5 ms, p99 1.5 ms</text>",
            ">drops: 0 CoDel, 0 overflow; CE: 0</text>",
            ">fifo: p50 1.2 ms, p99 1.3 ms, 0 drops</text>",
            ">1: udp 10.0.0.1:5000</text>",
            ">fq_codel: p50 170 us, p99 1.1 ms</text>",
            ">fifo: p50 2.3 ms, p99 2.5 ms, 0 drops</text>",
        ],
    );
}
