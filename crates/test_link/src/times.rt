//! Rates at which a packet doesn't take whole microseconds: the times that are left over add up. And packets that come at
//! one moment.

use crate::runs::Fate::Sent;
use crate::runs::{arrival, link_asks, plain};
use test_support::by_port;

/// At 7 Mbit/s a packet of 1,514 bytes takes 1,730 2/7 us: the fourth gets out at 6,921 1/7 us, and not at 6,920.
#[test]
fn sevenths_add_up(rt: HostRuntime) {
    let packet = arrival(&rt, 0, 443, 1_514);
    link_asks(
        &rt,
        plain(7_000_000),
        by_port(1_024),
        &[packet; 4],
        &[0, 1_730, 3_460, 5_190, 6_921],
        &[Sent(0, 0), Sent(1, 1_730), Sent(2, 3_460), Sent(3, 5_190)],
    );
}

/// At a rate that is a prime number. A packet takes 12.112 us and a little more.
#[test]
fn prime_rate(rt: HostRuntime) {
    let packet = arrival(&rt, 3, 443, 1_514);
    link_asks(
        &rt,
        plain(999_999_937),
        by_port(1_024),
        &[packet; 10],
        &[3, 15, 27, 39, 51, 63, 75, 87, 99, 112, 124],
        &[
            Sent(0, 3),
            Sent(1, 15),
            Sent(2, 27),
            Sent(3, 39),
            Sent(4, 51),
            Sent(5, 63),
            Sent(6, 75),
            Sent(7, 87),
            Sent(8, 99),
            Sent(9, 112),
        ],
    );
}

/// The slowest link: the longest packet with the most overhead takes 532.28 s.
#[test]
fn slowest(rt: HostRuntime) {
    let mut link = plain(1_000);
    link.overhead = 1_000;
    let packet = arrival(&rt, 1, 443, 65_535);
    link_asks(
        &rt,
        link,
        by_port(1_024),
        &[packet; 2],
        &[1, 532_280_001, 1_064_560_001],
        &[Sent(0, 1), Sent(1, 532_280_001)],
    );
}

/// The fastest link: of packets of 100 bytes, which take 800 ps each, all six are sent within 4.8 ns.
#[test]
fn fastest(rt: HostRuntime) {
    let packet = arrival(&rt, 9, 443, 100);
    link_asks(
        &rt,
        plain(1_000_000_000_000),
        by_port(1_024),
        &[packet; 6],
        &[9, 9, 9, 9, 9, 9, 9],
        &[
            Sent(0, 9),
            Sent(1, 9),
            Sent(2, 9),
            Sent(3, 9),
            Sent(4, 9),
            Sent(5, 9),
        ],
    );
}

/// A packet that comes at the very moment at which the link gets free is in the queue by then: the third is of a new flow,
/// and goes before the second, whose flow has used up its quantum; and the fourth is sent by the asking of that moment.
#[test]
fn comes_as_the_link_gets_free(rt: HostRuntime) {
    let arrivals = [
        arrival(&rt, 0, 443, 1_514),
        arrival(&rt, 1, 443, 1_514),
        arrival(&rt, 1_000, 53, 1_514),
        arrival(&rt, 3_000, 53, 1_514),
    ];
    link_asks(
        &rt,
        plain(12_112_000),
        by_port(1_024),
        &arrivals,
        &[0, 1_000, 2_000, 3_000, 4_000],
        &[Sent(0, 0), Sent(2, 1_000), Sent(1, 2_000), Sent(3, 3_000)],
    );
}
