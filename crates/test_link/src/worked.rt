//! A worked example at 10 Mbit/s, of two five-tuples, over FQ-CoDel and over a plain queue. A packet of 1,514 bytes takes
//! 1,211.2 us, one of 214 bytes 171.2 us.

use crate::runs::Fate::{Overflow, Sent};
use crate::runs::{arrival, ends_at, fifo_gives, link_asks, link_ends_at, plain};
use link_core::{Arrival, LinkFields};
use packet_core::ParamFields;
use std::process::Abort;
use test_support::by_port;

fn example<R: Abort>(rt: &R) -> [Arrival; 6] {
    [
        arrival(rt, 0, 443, 1_514),
        arrival(rt, 0, 443, 1_514),
        arrival(rt, 100, 16_384, 214),
        arrival(rt, 1_211, 443, 1_514),
        arrival(rt, 1_212, 16_384, 214),
        arrival(rt, 9_000, 16_384, 214),
    ]
}

/// The link gets free at 1,211.2 us. The packet that comes at 1,211 is in the queue then, that at 1,212 isn't.
#[test]
fn over_fq_codel(rt: HostRuntime) {
    link_asks(
        &rt,
        plain(10_000_000),
        by_port(1_024),
        &example(&rt),
        &[0, 1_211, 1_382, 1_553, 2_764, 3_976, 9_000, 9_171],
        &[
            Sent(0, 0),
            Sent(2, 1_211),
            Sent(4, 1_382),
            Sent(1, 1_553),
            Sent(3, 2_764),
            Sent(5, 9_000),
        ],
    );
}

/// First in, first out.
#[test]
fn over_a_plain_queue(rt: HostRuntime) {
    fifo_gives(
        &rt,
        plain(10_000_000),
        by_port(1_024),
        &example(&rt),
        &[
            Sent(0, 0),
            Sent(1, 1_211),
            Sent(2, 2_422),
            Sent(3, 2_593),
            Sent(4, 3_804),
            Sent(5, 9_000),
        ],
    );
}

/// With 24 bytes more on the wire, and 84 at least: 1,538 bytes take 1,230.4 us, 238 bytes 190.4 us.
#[test]
fn with_overhead(rt: HostRuntime) {
    let link = LinkFields {
        rate: 10_000_000,
        overhead: 24,
        mpu: 84,
    };
    link_asks(
        &rt,
        link,
        by_port(1_024),
        &example(&rt),
        &[0, 1_230, 1_420, 1_611, 2_841, 4_072, 9_000, 9_190],
        &[
            Sent(0, 0),
            Sent(2, 1_230),
            Sent(4, 1_420),
            Sent(1, 1_611),
            Sent(3, 2_841),
            Sent(5, 9_000),
        ],
    );
}

/// A short packet takes as long as one of 1,250 bytes does, which is 1,000 us; a long one as long as ever.
#[test]
fn with_a_least_size(rt: HostRuntime) {
    let link = LinkFields {
        rate: 10_000_000,
        overhead: 4,
        mpu: 1_250,
    };
    let arrivals = [
        arrival(&rt, 5, 443, 64),
        arrival(&rt, 5, 443, 2_496),
        arrival(&rt, 5, 443, 64),
    ];
    link_asks(
        &rt,
        link,
        by_port(1_024),
        &arrivals,
        &[5, 1_005, 3_005, 4_005],
        &[Sent(0, 5), Sent(1, 1_005), Sent(2, 3_005)],
    );
}

/// With room for one packet, the second to come is sent where the first was sent already. Of two that come then, FQ-CoDel
/// drops from the head, which is the older, and the plain queue drops the one that comes.
#[test]
fn room_for_one(rt: HostRuntime) {
    let mut params = by_port(1_024);
    params.limit = 1;
    let arrivals = [
        arrival(&rt, 0, 443, 1_250),
        arrival(&rt, 10, 443, 1_250),
        arrival(&rt, 20, 443, 1_250),
    ];
    link_asks(
        &rt,
        plain(10_000_000),
        params,
        &arrivals,
        &[0, 1_000, 2_000],
        &[Sent(0, 0), Overflow(1, 20), Sent(2, 1_000)],
    );
    fifo_gives(
        &rt,
        plain(10_000_000),
        params,
        &arrivals,
        &[Sent(0, 0), Overflow(2, 20), Sent(1, 1_000)],
    );
}

/// Where no packet fits, each is dropped as it comes, and the link asks in vain and stays idle.
#[test]
fn room_for_none(rt: HostRuntime) {
    let mut params = by_port(1_024);
    params.memory_limit = Some(50);
    let arrivals = [arrival(&rt, 7, 443, 60), arrival(&rt, 7, 443, 60)];
    link_asks(
        &rt,
        plain(10_000_000),
        params,
        &arrivals,
        &[7, 7],
        &[Overflow(0, 7), Overflow(1, 7)],
    );
}

/// Without arrivals there are no steps.
#[test]
fn nothing_comes(rt: HostRuntime) {
    link_asks(&rt, plain(1_000), by_port(1), &[], &[], &[]);
    fifo_gives(&rt, plain(1_000), by_port(1), &[], &[]);
}

/// The last packet starts at 9,000 and takes 171.2 us: it is sent at 9,171.2.
#[test]
fn the_end_of_the_last_packet(rt: HostRuntime) {
    ends_at(&rt, plain(10_000_000), by_port(1_024), &example(&rt), 9_172);
}

/// Three packets of 1,500 bytes at 20 Mbit/s take 600 us each, one after another. A rate up to the last start, at 1,200, would
/// be 30 Mbit/s.
#[test]
fn the_end_of_packets_that_wait(rt: HostRuntime) {
    let all = [
        arrival(&rt, 0, 443, 1_500),
        arrival(&rt, 0, 443, 1_500),
        arrival(&rt, 0, 443, 1_500),
    ];
    ends_at(&rt, plain(20_000_000), by_port(1_024), &all, 1_800);
}

/// 100 bytes at 7 Mbit/s take 800/7 us. Three in a row end at 342.86 us, and one that comes at 400 at 514.29. Where none came,
/// none is sent.
#[test]
fn the_end_is_rounded_up_once(rt: HostRuntime) {
    let all = [
        arrival(&rt, 0, 443, 100),
        arrival(&rt, 0, 443, 100),
        arrival(&rt, 0, 443, 100),
        arrival(&rt, 400, 443, 100),
    ];
    ends_at(&rt, plain(7_000_000), by_port(1_024), &all[..3], 343);
    ends_at(&rt, plain(7_000_000), by_port(1_024), &all, 515);
    ends_at(&rt, plain(7_000_000), by_port(1_024), &[], 0);
}

/// A packet above `memory_limit` comes to an idle link and is dropped at 500. The one before it is sent at 80 us.
#[test]
fn the_end_before_a_drop(rt: HostRuntime) {
    let all = [arrival(&rt, 0, 443, 100), arrival(&rt, 500, 443, 1_000)];
    let params = ParamFields {
        memory_limit: Some(500),
        ..by_port(1_024)
    };
    link_ends_at(&rt, plain(10_000_000), params, &all, 80);
}
