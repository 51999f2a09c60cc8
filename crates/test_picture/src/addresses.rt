//! Addresses of IPv6 in a legend.

use crate::journals::{has_all, picture};
use journal_core::{Event, Mark};
use packet_core::{Ecn, FiveTuple, Ip, Packet};
use std::process::Abort;

/// The legend of a packet between these addresses has these texts.
fn are_shown(
    rt: &(impl Abort + AllocGlobal),
    source: [u8; 16],
    destination: [u8; 16],
    texts: &[&str],
) {
    let tuple = FiveTuple {
        proto: 6,
        src: Ip::V6(source),
        dst: Ip::V6(destination),
        sport: 5_000,
        dport: 443,
    };
    let events = [
        Event::Accepted {
            lane: 0,
            id: 0,
            moment: 0,
            flow: 0,
            packet: Packet::try_new(tuple, 100, Ecn::NotEct).expect(rt, "a packet"),
        },
        Event::Sent {
            id: 0,
            moment: 10,
            ecn: Ecn::NotEct,
            mark: Mark::NoMark,
        },
    ];
    has_all(rt, &picture(rt, &events, None), texts);
}

/// An address is eight numbers of two bytes each, the first byte the higher, in their order and without leading zeros.
#[test]
fn addresses_of_ipv6(rt: HostRuntime) {
    are_shown(
        &rt,
        [
            0x20, 0x01, 0x0d, 0xb8, 0x12, 0x34, 0x00, 0x56, 0x78, 0x9a, 0xbc, 0xde, 0xf0, 0x11,
            0x00, 0x22,
        ],
        [
            0xfe, 0x80, 0x33, 0x44, 0x55, 0x66, 0x77, 0x88, 0x99, 0xaa, 0xbb, 0xcc, 0xdd, 0xee,
            0xff, 0x00,
        ],
        &[
            ">0: tcp [2001:db8:1234:56:789a:</text>",
            ">bcde:f011:22]:5000</text>",
            ">to [fe80:3344:5566:7788:99aa:bbcc:</text>",
            ">ddee:ff00]:443</text>",
        ],
    );
}

/// The longest run of zeros is left out, and the first of two as long (RFC 5952, section 4.2.3, with its examples).
#[test]
fn longest_zeros_left_out(rt: HostRuntime) {
    are_shown(
        &rt,
        [0x20, 0x01, 0, 0, 0, 0, 0, 1, 0, 0, 0, 0, 0, 0, 0, 1],
        [0x20, 0x01, 0x0d, 0xb8, 0, 0, 0, 0, 0, 1, 0, 0, 0, 0, 0, 1],
        &[
            ">0: tcp [2001:0:0:1::1]:5000</text>",
            ">to [2001:db8::1:0:0:1]:443</text>",
        ],
    );
    are_shown(
        &rt,
        [0xfd, 0, 0, 0x77, 0, 0, 0, 0, 0, 0, 0, 0, 0, 0, 0, 1],
        [0; 16],
        &[">0: tcp [fd00:77::1]:5000</text>", ">to [::]:443</text>"],
    );
}

/// One zero alone is written (section 4.2.2, with its example). An address that has one of IPv4 in it ends with that
/// (section 5).
#[test]
fn zeros_and_ipv4_inside(rt: HostRuntime) {
    are_shown(
        &rt,
        [0x20, 0x01, 0x0d, 0xb8, 0, 0, 0, 1, 0, 1, 0, 1, 0, 1, 0, 1],
        [0, 0, 0, 0, 0, 0, 0, 0, 0, 0, 0xff, 0xff, 192, 0, 2, 1],
        &[
            ">0: tcp [2001:db8:0:1:1:1:1:1]:5000</text>",
            ">to [::ffff:192.0.2.1]:443</text>",
        ],
    );
}

/// The two colons of an address stay in one row, though the first of them would fit into the row before.
#[test]
fn colons_stay_together(rt: HostRuntime) {
    are_shown(
        &rt,
        [
            0x20, 0x01, 0xfd, 0xb8, 0x12, 0x34, 0xab, 0x56, 0, 0x78, 0, 0x90, 0, 0, 0, 0,
        ],
        [0; 16],
        &[
            ">0: tcp [2001:fdb8:1234:ab56:78:</text>",
            ">90::]:5000</text>",
            ">to [::]:443</text>",
        ],
    );
}
