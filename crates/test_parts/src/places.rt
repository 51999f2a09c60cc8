//! The places of five-tuples in a table. Those that differ in one part mostly have places of their own, and so have those
//! whose two ends both differ.

use packet_core::{FiveTuple, Ip, TupleWords};
use std::process::Abort;

/// An address of IPv4 whose bytes all differ.
const SHORT: Ip = Ip::V4([10, 2, 3, 4]);

/// An address of IPv6 whose bytes all differ.
const LONG: Ip = Ip::V6([32, 1, 13, 184, 4, 5, 6, 7, 8, 9, 10, 11, 12, 14, 15, 255]);

/// As many places as 1,024 flows have.
const PLACES: usize = 4_096;

/// Odd factors, as tables of flow numbers have them: those that are no secret, and two pairs as a seed gives them.
static FACTORS: [(u64, u64); 3] = [
    (0x9e37_79b9_7f4a_7c15, 0xd6e8_feb8_6659_fd93),
    (0x9e37_79b9_7f4a_7c15, 0xbf58_476d_1ce4_e5b9),
    (0x0123_4567_89ab_cdef, 0xfedc_ba98_7654_3211),
];

/// Which part of a five-tuple varies.
#[derive(Clone, Copy)]
enum Part {
    Proto,
    Source,
    Destination,
    SourcePort,
    DestinationPort,
}

/// The places that five-tuples took.
#[derive(Drop)]
struct Taken {
    is_taken: [bool; PLACES],
    count: u32,
}

impl Taken {
    /// None yet.
    fn none() -> Taken {
        Taken {
            is_taken: [false; PLACES],
            count: 0,
        }
    }

    /// Takes a five-tuple's place, of so many.
    fn take(&mut self, tuple: &FiveTuple, factors: (u64, u64), places: usize) {
        let place = TupleWords::new(tuple).place(factors, places.max(1)) % PLACES;
        if !self.is_taken[place] {
            self.is_taken[place] = true;
            self.count = self.count.saturating_add(1);
        }
    }
}

/// An address of the same kind with that byte at that place.
fn with_byte(address: Ip, place: usize, byte: u8) -> Ip {
    match address {
        Ip::V4(octets) => {
            let mut octets = octets;
            octets[place % 4] = byte;
            Ip::V4(octets)
        }
        Ip::V6(octets) => {
            let mut octets = octets;
            octets[place % 16] = byte;
            Ip::V6(octets)
        }
    }
}

/// A five-tuple between two addresses that differs from others in that part alone, by that number.
fn varied(src: Ip, dst: Ip, part: Part, number: u8) -> FiveTuple {
    let tuple = FiveTuple {
        proto: 17,
        src,
        dst,
        sport: 40_000,
        dport: 443,
    };
    match part {
        Part::Proto => FiveTuple {
            proto: number,
            ..tuple
        },
        Part::Source => FiveTuple {
            src: with_byte(src, 15, number),
            ..tuple
        },
        Part::Destination => FiveTuple {
            dst: with_byte(dst, 15, number),
            ..tuple
        },
        Part::SourcePort => FiveTuple {
            sport: u16::from(number),
            ..tuple
        },
        Part::DestinationPort => FiveTuple {
            dport: u16::from(number),
            ..tuple
        },
    }
}

/// Whether 256 five-tuples that differ in one part alone mostly have places of their own. Of random ones 248 would, in
/// the mean.
fn words_are_spread(rt: &impl Abort, src: Ip, dst: Ip) {
    let parts = [
        Part::Proto,
        Part::Source,
        Part::Destination,
        Part::SourcePort,
        Part::DestinationPort,
    ];
    for part in &parts {
        for factors in &FACTORS {
            let mut taken = Taken::none();
            for number in 0..=u8::MAX {
                taken.take(&varied(src, dst, *part, number), *factors, PLACES);
            }
            assert!(rt; taken.count >= 200, "{}", taken.count);
        }
    }
}

/// Whether the five-tuples of sixteen sources and sixteen destinations mostly have places of their own, where addresses
/// differ in that byte alone: by its low bits, and by its high ones. They have one protocol and no ports, as those of
/// ICMP and ESP.
fn ends_are_spread(rt: &impl Abort, address: Ip, byte: usize) {
    for factors in &FACTORS {
        let mut low = Taken::none();
        let mut high = Taken::none();
        for number in 0..=u8::MAX {
            let tuple = FiveTuple {
                proto: 58,
                src: with_byte(address, byte, number >> 4),
                dst: with_byte(address, byte, number & 15),
                sport: 0,
                dport: 0,
            };
            low.take(&tuple, *factors, PLACES);
            let tuple = FiveTuple {
                src: with_byte(address, byte, number & 240),
                dst: with_byte(address, byte, number << 4),
                ..tuple
            };
            high.take(&tuple, *factors, PLACES);
        }
        assert!(rt; low.count >= 200, "byte {byte}: {}", low.count);
        assert!(rt; high.count >= 200, "byte {byte}: {}", high.count);
    }
}

/// Whether 256 protocols between two addresses take all of a few places.
fn protocols_are_spread(rt: &impl Abort, address: Ip, places: u32) {
    for factors in &FACTORS {
        let mut taken = Taken::none();
        for number in 0..=u8::MAX {
            let tuple = varied(address, address, Part::Proto, number);
            taken.take(&tuple, *factors, places as usize);
        }
        assert_eq!(rt; taken.count, places);
    }
}

/// Whether about half of 256 five-tuples have their places in the second half of many.
fn many_places_are_reached(rt: &impl Abort, address: Ip, places: usize) {
    for factors in &FACTORS {
        let mut beyond: u32 = 0;
        for number in 0..=u8::MAX {
            let tuple = varied(address, address, Part::SourcePort, number);
            if TupleWords::new(&tuple).place(*factors, places.max(1)) >= places / 2 {
                beyond = beyond.saturating_add(1);
            }
        }
        assert!(rt; 80 < beyond && beyond < 176, "{places}: {beyond}");
    }
}

#[cfg(test)]
mod tests {
    use super::*;

    #[test]
    fn words_of_five_tuples_are_spread(rt: HostRuntime) {
        words_are_spread(&rt, SHORT, SHORT);
        words_are_spread(&rt, SHORT, LONG);
        words_are_spread(&rt, LONG, SHORT);
        words_are_spread(&rt, LONG, LONG);
    }

    #[test]
    fn both_ends_are_spread(rt: HostRuntime) {
        for byte in 0..4 {
            ends_are_spread(&rt, SHORT, byte);
        }
        for byte in 0..16 {
            ends_are_spread(&rt, LONG, byte);
        }
    }

    #[test]
    fn second_halves_are_reached(rt: HostRuntime) {
        for bits in 1..19_u32 {
            many_places_are_reached(&rt, SHORT, 1 << bits);
            many_places_are_reached(&rt, LONG, 1 << bits);
        }
    }

    #[test]
    fn protocols_are_spread_over_few_places(rt: HostRuntime) {
        for places in [4, 8, 16] {
            protocols_are_spread(&rt, SHORT, places);
            protocols_are_spread(&rt, LONG, places);
        }
    }
}
