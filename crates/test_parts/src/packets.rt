//! Packets: each part that goes in comes back, alone and beside the greatest values of the other parts.

use packet_core::{Ecn, FiveTuple, Ip, Packet, TupleWords};
use std::process::Abort;

/// An address of IPv4 whose bytes all differ.
const SHORT: Ip = Ip::V4([10, 2, 3, 4]);

/// An address of IPv6 whose bytes all differ.
const LONG: Ip = Ip::V6([32, 1, 13, 184, 4, 5, 6, 7, 8, 9, 10, 11, 12, 14, 15, 255]);

/// An address of IPv6 that begins with the bytes of the one of IPv4.
const OTHER: Ip = Ip::V6([10, 2, 3, 4, 0, 0, 0, 0, 0, 0, 0, 0, 0, 0, 0, 0]);

/// A packet with the greatest values, but for its addresses, ECN field and tag.
fn greatest(rt: &impl Abort, src: Ip, dst: Ip, ecn: Ecn) -> Packet {
    let tuple = FiveTuple {
        proto: 255,
        src,
        dst,
        sport: 65_535,
        dport: 65_535,
    };
    Packet::try_new(tuple, 65_535, ecn).expect(rt, "a packet")
}

/// Whether a packet between two addresses gives them back, with the other parts.
fn addresses_come_back(rt: &impl Abort, src: Ip, dst: Ip) {
    let packet = greatest(rt, src, dst, Ecn::Ect1).with_tag(u64::MAX);
    let tuple = packet.tuple();
    assert!(rt; tuple.src == src);
    assert!(rt; tuple.dst == dst);
    assert_eq!(rt; tuple.proto, 255);
    assert_eq!(rt; tuple.sport, 65_535);
    assert_eq!(rt; packet.dport(), 65_535);
    assert_eq!(rt; packet.len(), 65_535);
    assert!(rt; packet.ecn() == Ecn::Ect1);
    assert_eq!(rt; packet.tag(), u64::MAX);
}

/// Whether the words of a packet between two addresses are those of its five-tuple and of no other, whatever its length
/// and its ECN field are.
fn words_are_of_one_five_tuple(rt: &impl Abort, src: Ip, dst: Ip) {
    let packet = greatest(rt, src, dst, Ecn::Ect1);
    let tuple = packet.tuple();
    let words = packet.tuple_words();
    assert!(rt; words.tuple() == tuple);
    assert!(rt; words.is_same(&TupleWords::new(&tuple)));
    let shorter = Packet::try_new(tuple, 1, Ecn::Ce).expect(rt, "a packet");
    assert!(rt; words.is_same(&shorter.tuple_words()));
    let others = [
        FiveTuple {
            proto: 254,
            ..tuple
        },
        FiveTuple {
            sport: 32_767,
            ..tuple
        },
        FiveTuple {
            dport: 65_534,
            ..tuple
        },
        FiveTuple {
            src: OTHER,
            ..tuple
        },
        FiveTuple {
            dst: OTHER,
            ..tuple
        },
    ];
    for other in &others {
        assert!(rt; !words.is_same(&TupleWords::new(other)));
    }
}

#[cfg(test)]
mod tests {
    use super::*;
    use std::test::Fail;

    #[test]
    fn addresses_of_either_kind_come_back(rt: HostRuntime) {
        addresses_come_back(&rt, SHORT, SHORT);
        addresses_come_back(&rt, SHORT, LONG);
        addresses_come_back(&rt, LONG, SHORT);
        addresses_come_back(&rt, LONG, LONG);
    }

    #[test]
    fn words_tell_five_tuples_apart(rt: HostRuntime) {
        words_are_of_one_five_tuple(&rt, SHORT, SHORT);
        words_are_of_one_five_tuple(&rt, SHORT, LONG);
        words_are_of_one_five_tuple(&rt, LONG, SHORT);
        words_are_of_one_five_tuple(&rt, LONG, LONG);
    }

    #[test]
    fn least_values_come_back(rt: HostRuntime) {
        let tuple = FiveTuple {
            proto: 0,
            src: Ip::V4([0, 0, 0, 0]),
            dst: Ip::V6([0; 16]),
            sport: 0,
            dport: 0,
        };
        let packet = Packet::try_new(tuple, 1, Ecn::NotEct).expect(&rt, "a packet");
        assert!(&rt; packet.tuple() == tuple);
        assert_eq!(&rt; packet.len(), 1);
        assert!(&rt; packet.ecn() == Ecn::NotEct);
        assert_eq!(&rt; packet.tag(), 0);
    }

    #[test]
    fn a_mark_changes_the_ecn_field_alone(rt: HostRuntime) {
        let packet = greatest(&rt, LONG, SHORT, Ecn::Ect0).with_tag(7);
        let marked = packet.marked();
        assert!(&rt; marked.ecn() == Ecn::Ce);
        assert!(&rt; marked.is_same(&greatest(&rt, LONG, SHORT, Ecn::Ce).with_tag(7)));
        assert!(&rt; !marked.is_same(&packet));
        assert!(&rt; !packet.with_tag(8).is_same(&packet));
        let other = greatest(&rt, SHORT, LONG, Ecn::Ect1);
        assert!(&rt; other.marked().ecn() == Ecn::Ce);
    }

    #[test]
    fn the_parts_are_shown(rt: HostRuntime) -> Result<(), Fail> {
        let tuple = FiveTuple {
            proto: 17,
            src: SHORT,
            dst: SHORT,
            sport: 5000,
            dport: 53,
        };
        let packet = Packet::try_new(tuple, 100, Ecn::Ect0).expect(&rt, "a packet");
        let shown = format!(in rt.alloc(); "{:?}", packet.with_tag(9))?;
        let wanted = "Packet { tuple: FiveTuple { proto: 17, src: V4([10, 2, 3, 4]), \
                      dst: V4([10, 2, 3, 4]), sport: 5000, dport: 53 }, len: 100, ecn: Ect0, tag: 9 }";
        assert_eq!(&rt; shown.as_str(), wanted);
        Ok(())
    }

    #[test]
    fn words_show_their_five_tuple(rt: HostRuntime) -> Result<(), Fail> {
        let tuple = FiveTuple {
            proto: 17,
            src: SHORT,
            dst: Ip::V4([10, 5, 6, 7]),
            sport: 5000,
            dport: 53,
        };
        let shown = format!(in rt.alloc(); "{:?}", TupleWords::new(&tuple))?;
        let wanted =
            "FiveTuple { proto: 17, src: V4([10, 2, 3, 4]), dst: V4([10, 5, 6, 7]), sport: 5000, dport: 53 }";
        assert_eq!(&rt; shown.as_str(), wanted);
        Ok(())
    }
}

/// What is said of a packet of no bytes.
#[test]
fn text_of_a_wrong_length(rt: HostRuntime) {
    let tuple = FiveTuple {
        proto: 17,
        src: SHORT,
        dst: SHORT,
        sport: 1,
        dport: 2,
    };
    let refused = Packet::try_new(tuple, 0, Ecn::NotEct).err();
    let fault = refused.expect(&rt, "a refusal");
    let told = format!(in rt.alloc(); "{fault}").expect(&rt, "memory");
    assert_eq!(rt; told.as_str(), "a packet has 1 to 65,535 bytes");
}
