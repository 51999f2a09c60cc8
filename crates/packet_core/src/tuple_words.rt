//! Five-tuples in whole words.

ghost use Rattle.std.specs.Prelude.{◌≡◌, ◌↔◌, ◌<◌, ◌≤◌, IsTrue};
ghost use Rattle.packet_core.specs.PackedPackets.{IsPacked, parts_of};

use crate::packed::{address_words, fields_word, tuple_in};
use crate::packet::{Ecn, FiveTuple};
use std::fmt::{self, Debug, Formatter, Write};
use std::hash::{Hash, Hasher};
use std::marker::Model;

/// A five-tuple in whole words, to be compared with others and to be found in a table. A packet gives it in fewer steps
/// than a `FiveTuple`, and two of them are compared without a branch.
// The words are those of a packet, but for its length and its ECN field: these bits are zero. So equal five-tuples have
// equal words.
#[derive(Clone, Copy)]
pub struct TupleWords {
    src: (u64, u64),
    dst: (u64, u64),
    fields: u64,
}

impl Model for TupleWords {
    ghost use Rattle.packet_core.specs.declared.packet.FiveTuple.{FiveTuple};

    ghost Value = { FiveTuple };

    ghost use Rattle.packet_core.specs.PackedTuples.{IsTuplePacked, tuple_packed, tuple_in};

    ghost view = { tuple_in };

    ghost invariant = { IsTuplePacked };

    ghost inverse = { tuple_packed };

    ghost inverse_ok = { λ words is_packed. is_packed };
}

impl TupleWords {
    /// The words of a five-tuple.
    pub fn new(tuple: &FiveTuple) -> TupleWords
        ensures { result ≡ tuple.now }
    {
        TupleWords {
            src: address_words(&tuple.src),
            dst: address_words(&tuple.dst),
            fields: fields_word(tuple, 0, Ecn::NotEct),
        }
    }

    /// What a packet's words say of its five-tuple.
    #[inline(always)]
    pub(crate) fn of_packet(src: (u64, u64), dst: (u64, u64), fields: u64) -> TupleWords
        requires { IsPacked (record { src = src; dst = dst; fields = fields; tag = 0 }) }
        ensures { result ≡ (parts_of (record { src = src; dst = dst; fields = fields; tag = 0 })).tuple }
    {
        TupleWords {
            src,
            dst,
            // All bits but those of the length and the ECN field.
            fields: fields & 0xfcff_ffff_0000_ffff,
        }
    }

    /// The five-tuple.
    pub fn tuple(&self) -> FiveTuple
        ensures { result ≡ self.now }
    {
        tuple_in(self.src, self.dst, self.fields)
    }

    /// Whether the two are one five-tuple.
    // All words are compared, since a branch for each takes longer.
    #[inline(always)]
    pub fn is_same(&self, other: &TupleWords) -> bool
        ensures { IsTrue result ↔ (self.now ≡ other.now) }
    {
        (self.src.0 == other.src.0)
            & (self.src.1 == other.src.1)
            & (self.dst.0 == other.dst.0)
            & (self.dst.1 == other.dst.1)
            & (self.fields == other.fields)
    }

    /// The five-tuple's place in a table of so many places, which are a power of two of 2^18 at most. Both factors are
    /// odd. It isn't a hash against an adversary: of IPv6, four five-tuples have one place under all factors. That it
    /// spreads the others isn't proved.
    #[inline(always)]
    pub fn place(&self, factors: (u64, u64), places: usize) -> usize
        requires { 1 ≤ places }
        ensures { result < places }
    {
        // A bit of a product depends on the bits of both sides up to it alone, so the topmost ones are mixed into those
        // below: of few places the number depends on the protocol, too.
        let high = self.spread(factors) >> 46;
        (high ^ high >> 9) as usize & (places - 1)
    }

    /// A number whose high bits depend on all of the five-tuple and on both factors.
    // The four of IPv6: at either end, bit 63 of an address's first word makes up for bits 63 and 31 of its second one.
    #[inline(always)]
    fn spread(&self, factors: (u64, u64)) -> u64 {
        let (first, second) = factors;
        // Two addresses of IPv4 fill a word, and those of IPv6 are mixed into one each.
        let kinds = self.fields >> 58;
        let ends = if kinds == 0 {
            self.src.0.rotate_left(32) ^ self.dst.0
        } else {
            let src = mixed(mixed(self.src.0, second) ^ self.src.1, first);
            let dst = mixed(mixed(self.dst.0, second) ^ self.dst.1, first);
            // An address's last byte is the top one of its second word. It changes bits 56 to 63 of what is mixed, and
            // by them 24 to 31. Turned by 16 these lie apart from those of the other end. Turned by 32 they would lie
            // on them, and only the difference of both last bytes would count.
            src.rotate_left(16) ^ dst ^ kinds
        };
        (mixed(ends, first) ^ self.fields).wrapping_mul(second)
    }
}

/// It hashes the five words, which takes fewer steps than the parts one by one.
impl Hash for FiveTuple {
    ghost use Rattle.packet_core.specs.TupleHash.{inputs_agree, tuple_input};

    ghost hash_input = { tuple_input };

    ghost respects_eq = { inputs_agree };

    fn hash<H: Hasher>(&self, state: &mut H) {
        let words = TupleWords::new(self);
        state.write_u64(words.src.0);
        state.write_u64(words.src.1);
        state.write_u64(words.dst.0);
        state.write_u64(words.dst.1);
        state.write_u64(words.fields);
    }
}

/// It shows the five-tuple, and not the words.
impl Debug for TupleWords {
    fn fmt<W: Write>(&self, f: &mut Formatter<W>) -> fmt::Result {
        self.tuple().fmt(f)
    }
}

/// A word times a factor, whose high bits are mixed into its low ones for the next multiplication.
fn mixed(word: u64, factor: u64) -> u64 {
    let product = word.wrapping_mul(factor);
    product ^ product >> 32
}
