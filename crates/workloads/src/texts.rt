//! The texts of traces and of arrivals.

use crate::Fault;
use crate::random::Random;
use itoa::Buffer;
use std::alloc::Global;

/// The most five-tuples: one less than a power of two.
pub(crate) const MAX_MASK: u64 = 32_767;

/// The ends of `enq` rows, each a length and an ECN field: the sizes of packets as links have them.
static MIXED: [&[u8]; 8] = [
    b"1514,0\n",
    b"1514,2\n",
    b"64,0\n",
    b"576,0\n",
    b"1514,0\n",
    b"64,0\n",
    b"1514,1\n",
    b"64,0\n",
];

/// The same of short packets, with a long one among them.
static SHORT: [&[u8]; 8] = [
    b"64,0\n",
    b"64,0\n",
    b"64,0\n",
    b"64,2\n",
    b"64,0\n",
    b"64,0\n",
    b"1514,0\n",
    b"64,0\n",
];

/// The same of packets that all take part in ECN.
static MARKED: [&[u8]; 8] = [
    b"1514,2\n",
    b"1514,2\n",
    b"64,1\n",
    b"576,2\n",
    b"1514,2\n",
    b"64,1\n",
    b"1514,1\n",
    b"64,2\n",
];

/// What the packets of a text are like.
#[derive(Clone, Copy)]
pub(crate) enum Lengths {
    /// Long and short ones, some with ECN.
    Mixed,
    /// Nearly all of 64 bytes.
    Short,
    /// Long and short ones, all with ECN.
    Marked,
}

/// What the addresses of a text are.
#[derive(Clone, Copy)]
pub(crate) enum Kinds {
    /// IPv4 alone.
    Four,
    /// Half of IPv4 and half of IPv6.
    Both,
}

/// What a text is like.
#[derive(Clone, Copy)]
pub(crate) struct Shape {
    pub(crate) rows: u32,
    pub(crate) kinds: Kinds,
    pub(crate) lengths: Lengths,
    /// The numbers of five-tuples, as the ones of a mask. Three packets of four are of the first sixteen.
    pub(crate) tuples: u64,
    /// Whether few five-tuples have most of the packets.
    pub(crate) few_are_busy: bool,
    /// How many rows of 256 are `enq`.
    pub(crate) arrivals: u64,
    /// So many rows have one moment, as a mask.
    pub(crate) burst: u64,
    /// The most microseconds between two moments, as a mask.
    pub(crate) gap: u64,
}

impl Shape {
    /// The same with fewer rows: one of so many parts.
    pub(crate) fn shorter(&self, parts: u32) -> Shape {
        Shape {
            rows: self.rows.checked_div(parts).unwrap_or(0),
            ..*self
        }
    }
}

/// The text of a shape.
pub(crate) fn text(alloc: Global, shape: &Shape, random: &mut Random) -> Result<Vec<u8>, Fault> {
    let fronts = fronts(alloc, shape, random)?;
    let mut text = Vec::new(alloc);
    if let Kinds::Both = shape.kinds {
        text.extend_from_slice(b"version,2\n")?;
    }
    let mut moment = 0u64;
    for number in 0..shape.rows {
        let bits = random.next();
        if u64::from(number) & shape.burst == 0 {
            moment = moment.wrapping_add(bits & shape.gap) & ((1 << 50) - 1);
        }
        if bits >> 16 & 255 < shape.arrivals {
            arrival(&mut text, shape, &fronts, moment, bits >> 24)?;
        } else {
            put_moment(&mut text, b"deq,", moment)?;
            text.extend_from_slice(b"\n")?;
        }
    }
    Ok(text)
}

/// The row of a packet that comes.
fn arrival(
    text: &mut Vec<u8>,
    shape: &Shape,
    fronts: &[String],
    moment: u64,
    bits: u64,
) -> Result<(), Fault> {
    let is_busy = shape.few_are_busy && bits & 3 != 0;
    let mask = if is_busy { 15 } else { shape.tuples };
    put_moment(text, b"enq,", moment)?;
    if let Some(front) = fronts.get((bits >> 5 & mask) as usize) {
        text.extend_from_slice(front.as_bytes())?;
    }
    let ends = match shape.lengths {
        Lengths::Mixed => &MIXED,
        Lengths::Short => &SHORT,
        Lengths::Marked => &MARKED,
    };
    text.extend_from_slice(ends[(bits >> 2 & 7) as usize])?;
    Ok(())
}

/// The kind of a row and its moment.
fn put_moment(text: &mut Vec<u8>, kind: &[u8], moment: u64) -> Result<(), Fault> {
    let mut buffer = Buffer::new();
    text.extend_from_slice(kind)?;
    text.extend_from_slice(buffer.format(moment).as_bytes())?;
    Ok(())
}

/// The fields of each five-tuple of a shape, as they stand in an `enq` row, after the moment.
fn fronts(alloc: Global, shape: &Shape, random: &mut Random) -> Result<Vec<String>, Fault> {
    let mut fronts = Vec::new(alloc);
    for number in 0..=shape.tuples.min(MAX_MASK) {
        let bits = random.next();
        let front = match shape.kinds {
            Kinds::Both if number & 1 == 1 => front_of_ipv6(alloc, bits)?,
            _ => front_of_ipv4(alloc, bits)?,
        };
        fronts.push(front)?;
    }
    Ok(fronts)
}

/// A five-tuple of IPv4.
fn front_of_ipv4(alloc: Global, bits: u64) -> Result<String, Fault> {
    let proto = if bits & 1 == 0 { 6 } else { 17 };
    let (a, b, c) = (bits >> 8 & 255, bits >> 16 & 255, bits >> 24 & 255);
    let (d, e) = (bits >> 32 & 15, bits >> 36 & 255);
    let (sport, dport) = (1024 + (bits >> 40 & 16383), bits >> 54 & 1023);
    Ok(format!(in alloc; ",{proto},10.{a}.{b}.{c},192.168.{d}.{e},{sport},{dport},")?)
}

/// A five-tuple of IPv6.
fn front_of_ipv6(alloc: Global, bits: u64) -> Result<String, Fault> {
    let proto = if bits & 1 == 0 { 6 } else { 17 };
    let (src, dst) = (
        10_000_000 + (bits >> 1 & 8_388_607),
        10_000_000 + (bits >> 24 & 65_535),
    );
    let (sport, dport) = (1024 + (bits >> 40 & 16383), bits >> 54 & 1023);
    Ok(format!(in alloc;
        ",{proto},20010db80000000000000000{src},20010db80000000100000000{dst},{sport},{dport},"
    )?)
}
