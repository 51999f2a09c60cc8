//! Which five-tuples have lines of their own in a picture.

ghost use Rattle.std.specs.Prelude.{◌≡◌, ◌==◌, ◌+◌, IfNone, IfOk, IfSome, filter, length, min, slice_index, slice_set};
ghost use Rattle.link_picture.specs.Lines.{AreChosen, AreLineCounts, AreMost, AreNone, IsPlaceOfMost, line_number_of, packets_on};

use journal_core::Memory;
use link_report::PacketRecord;
use std::alloc::Global;

/// The most five-tuples that have a line of their own.
pub const MAX_NAMED: usize = 6;

/// The numbers of the five-tuples with most packets, at most `MAX_NAMED`, in ascending order. Of two with as many packets
/// the one that came first is taken. There are so many five-tuples. It fails for want of memory alone.
pub fn choose(alloc: Global, tuples: usize, packets: &[PacketRecord]) -> Result<Vec<u64>, Memory>
    ensures { IfOk result (λ chosen. AreChosen tuples packets.now chosen.items) }
{
    let mut chosen = most_of(alloc, tuples, packets)?;
    chosen.sort()?;
    Ok(chosen)
}

/// The same numbers, those with more packets first.
#[tactic(auto, using(crate::proofs::ChoiceLemmas::begun))]
fn most_of(alloc: Global, tuples: usize, packets: &[PacketRecord]) -> Result<Vec<u64>, Memory>
    ensures { IfOk result (λ chosen. AreMost tuples packets.now chosen.items) }
{
    let mut counts = counts_of(alloc, tuples, packets)?;
    let mut chosen = Vec::new(alloc);
    for _turn in 0..MAX_NAMED {
        if let Some(place) = place_of_most(&counts) {
            counts[place] = 0;
            chosen.push(place as u64)?;
        }
    }
    Ok(chosen)
}

/// How many packets each five-tuple has.
fn counts_of(alloc: Global, tuples: usize, packets: &[PacketRecord]) -> Result<Vec<u64>, Memory>
    ensures { IfOk result (λ counts. AreLineCounts tuples packets.now counts.items) }
{
    let mut counts = zeros(alloc, tuples)?;
    for packet in packets {
        count(&mut counts, packet.tuple);
    }
    Ok(counts)
}

/// So many zeros.
fn zeros(alloc: Global, count: usize) -> Result<Vec<u64>, Memory>
    ensures long { IfOk result (λ zeros. length zeros.items ≡ count) }
    ensures none { IfOk result (λ zeros. AreNone zeros.items) }
{
    let mut zeros = Vec::new(alloc);
    for _number in 0..count {
        zeros.push(0u64)?;
    }
    Ok(zeros)
}

/// Counts one more at a place, if there is one.
fn count(counts: &mut Vec<u64>, place: u64)
    ensures { counts.new.items
        ≡ slice_set counts.old.items place (min (slice_index counts.old.items place + 1) u64.MAX) }
{
    if place < counts.len() as u64 {
        counts[place as usize] = counts[place as usize].saturating_add(1);
    }
}

/// The first place of the greatest number, if one is above 0.
fn place_of_most(counts: &[u64]) -> Option<usize>
    ensures some { IfSome result (IsPlaceOfMost counts.now) }
    ensures none { IfNone result (AreNone counts.now) }
{
    let mut most = 0;
    let mut found = None;
    for (place, count) in counts.iter().enumerate() {
        if *count > most {
            most = *count;
            found = Some(place);
        }
    }
    found
}

/// The line of the five-tuple with that number: its place among those chosen. All others have the one after these.
pub fn line_of(chosen: &[u64], tuple: u64) -> usize
    ensures { result ≡ line_number_of chosen.now tuple }
{
    for (line, number) in chosen.iter().enumerate() {
        if *number == tuple {
            return line;
        }
    }
    chosen.len()
}

/// The packets of a line, in their order. It fails for want of memory alone.
pub fn packets_on(
    alloc: Global,
    chosen: &[u64],
    line: usize,
    packets: &[PacketRecord],
) -> Result<Vec<PacketRecord>, Memory>
    ensures { IfOk result (λ own. own.items ≡ packets_on chosen.now line packets.now) }
{
    let mut own = Vec::new(alloc);
    for packet in packets {
        if line_of(chosen, packet.tuple) == line {
            own.push(*packet)?;
        }
    }
    Ok(own)
}
