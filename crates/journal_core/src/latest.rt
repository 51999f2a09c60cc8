//! For each flow the place that was stored last.

ghost use Rattle.std.specs.Prelude.{◌≡◌, ◌≢◌, ℕ, ◌%◌, ◌⊎◌, List, [], length, slice_index, slice_set};

use std::alloc::Global;
use std::marker::Model;

/// For how many flows a place is stored. It is the standard number of flows (tc-fq_codel(8)).
const FLOWS: usize = 1024;

/// After how many packets `LatestPlaces` asks for memory: for fewer, places save less than the memory costs.
pub const PACKETS_FOR_PLACES: usize = 64;

/// For each flow, modulo 1,024, the place that was stored for it last. Most packets have the five-tuple that their flow's
/// last one had, so the place of that one is a guess. Until memory is taken, no place is stored.
#[derive(Debug, Drop)]
pub struct LatestPlaces {
    places: Vec<usize>,
}

impl Model for LatestPlaces {
    ghost Value = { List ℕ };

    ghost view = { λ latest. latest.places.items };
}

impl LatestPlaces {
    /// No place. It takes no memory.
    pub fn new(alloc: Global) -> LatestPlaces
        ensures { result ≡ [] }
    {
        LatestPlaces {
            places: Vec::new(alloc),
        }
    }

    /// Takes memory for the places with the 64th packet, if so many came. From then on places are stored. If the memory is
    /// refused, all stays as it was: callers do without guesses. It is asked for again where `packets` is 64 once more.
    #[inline(always)]
    pub fn prepare(&mut self, packets: usize)
        ensures same { (flow : ℕ) → slice_index self.new flow ≡ slice_index self.old flow }
        ensures stored { (self.new ≡ self.old) ⊎ (length self.new ≡ 1024) }
        ensures once { packets ≢ 64 → self.new ≡ self.old }
    {
        if packets == PACKETS_FOR_PLACES && self.places.is_empty() {
            // Refused, it leaves the list as it was.
            let _stored = self.places.resize(FLOWS, 0);
        }
    }

    /// The place that was stored last for that flow, and 0 where there is none.
    #[inline(always)]
    pub fn at(&self, flow: u32) -> usize
        ensures { result ≡ slice_index self.now (flow % 1024) }
    {
        match self.places.get(flow as usize % FLOWS) {
            Some(place) => *place,
            None => 0,
        }
    }

    /// Stores the place of that flow, where places are stored.
    #[inline(always)]
    pub fn set(&mut self, flow: u32, place: usize)
        ensures { self.new ≡ slice_set self.old (flow % 1024) place }
    {
        if let Some(latest) = self.places.get_mut(flow as usize % FLOWS) {
            *latest = place;
        }
    }
}
