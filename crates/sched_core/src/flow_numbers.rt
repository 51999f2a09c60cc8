//! The flow numbers of five-tuples that came before. By the hash, the digest is most of an enqueue's time, and the
//! packets of a conversation all have the number that its first one was given.

ghost use Rattle.std.specs.Prelude.{◌≡◌, ◌<◌, ◌≤◌, IfOk};
ghost use Rattle.packet_core.specs.FlowNumber.{flow_number};
ghost use Rattle.packet_core.specs.declared.params.Classify.TheVariants.{Hash};

use journal_core::Memory;
use packet_core::{FiveTuple, Ip, Params, Seed, TupleWords, flow_of};
use std::alloc::Global;
use std::marker::Model;

/// At least as many places as this for each flow, where places aren't bounded: where a few conversations share each flow,
/// few of them share a place.
const PLACES_PER_FLOW: usize = 4;

/// Factors that are no secret: 2^64 over the golden ratio, and another odd number. Who knows them can choose five-tuples
/// that share a place, and each of these takes a digest then.
pub(crate) const KNOWN_FACTORS: (u64, u64) = (0x9e37_79b9_7f4a_7c15, 0xd6e8_feb8_6659_fd93);

/// The factors of a seed. So under another one, mostly other five-tuples share a place. The zero seed spreads them, too.
pub(crate) fn factors_of(seed: &Seed) -> (u64, u64) {
    let (first, second) = halves(&seed.0);
    // Odd ones, so that each multiplication loses nothing.
    (
        (first ^ KNOWN_FACTORS.0) | 1,
        (second ^ KNOWN_FACTORS.1) | 1,
    )
}

/// The five-tuple that stands in each place at first, with its number: a place that can be empty takes one test more at
/// each look.
const FIRST_TUPLE: FiveTuple = FiveTuple {
    proto: 0,
    src: Ip::V4([0, 0, 0, 0]),
    dst: Ip::V4([0, 0, 0, 0]),
    sport: 0,
    dport: 0,
};

/// A five-tuple and the number of its flow.
#[derive(Clone, Copy, Debug)]
pub(crate) struct Numbered {
    tuple: TupleWords,
    flow: u32,
}

/// The last two five-tuples that came to a place, so that two which share one and come in turn both keep it.
#[derive(Clone, Copy, Debug)]
pub(crate) struct Place {
    later: Numbered,
    earlier: Numbered,
}

/// The choice by the hash, with the flow numbers of five-tuples that came before. Each five-tuple has one place. All
/// memory is taken by `try_new`.
#[derive(Debug, Drop)]
pub(crate) struct FlowNumbers {
    params: Params,
    seed: Seed,
    // As many as a power of two.
    places: Vec<Place>,
    // By these a five-tuple has its place.
    factors: (u64, u64),
}

impl Model for FlowNumbers {
    ghost use Rattle.sched_core.specs.Hashing.{Hashing};

    ghost Value = { Hashing };

    ghost use Rattle.sched_core.specs.FlowNumbers.{AreFlowNumbers, hashing_of};

    ghost view = { hashing_of };

    ghost invariant = { AreFlowNumbers };
}

impl FlowNumbers {
    /// No five-tuple yet. Each will have its place by those factors. There are four places or more for each flow, or
    /// `wanted` ones where these are fewer: one at least, and made up to a power of two.
    pub(crate) fn try_new(
        alloc: Global,
        params: Params,
        seed: Seed,
        factors: (u64, u64),
        wanted: usize,
    ) -> Result<FlowNumbers, Memory>
        requires { params.classify ≡ Hash }
        ensures { IfOk result (λ numbers. numbers ≡ record { flows = params.flows; seed = seed }) }
    {
        let enough = PLACES_PER_FLOW * params.flows() as usize;
        let places = wanted.clamp(1, enough).next_power_of_two();
        let first_known = Numbered::new(&params, &seed, TupleWords::new(&FIRST_TUPLE));
        let place = Place {
            later: first_known,
            earlier: first_known,
        };
        Ok(FlowNumbers {
            params,
            seed,
            places: vec![in alloc; place; places]?,
            factors,
        })
    }

    /// The number of a five-tuple's flow.
    // Merged into an enqueue but for the digest: what is compared is then in registers.
    #[inline(always)]
    pub(crate) fn flow_of(&mut self, tuple: TupleWords) -> u32
        ensures value { result ≡ flow_number Hash self.old.flows self.old.seed tuple }
        ensures kept { self.new ≡ self.old }
    {
        let number = tuple.place(self.factors, self.places.len());
        self.places[number].recall(&self.params, &self.seed, tuple)
    }
}

impl Numbered {
    ghost use Rattle.sched_core.specs.FlowNumbers.{HasFlowNumber};

    /// A five-tuple with the number of its flow, which takes a digest.
    fn new(params: &Params, seed: &Seed, tuple: TupleWords) -> Numbered
        ensures number { HasFlowNumber params.now seed.now result }
        ensures tuple { result.tuple ≡ tuple }
    {
        Numbered {
            tuple,
            flow: flow_of(params, seed, &tuple.tuple()),
        }
    }
}

impl Place {
    ghost use Rattle.sched_core.specs.FlowNumbers.{HasFlowNumber, Remembers};

    /// The number of a five-tuple's flow. A digest is taken only where it doesn't stand here. Then it comes here, and
    /// the earlier one of two goes.
    #[inline(always)]
    fn recall(&mut self, params: &Params, seed: &Seed, tuple: TupleWords) -> u32
        requires later { HasFlowNumber params.now seed.now self.old.later }
        requires earlier { HasFlowNumber params.now seed.now self.old.earlier }
        ensures value { result ≡ flow_number params.now.classify params.now.flows seed.now tuple }
        ensures below { result < params.now.flows }
        ensures later { HasFlowNumber params.now seed.now self.new.later }
        ensures earlier { HasFlowNumber params.now seed.now self.new.earlier }
        ensures remembered { Remembers self.new tuple }
        ensures looked_at { Remembers self.old tuple → self.new ≡ self.old }
    {
        if self.later.tuple.is_same(&tuple) {
            return self.later.flow;
        }
        if self.earlier.tuple.is_same(&tuple) {
            return self.earlier.flow;
        }
        self.remember(params, seed, tuple)
    }

    /// The same where it doesn't stand here.
    // Kept out of its callers, since few packets come to it.
    #[inline(never)]
    fn remember(&mut self, params: &Params, seed: &Seed, tuple: TupleWords) -> u32
        ensures value { result ≡ flow_number params.now.classify params.now.flows seed.now tuple }
        ensures later { HasFlowNumber params.now seed.now self.new.later }
        ensures tuple { self.new.later.tuple ≡ tuple }
        ensures flow { self.new.later.flow ≡ result }
        ensures earlier { self.new.earlier ≡ self.old.later }
    {
        self.earlier = self.later;
        self.later = Numbered::new(params, seed, tuple);
        self.later.flow
    }
}

/// Sixteen bytes as two words.
fn halves(bytes: &[u8; 16]) -> (u64, u64) {
    let [a, b, c, d, e, f, g, h, i, j, k, l, m, n, o, p] = *bytes;
    (
        u64::from_be_bytes([a, b, c, d, e, f, g, h]),
        u64::from_be_bytes([i, j, k, l, m, n, o, p]),
    )
}
