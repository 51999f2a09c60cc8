//! The choice of a packet's flow, by one scheduler's parameters and seed.

ghost use Rattle.std.specs.Prelude.{◌≡◌, ◌%◌, ◌/◌, ◌<◌, ◌≤◌, IfOk, OnErr};
ghost use Rattle.packet_core.specs.FlowNumber.{flow_number};
ghost use Rattle.packet_core.specs.declared.params.Classify.TheVariants.{Hash};
ghost use Rattle.sched_core.specs.declared.classifier.TheConstants.{FEWEST_PACKETS};

use crate::flow_numbers::{FlowNumbers, KNOWN_FACTORS, factors_of};
use journal_core::Memory;
use packet_core::{Classify, Packet, Params, Seed, flow_of};
use std::alloc::Global;
use std::marker::Model;

/// The choice from the destination port: the port modulo the number of flows.
#[derive(Debug, Drop)]
pub(crate) struct PortFlows {
    flows: u32,
    // A mask takes less time than a division.
    is_power_of_two: bool,
}

impl Model for PortFlows {
    ghost use Rattle.std.specs.Prelude.{◌≡◌, ℕ, ◌<◌, count_ones, true};

    ghost Value = { ℕ };

    ghost view = { λ p. p.flows };

    ghost invariant = { λ p. (0 < p.flows) × (p.is_power_of_two ≡ true → count_ones p.flows ≡ 1) };
}

impl PortFlows {
    /// The choice of so many flows.
    fn new(flows: u32) -> PortFlows
        requires { 0 < flows }
        ensures { result ≡ flows }
    {
        PortFlows {
            flows,
            is_power_of_two: flows.is_power_of_two(),
        }
    }

    /// The number of the flow of packets to that port.
    fn flow_of(&self, port: u16) -> u32
        ensures value { result ≡ port % self.now }
        ensures below { result < self.now }
    {
        let port = u32::from(port);
        if self.is_power_of_two {
            return port & (self.flows - 1);
        }
        port % self.flows
    }
}

/// The choice of packets' flows. It is made once, with a scheduler's parameters and seed.
#[derive(Debug, Drop)]
pub(crate) enum Classifier {
    /// From the destination port, which takes no digest.
    Port(PortFlows),
    /// By the hash of the five-tuple.
    Hash(FlowNumbers),
}

impl Classifier {
    ghost use Rattle.sched_core.specs.Classifiers.{classifier_by, flow_by};

    /// The choice by those parameters and that seed. All memory that it wants is taken here.
    pub(crate) fn try_new(alloc: Global, params: &Params, seed: Seed) -> Result<Classifier, Memory>
        ensures { IfOk result
            (λ classifier. classifier ≡ classifier_by params.now.classify params.now.flows seed) }
    {
        Classifier::try_with_places(alloc, params, seed, factors_of(&seed), usize::MAX)
    }

    /// The same, where five-tuples have their places in the table by those factors. Of so many wanted places there are
    /// as many as `FlowNumbers::try_new` says.
    fn try_with_places(
        alloc: Global,
        params: &Params,
        seed: Seed,
        factors: (u64, u64),
        wanted: usize,
    ) -> Result<Classifier, Memory>
        ensures made { IfOk result
            (λ classifier. classifier ≡ classifier_by params.now.classify params.now.flows seed) }
        ensures memory { OnErr result (params.now.classify ≡ Hash) }
    {
        Ok(match params.classify() {
            Classify::Dport => Classifier::Port(PortFlows::new(params.flows())),
            Classify::Hash => {
                let numbers = FlowNumbers::try_new(alloc, *params, seed, factors, wanted)?;
                Classifier::Hash(numbers)
            }
        })
    }

    /// The number of a packet's flow.
    // It takes the packet, and not its five-tuple: that would be copied for `dport` too, which wants the port alone.
    #[inline(always)]
    pub(crate) fn flow_of(&mut self, packet: &Packet) -> u32
        ensures value { result ≡ flow_by self.old packet.now.tuple }
        ensures kept { self.new ≡ self.old }
    {
        match self {
            Classifier::Port(flows) => flows.flow_of(packet.dport()),
            Classifier::Hash(numbers) => numbers.flow_of(packet.tuple_words()),
        }
    }
}

/// A table for packets whose number is known has a place for so many of them, or up to twice as many places. So it takes
/// 24 bytes a packet at most, and little time beside the digests of packets that all have five-tuples of their own.
const PACKETS_PER_PLACE: u64 = 8;

/// For fewer packets than these no table is taken.
const FEWEST_PACKETS: u64 = 16;

/// The choice of packets' flows by parameters and a seed, as a scheduler with the same parameters and seed makes it. By
/// the hash it remembers five-tuples that came before: only one that isn't remembered takes a digest. All memory is taken
/// when it is made. No look-up in its table depends on the seed.
#[derive(Debug, Drop)]
pub struct FlowChooser {
    params: Params,
    seed: Seed,
    // None where each packet takes a digest.
    classifier: Option<Classifier>,
}

impl Model for FlowChooser {
    ghost use Rattle.std.specs.Prelude.{◌≡◌, IfSome};
    ghost use Rattle.sched_core.specs.Choosing.{Choosing};
    ghost use Rattle.sched_core.specs.Classifiers.{classifier_by};

    ghost Value = { Choosing };

    ghost view = { λ c. record { params = c.params; seed = c.seed } };

    ghost invariant = { λ c. IfSome c.classifier (λ k. k ≡ classifier_by c.params.classify c.params.flows c.seed) };
}

impl FlowChooser {
    /// The choice by those parameters and that seed. It fails for want of memory alone, and by the port never.
    pub fn try_new(alloc: Global, params: Params, seed: Seed) -> Result<FlowChooser, Memory>
        ensures made { IfOk result (λ chooser. chooser ≡ record { params = params; seed = seed }) }
        ensures memory { OnErr result (params.classify ≡ Hash) }
    {
        FlowChooser::try_with_places(alloc, params, seed, usize::MAX)
    }

    /// The same choice for about so many packets. By the hash it remembers the fewer five-tuples, the fewer packets there
    /// are: its memory is at most 24 bytes for each of them, and no more than that of `try_new`. For fewer than sixteen
    /// packets it takes no memory and doesn't fail.
    pub fn try_new_for(
        alloc: Global,
        params: Params,
        seed: Seed,
        packets: u64,
    ) -> Result<FlowChooser, Memory>
        ensures made { IfOk result (λ chooser. chooser ≡ record { params = params; seed = seed }) }
        ensures memory { OnErr result (params.classify ≡ Hash) }
        ensures many { OnErr result (FEWEST_PACKETS ≤ packets) }
    {
        if packets < FEWEST_PACKETS && params.classify() == Classify::Hash {
            return Ok(FlowChooser {
                params,
                seed,
                classifier: None,
            });
        }
        FlowChooser::try_with_places(alloc, params, seed, (packets / PACKETS_PER_PLACE) as usize)
    }

    /// The choice with a table of so many places, as `FlowNumbers::try_new` takes them.
    fn try_with_places(
        alloc: Global,
        params: Params,
        seed: Seed,
        wanted: usize,
    ) -> Result<FlowChooser, Memory>
        ensures made { IfOk result (λ chooser. chooser ≡ record { params = params; seed = seed }) }
        ensures memory { OnErr result (params.classify ≡ Hash) }
    {
        let classifier = Classifier::try_with_places(alloc, &params, seed, KNOWN_FACTORS, wanted)?;
        Ok(FlowChooser {
            params,
            seed,
            classifier: Some(classifier),
        })
    }

    /// The number of a packet's flow, below the number of flows (RFC 8290, section 4.1).
    pub fn flow_of(&mut self, packet: &Packet) -> u32
        ensures value { result
            ≡ flow_number self.old.params.classify self.old.params.flows self.old.seed packet.now.tuple }
        ensures below { result < self.old.params.flows }
        ensures kept { self.new ≡ self.old }
    {
        match &mut self.classifier {
            Some(classifier) => classifier.flow_of(packet),
            None => flow_of(&self.params, &self.seed, &packet.tuple()),
        }
    }
}
