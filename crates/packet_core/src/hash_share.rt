//! A flow and a queue from a hash of 32 bits that a network card made, as for receive-side scaling. A hash modulo the
//! number of flows would serve badly: the card has chosen the queue by the same low bits.

ghost use Rattle.std.specs.Prelude.{◌≡◌, ◌<◌};
ghost use Rattle.packet_core.specs.HashShares.{HasShare, scaled_hash, turned_hash};

/// The flow of a packet with this hash, by the hash's high bits, as Linux's `reciprocal_scale` has it: below `flows`,
/// and 0 where that is 0.
pub fn flow_of_hash(hash: u32, flows: u32) -> u32
    ensures value { result ≡ scaled_hash hash flows }
    ensures below { 0 < flows → result < flows }
{
    ((u64::from(hash) * u64::from(flows)) >> 32) as u32
}

/// The queue of a packet with this hash, by the hash's low half: below `queues`, and 0 where that is 0. So the packets
/// of one queue are spread over flows as those of all queues are.
pub fn queue_of_hash(hash: u32, queues: u32) -> u32
    ensures value { result ≡ scaled_hash (turned_hash hash) queues }
    ensures below { 0 < queues → result < queues }
{
    flow_of_hash((hash % 65_536) * 65_536 + hash / 65_536, queues)
}

/// Each of so many numbers gets an equal share of all hashes, rounded down or up. The shares stand side by side.
pub fn hashes_are_shared(values: u32, value: u32)
    requires { value < values }
    ensures { HasShare values value }
{}

/// No two hashes have the same turned one, so queues have equal shares as flows have.
pub fn turned_hashes_differ(hash: u32)
    ensures { turned_hash (turned_hash hash) ≡ hash }
{}
