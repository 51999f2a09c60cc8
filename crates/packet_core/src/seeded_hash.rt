//! The hash by which five-tuples are found in a table.

ghost use Rattle.std.specs.Prelude.{◌≡◌};
ghost use Rattle.std.specs.Hash.DefaultHasher as sip;
ghost use Rattle.packet_core.specs.TupleHash.{initial_hasher};

use crate::flow::Seed;
use std::hash::{BuildHasher, DefaultHasher, Hasher};

/// Makes the hashers of a table of five-tuples: SipHash-1-3, which hashes the seed first. Senders who don't know the
/// seed can't choose five-tuples that share places of the table; nothing of that is proved.
#[derive(Clone, Copy)]
pub struct SeededHash {
    initial: DefaultHasher,
}

impl SeededHash {
    /// The hash by that seed.
    pub fn new(seed: &Seed) -> SeededHash
        ensures { initial_hasher result ≡ sip.write sip.initial seed.now.0 }
    {
        let mut initial = DefaultHasher::new();
        initial.write(&seed.0);
        SeededHash { initial }
    }
}

impl BuildHasher for SeededHash {
    type Hasher = DefaultHasher;

    ghost build_hasher = { initial_hasher };

    fn build_hasher(&self) -> DefaultHasher {
        self.initial
    }
}
