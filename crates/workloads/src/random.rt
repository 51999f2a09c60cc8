//! Numbers that a seed determines.

/// A generator of 64-bit numbers: splitmix64 (Steele, Lea and Flood, "Fast splittable pseudorandom number generators").
#[derive(Drop)]
pub(crate) struct Random {
    state: u64,
}

impl Random {
    /// The generator of a seed, for one of its inputs.
    pub(crate) fn of(seed: u64, input: u64) -> Random {
        let mut random = Random {
            state: seed.wrapping_mul(0x2545_f491_4f6c_dd1d) ^ input << 40,
        };
        let _first = random.next();
        random
    }

    /// The next number.
    pub(crate) fn next(&mut self) -> u64 {
        self.state = self.state.wrapping_add(0x9e37_79b9_7f4a_7c15);
        let mut mixed = self.state;
        mixed = (mixed ^ mixed >> 30).wrapping_mul(0xbf58_476d_1ce4_e5b9);
        mixed = (mixed ^ mixed >> 27).wrapping_mul(0x94d0_49bb_1331_11eb);
        mixed ^ mixed >> 31
    }
}
