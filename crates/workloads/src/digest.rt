//! A number that stands for all results of a job.

/// What multiplies each step: 2^64 over the golden ratio, made odd.
const FACTOR: u64 = 0x9e37_79b9_7f4a_7c15;

/// The digest of all that was added so far. Where one bit of the results changes, it is another one, but for chance.
#[derive(Clone, Copy)]
pub(crate) struct Digest {
    state: u64,
}

impl Digest {
    /// Of nothing.
    pub(crate) fn new() -> Digest {
        Digest { state: FACTOR }
    }

    /// One more word.
    pub(crate) fn add(&mut self, word: u64) {
        self.state = (self.state.rotate_left(23) ^ word).wrapping_mul(FACTOR);
    }

    /// Four more words, each times an odd factor of its own. It takes less time than to add one after another.
    pub(crate) fn add_four(&mut self, words: [u64; 4]) {
        let [first, second, third, fourth] = words;
        self.add(
            first
                .wrapping_mul(0xbf58_476d_1ce4_e5b9)
                .wrapping_add(second.wrapping_mul(0x94d0_49bb_1331_11eb))
                .wrapping_add(third.wrapping_mul(0xd6e8_feb8_6659_fd93))
                .wrapping_add(fourth.wrapping_mul(0xff51_afd7_ed55_8ccd)),
        );
    }

    /// More bytes, eight at a time, and how many they are.
    pub(crate) fn add_bytes(&mut self, bytes: &[u8]) {
        let (words, rest) = bytes.as_chunks::<8>();
        for word in words {
            self.add(u64::from_le_bytes(*word));
        }
        for byte in rest {
            self.add(u64::from(*byte));
        }
        self.add(bytes.len() as u64);
    }

    /// The digest.
    pub(crate) fn value(&self) -> u64 {
        self.state
    }
}
