//! How often a stream that is interrupted is asked again.
ghost use Rattle.std.specs.Prelude.{◌≡◌, ◌≢◌, ◌⊎◌, ◌+◌, ◌≤◌, MatchBool};
ghost use Rattle.std.specs.IoError.{error_kind};
ghost use Rattle.std.specs.declared.io.ErrorKind.TheVariants.{Interrupted};

use std::io::{self, ErrorKind};

/// So many interruptions are tried again over one reading, and as many over one writing. The next one is a fault, so that
/// a reading ends even where a stream does nothing but interrupt. Signals seldom come so often.
pub const MAX_INTERRUPTIONS: u64 = 1_000;

/// The interruptions of one reading, or of one writing.
#[derive(Debug, Drop)]
pub struct Interruptions {
    /// How many there were so far that were tried again.
    pub count: u64,
}

impl Interruptions {
    /// None so far.
    pub fn none() -> Interruptions
        ensures { result.count ≡ 0 }
    {
        Interruptions { count: 0 }
    }

    /// Whether a call that ended so is made again: where it was interrupted, and that not too often before.
    pub fn retries(&mut self, why: &io::Error) -> bool
        requires { self.old.count ≤ MAX_INTERRUPTIONS }
        ensures { MatchBool result
            ((error_kind why.now ≡ Interrupted) × (self.new.count ≡ self.old.count + 1)
            × (self.new.count ≤ MAX_INTERRUPTIONS))
            ((self.new.count ≡ self.old.count)
            × ((error_kind why.now ≢ Interrupted) ⊎ (self.old.count ≡ MAX_INTERRUPTIONS))) }
    {
        if why.kind() != ErrorKind::Interrupted || self.count == MAX_INTERRUPTIONS {
            return false;
        }
        self.count += 1;
        true
    }
}
