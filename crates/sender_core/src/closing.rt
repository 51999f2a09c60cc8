//! The close of a run.
ghost use Rattle.std.specs.Prelude.{◌≡◌, ◌≢◌, IsOk, MatchResult};
ghost use Rattle.journal_core.specs.declared.step.Refusal.TheVariants.{ClosedAlready};

use sched_core::Refusal;

/// What a close answers in a run, where it was answered so by a port: it is made, or it is passed over, since there was a
/// close before. Any other refusal stays.
pub fn closed_once(answer: Result<u64, Refusal>) -> Result<(), Refusal>
    ensures { MatchResult answer (λ _. IsOk result)
        (λ why. MatchResult result (λ _. why ≡ ClosedAlready) (λ fault. (fault ≡ why) × (why ≢ ClosedAlready))) }
{
    match answer {
        Ok(_) | Err(Refusal::ClosedAlready) => Ok(()),
        Err(refusal) => Err(refusal),
    }
}
