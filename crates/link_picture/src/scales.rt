//! The scales of a picture's panels.

ghost use Rattle.std.specs.Prelude.{◌≡◌, ◌<◌, ◌≤◌, ◌^◌, ◌*◌, ◌+◌, IfOk, IsTrue};

use crate::octaves::{octave, power_of_ten_upto};
use journal_core::Memory;
use std::alloc::Global;

/// The least delay of a scale, in microseconds: shorter ones are drawn as it.
const LEAST_WAIT: u64 = 100;

/// The delay that each scale has at least, in microseconds.
const USUAL_WAIT: u64 = 1_000;

/// A scale of rates begins at this part of the greatest rate at the lowest.
const RATE_SPAN: u64 = 1_000_000;

/// With so many steps of `octave` or more, about four powers of ten, a scale has marks at the powers of ten alone.
const MANY: u64 = 13_500;

/// A scale of delays, from one of `octave` to another.
#[derive(Clone, Copy, Debug, PartialEq, Eq)]
pub struct WaitScale {
    /// That of the least delay.
    pub low: u64,
    /// That of the greatest.
    pub high: u64,
    pub ghost is_wide: { low < high },
}

impl WaitScale {
    ghost use Rattle.link_picture.specs.Extremes.{IsWaitScale};

    /// The scale on which a delay of so many microseconds is near the end.
    pub fn upto(longest: u64) -> WaitScale
        ensures { IsWaitScale longest result }
    {
        let low = octave(LEAST_WAIT);
        let high = octave(longest.max(USUAL_WAIT)).max(low) + 128;
        WaitScale { low, high }
    }

    /// Round delays on the scale, from the least on, in microseconds, as `marks_between` has them. It fails only if it
    /// is out of memory.
    pub fn marks(&self, alloc: Global) -> Result<Vec<u64>, Memory> {
        marks_between(alloc, LEAST_WAIT, self.low, self.high)
    }
}

/// A scale of rates, from one of `octave` to another.
#[derive(Clone, Copy, Debug, PartialEq, Eq)]
pub struct RateScale {
    /// The rate at its lower end, in bits per second, a power of ten: lower ones are drawn as it.
    pub least: u64,
    /// `octave` of that rate.
    pub low: u64,
    /// That of its upper end.
    pub high: u64,
    pub ghost is_wide: { low < high },
}

impl RateScale {
    ghost use Rattle.link_picture.specs.Extremes.{IsRateScale};

    /// The scale on which both rates are, and at least a power of ten. It begins at a millionth of the greater one at the
    /// lowest.
    pub fn of(least: u64, most: u64) -> RateScale
        ensures { IsRateScale least most result }
    {
        let wanted = least.min(most / 10).max(most / RATE_SPAN).max(1);
        let least = power_of_ten_upto(wanted);
        let low = octave(least);
        let high = octave(most.max(1)).max(low) + 1_024;
        RateScale { least, low, high }
    }

    /// Round rates on the scale, from the least on, in bits per second, as `marks_between` has them. It fails only if it
    /// is out of memory.
    pub fn marks(&self, alloc: Global) -> Result<Vec<u64>, Memory> {
        marks_between(alloc, self.least, self.low, self.high)
    }
}

/// Round numbers on a scale, from a power of ten on: powers of ten, and two and five times these unless the scale is long.
fn marks_between(alloc: Global, least: u64, low: u64, high: u64) -> Result<Vec<u64>, Memory> {
    let mut marks = Vec::new(alloc);
    let mut tens = least;
    for _turn in 0..20 {
        mark(&mut marks, high, tens)?;
        if high.saturating_sub(low) < MANY {
            mark(&mut marks, high, tens.saturating_mul(2))?;
            mark(&mut marks, high, tens.saturating_mul(5))?;
        }
        if tens > u64::MAX / 10 {
            break;
        }
        tens = tens.saturating_mul(10);
    }
    Ok(marks)
}

/// Adds a number, if it is on the scale.
fn mark(marks: &mut Vec<u64>, high: u64, number: u64) -> Result<(), Memory> {
    if octave(number.max(1)) <= high {
        marks.push(number)?;
    }
    Ok(())
}

/// The least of 1, 2, 5, 10, 20, 50 .. of which so many reach a length.
pub fn round_step(length: u64, steps: u64) -> u64
    ensures some { 0 < result }
    ensures reach { 0 < steps → length ≤ steps * result }
{
    let mut tens = 1u64;
    for _turn in 0..20 {
        for times in [1, 2, 5] {
            let step = tens.saturating_mul(times).max(1);
            if reaches(length, steps, step) {
                return step;
            }
        }
        tens = tens.saturating_mul(10);
    }
    u64::MAX
}

/// Whether so many steps reach a length.
#[tactic(auto, using(crate::proofs::AxisLemmas::reached))]
fn reaches(length: u64, steps: u64, step: u64) -> bool
    requires { 0 < step }
    ensures { IsTrue result → length ≤ steps * step }
{
    length.div_ceil(step) <= steps
}
