//! A packet that is given, and its mark.

ghost use Rattle.std.specs.Prelude.{◌≡◌};
ghost use Rattle.packet_core.specs.declared.packet.Ecn.TheVariants.{Ce};
ghost use Rattle.codel_core.specs.Verdict.{threshold_mark};

use crate::judge::is_past_threshold;
use packet_core::{Params, Waiting};

/// What set the ECN field of a packet that is given.
#[derive(Clone, Copy, Debug, PartialEq, Eq)]
pub enum Mark {
    /// The sender: it is the field that was accepted.
    NoMark,
    /// CoDel set it to CE, in place of a drop.
    CodelMark,
    /// It was set to CE since the packet had waited longer than the threshold (RFC 8290, section 5.2.7).
    Threshold,
}

/// A packet that is given, with its ECN field as sent.
#[derive(Clone, Copy, Debug, PartialEq, Eq)]
pub struct Served {
    /// The packet.
    pub waiting: Waiting,
    /// What set its ECN field.
    pub mark: Mark,
}

impl Served {
    ghost use Rattle.codel_core.specs.Verdict.{served};
    ghost use Rattle.codel_core.specs.declared.served.Mark.TheVariants as marks;

    /// A packet with that mark: with its ECN field at CE, unless it has none.
    #[inline(always)]
    pub(crate) fn with_mark(waiting: &Waiting, mark: Mark) -> Served
        ensures { result ≡ served mark waiting.now }
    {
        match mark {
            Mark::NoMark => Served {
                waiting: *waiting,
                mark,
            },
            Mark::CodelMark | Mark::Threshold => Served {
                waiting: with_ce(waiting),
                mark,
            },
        }
    }
}

/// The mark of a packet that CoDel doesn't mark.
#[inline(always)]
pub(crate) fn mark_by_threshold(waiting: &Waiting, now: u64, params: &Params) -> Mark
    ensures { result ≡ threshold_mark params.now now waiting.now }
{
    if is_past_threshold(waiting, now, params) {
        Mark::Threshold
    } else {
        Mark::NoMark
    }
}

/// The packet with its ECN field at CE.
fn with_ce(waiting: &Waiting) -> Waiting
    ensures { result ≡ record waiting.now { packet = record waiting.now.packet { ecn = Ce } } }
{
    Waiting {
        id: waiting.id,
        stamp: waiting.stamp,
        packet: waiting.packet.marked(),
    }
}
