//! The exact time at which a link gets free.

ghost use Rattle.std.specs.Prelude.{◌≡◌, ◌^◌, ◌<◌, ◌≤◌};

use crate::link::Link;

/// A time: whole microseconds, and what is left of it, in units of which a microsecond has as many as the link's rate
/// has bits per second.
#[derive(Clone, Copy, Debug, PartialEq, Eq)]
pub(crate) struct FreeAt {
    /// The whole microseconds.
    pub(crate) moment: u64,
    /// The units above them, fewer than a microsecond has.
    pub(crate) rest: u64,
}

impl FreeAt {
    ghost use Rattle.std.specs.Int.{div_ceil};
    ghost use Rattle.link_core.specs.Underway.{IsFreeAfter, units_of};

    /// That moment exactly.
    pub(crate) fn at(moment: u64) -> FreeAt
        ensures { result ≡ record { moment = moment; rest = 0 } }
    {
        FreeAt { moment, rest: 0 }
    }

    /// When the link gets free that sends a packet of that length from this time on.
    pub(crate) fn after(self, link: &Link, len: u32) -> FreeAt
        requires len { len ≤ 65535 }
        requires rest { self.rest ≤ link.now.rate }
        requires soon { self.moment < 2 ^ 60 }
        ensures { IsFreeAfter link.now self len result }
    {
        let rate = link.rate();
        let units = self.rest + link.work(len);
        FreeAt {
            moment: self.moment + units / rate,
            rest: units % rate,
        }
    }

    /// The time, rounded up to a whole microsecond.
    pub(crate) fn rounded_up(self, link: &Link) -> u64
        requires soon { self.moment < 2 ^ 61 }
        requires rest { self.rest ≤ link.now.rate }
        ensures { result ≡ div_ceil (units_of link.now self) link.now.rate }
    {
        self.moment + self.rest.div_ceil(link.rate())
    }
}
