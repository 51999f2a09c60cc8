//! What a link is: its rate, and what a packet takes on its wire.

ghost use Rattle.std.specs.Prelude.{◌≡◌, ◌↔◌, ◌<◌, ◌≤◌, ◌*◌, IsOk, IfOk, IfErr};
ghost use Rattle.packet_core.specs.Packets.{IsLengthInRange};

use std::marker::Model;
use thiserror::Error;

/// A field of a link that has a range, in the order in which the ranges are tested.
#[derive(Clone, Copy, Debug, PartialEq, Eq, Hash, Error)]
pub enum LinkName {
    /// The rate.
    #[error("rate")]
    Rate,
    /// The bytes on the wire beside a packet's own.
    #[error("overhead")]
    Overhead,
    /// The least bytes on the wire.
    #[error("mpu")]
    Mpu,
}

/// A link as it is written down, in range or not.
#[derive(Clone, Copy, Debug, PartialEq, Eq, Hash)]
pub struct LinkFields {
    /// The rate, in bits per second.
    pub rate: u64,
    /// The bytes that each packet has on the wire beside its own.
    pub overhead: u32,
    /// A packet that has fewer bytes on the wire is filled up to so many (tc-stab(8), `mpu`).
    pub mpu: u32,
}

/// A link, with each field in its range.
#[derive(Clone, Copy, Debug, PartialEq, Eq, Hash)]
pub struct Link {
    fields: LinkFields,
}

impl Model for Link {
    ghost use Rattle.link_core.specs.declared.link.LinkFields.{LinkFields};
    ghost use Rattle.link_core.specs.Links.{IsLink};

    ghost Value = { LinkFields };

    ghost view = { λ l. l.fields };

    ghost invariant = { λ l. IsLink l.fields };

    ghost inverse = { λ v. record { fields = v } };
}

impl Link {
    ghost use Rattle.link_core.specs.Links.{IsFirstLinkFault, IsLink, IsMpuInRange, IsOverheadInRange, IsRateInRange, wire, work};

    /// The link, where each field is in its range. Otherwise it names the first that isn't.
    pub fn try_new(fields: LinkFields) -> Result<Link, LinkName>
        ensures ranges { IsOk result ↔ IsLink fields }
        ensures value { IfOk result (λ link. link ≡ fields) }
        ensures first { IfErr result (λ name. IsFirstLinkFault name fields) }
    {
        if fields.rate < 1_000 || fields.rate > 1_000_000_000_000 {
            return Err(LinkName::Rate);
        }
        if fields.overhead > 1_000 {
            return Err(LinkName::Overhead);
        }
        if fields.mpu > 65_535 {
            return Err(LinkName::Mpu);
        }
        Ok(Link { fields })
    }

    /// The rate, from 1,000 to 10^12 bits per second.
    pub fn rate(&self) -> u64
        ensures value { result ≡ self.now.rate }
        ensures range { IsRateInRange result }
    {
        self.fields.rate
    }

    /// The bytes that each packet has on the wire beside its own, up to 1,000.
    pub fn overhead(&self) -> u32
        ensures value { result ≡ self.now.overhead }
        ensures range { IsOverheadInRange result }
    {
        self.fields.overhead
    }

    /// The least bytes of a packet on the wire, up to 65,535.
    pub fn mpu(&self) -> u32
        ensures value { result ≡ self.now.mpu }
        ensures range { IsMpuInRange result }
    {
        self.fields.mpu
    }

    /// How many bytes a packet of that length has on the wire.
    pub fn wire(&self, len: u32) -> u64
        ensures value { result ≡ wire self.now len }
        ensures most { len ≤ 65535 → result ≤ 66535 }
    {
        (u64::from(len) + u64::from(self.fields.overhead)).max(u64::from(self.fields.mpu))
    }

    /// How long the wire takes for a packet of that length, in units of which a microsecond has as many as the rate
    /// has bits per second.
    pub fn work(&self, len: u32) -> u64
        requires { len ≤ 65535 }
        ensures value { result ≡ work self.now len }
        ensures most { result ≤ 8000000 * 66535 }
    {
        8_000_000 * self.wire(len)
    }
}
