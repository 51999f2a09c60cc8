//! What a line asks for, and numbers in place of names.

use header_core::{Fragment, InPlaceOfPorts, Ports, Verdict};
use packet_core::Ip;
use std::alloc::{AllocError, Global};

/// What a line asks for.
#[derive(Clone, Copy)]
pub(crate) enum Asked {
    /// What a frame of Ethernet carries.
    Frame,
    /// What a link of the type of that number delivered.
    Link(u32),
    /// What a packet says.
    Packet(InPlaceOfPorts),
    /// The mark in a packet.
    Mark,
}

impl Asked {
    /// What the word asks for.
    pub(crate) fn try_new(word: &str) -> Option<Asked> {
        match word.as_bytes() {
            b"frame" => Some(Asked::Frame),
            b"packet" => Some(packet(false, false)),
            b"spi" => Some(packet(true, false)),
            b"label" => Some(packet(false, true)),
            b"mark" => Some(Asked::Mark),
            _ => word.parse().ok().map(Asked::Link),
        }
    }
}

/// What a packet says, with these in place of the ports.
fn packet(esp_spi: bool, flow_label: bool) -> Asked {
    Asked::Packet(InPlaceOfPorts {
        esp_spi,
        flow_label,
    })
}

/// The number of a verdict.
pub(crate) fn verdict_number(verdict: Verdict) -> u8 {
    match verdict {
        Verdict::Fine => 0,
        Verdict::Short => 1,
        Verdict::NotIp => 2,
        Verdict::BadIhl => 3,
        Verdict::BadLength => 4,
        Verdict::Overrun => 5,
        Verdict::BadChain => 6,
        Verdict::TooLong => 7,
        Verdict::BadJumbo => 8,
        Verdict::Cut => 9,
    }
}

/// The number of a part of a datagram.
pub(crate) fn fragment_number(fragment: Fragment) -> u8 {
    match fragment {
        Fragment::Whole => 0,
        Fragment::Atomic => 1,
        Fragment::First => 2,
        Fragment::Later => 3,
    }
}

/// The number of a place of ports.
pub(crate) fn ports_number(ports: Ports) -> u8 {
    match ports {
        Ports::Absent => 0,
        Ports::Found => 1,
        Ports::Beyond => 2,
        Ports::Cut => 3,
        Ports::Fragment => 4,
    }
}

/// The bytes of an address in hexadecimal digits.
pub(crate) fn address(alloc: Global, ip: &Ip) -> Result<String, AllocError> {
    hex::encode(alloc, ip.octets())
}
