//! The ports of a packet.

ghost use Rattle.std.specs.Prelude.{◌≡◌, ◌+◌, ◌<◌, ◌≤◌, ◌^◌};
ghost use Rattle.header_core.specs.PortFields.{begins_with_ports, ports_at, without_ports};

use crate::fields::be16_at;
use crate::header::{InPlaceOfPorts, Ports};

/// The source port and the destination port, both 0 unless they were found.
#[derive(Clone, Copy)]
pub(crate) struct PortPair {
    pub kind: Ports,
    pub sport: u16,
    pub dport: u16,
}

/// No ports.
pub(crate) fn without_ports(kind: Ports) -> PortPair
    ensures { result ≡ without_ports kind }
{
    PortPair {
        kind,
        sport: 0,
        dport: 0,
    }
}

/// Whether the header of a protocol begins with a source port and a destination port, or with what the caller takes for
/// them.
fn begins_with_ports(proto: u8, instead: InPlaceOfPorts) -> bool
    ensures { result ≡ begins_with_ports proto instead.esp_spi }
{
    match proto {
        6 | 17 | 33 | 132 | 136 => true,
        50 => instead.esp_spi,
        _ => false,
    }
}

/// The ports of a protocol whose header begins at a byte, in a packet of that length.
#[tactic(auto, unfolding(crate::specs::PortFields::ports_at))]
pub(crate) fn ports_at(
    bytes: &[u8],
    proto: u8,
    at: usize,
    len: usize,
    instead: InPlaceOfPorts,
) -> PortPair
    requires { at < 2 ^ 32 }
    ensures { result ≡ ports_at bytes.now proto at len instead.esp_spi }
{
    if !begins_with_ports(proto, instead) {
        return without_ports(Ports::Absent);
    }
    if len < at + 4 {
        return without_ports(Ports::Beyond);
    }
    if bytes.len() < at + 4 {
        return without_ports(Ports::Cut);
    }
    PortPair {
        kind: Ports::Found,
        sport: be16_at(bytes, at),
        dport: be16_at(bytes, at + 2),
    }
}
