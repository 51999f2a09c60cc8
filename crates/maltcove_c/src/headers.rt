//! The calls that read a packet's bytes, and the one that marks them. They need no scheduler, and take no memory.

ghost use Rattle.std.specs.Prelude.{◌≡◌, ◌≤◌, length};
ghost use Rattle.std.specs.Bool.{OnFalse, OnTrue};
ghost use Rattle.header_core.specs.Marks.{KeepsSums, Marks, is_markable};
ghost use Rattle.maltcove_c.specs.Headers.{IsFound, IsParsed, ethertype_said, instead_of_flags, with_ce};
ghost use Rattle.maltcove_c.specs.declared.status.TheConstants.{MARKED, UNMARKED};

use crate::records::{
    MaltcoveFound, MaltcovePacket, MaltcoveWhere, found_from, packet_from, where_from,
};
use crate::status::{MARKED, UNMARKED, carried_code, verdict_code};
use header_core::{InPlaceOfPorts, dissect, find_packet, mark};

/// The ethertype that a link says.
fn ethertype_said(number: u16) -> Option<u16>
    ensures { result ≡ ethertype_said number }
{
    if number == 0 { None } else { Some(number) }
}

/// What is wanted in place of the ports.
fn instead_of_flags(flags: u32) -> InPlaceOfPorts
    ensures { result ≡ instead_of_flags flags }
{
    InPlaceOfPorts {
        esp_spi: flags % 2 == 1,
        flow_label: flags / 2 % 2 == 1,
    }
}

/// Reads the headers of a packet.
#[unsafe(no_mangle)]
pub extern "C" fn maltcove_raw_parse(
    bytes: &[u8],
    wire: usize,
    ethertype: u16,
    flags: u32,
    packet: &mut MaltcovePacket,
    place: &mut MaltcoveWhere,
) -> i32
    ensures { IsParsed bytes.now wire ethertype flags packet.old.tag result packet.new place.new }
{
    let header = dissect(
        bytes,
        wire,
        ethertype_said(ethertype),
        instead_of_flags(flags),
    );
    *packet = packet_from(&header, packet.tag);
    *place = where_from(&header);
    verdict_code(header.verdict)
}

/// Finds the packet in what a link delivered.
#[unsafe(no_mangle)]
pub extern "C" fn maltcove_raw_find(bytes: &[u8], link_type: u32, found: &mut MaltcoveFound) -> i32
    ensures found { IsFound bytes.now link_type result found.new }
    ensures within { found.new.offset ≤ length bytes.now }
{
    let carried = find_packet(bytes, link_type);
    *found = found_from(&carried);
    carried_code(&carried)
}

/// Writes CE into a packet, and returns whether it did.
#[unsafe(no_mangle)]
pub extern "C" fn maltcove_raw_mark(bytes: &mut [u8], place: &mut MaltcoveWhere) -> i32
    ensures marked { OnTrue (is_markable bytes.old)
        ((result ≡ MARKED) × Marks bytes.old bytes.new × KeepsSums bytes.old bytes.new × (place.new ≡ with_ce place.old)) }
    ensures unmarked { OnFalse (is_markable bytes.old)
        ((result ≡ UNMARKED) × (bytes.new ≡ bytes.old) × (place.new ≡ place.old)) }
{
    if !mark(bytes) {
        return UNMARKED;
    }
    place.ecn = 3;
    MARKED
}
