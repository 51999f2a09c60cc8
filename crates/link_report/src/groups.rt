//! Packets by their five-tuples.

ghost use Rattle.std.specs.Prelude.{◌≡◌, ◌<◌, [], ◌++◌, ◌∷◌, IfOk, OnOk, length};
ghost use Rattle.link_report.specs.Groups.{groups_from, with_packet};

use crate::packets::{PacketRecord, Packets};
use journal_core::Memory;
use packet_core::FiveTuple;
use std::alloc::Global;
use std::marker::Model;

/// The packets of one five-tuple.
#[derive(Drop)]
pub(crate) struct Group {
    number: u64,
    tuple: FiveTuple,
    packets: Vec<PacketRecord>,
}

impl Model for Group {
    ghost use Rattle.link_report.specs.Groups.{GroupParts};

    ghost Value = { GroupParts };

    ghost view = { λ g. record { number = g.number; tuple = g.tuple; packets = g.packets.items } };
}

impl Group {
    /// The five-tuple's number.
    pub(crate) fn number(&self) -> u64
        ensures { result ≡ self.now.number }
    {
        self.number
    }

    /// The five-tuple.
    pub(crate) fn tuple(&self) -> FiveTuple
        ensures { result ≡ self.now.tuple }
    {
        self.tuple
    }

    /// Its packets, by their ids.
    pub(crate) fn packets(&self) -> &[PacketRecord]
        ensures { result.now ≡ self.now.packets }
    {
        &self.packets
    }

    /// Adds a packet.
    fn push(&mut self, packet: &PacketRecord) -> Result<(), Memory>
        ensures { OnOk result (self.new ≡ record self.old { packets = self.old.packets ++ packet.now ∷ [] }) }
    {
        self.packets.push(*packet)?;
        Ok(())
    }
}

/// The packets by their five-tuples, in the order of these.
pub(crate) fn grouped(alloc: Global, packets: &Packets) -> Result<Vec<Group>, Memory>
    ensures { IfOk result (λ groups. groups.items ≡ groups_from 0 packets.now.packets packets.now.tuples) }
{
    let mut groups = empty_groups(alloc, packets.tuples())?;
    for packet in packets.records() {
        add(&mut groups, packet)?;
    }
    Ok(groups)
}

/// A group with no packet for each five-tuple.
fn empty_groups(alloc: Global, tuples: &[FiveTuple]) -> Result<Vec<Group>, Memory>
    ensures { IfOk result (λ groups. groups.items ≡ groups_from 0 [] tuples.now) }
{
    let mut groups = Vec::with_capacity(alloc, tuples.len())?;
    for (number, tuple) in tuples.iter().enumerate() {
        groups.push(Group {
            number: number as u64,
            tuple: *tuple,
            packets: Vec::new(alloc),
        })?;
    }
    Ok(groups)
}

/// Adds a packet to the group of its five-tuple, if there is one.
fn add(groups: &mut Vec<Group>, packet: &PacketRecord) -> Result<(), Memory>
    ensures { OnOk result (groups.new.items ≡ with_packet groups.old.items packet.now.tuple packet.now) }
{
    let number = packet.tuple as usize;
    if number < groups.len() {
        groups[number].push(packet)?;
    }
    Ok(())
}
