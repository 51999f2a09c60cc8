//! The packets that went through a queue disc, which proofs alone read.

ghost use Rattle.std.specs.Prelude.{◌≡◌, [], ◌∷◌, ◌++◌, false, true};

use crate::answers::Handle;
use sched_core::GhostList;
use std::marker::Model;

/// The packets that a queue disc accepted, those that a dequeue gave, those whose drops were read and those that were
/// flushed, over all renewals, and the moments at which memory for a renewal was refused. It takes no memory.
#[derive(Debug, Drop)]
pub(crate) struct GhostPackets {
    accepted: GhostList<Handle>,
    sent: GhostList<Handle>,
    read: GhostList<Handle>,
    flushed: GhostList<Handle>,
    unrenewed: GhostList<u64>,
}

impl Model for GhostPackets {
    ghost use Rattle.queue_disc_core.specs.PacketLists.{Packets};
    ghost use Rattle.queue_disc_core.specs.PacketListsKept.{packet_lists_of};

    ghost Value = { Packets };

    ghost view = { packet_lists_of };
}

impl GhostPackets {
    ghost use Rattle.queue_disc_core.specs.PacketLists.{no_packets_yet};

    /// No packet yet.
    pub(crate) fn new() -> GhostPackets
        ensures { result ≡ no_packets_yet }
    {
        GhostPackets {
            accepted: GhostList::new(),
            sent: GhostList::new(),
            read: GhostList::new(),
            flushed: GhostList::new(),
            unrenewed: GhostList::new(),
        }
    }

    /// A packet is accepted.
    #[inline(always)]
    pub(crate) fn accept(&mut self, packet: Handle)
        ensures { self.new ≡ record self.old { accepted = self.old.accepted ++ packet ∷ [] } }
    {
        self.accepted = self.accepted.and(&packet);
    }

    /// A packet is given by a dequeue.
    #[inline(always)]
    pub(crate) fn send(&mut self, packet: Handle)
        ensures { self.new ≡ record self.old { sent = self.old.sent ++ packet ∷ [] } }
    {
        self.sent = self.sent.and(&packet);
    }

    /// A packet's drop is read.
    #[inline(always)]
    pub(crate) fn read(&mut self, packet: Handle)
        ensures { self.new ≡ record self.old { read = self.old.read ++ packet ∷ [] } }
    {
        self.read = self.read.and(&packet);
    }

    /// A packet is flushed.
    #[inline(always)]
    pub(crate) fn flush(&mut self, packet: Handle)
        ensures { self.new ≡ record self.old { flushed = self.old.flushed ++ packet ∷ [] } }
    {
        self.flushed = self.flushed.and(&packet);
    }

    /// A renewal was due at that moment. Where memory for it was refused, that is noted.
    pub(crate) fn note_renewal(&mut self, renewed: bool, moment: u64)
        ensures made { renewed ≡ true → self.new ≡ self.old }
        ensures refused { renewed ≡ false
            → self.new ≡ record self.old { unrenewed = self.old.unrenewed ++ moment ∷ [] } }
    {
        if !renewed {
            self.unrenewed = self.unrenewed.and(&moment);
        }
    }
}
