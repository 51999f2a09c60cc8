//! The recorder of a queue disc's scheduler: it has the drops since the last acceptance, and nothing else.

ghost use Rattle.std.specs.Prelude.{◌≡◌, ◌+◌, ◌-◌, ◌<◌, ◌≤◌, [], ◌∷◌, ◌++◌, IfOk, length, vec_capacity};
ghost use Rattle.journal_core.specs.MadeFor.{for_packets};
ghost use Rattle.queue_disc_core.specs.Drops.{IsDropAt, causes_of, settled_drops};

use crate::answers::Dropped;
use codel_core::Served;
use packet_core::Waiting;
use sched_core::{Cause, Event, GhostList, Memory, Recorder};
use std::alloc::Global;
use std::marker::Model;

/// It keeps the drops since the last acceptance, up to the number that it was made for: no more are lost between two
/// acceptances than packets may wait. Where a packet is accepted it forgets them, so they have to be read before. It
/// asks for no memory once it is made.
#[derive(Debug, Drop)]
pub(crate) struct Drops {
    drops: Vec<Dropped>,
    most: usize,
    told: GhostList<Event>,
    sent: GhostList<Waiting>,
    lost: GhostList<Waiting>,
}

impl Model for Drops {
    ghost use Rattle.queue_disc_core.specs.DropsKept.{AreKept, drop_tale_of};
    ghost use Rattle.queue_disc_core.specs.Drops.{DropTale};

    ghost Value = { DropTale };

    ghost view = { drop_tale_of };

    ghost invariant = { AreKept };
}

impl Drops {
    /// Nothing was told yet. It takes memory for so many drops.
    pub(crate) fn try_new(alloc: Global, most: usize) -> Result<Drops, Memory>
        requires { 0 < most }
        ensures { IfOk result
            (λ d. (d.events ≡ []) × (d.sent ≡ []) × (d.lost ≡ []) × (d.made_for ≡ most)) }
    {
        let mut drops = Vec::new(alloc);
        drops.reserve(most)?;
        Ok(Drops {
            drops,
            most,
            told: GhostList::new(),
            sent: GhostList::new(),
            lost: GhostList::new(),
        })
    }

    /// It was made for some. It does nothing when it runs: it is called for its clause.
    #[inline(always)]
    pub(crate) fn is_made_for_some(&self)
        ensures { 0 < self.now.made_for }
    {
        let _ = &self.most;
    }

    /// Where its memory comes from.
    pub(crate) fn allocator(&self) -> Global {
        *self.drops.allocator()
    }

    /// How many drops are kept: those since the last acceptance.
    #[inline(always)]
    pub(crate) fn kept(&self) -> u64
        requires { length self.now.lost ≤ self.now.made_for + settled_drops self.now.events }
        ensures { length self.now.lost ≡ result + settled_drops self.now.events }
    {
        self.drops.len() as u64
    }

    /// The drop that stands at that place from the end: the last one has 1.
    pub(crate) fn dropped(&self, back: usize) -> Dropped
        requires some { 0 < back }
        requires few { length self.now.lost ≤ self.now.made_for + settled_drops self.now.events }
        requires recent { back + settled_drops self.now.events ≤ length (causes_of self.now.events) }
        requires told { length self.now.lost ≡ length (causes_of self.now.events) }
        ensures { IsDropAt self.now.events self.now.lost (length self.now.lost - back) result }
    {
        self.drops[self.drops.len() - back]
    }
}

/// Keeps one drop more, where fewer than so many are kept.
#[inline(always)]
fn keep(drops: &mut Vec<Dropped>, most: usize, drop: Dropped)
    requires { most ≤ vec_capacity drops.old }
    ensures pushed { length drops.old.items < most → drops.new.items ≡ drops.old.items ++ drop ∷ [] }
    ensures full { most ≤ length drops.old.items → drops.new.items ≡ drops.old.items }
    ensures fit { most ≤ vec_capacity drops.new }
{
    if drops.len() < most {
        drops.push_reserved(drop);
    }
}

impl Recorder for Drops {
    ghost told = { λ drops. drops.events };

    ghost sent = { λ drops. drops.sent };

    ghost lost = { λ drops. drops.lost };

    ghost room = { λ drops. drops.room };

    ghost made_for = { λ drops. for_packets drops.made_for };

    ghost can_refuse = { ⊥ };

    #[inline(always)]
    fn accept(&mut self, packet: &Waiting, lane: u32, flow: u32) {
        self.drops.clear();
        self.told = self.told.and(&Event::acceptance(packet, lane, flow));
    }

    #[inline(always)]
    fn send(&mut self, served: &Served, moment: u64) {
        self.told = self.told.and(&Event::departure(served, moment));
        self.sent = self.sent.and(&served.waiting);
    }

    fn lose(&mut self, packet: &Waiting, moment: u64, cause: Cause) {
        let drop = Dropped {
            tag: packet.packet.tag(),
            id: packet.id,
            cause,
        };
        keep(&mut self.drops, self.most, drop);
        self.told = self.told.and(&Event::loss(packet, moment, cause));
        self.lost = self.lost.and(packet);
    }

    fn close(&mut self, moment: u64) {
        self.told = self.told.and(&Event::Closed { moment });
    }

    fn reserve(&mut self, more: usize) -> Result<(), Memory> {
        self.told = self.told.with_room(more);
        Ok(())
    }
}
