//! A recorder that stores of each event what a report says of it.

ghost use Rattle.std.specs.Prelude.{◌≡◌, ◌-◌, ◌<◌, ◌++◌, ◌∷◌, [], map};
ghost use Rattle.journal_core.specs.Notes.{note_of};

use crate::event::{Cause, Event};
use crate::ghost_list::GhostList;
use crate::note::Note;
use crate::recorder::Recorder;
use crate::step::Memory;
use codel_core::Served;
use packet_core::Waiting;
use std::alloc::Global;
use std::marker::Model;

/// It stores a note of each event that it is told. The events, and the packets that are sent and that are lost, stand in
/// proofs alone.
#[derive(Debug, Drop)]
pub struct Noted {
    notes: Vec<Note>,
    told: GhostList<Event>,
    sent: GhostList<Waiting>,
    lost: GhostList<Waiting>,
}

impl Model for Noted {
    ghost use Rattle.journal_core.specs.Notes.{AreNoted, Tale, tale_of};

    ghost Value = { Tale };

    ghost view = { tale_of };

    ghost invariant = { AreNoted };
}

impl Noted {
    /// Nothing was told yet.
    pub fn new(alloc: Global) -> Noted
        ensures events { result.events ≡ [] }
        ensures sent { result.sent ≡ [] }
        ensures lost { result.lost ≡ [] }
    {
        Noted {
            notes: Vec::new(alloc),
            told: GhostList::new(),
            sent: GhostList::new(),
            lost: GhostList::new(),
        }
    }

    /// Stores what a report says of an event.
    #[inline(always)]
    fn note(&mut self, event: &Event)
        requires { 0 < self.old.room }
        ensures { self.new ≡ record self.old {
          events = self.old.events ++ event.now ∷ [];
          room = self.old.room - 1;
        } }
    {
        self.notes.push_reserved(Note::of(event));
        self.told = self.told.and(event);
    }

    /// A note of each event that it was told, in order.
    #[inline(always)]
    pub fn notes(&self) -> &[Note]
        ensures { result.now ≡ map note_of self.now.events }
    {
        &self.notes
    }

    /// The events that it was told, which only proofs read.
    pub(crate) fn told(&self) -> &GhostList<Event>
        ensures { result.now.items ≡ self.now.events }
    {
        &self.told
    }
}

impl Recorder for Noted {
    ghost told = { λ noted. noted.events };

    ghost sent = { λ noted. noted.sent };

    ghost lost = { λ noted. noted.lost };

    ghost room = { λ noted. noted.room };

    #[inline(always)]
    fn accept(&mut self, packet: &Waiting, lane: u32, flow: u32) {
        self.note(&Event::acceptance(packet, lane, flow));
    }

    #[inline(always)]
    fn send(&mut self, served: &Served, moment: u64) {
        self.note(&Event::departure(served, moment));
        self.sent = self.sent.and(&served.waiting);
    }

    #[inline(always)]
    fn lose(&mut self, packet: &Waiting, moment: u64, cause: Cause) {
        self.note(&Event::loss(packet, moment, cause));
        self.lost = self.lost.and(packet);
    }

    #[inline(always)]
    fn close(&mut self, moment: u64) {
        self.note(&Event::Closed { moment });
    }

    fn reserve(&mut self, more: usize) -> Result<(), Memory> {
        self.notes.reserve(more)
    }
}
