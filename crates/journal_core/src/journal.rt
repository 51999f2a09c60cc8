//! The events so far, with the counts that run along.

ghost use Rattle.std.specs.Prelude.{◌≡◌, ◌+◌, ◌*◌, ◌-◌, ◌^◌, ◌<◌, ◌≤◌, [], IfOk, OnOk, OnErr, length};
ghost use Rattle.journal_core.specs.declared.journal.TheConstants.{MAX_EVENTS};

use crate::event::{Cause, Event};
use crate::recorder::{EventList, NullRecorder, Recorder};
use crate::step::Memory;
use codel_core::{Mark, Served};
use packet_core::Waiting;
use std::alloc::Global;
use std::marker::Model;

/// The most events of a journal. 2^40 packets have at most two each, there is one close, and room may be reserved for
/// as many packets more.
pub const MAX_EVENTS: usize = 1 << 43;

/// Numbers of events and sums of lengths, in bytes, that run along with the journal.
#[derive(Clone, Copy, Debug, PartialEq, Eq)]
pub struct Counts {
    /// Packets accepted.
    pub accepted: u64,
    /// The sum of their lengths.
    pub accepted_bytes: u64,
    /// Packets sent.
    pub sent: u64,
    /// The sum of their lengths.
    pub sent_bytes: u64,
    /// Packets that CoDel dropped.
    pub dropped_codel: u64,
    /// Packets that overflowed.
    pub dropped_overflow: u64,
    /// The sum of the lengths of all dropped packets.
    pub dropped_bytes: u64,
    /// Packets sent with a mark of CoDel's.
    pub marked: u64,
    /// Packets sent with a mark for the threshold.
    pub threshold_marked: u64,
}

/// The events so far, as a recorder is told them. Room for more is taken ahead, so that to record one can't fail. With
/// a recorder of this crate it takes no memory then.
#[derive(Debug, Drop)]
pub struct Journal<K: Recorder = EventList> {
    recorder: K,
    counts: Counts,
}

impl<K: Recorder> Model for Journal<K> {
    ghost use Rattle.journal_core.specs.Books.{Book, CountsFewEvents, book_of};

    ghost Value = { Book };

    ghost view = { λ j. book_of (K.told j.recorder) (K.sent j.recorder) (K.lost j.recorder) j.counts
        (K.room j.recorder) (K.made_for j.recorder) };

    ghost invariant = { λ j. CountsFewEvents j.counts (K.told j.recorder) };
}

impl<K: Recorder> Journal<K> {
    ghost use Rattle.packet_core.specs.Packets.{IsLengthInRange};
    ghost use Rattle.journal_core.specs.Books.{no_counts, with_departure, with_event, with_loss, count_accepted, count_sent, count_dropped};
    ghost use Rattle.journal_core.specs.declared.event.Event.TheVariants.{Accepted, Closed};
    ghost use Rattle.journal_core.specs.declared.event.Event.TheVariants as event;

    /// A journal with no event, and room for `room` of them, over a recorder that was told none.
    pub fn try_over(mut recorder: K, room: usize) -> Result<Journal<K>, Memory>
        requires untold { K.told recorder ≡ [] }
        requires none_sent { K.sent recorder ≡ [] }
        requires no_loss { K.lost recorder ≡ [] }
        requires most { room ≤ MAX_EVENTS }
        ensures { IfOk result
            (λ j. (j.events ≡ []) × (j.sent ≡ []) × (j.lost ≡ []) × (j.counts ≡ no_counts) × (room ≤ j.room)
            × (j.made_for ≡ K.made_for recorder)) }
    {
        recorder.reserve(room)?;
        Ok(Journal {
            recorder,
            counts: Counts {
                accepted: 0,
                accepted_bytes: 0,
                sent: 0,
                sent_bytes: 0,
                dropped_codel: 0,
                dropped_overflow: 0,
                dropped_bytes: 0,
                marked: 0,
                threshold_marked: 0,
            },
        })
    }

    /// Takes room for `room` events more. Where there is room for so many, it takes no memory and doesn't fail.
    pub fn reserve(&mut self, room: usize) -> Result<(), Memory>
        requires { length self.old.events + room ≤ MAX_EVENTS }
        ensures events { self.new.events ≡ self.old.events }
        ensures sent { self.new.sent ≡ self.old.sent }
        ensures lost { self.new.lost ≡ self.old.lost }
        ensures counts { self.new.counts ≡ self.old.counts }
        ensures room { self.old.room ≤ self.new.room }
        ensures ok { OnOk result (room ≤ self.new.room) }
        ensures missing { OnErr result (self.old.room < room) }
        ensures err { OnErr result (self.new ≡ self.old) }
        ensures made_for { self.new.made_for ≡ self.old.made_for }
        ensures refused { OnErr result K.can_refuse }
    {
        self.recorder.reserve(room)
    }

    /// Who is told what becomes of each packet.
    pub fn recorder(&self) -> &K
        ensures told { K.told result.now ≡ self.now.events }
        ensures sent { K.sent result.now ≡ self.now.sent }
        ensures lost { K.lost result.now ≡ self.now.lost }
        ensures made_for { K.made_for result.now ≡ self.now.made_for }
    {
        &self.recorder
    }

    /// The recorder, once it is told nothing more.
    pub fn into_recorder(self) -> K
        ensures told { K.told result ≡ self.events }
        ensures sent { K.sent result ≡ self.sent }
        ensures lost { K.lost result ≡ self.lost }
        ensures made_for { K.made_for result ≡ self.made_for }
    {
        let Journal {
            recorder,
            counts: _,
        } = self;
        recorder
    }

    /// The counts that run along.
    pub fn counts(&self) -> Counts
        ensures { result ≡ self.now.counts }
    {
        self.counts
    }

    /// A packet was accepted.
    pub fn accept(&mut self, waiting: &Waiting, lane: u32, flow: u32)
        requires { 0 < self.old.room }
        ensures { self.new ≡ with_event self.old
            (Accepted lane waiting.now.id waiting.now.stamp flow waiting.now.packet)
            (count_accepted self.old.counts waiting.now.packet.len) }
    {
        self.counts.accepted += 1;
        self.counts.accepted_bytes += u64::from(waiting.packet.len());
        self.recorder.accept(waiting, lane, flow);
    }

    /// A packet was given to the device, with that ECN field. The recorder is told of it with the packet, as it left.
    pub fn send(&mut self, served: &Served, moment: u64)
        requires { 0 < self.old.room }
        ensures { self.new ≡ with_departure self.old
            (event.Sent served.now.waiting.id moment served.now.waiting.packet.ecn served.now.mark)
            (count_sent self.old.counts served.now.waiting.packet.len served.now.mark) served.now.waiting }
    {
        self.counts.sent += 1;
        self.counts.sent_bytes += u64::from(served.waiting.packet.len());
        match served.mark {
            Mark::NoMark => {}
            Mark::CodelMark => self.counts.marked += 1,
            Mark::Threshold => self.counts.threshold_marked += 1,
        }
        self.recorder.send(served, moment);
    }

    /// A packet was dropped. The recorder is told of it with the packet, as it waited.
    pub fn drop(&mut self, waiting: &Waiting, moment: u64, cause: Cause)
        requires { 0 < self.old.room }
        ensures { self.new ≡ with_loss self.old
            (event.Dropped waiting.now.id moment cause)
            (count_dropped self.old.counts waiting.now.packet.len cause) waiting.now }
    {
        match cause {
            Cause::Codel => self.counts.dropped_codel += 1,
            Cause::Overflow => self.counts.dropped_overflow += 1,
        }
        self.counts.dropped_bytes += u64::from(waiting.packet.len());
        self.recorder.lose(waiting, moment, cause);
    }

    /// There was a close.
    pub fn close(&mut self, moment: u64)
        requires { 0 < self.old.room }
        ensures { self.new ≡ with_event self.old (Closed moment) self.old.counts }
    {
        self.recorder.close(moment);
    }
}

impl Journal<EventList> {
    ghost use Rattle.journal_core.specs.Books.{no_counts};

    /// A journal with no event, and room for `room` of them.
    pub fn try_new(alloc: Global, room: usize) -> Result<Journal, Memory>
        requires { room ≤ MAX_EVENTS }
        ensures { IfOk result
            (λ j. (j.events ≡ []) × (j.sent ≡ []) × (j.lost ≡ []) × (j.counts ≡ no_counts) × (room ≤ j.room)) }
    {
        Journal::try_over(EventList::new(alloc), room)
    }

    /// The events so far, in order.
    pub fn events(&self) -> &[Event]
        ensures { result.now ≡ self.now.events }
    {
        self.recorder.events()
    }

    /// Where its memory comes from.
    pub fn allocator(&self) -> Global {
        self.recorder.allocator()
    }
}

// A journal that stores no event takes the bytes of its counts alone.
const _: () = prove!(size_of::<Journal<NullRecorder>>() == size_of::<Counts>());
