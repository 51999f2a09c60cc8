//! The memory for enqueues that are still to come.

ghost use Rattle.std.specs.Prelude.{◌≡◌, ◌+◌, ◌-◌, ◌^◌, ◌<◌, ◌≤◌, ◌⊎◌, max, OnErr, OnOk, length};
ghost use Rattle.flow_core.specs.FlowLists.{waiting_in};
ghost use Rattle.sched_core.specs.EnqueueRooms.{TakesMemory, room_of};

use crate::sched::MAX_ACCEPTED;
use fair_core::FairQueue;
use journal_core::{Event, Journal, Memory, Recorder};

/// Memory is taken for so many enqueues at once where there is none.
const TAKEN_AHEAD: u64 = 64;

/// How many enqueues there is memory for, and how many of them nobody reserved. Those that are reserved come first.
#[derive(Clone, Copy, Debug)]
pub(crate) struct EnqueueRoom {
    enqueues: u64,
    ahead: u64,
}

impl EnqueueRoom {
    /// For none.
    pub(crate) fn none() -> EnqueueRoom
        ensures { result ≡ record { enqueues = 0; ahead = 0 } }
    {
        EnqueueRoom {
            enqueues: 0,
            ahead: 0,
        }
    }

    /// Reserves so many enqueues, and takes memory for them where there is less.
    pub(crate) fn reserve<K: Recorder>(
        &mut self,
        enqueues: u64,
        fair_queue: &mut FairQueue,
        journal: &mut Journal<K>,
    ) -> Result<(), Memory>
        requires most { enqueues ≤ MAX_ACCEPTED }
        requires events { length journal.old.events + waiting_in fair_queue.old.queues.lists ≤ 2 ^ 42 }
        requires held { waiting_in fair_queue.old.queues.lists + self.old.enqueues ≤ fair_queue.old.capacity }
        ensures room { OnOk result (room_of self.new ≡ max (room_of self.old) enqueues) }
        ensures capacity { OnOk result (fair_queue.new.capacity
            ≡ max fair_queue.old.capacity (waiting_in fair_queue.old.queues.lists + enqueues)) }
        ensures memory { TakesMemory self.old.enqueues fair_queue.old journal.old
            self.new.enqueues fair_queue.new journal.new }
        ensures missing { OnErr result (self.old.enqueues < enqueues) }
        ensures short { OnErr result (K.can_refuse
            ⊎ (fair_queue.old.capacity < waiting_in fair_queue.old.queues.lists + enqueues)) }
        ensures flows { OnErr result (fair_queue.new ≡ fair_queue.old) }
        ensures err { OnErr result (self.new ≡ self.old) }
    {
        if enqueues <= self.enqueues {
            self.promise(enqueues);
            return Ok(());
        }
        self.grow(enqueues, fair_queue, journal)?;
        self.promise(enqueues);
        Ok(())
    }

    /// Sees to memory for an enqueue. It is refused only where there is none and none for one enqueue can be taken.
    #[inline(always)]
    pub(crate) fn provide<K: Recorder>(
        &mut self,
        fair_queue: &mut FairQueue,
        journal: &mut Journal<K>,
    ) -> Result<(), Memory>
        requires { length journal.old.events + waiting_in fair_queue.old.queues.lists ≤ 2 ^ 42 }
        ensures ok { OnOk result (0 < self.new.enqueues) }
        ensures room { room_of self.new ≡ room_of self.old }
        ensures none_taken { 0 < self.old.enqueues → fair_queue.new ≡ fair_queue.old }
        ensures memory { TakesMemory self.old.enqueues fair_queue.old journal.old
            self.new.enqueues fair_queue.new journal.new }
        ensures missing { OnErr result (self.old.enqueues ≡ 0) }
        ensures short { OnErr result (K.can_refuse
            ⊎ (fair_queue.old.capacity < waiting_in fair_queue.old.queues.lists + 1)) }
        ensures flows { OnErr result (fair_queue.new ≡ fair_queue.old) }
    {
        if self.enqueues > 0 {
            return Ok(());
        }
        self.take_ahead(fair_queue, journal)
    }

    /// Takes memory for several enqueues at once or, where that is refused, for one.
    // Kept out of an enqueue: most find memory.
    #[inline(never)]
    fn take_ahead<K: Recorder>(
        &mut self,
        fair_queue: &mut FairQueue,
        journal: &mut Journal<K>,
    ) -> Result<(), Memory>
        requires none { self.old.enqueues ≡ 0 }
        requires events { length journal.old.events + waiting_in fair_queue.old.queues.lists ≤ 2 ^ 42 }
        ensures ok { OnOk result (0 < self.new.enqueues) }
        ensures room { room_of self.new ≡ room_of self.old }
        ensures memory { TakesMemory self.old.enqueues fair_queue.old journal.old
            self.new.enqueues fair_queue.new journal.new }
        ensures short { OnErr result (K.can_refuse
            ⊎ (fair_queue.old.capacity < waiting_in fair_queue.old.queues.lists + 1)) }
        ensures flows { OnErr result (fair_queue.new ≡ fair_queue.old) }
    {
        if self.grow(TAKEN_AHEAD, fair_queue, journal).is_ok() {
            return Ok(());
        }
        self.grow(1, fair_queue, journal)
    }

    /// Takes memory for so many enqueues. No more are reserved than before.
    fn grow<K: Recorder>(
        &mut self,
        enqueues: u64,
        fair_queue: &mut FairQueue,
        journal: &mut Journal<K>,
    ) -> Result<(), Memory>
        requires more { self.old.enqueues ≤ enqueues }
        requires most { enqueues ≤ MAX_ACCEPTED }
        requires events { length journal.old.events + waiting_in fair_queue.old.queues.lists ≤ 2 ^ 42 }
        ensures ok { OnOk result (self.new.enqueues ≡ enqueues) }
        ensures capacity { OnOk result (fair_queue.new.capacity
            ≡ max fair_queue.old.capacity (waiting_in fair_queue.old.queues.lists + enqueues)) }
        ensures room { room_of self.new ≡ room_of self.old }
        ensures memory { TakesMemory self.old.enqueues fair_queue.old journal.old
            self.new.enqueues fair_queue.new journal.new }
        ensures short { OnErr result (K.can_refuse
            ⊎ (fair_queue.old.capacity < waiting_in fair_queue.old.queues.lists + enqueues)) }
        ensures flows { OnErr result (fair_queue.new ≡ fair_queue.old) }
        ensures err { OnErr result (self.new ≡ self.old) }
    {
        // The fates of the packets that wait, the close, and each packet more with its fate.
        let events = fair_queue.waiting() + 1 + 2 * enqueues;
        journal.reserve(events as usize)?;
        fair_queue.reserve(enqueues)?;
        let reserved = self.reserved();
        self.enqueues = enqueues;
        self.ahead = enqueues - reserved;
        Ok(())
    }

    /// How many enqueues are reserved.
    #[inline(always)]
    pub(crate) fn reserved(&self) -> u64
        ensures { result ≡ room_of self.now }
    {
        self.enqueues.saturating_sub(self.ahead)
    }

    /// So many of the enqueues at least are reserved.
    fn promise(&mut self, enqueues: u64)
        requires { enqueues ≤ self.old.enqueues }
        ensures enqueues { self.new.enqueues ≡ self.old.enqueues }
        ensures room { room_of self.new ≡ max (room_of self.old) enqueues }
    {
        self.ahead = self.ahead.min(self.enqueues - enqueues);
    }

    /// An enqueue is made.
    pub(crate) fn spend(&mut self)
        requires { 0 < self.old.enqueues }
        ensures { self.new ≡ record self.old { enqueues = self.old.enqueues - 1 } }
    {
        self.enqueues -= 1;
    }
}
