//! The waiting packets of all flows in one slab, chained flow by flow.

ghost use Rattle.std.specs.Prelude.{◌≡◌, ◌+◌, ◌-◌, ◌^◌, ◌<◌, ◌≤◌, [], ◌∷◌, ◌++◌, IfOk, OnErr, OnOk, drop, get_or, length, max, option_copied, replicate, set, slice_get, sum_by};
ghost use Rattle.slab.specs.Slab.{ContainsKey, HasRoomFor};

use crate::limits::{MAX_FLOWS, Memory};
use codel_core::MAX_WAITING;
use packet_core::Waiting;
use slab::Slab;
use std::alloc::Global;
use std::marker::Model;

/// A packet that waits, and the key of the one behind it in its flow. That of a flow's last one isn't read:
/// the number of packets says where they end.
#[derive(Clone, Copy, Debug)]
struct Link {
    waiting: Waiting,
    next: usize,
}

/// The packets of a flow: the keys of the first and of the last one, and how many there are. Where there are none, the
/// keys aren't read.
#[derive(Clone, Copy, Debug)]
struct Chain {
    first: usize,
    last: usize,
    len: u64,
}

impl Chain {
    /// One packet, which is the first and the last.
    fn of_one(only: usize) -> Chain
        ensures { result ≡ record { first = only; last = only; len = 1 } }
    {
        Chain {
            first: only,
            last: only,
            len: 1,
        }
    }
}

/// The slots that packets left, as a chain: the key of the one that was left last, and how many there are. Where there
/// are none, the key isn't read.
#[derive(Clone, Copy, Debug)]
struct FreeSlots {
    first: usize,
    len: u64,
}

impl FreeSlots {
    ghost use Rattle.flow_core.specs.Chains.{IsInserted, IsReused};

    /// Puts a link into the slot that was left last, or into a new one where no slot is free. It returns the key.
    // The slab removes nothing, and inserts only where no slot is free: it replaces a whole entry for each value that
    // it takes in or gives out, and tests what stood there.
    #[inline(always)]
    fn place(&mut self, slots: &mut Slab<Link>, link: Link) -> usize
        requires filled { 0 < self.old.len → ContainsKey slots.old self.old.first }
        requires room { self.old.len ≡ 0 → HasRoomFor slots.old 1 }
        ensures inserted { self.old.len ≡ 0 → IsInserted slots.old slots.new self.old self.new link result }
        ensures reused { 0 < self.old.len → IsReused slots.old slots.new self.old self.new link result }
    {
        if self.len == 0 {
            // A link whose place a call knows would be written there at each push, and then read in other pieces.
            let copy = link;
            return slots.insert_reserved(copy);
        }
        let key = self.first;
        let slot = &mut slots[key];
        self.first = slot.next;
        self.len -= 1;
        *slot = link;
        key
    }
}

/// The queues of all flows. A flow is called by its number, from 0. All packets stand in one slab, and each has
/// the key of the next one of its flow. So a push and a pop touch their own flow's ends alone, whatever waits.
/// A slot that a packet leaves is written again by a later push. Room for pushes is taken ahead: only `try_new` and
/// `reserve` take memory.
#[derive(Debug, Drop)]
pub(crate) struct LinkedQueues {
    slots: Slab<Link>,
    chains: Vec<Chain>,
    free: FreeSlots,
    capacity: u64,
}

impl Model for LinkedQueues {
    ghost use Rattle.flow_core.specs.Queues.{Queues};

    ghost Value = { Queues };

    ghost use Rattle.flow_core.specs.Chains.{queues_of, AreChained};

    ghost view = { queues_of };

    ghost invariant = { AreChained };
}

impl LinkedQueues {
    /// That many flows, all of them empty.
    pub(crate) fn try_new(alloc: Global, flows: u32) -> Result<LinkedQueues, Memory>
        requires { flows ≤ MAX_FLOWS }
        ensures { IfOk result (λ c. (c.queues ≡ replicate flows []) × (c.capacity ≡ 0)) }
    {
        let empty = Chain {
            first: 0,
            last: 0,
            len: 0,
        };
        let chains = vec![in alloc; empty; flows as usize]?;
        Ok(LinkedQueues {
            slots: Slab::new(alloc),
            chains,
            free: FreeSlots { first: 0, len: 0 },
            capacity: 0,
        })
    }

    /// Takes memory for so many packets more than wait, into whatever flows. Memory that is there stays. It fails only
    /// where there is less.
    pub(crate) fn reserve(&mut self, pushes: u64) -> Result<(), Memory>
        requires { pushes ≤ MAX_WAITING }
        ensures queues { self.new.queues ≡ self.old.queues }
        ensures capacity { self.old.capacity ≤ self.new.capacity }
        ensures ok { OnOk result (self.new.capacity
            ≡ max self.old.capacity (sum_by length self.old.queues + pushes)) }
        ensures err { OnErr result (self.new ≡ self.old) }
        ensures missing { OnErr result (self.old.capacity < sum_by length self.old.queues + pushes) }
    {
        self.slots
            .reserve(pushes.saturating_sub(self.free.len) as usize)?;
        let capacity = self.slots.len() as u64 - self.free.len + pushes;
        if self.capacity < capacity {
            self.capacity = capacity;
        }
        Ok(())
    }

    /// A packet comes to the end of a flow's queue. It takes no memory.
    // Merged into its callers up to an enqueue: handed on in memory, a packet is read in other pieces than it was
    // written in, and each such read waits for the writes.
    #[inline(always)]
    pub(crate) fn push(&mut self, flow: u32, waiting: Waiting)
        requires flow { flow < length self.old.queues }
        requires capacity { sum_by length self.old.queues < self.old.capacity }
        requires size { sum_by length self.old.queues < MAX_WAITING }
        ensures queues { self.new.queues ≡ set self.old.queues flow (get_or self.old.queues flow [] ++ waiting ∷ []) }
        ensures capacity { self.new.capacity ≡ self.old.capacity }
    {
        let key = self.free.place(&mut self.slots, Link { waiting, next: 0 });
        let chain = &mut self.chains[flow as usize];
        if chain.len == 0 {
            *chain = Chain::of_one(key);
            return;
        }
        let last = chain.last;
        chain.last = key;
        chain.len += 1;
        self.slots[last].next = key;
    }

    /// Takes the packet at the head of a flow's queue. None where the flow is empty. Its memory stays for a later one.
    #[inline(always)]
    pub(crate) fn pop(&mut self, flow: u32) -> Option<Waiting>
        requires { flow < length self.old.queues }
        ensures head { result ≡ slice_get (get_or self.old.queues flow []) 0 }
        ensures rest { self.new ≡ record self.old {
          queues = set self.old.queues flow (drop 1 (get_or self.old.queues flow []));
        } }
    {
        let chain = &mut self.chains[flow as usize];
        if chain.len == 0 {
            return None;
        }
        let key = chain.first;
        let slot = &mut self.slots[key];
        chain.first = slot.next;
        chain.len -= 1;
        slot.next = self.free.first;
        self.free.first = key;
        self.free.len += 1;
        Some(slot.waiting)
    }

    /// The packet at the head of a flow's queue, in its slot. None where the flow is empty.
    #[inline(always)]
    pub(crate) fn head(&self, flow: u32) -> Option<&Waiting>
        requires { flow < length self.now.queues }
        ensures { option_copied result ≡ slice_get (get_or self.now.queues flow []) 0 }
    {
        let chain = &self.chains[flow as usize];
        if chain.len == 0 {
            return None;
        }
        Some(&self.slots[chain.first].waiting)
    }

    /// How many packets wait in a flow.
    #[inline(always)]
    pub(crate) fn len(&self, flow: u32) -> u64
        requires { flow < length self.now.queues }
        ensures value { result ≡ length (get_or self.now.queues flow []) }
        ensures size { result ≤ MAX_WAITING }
    {
        self.chains[flow as usize].len
    }

    /// How many packets wait, in all flows together.
    pub(crate) fn total_len(&self) -> u64
        ensures value { result ≡ sum_by length self.now.queues }
        ensures size { result ≤ MAX_WAITING }
    {
        self.slots.len() as u64 - self.free.len
    }

    /// How many flows there are.
    pub(crate) fn flows(&self) -> u32
        ensures value { result ≡ length self.now.queues }
        ensures most { result ≤ MAX_FLOWS }
    {
        self.chains.len() as u32
    }
}
