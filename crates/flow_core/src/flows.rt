//! The flows as callers see them, and the queue of one of them as a line that CoDel pulls from.

ghost use Rattle.std.specs.Prelude.{◌≡◌, ◌+◌, ◌^◌, ◌<◌, ◌≤◌, ◌↔◌, [], ◌∷◌, ◌++◌, All, Contains, IfOk, IfSome, IsNone, IsTrue, OnErr, OnOk, Some, drop, length, max, min, option_copied, slice_get, take};
ghost use Rattle.packet_core.specs.Packets.{IsLengthInRange};
ghost use Rattle.codel_core.specs.Queue.{bytes_of};
ghost use Rattle.flow_core.specs.Fattest.{IsFattest, bytes_at};
ghost use Rattle.flow_core.specs.FlowLists.{AreListed, bytes_in, no_flows, queue_at, waiting_in, with_queue};
ghost use Rattle.flow_core.specs.Winners.{CountsFew, IsLevels};

use crate::limits::{MAX_FLOWS, Memory};
use crate::linked_queues::LinkedQueues;
use crate::listed_flows::ListedFlows;
use crate::winner_tree::WinnerTree;
use codel_core::{MAX_WAITING, Peek, Pull};
use packet_core::Waiting;
use std::alloc::Global;
use std::marker::Model;

/// The queues of all flows, the list of new flows and the list of old flows (RFC 8290, sections 4 and 5). A
/// flow is called by its number, from 0. Room for pushes is taken ahead, so that only `try_new` and `reserve`
/// take memory. What a call costs doesn't grow with the packets that wait, and a push and a pop walk one path of
/// a tree over the flows.
#[derive(Debug, Drop)]
pub struct Flows {
    chains: LinkedQueues,
    listed: ListedFlows,
    winners: WinnerTree,
    total_bytes: u64,
}

impl Model for Flows {
    ghost use Rattle.flow_core.specs.FlowLists.{Holding};

    ghost Value = { Holding };

    ghost use Rattle.flow_core.specs.Kept.{holding_of, IsKept};

    ghost view = { holding_of };

    ghost invariant = { IsKept };
}

impl Flows {
    /// That many flows, from 1 to 65,536. Their queues and both lists are empty. Room for the lists is taken
    /// here, so that no move of a flow takes memory.
    pub fn try_new(alloc: Global, flows: u32) -> Result<Flows, Memory>
        requires least { 1 ≤ flows }
        requires most { flows ≤ MAX_FLOWS }
        ensures { IfOk result (λ f. (f.lists ≡ no_flows flows) × (f.capacity ≡ 0) × (f.comparisons ≡ 0)) }
    {
        Ok(Flows {
            chains: LinkedQueues::try_new(alloc, flows)?,
            listed: ListedFlows::try_new(alloc, flows)?,
            winners: WinnerTree::try_new(alloc, flows)?,
            total_bytes: 0,
        })
    }

    /// Takes memory for so many packets more than wait, into whatever flows. Memory that is there stays. It fails only
    /// where there is less.
    pub fn reserve(&mut self, pushes: u64) -> Result<(), Memory>
        requires { pushes ≤ MAX_WAITING }
        ensures lists { self.new.lists ≡ self.old.lists }
        ensures capacity { self.old.capacity ≤ self.new.capacity }
        ensures ok { OnOk result (self.new.capacity ≡ max self.old.capacity (waiting_in self.old.lists + pushes)) }
        ensures err { OnErr result (self.new ≡ self.old) }
        ensures missing { OnErr result (self.old.capacity < waiting_in self.old.lists + pushes) }
        ensures comparisons { self.new.comparisons ≡ self.old.comparisons }
    {
        self.chains.reserve(pushes)
    }

    /// A packet comes to the end of a flow's queue. It takes no memory. It makes at most `levels` comparisons, and one
    /// at least where there are two flows or more.
    #[inline(always)]
    pub fn push(&mut self, flow: u32, waiting: Waiting)
        requires flow { flow < length self.old.lists.queues }
        requires capacity { waiting_in self.old.lists < self.old.capacity }
        requires size { waiting_in self.old.lists < MAX_WAITING }
        ensures lists { self.new.lists ≡ with_queue self.old.lists flow (queue_at self.old.lists flow ++ waiting ∷ []) }
        ensures capacity { self.new.capacity ≡ self.old.capacity }
        ensures few_comparisons { CountsFew (length self.old.lists.queues) 1 self.old.comparisons self.new.comparisons }
        ensures compares { 2 ≤ length self.old.lists.queues
            → min (self.old.comparisons + 1) u64.MAX ≤ self.new.comparisons }
    {
        let bytes = u64::from(waiting.packet.len());
        self.chains.push(flow, waiting);
        self.winners.add(flow, bytes);
        self.total_bytes += bytes;
    }

    /// Takes the packet at the head of a flow's queue, with at most `levels` comparisons. None, with no comparison,
    /// where the flow is empty.
    #[inline(always)]
    pub fn pop(&mut self, flow: u32) -> Option<Waiting>
        requires { flow < length self.old.lists.queues }
        ensures head { result ≡ slice_get (queue_at self.old.lists flow) 0 }
        ensures rest { self.new ≡ record self.old {
          lists = with_queue self.old.lists flow (drop 1 (queue_at self.old.lists flow));
          comparisons = self.new.comparisons;
        } }
        ensures few_comparisons { CountsFew (length self.old.lists.queues) 1 self.old.comparisons self.new.comparisons }
        ensures none_compares { IsNone result → self.new.comparisons ≡ self.old.comparisons }
    {
        let popped = self.chains.pop(flow);
        // It is given on as it came: taken out of its `Some` and put into another, it would be copied twice.
        if let Some(waiting) = &popped {
            let bytes = u64::from(waiting.packet.len());
            self.winners.take(flow, bytes);
            self.total_bytes -= bytes;
        }
        popped
    }

    /// The lengths of the packets that wait in a flow, added up, in bytes.
    pub fn bytes(&self, flow: u32) -> u64
        requires { flow < length self.now.lists.queues }
        ensures value { result ≡ bytes_at self.now.lists.queues flow }
        ensures lengths { All (λ w. IsLengthInRange w.packet.len) (queue_at self.now.lists flow) }
    {
        self.winners.bytes(flow)
    }

    /// The packet at the head of a flow's queue, where it stands. None where the flow is empty.
    #[inline(always)]
    fn head(&self, flow: u32) -> Option<&Waiting>
        requires { flow < length self.now.lists.queues }
        ensures { option_copied result ≡ slice_get (queue_at self.now.lists flow) 0 }
    {
        self.chains.head(flow)
    }

    /// The lengths of the packets behind the head of a flow's queue, added up, in bytes. The head is handed in: it was
    /// looked up already.
    #[inline(always)]
    fn bytes_behind(&self, flow: u32, head: &Waiting) -> u64
        requires flow { flow < length self.now.lists.queues }
        requires head { Some head.now ≡ slice_get (queue_at self.now.lists flow) 0 }
        ensures { result ≡ bytes_of (drop 1 (queue_at self.now.lists flow)) }
    {
        self.winners.bytes(flow) - u64::from(head.packet.len())
    }

    /// How many packets wait in a flow.
    pub fn len(&self, flow: u32) -> u64
        requires { flow < length self.now.lists.queues }
        ensures value { result ≡ length (queue_at self.now.lists flow) }
        ensures size { result ≤ MAX_WAITING }
    {
        self.chains.len(flow)
    }

    /// How many packets wait, in all flows together.
    pub fn total_len(&self) -> u64
        ensures value { result ≡ waiting_in self.now.lists }
        ensures size { result ≤ MAX_WAITING }
    {
        self.chains.total_len()
    }

    /// The lengths of all packets that wait, in all flows together, added up, in bytes.
    pub fn total_bytes(&self) -> u64
        ensures { result ≡ bytes_in self.now.lists }
    {
        self.total_bytes
    }

    /// The flow with the most bytes, and of those that have as many the one of the least number. None where no
    /// packet waits.
    pub fn fattest(&self) -> Option<u32>
        ensures none { IsNone result ↔ (waiting_in self.now.lists ≡ 0) }
        ensures fattest { IfSome result (IsFattest self.now.lists.queues) }
    {
        self.winners.winner()
    }

    /// How many flows there are, from 1 to 65,536.
    pub fn flows(&self) -> u32
        ensures value { result ≡ length self.now.lists.queues }
        ensures least { 1 ≤ result }
        ensures most { result ≤ MAX_FLOWS }
        ensures listed { AreListed self.now.lists }
        ensures few_listed { length self.now.lists.new_flows + length self.now.lists.old_flows ≤ result }
        ensures lengths { All (All (λ w. IsLengthInRange w.packet.len)) self.now.lists.queues }
    {
        self.listed.flows()
    }

    /// The levels of the tree over the flows, from which the fattest one is read: the least number of doublings of one
    /// that gives as many as there are flows. It is 0 for one flow, 10 for 1,024 and 16 for 65,536.
    pub fn levels(&self) -> u32
        ensures { IsLevels (length self.now.lists.queues) result }
    {
        self.winners.levels()
    }

    /// How often the bytes of two flows were compared since `clear_comparisons`, or since `try_new` before its first
    /// call. A push, and a pop that gives a packet, make at most `levels` comparisons, and no other call makes any.
    /// At `u64::MAX` the number stays there.
    pub fn comparisons(&self) -> u64
        ensures { result ≡ self.now.comparisons }
    {
        self.winners.comparisons()
    }

    /// Counts the comparisons from 0 again.
    pub fn clear_comparisons(&mut self)
        ensures { self.new ≡ record self.old { comparisons = 0 } }
    {
        self.winners.clear_comparisons();
    }

    /// The flow at the head of the list of new flows. None where that list is empty.
    pub fn head_new(&self) -> Option<u32>
        ensures value { result ≡ slice_get self.now.lists.new_flows 0 }
        ensures within { IfSome result (λ flow. flow < length self.now.lists.queues) }
        ensures listed { AreListed self.now.lists }
    {
        self.listed.head_new()
    }

    /// The flow at the head of the list of old flows. None where that list is empty.
    pub fn head_old(&self) -> Option<u32>
        ensures value { result ≡ slice_get self.now.lists.old_flows 0 }
        ensures within { IfSome result (λ flow. flow < length self.now.lists.queues) }
        ensures listed { AreListed self.now.lists }
    {
        self.listed.head_old()
    }

    /// Whether a flow is in one of the lists.
    pub fn listed(&self, flow: u32) -> bool
        ensures value { IsTrue result ↔ Contains (self.now.lists.new_flows ++ self.now.lists.old_flows) flow }
        ensures listed { AreListed self.now.lists }
    {
        self.listed.listed(flow)
    }

    /// A flow that is in no list comes to the end of the list of new flows (RFC 8290, section 4.1). It takes no
    /// memory.
    pub fn add_new(&mut self, flow: u32)
        requires flow { flow < length self.old.lists.queues }
        requires absent { ¬ Contains (self.old.lists.new_flows ++ self.old.lists.old_flows) flow }
        ensures { self.new ≡ record self.old {
          lists = record self.old.lists { new_flows = self.old.lists.new_flows ++ flow ∷ [] };
        } }
    {
        self.listed.add_new(flow);
    }

    /// The first of the new flows becomes the last of the old ones (RFC 8290, section 4.2). It takes no memory.
    pub fn new_to_old(&mut self)
        requires { 0 < length self.old.lists.new_flows }
        ensures { self.new ≡ record self.old {
          lists = record self.old.lists {
            new_flows = drop 1 self.old.lists.new_flows;
            old_flows = self.old.lists.old_flows ++ take 1 self.old.lists.new_flows;
          };
        } }
    {
        self.listed.new_to_old();
    }

    /// The first of the old flows becomes the last of them (RFC 8290, section 4.2). It takes no memory.
    pub fn rotate_old(&mut self)
        requires { 0 < length self.old.lists.old_flows }
        ensures { self.new ≡ record self.old {
          lists = record self.old.lists {
            old_flows = drop 1 self.old.lists.old_flows ++ take 1 self.old.lists.old_flows;
          };
        } }
    {
        self.listed.rotate_old();
    }

    /// The first of the old flows leaves the list (RFC 8290, section 4.2). It takes no memory.
    pub fn leave_old(&mut self)
        requires { 0 < length self.old.lists.old_flows }
        ensures { self.new ≡ record self.old {
          lists = record self.old.lists { old_flows = drop 1 self.old.lists.old_flows };
        } }
    {
        self.listed.leave_old();
    }

    /// A flow's queue as a line that CoDel pulls from. Once it is let go, the flow's queue is what the pulls
    /// left, and all else is as it was.
    #[inline(always)]
    pub fn line(&mut self, flow: u32) -> Line<'_>
        requires { flow < length self.old.lists.queues }
        ensures lends { result.flows.ghost_name ≡ self.entry.ghost_name }
        ensures value { result.flows.now ≡ self.old }
        ensures flow { result.flow ≡ flow }
        ensures size { length (queue_at self.old.lists flow) ≤ MAX_WAITING }
    {
        // So few packets wait in a flow as in all of them.
        let _ = &self.chains;
        Line { flows: self, flow }
    }
}

/// The queue of one flow, borrowed: a pull takes its head.
#[derive(Drop)]
pub struct Line<'a> {
    /// The flows that it is borrowed from.
    pub flows: &'a mut Flows,
    /// The flow's number.
    pub flow: u32,
    pub ghost within: { flow < length flows.now.lists.queues },
}

impl Pull for Line<'_> {
    ghost use Rattle.flow_core.specs.FlowLists.{queue_at};
    ghost use Rattle.flow_core.specs.Pulling.{PullsFlow, flow_pulls_none, flow_pulls_more};

    ghost items = { λ l. queue_at l.flows.now.lists l.flow };

    ghost pulled = { λ a n b. PullsFlow a.flow a.flows n b.flow b.flows };

    ghost pulled_none = { λ a. flow_pulls_none a.flow a.flows };

    ghost pulled_more = { λ a b c n first then'.
        flow_pulls_more a.flow a.flows b.flow b.flows c.flow c.flows n a.within first then' };

    #[inline(always)]
    fn pull(&mut self) -> Option<Waiting> {
        self.flows.pop(self.flow)
    }

    fn bytes_left(&self) -> u64 {
        self.flows.bytes(self.flow)
    }
}

impl Peek for Line<'_> {
    fn head(&self) -> Option<&Waiting> {
        self.flows.head(self.flow)
    }

    fn bytes_behind(&self, head: &Waiting) -> u64 {
        self.flows.bytes_behind(self.flow, head)
    }
}
