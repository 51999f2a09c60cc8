//! The list of new flows and the list of old flows, and which flows are in one of them.

ghost use Rattle.std.specs.Prelude.{◌≡◌, ◌+◌, ◌-◌, ◌^◌, ◌<◌, ◌≤◌, ◌↔◌, [], ◌∷◌, ◌++◌, Contains, IfOk, IfSome, IsTrue, drop, length, slice_get, slice_index, slice_set, take};
ghost use Rattle.flow_core.specs.Listed.{AreFlows};
ghost use Rattle.flow_core.specs.Rings.{flows_of};

use crate::limits::Memory;
use std::alloc::Global;
use std::marker::Model;

/// A list of flows as a ring: beside each flow stands the next one, and beside the last one the first. So a turn of the
/// list, after which its first flow is the last one, moves one number alone. Where there is no flow, the number of the
/// last one isn't read.
#[derive(Clone, Copy, Debug)]
struct Ring {
    last: u32,
    len: u32,
}

impl Ring {
    /// No flow.
    fn none() -> Ring
        ensures { result ≡ record { last = 0; len = 0 } }
    {
        Ring { last: 0, len: 0 }
    }

    /// The first flow, if there is one.
    #[inline(always)]
    fn first(&self, next: &[u32]) -> Option<u32>
        requires { 0 < self.now.len → self.now.last < length next.now }
        ensures { result ≡ slice_get (flows_of next.now self.now) 0 }
    {
        if self.len == 0 {
            return None;
        }
        Some(next[self.last as usize])
    }

    /// The first flow becomes the last one.
    #[inline(always)]
    fn turn(&mut self, next: &[u32])
        requires { self.old.last < length next.now }
        ensures { self.new ≡ record self.old { last = slice_index next.now self.old.last } }
    {
        self.last = next[self.last as usize];
    }

    /// The first flow leaves.
    fn leave(&mut self, next: &mut [u32]) -> u32
        requires some { 0 < self.old.len }
        requires last { self.old.last < length next.old }
        requires first { slice_index next.old self.old.last < length next.old }
        ensures first { result ≡ slice_index next.old self.old.last }
        ensures next { next.new ≡ slice_set next.old self.old.last
            (slice_index next.old (slice_index next.old self.old.last)) }
        ensures ring { self.new ≡ record self.old { len = self.old.len - 1 } }
    {
        let first = next[self.last as usize];
        next[self.last as usize] = next[first as usize];
        self.len -= 1;
        first
    }

    /// A flow comes to the end.
    fn join(&mut self, next: &mut [u32], flow: u32)
        requires few { self.old.len < 2 ^ 32 - 1 }
        requires flow { flow < length next.old }
        requires last { 0 < self.old.len → self.old.last < length next.old }
        ensures first { self.old.len ≡ 0 → next.new ≡ slice_set next.old flow flow }
        ensures behind { 0 < self.old.len → next.new
            ≡ slice_set (slice_set next.old flow (slice_index next.old self.old.last)) self.old.last flow }
        ensures ring { self.new ≡ record { last = flow; len = self.old.len + 1 } }
    {
        if self.len == 0 {
            next[flow as usize] = flow;
        } else {
            next[flow as usize] = next[self.last as usize];
            next[self.last as usize] = flow;
        }
        self.last = flow;
        self.len += 1;
    }
}

/// The list of new flows and the list of old flows (RFC 8290, section 4), and a mark for each flow that is in one of
/// them. A flow is in one list at most, so one number beside each is enough for both. A move looks at the ends of a list
/// alone. Only `try_new` takes memory.
#[derive(Debug, Drop)]
pub(crate) struct ListedFlows {
    marks: Vec<bool>,
    next: Vec<u32>,
    new_flows: Ring,
    old_flows: Ring,
}

impl Model for ListedFlows {
    ghost use Rattle.flow_core.specs.Listed.{NewAndOld};

    ghost Value = { NewAndOld };

    ghost use Rattle.flow_core.specs.ListedFlows.{lists_of, HasLists};

    ghost view = { lists_of };

    ghost invariant = { HasLists };
}

impl ListedFlows {
    /// That many flows, in neither list.
    pub(crate) fn try_new(alloc: Global, flows: u32) -> Result<ListedFlows, Memory>
        ensures { IfOk result (λ l. l ≡ record { flows = flows; new_flows = []; old_flows = [] }) }
    {
        Ok(ListedFlows {
            marks: vec![in alloc; false; flows as usize]?,
            next: vec![in alloc; 0; flows as usize]?,
            new_flows: Ring::none(),
            old_flows: Ring::none(),
        })
    }

    /// How many flows there are.
    pub(crate) fn flows(&self) -> u32
        ensures value { result ≡ self.now.flows }
        ensures listed { AreFlows self.now.flows (self.now.new_flows ++ self.now.old_flows) }
        ensures few_listed { length self.now.new_flows + length self.now.old_flows ≤ self.now.flows }
    {
        self.marks.len() as u32
    }

    /// The flow at the head of the list of new flows. None where that list is empty.
    pub(crate) fn head_new(&self) -> Option<u32>
        ensures value { result ≡ slice_get self.now.new_flows 0 }
        ensures within { IfSome result (λ flow. flow < self.now.flows) }
        ensures listed { AreFlows self.now.flows (self.now.new_flows ++ self.now.old_flows) }
    {
        self.new_flows.first(&self.next)
    }

    /// The flow at the head of the list of old flows. None where that list is empty.
    pub(crate) fn head_old(&self) -> Option<u32>
        ensures value { result ≡ slice_get self.now.old_flows 0 }
        ensures within { IfSome result (λ flow. flow < self.now.flows) }
        ensures listed { AreFlows self.now.flows (self.now.new_flows ++ self.now.old_flows) }
    {
        self.old_flows.first(&self.next)
    }

    /// Whether a flow is in one of the lists.
    pub(crate) fn listed(&self, flow: u32) -> bool
        ensures value { IsTrue result ↔ Contains (self.now.new_flows ++ self.now.old_flows) flow }
        ensures listed { AreFlows self.now.flows (self.now.new_flows ++ self.now.old_flows) }
    {
        self.marks.get(flow as usize).copied().unwrap_or(false)
    }

    /// A flow that is in no list comes to the end of the list of new flows (RFC 8290, section 4.1).
    pub(crate) fn add_new(&mut self, flow: u32)
        requires flow { flow < self.old.flows }
        requires absent { ¬ Contains (self.old.new_flows ++ self.old.old_flows) flow }
        ensures { self.new ≡ record self.old { new_flows = self.old.new_flows ++ flow ∷ [] } }
    {
        self.new_flows.join(&mut self.next, flow);
        self.marks[flow as usize] = true;
    }

    /// The first of the new flows becomes the last of the old ones (RFC 8290, section 4.2).
    // Kept out of a dequeue: a flow is new for one turn, and old for many.
    #[inline(never)]
    pub(crate) fn new_to_old(&mut self)
        requires { 0 < length self.old.new_flows }
        ensures { self.new ≡ record self.old {
          new_flows = drop 1 self.old.new_flows;
          old_flows = self.old.old_flows ++ take 1 self.old.new_flows;
        } }
    {
        let flow = self.new_flows.leave(&mut self.next);
        self.old_flows.join(&mut self.next, flow);
    }

    /// The first of the old flows becomes the last of them (RFC 8290, section 4.2).
    #[inline(always)]
    pub(crate) fn rotate_old(&mut self)
        requires { 0 < length self.old.old_flows }
        ensures { self.new ≡ record self.old { old_flows = drop 1 self.old.old_flows ++ take 1 self.old.old_flows } }
    {
        self.old_flows.turn(&self.next);
    }

    /// The first of the old flows leaves the list (RFC 8290, section 4.2).
    pub(crate) fn leave_old(&mut self)
        requires { 0 < length self.old.old_flows }
        ensures { self.new ≡ record self.old { old_flows = drop 1 self.old.old_flows } }
    {
        let flow = self.old_flows.leave(&mut self.next);
        self.marks[flow as usize] = false;
    }
}
