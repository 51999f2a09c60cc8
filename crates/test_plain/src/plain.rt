//! A plain FQ-CoDel.

use codel_core::{CodelState, spacing};
use packet_core::{Ecn, EcnUse, Packet, Params, Waiting};
use sched_core::{Cause, Mark};
use std::alloc::Global;
use std::collections::VecDeque;
use std::process::Abort;

/// A flow: its packets, and what is kept of it.
#[derive(Drop)]
pub(crate) struct PlainFlow {
    /// The packets that wait, the head first.
    pub(crate) queue: VecDeque<Waiting>,
    /// How many bytes it may send.
    pub(crate) credits: i64,
    /// CoDel's state.
    pub(crate) codel: CodelState,
    /// Whether it is in a list.
    listed: bool,
}

/// A packet that was sent, and its mark.
#[derive(Clone, Copy)]
pub(crate) struct PlainSent {
    /// The packet, with its field as it was accepted.
    pub(crate) waiting: Waiting,
    /// Its mark.
    pub(crate) mark: Mark,
}

/// The scheduler. Flows are chosen by the destination port.
#[derive(Drop)]
pub(crate) struct Plain {
    params: Params,
    flows: Vec<PlainFlow>,
    new_flows: VecDeque<u32>,
    old_flows: VecDeque<u32>,
    accepted: u64,
    /// The ids of the packets that the last step dropped, in order, and why.
    pub(crate) dropped: Vec<(u64, Cause)>,
    /// The turns of the last dequeue.
    pub(crate) turns: u64,
}

impl Plain {
    /// No packet, and as many flows as the parameters say.
    pub(crate) fn new(rt: &impl Abort, alloc: Global, params: &Params) -> Plain {
        let mut flows = Vec::new(alloc);
        for _ in 0..params.flows() {
            let flow = PlainFlow {
                queue: VecDeque::new(alloc),
                credits: 0,
                codel: CodelState {
                    first_above: None,
                    drop_next: 0,
                    count: 0,
                    lastcount: 0,
                    dropping: false,
                },
                listed: false,
            };
            assert!(rt; flows.push(flow).is_ok());
        }
        Plain {
            params: *params,
            flows,
            new_flows: VecDeque::new(alloc),
            old_flows: VecDeque::new(alloc),
            accepted: 0,
            dropped: Vec::new(alloc),
            turns: 0,
        }
    }

    /// What is kept of a flow.
    pub(crate) fn flow(&self, rt: &impl Abort, flow: u32) -> &PlainFlow {
        self.flows.get(flow as usize).expect(rt, "a flow")
    }

    /// A packet comes. Its flow is returned.
    pub(crate) fn enqueue(&mut self, rt: &impl Abort, now: u64, packet: Packet) -> u32 {
        self.dropped.clear();
        let number = u32::from(packet.dport()) % self.params.flows().max(1);
        let waiting = Waiting {
            id: self.accepted,
            stamp: now,
            packet,
        };
        self.accepted = self.accepted.wrapping_add(1);
        let flow = self.flows.get_mut(number as usize).expect(rt, "a flow");
        flow.queue.push_back(waiting).expect(rt, "memory");
        if !flow.listed {
            flow.listed = true;
            flow.credits = i64::from(self.params.quantum());
            self.new_flows.push_back(number).expect(rt, "memory");
        }
        self.overflow(rt);
        number
    }

    /// Whether more waits than may.
    fn exceeds(&self) -> bool {
        let mut packets = 0u64;
        let mut all = 0u64;
        for flow in &self.flows {
            packets = packets.wrapping_add(flow.queue.len() as u64);
            all = all.wrapping_add(bytes(&flow.queue));
        }
        let over = match self.params.memory_limit() {
            None => false,
            Some(most) => most < all,
        };
        over || u64::from(self.params.limit()) < packets
    }

    /// While too much waits, the flow with the most bytes loses half of its packets, at most a batch.
    fn overflow(&mut self, rt: &impl Abort) {
        for _ in 0..1_000_000 {
            if !self.exceeds() {
                return;
            }
            let fattest = self.fattest();
            let most = u64::from(self.params.drop_batch());
            let flow = self.flows.get_mut(fattest).expect(rt, "a flow");
            let batch = (flow.queue.len() as u64 / 2).max(1).min(most);
            for _ in 0..batch {
                let gone = flow.queue.pop_front().expect(rt, "a packet");
                assert!(rt; self.dropped.push((gone.id, Cause::Overflow)).is_ok());
            }
        }
    }

    /// The flow with the most bytes, of equal ones that of the least number.
    fn fattest(&self) -> usize {
        let mut fattest = 0;
        let mut most = 0;
        for (number, flow) in self.flows.iter().enumerate() {
            let own = bytes(&flow.queue);
            if most < own {
                most = own;
                fattest = number;
            }
        }
        fattest
    }

    /// The packet that is next in turn.
    pub(crate) fn dequeue(&mut self, rt: &impl Abort, now: u64) -> Option<PlainSent> {
        self.dropped.clear();
        self.turns = 0;
        for _ in 0..1_000_000_000u64 {
            let is_new = !self.new_flows.is_empty();
            let head = if is_new {
                self.new_flows.pop_front()
            } else {
                self.old_flows.pop_front()
            };
            let number = head?;
            self.turns = self.turns.wrapping_add(1);
            let flow = self.flows.get_mut(number as usize).expect(rt, "a flow");
            if flow.credits <= 0 {
                flow.credits = flow.credits.wrapping_add(i64::from(self.params.quantum()));
                self.old_flows.push_back(number).expect(rt, "memory");
                continue;
            }
            let served = serve(rt, flow, now, &self.params, &mut self.dropped);
            if let Some(sent) = &served {
                let len = i64::from(sent.waiting.packet.len());
                flow.credits = flow.credits.wrapping_sub(len);
                // A flow that was served stays where it was.
                if is_new {
                    self.new_flows.push_front(number).expect(rt, "memory");
                } else {
                    self.old_flows.push_front(number).expect(rt, "memory");
                }
                return served;
            }
            if is_new {
                self.old_flows.push_back(number).expect(rt, "memory");
            } else {
                flow.listed = false;
            }
        }
        None
    }
}

/// The lengths of the packets of a queue, added up.
pub(crate) fn bytes(queue: &VecDeque<Waiting>) -> u64 {
    let mut all = 0u64;
    for waiting in queue.iter() {
        all = all.wrapping_add(u64::from(waiting.packet.len()));
    }
    all
}

/// Takes the head out of a flow's queue, and judges it: whether it is droppable.
fn pull(flow: &mut PlainFlow, now: u64, params: &Params) -> Option<(Waiting, bool)> {
    let Some(head) = flow.queue.pop_front() else {
        flow.codel.first_above = None;
        return None;
    };
    let waited = now.wrapping_sub(head.stamp);
    if waited < params.target() || bytes(&flow.queue) <= u64::from(params.mtu()) {
        flow.codel.first_above = None;
        return Some((head, false));
    }
    match flow.codel.first_above {
        None => {
            flow.codel.first_above = Some(now.wrapping_add(params.interval()));
            Some((head, false))
        }
        Some(moment) => Some((head, moment <= now)),
    }
}

/// Whether CoDel marks the packet in place of dropping it.
fn is_markable(waiting: &Waiting, params: &Params) -> bool {
    params.ecn() == EcnUse::Mark && waiting.packet.ecn() != Ecn::NotEct
}

/// A packet as it is sent, where CoDel doesn't mark it.
fn sent(waiting: Waiting, now: u64, params: &Params) -> PlainSent {
    let takes_part = waiting.packet.ecn() == Ecn::Ect0 || waiting.packet.ecn() == Ecn::Ect1;
    let mark = match params.ce_threshold() {
        Some(most) if takes_part && most < now.wrapping_sub(waiting.stamp) => Mark::Threshold,
        _ => Mark::NoMark,
    };
    PlainSent { waiting, mark }
}

/// The moment of the next drop.
fn next_drop(rt: &impl Abort, moment: u64, count: u64, params: &Params) -> u64 {
    let interval = params.interval();
    assert!(rt; 1 <= count && count <= 1 << 62);
    moment.wrapping_add(spacing(interval, count))
}

/// CoDel serves the queue of a flow.
fn serve(
    rt: &impl Abort,
    flow: &mut PlainFlow,
    now: u64,
    params: &Params,
    dropped: &mut Vec<(u64, Cause)>,
) -> Option<PlainSent> {
    let pulled = pull(flow, now, params);
    let Some((first, droppable)) = pulled else {
        flow.codel.dropping = false;
        return None;
    };
    if !droppable {
        flow.codel.dropping = false;
        return Some(sent(first, now, params));
    }
    if flow.codel.dropping {
        return Some(go_on(rt, flow, first, now, params, dropped));
    }
    Some(begin(rt, flow, first, now, params, dropped))
}

/// The queue begins to drop, with a droppable packet in hand.
fn begin(
    rt: &impl Abort,
    flow: &mut PlainFlow,
    first: Waiting,
    now: u64,
    params: &Params,
    dropped: &mut Vec<(u64, Cause)>,
) -> PlainSent {
    let answer = if is_markable(&first, params) {
        PlainSent {
            waiting: first,
            mark: Mark::CodelMark,
        }
    } else {
        assert!(rt; dropped.push((first.id, Cause::Codel)).is_ok());
        let (second, _) = pull(flow, now, params).expect(
            rt,
            "a packet behind one that is droppable",
        );
        sent(second, now, params)
    };
    let state = &mut flow.codel;
    let grown = state.count.wrapping_sub(state.lastcount);
    let soon = now
        < state
            .drop_next
            .wrapping_add(params.interval().wrapping_mul(16));
    state.count = if 1 < grown && soon { grown } else { 1 };
    state.lastcount = state.count;
    state.dropping = true;
    state.drop_next = next_drop(rt, now, state.count, params);
    answer
}

/// The queue goes on to drop, with a droppable packet in hand.
fn go_on(
    rt: &impl Abort,
    flow: &mut PlainFlow,
    first: Waiting,
    now: u64,
    params: &Params,
    dropped: &mut Vec<(u64, Cause)>,
) -> PlainSent {
    let mut head = first;
    for _ in 0..1_000_000u64 {
        if now < flow.codel.drop_next {
            break;
        }
        let count = flow.codel.count.wrapping_add(1);
        flow.codel.count = count;
        let due = next_drop(rt, flow.codel.drop_next, count, params);
        if is_markable(&head, params) {
            flow.codel.drop_next = due;
            return PlainSent {
                waiting: head,
                mark: Mark::CodelMark,
            };
        }
        assert!(rt; dropped.push((head.id, Cause::Codel)).is_ok());
        let (next, droppable) = pull(flow, now, params).expect(
            rt,
            "a packet behind one that is droppable",
        );
        head = next;
        if !droppable {
            flow.codel.dropping = false;
            break;
        }
        flow.codel.drop_next = due;
    }
    sent(head, now, params)
}
