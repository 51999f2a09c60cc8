//! A new scheduler, and a list of its calls, each with what it is answered.

use crate::schedulers::{come, scheduler};
use packet_core::{Packet, ParamFields};
use sched_core::{
    Admitted, Answer, CloseFault, Event, FlowView, Mark, MomentFault, Refusal, Sched, Sent, Step,
    TupleRow,
};
use std::process::Abort;

/// A call, and what it is answered.
#[derive(Clone, Copy)]
pub(crate) enum Call<'a> {
    /// An enqueue at that moment from that lane.
    Enqueue(u64, u32, Packet, Result<Admitted, Refusal>),
    /// The packet comes so many times at that moment, and is accepted each time.
    Come(u64, u64, Packet),
    /// A dequeue at that moment.
    Dequeue(u64, Result<Option<Sent>, MomentFault>),
    /// A close at that moment.
    Close(u64, Result<(), CloseFault>),
    /// A step of any kind, after which the last dequeue took so many turns, and the step compared the bytes of two
    /// flows so often at least and at most.
    Make(Step, Answer, u64, [u64; 2]),
    /// Memory for so many enqueues.
    Reserve(u32),
    /// The turns of the last dequeue.
    Turns(u64),
    /// How many packets wait, the moment of the last step, and whether there was a close.
    State(u64, u64, bool),
    /// How many packets CoDel dropped.
    DroppedByCodel(u64),
    /// What is kept of the first flow.
    View(FlowView),
    /// The journal.
    Events(&'a [Event]),
    /// The rows by five-tuple.
    Rows(&'a [TupleRow]),
}

/// An enqueue at that moment from that lane that is accepted with that id, into that flow.
pub(crate) fn comes<'a>(moment: u64, lane: u32, packet: Packet, id: u64, flow: u32) -> Call<'a> {
    Call::Enqueue(moment, lane, packet, Ok(Admitted { id, moment, flow }))
}

/// A dequeue at that moment that gives the packet with that id, unmarked.
pub(crate) fn goes<'a>(moment: u64, packet: Packet, id: u64) -> Call<'a> {
    goes_marked(moment, packet, id, Mark::NoMark)
}

/// A dequeue at that moment that gives the packet with that id and that mark.
pub(crate) fn goes_marked<'a>(moment: u64, packet: Packet, id: u64, mark: Mark) -> Call<'a> {
    Call::Dequeue(
        moment,
        Ok(Some(Sent {
            id,
            moment,
            packet,
            mark,
        })),
    )
}

/// The calls are made in turn with a new scheduler, and each is answered as it has to be.
pub(crate) fn plays(rt: &(impl Abort + AllocGlobal), fields: ParamFields, calls: &[Call<'_>]) {
    let mut sched = scheduler(rt, fields);
    are_answered(rt, &mut sched, calls);
}

fn are_answered(rt: &impl Abort, sched: &mut Sched, calls: &[Call<'_>]) {
    for (place, call) in calls.iter().enumerate() {
        assert!(rt;
            is_answered(rt, sched, call),
            "call {place} is answered otherwise"
        );
    }
}

/// Whether the call is answered as it has to be.
fn is_answered(rt: &impl Abort, sched: &mut Sched, call: &Call<'_>) -> bool {
    match *call {
        Call::Enqueue(moment, lane, packet, wanted) => {
            sched.enqueue(moment, lane, packet) == wanted
        }
        Call::Come(times, moment, packet) => {
            come(rt, sched, times, moment, packet);
            true
        }
        Call::Dequeue(moment, wanted) => sched.dequeue(moment) == wanted,
        Call::Close(moment, wanted) => sched.close(moment) == wanted,
        Call::Make(step, answer, turns, comparisons) => {
            is_made(sched, &step, answer, turns, comparisons)
        }
        Call::Reserve(enqueues) => sched.reserve(enqueues as u64).is_ok(),
        _ => is_told(sched, call),
    }
}

/// Makes a step, and compares its answer, the turns of the last dequeue, and how often the step compared the bytes of
/// two flows. A refused step leaves the number of the step before it.
fn is_made(
    sched: &mut Sched,
    step: &Step,
    answer: Answer,
    turns: u64,
    comparisons: [u64; 2],
) -> bool {
    let before = sched.comparisons();
    let is_answer = sched.make(step) == Ok(answer);
    let made = sched.comparisons();
    let [least, most] = comparisons;
    let is_between = least <= made && made <= most;
    let stays = made == before || !matches!(answer, Answer::Refused(_));
    is_answer && sched.turns() == turns && is_between && stays
}

/// Whether the scheduler tells what it has to.
fn is_told(sched: &Sched, call: &Call<'_>) -> bool {
    match *call {
        Call::Turns(wanted) => sched.turns() == wanted,
        Call::State(queued, last_moment, is_closed) => {
            sched.queued() == queued
                && sched.last_moment() == last_moment
                && sched.is_closed() == is_closed
        }
        Call::DroppedByCodel(wanted) => sched.totals().dropped_codel == wanted,
        Call::View(wanted) => 0 < sched.params().flows() && sched.flow_view(0) == wanted,
        Call::Events(wanted) => sched.events() == wanted,
        Call::Rows(wanted) => has_rows(sched, wanted),
        _ => false,
    }
}

/// Whether the rows by five-tuple are these.
fn has_rows(sched: &Sched, wanted: &[TupleRow]) -> bool {
    match sched.tuple_rows() {
        Ok(rows) => rows.as_slice() == wanted,
        Err(_) => false,
    }
}
