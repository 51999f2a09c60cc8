//! Runs of lists of steps, and the steps of a trace.

use crate::packets::{SEED, enqueue, greatest, one_flow, packet, params_of};
use packet_core::{Ecn, ParamFields};
use sched_core::{Answer, Event, Mark, MomentFault, Outcome, Ran, Refusal, Step, run_steps};
use std::process::Abort;
use trace_core::{TraceFault, TraceFaultKind, read_trace};

/// What the run of a list of steps gives.
#[derive(Clone, Copy)]
struct Wanted<'a> {
    /// Of each step its answer, the place of its first event, and the place after its last one.
    outcomes: &'a [(Answer, usize, usize)],
    events: &'a [Event],
    /// The steps that are stored.
    steps: &'a [Step],
    last_moment: u64,
}

/// Runs a list of steps, and compares what the run gives.
fn expect_run(
    rt: &(impl Abort + AllocGlobal),
    fields: ParamFields,
    steps: &[Step],
    wanted: Wanted<'_>,
) {
    let params = params_of(rt, fields);
    let ran = run_steps(rt.alloc(), params, SEED, steps).expect(rt, "a run");
    gives(rt, &ran, wanted);
}

/// The run gives that.
fn gives<R: Abort>(rt: &R, ran: &Ran, wanted: Wanted<'_>) {
    assert!(rt; have_places(&ran.outcomes, wanted.outcomes));
    assert!(rt; ran.engine.events() == wanted.events);
    assert!(rt; ran.engine.steps() == wanted.steps);
    assert!(rt; ran.engine.last_moment() == wanted.last_moment);
}

/// Whether the outcomes are those answers, and have those places in the journal.
fn have_places(outcomes: &[Outcome], wanted: &[(Answer, usize, usize)]) -> bool {
    for (outcome, &(answer, first_event, end_event)) in outcomes.iter().zip(wanted) {
        let expected = Outcome {
            answer,
            first_event,
            end_event,
        };
        if *outcome != expected {
            return false;
        }
    }
    outcomes.len() == wanted.len()
}

#[test]
fn run_steps_gives_own_events(rt: HostRuntime) {
    expect_closed_run(&rt, one_flow(), 0);
}

/// The same steps over the most flows and with the greatest limit: the packet is in the flow of its port.
#[test]
fn runs_over_the_most_flows(rt: HostRuntime) {
    expect_closed_run(&rt, greatest(), 53);
}

/// A packet comes into that flow, a close, a packet after it, a dequeue and a second close.
fn expect_closed_run(rt: &(impl Abort + AllocGlobal), fields: ParamFields, flow: u32) {
    let steps = [
        enqueue(rt, 0, 53),
        Step::Close { moment: 1 },
        enqueue(rt, 2, 53),
        Step::Dequeue { moment: 3 },
        Step::Close { moment: 4 },
    ];
    let wanted = Wanted {
        outcomes: &[
            (Answer::Accepted, 0, 1),
            (Answer::Closed, 1, 2),
            (Answer::Refused(Refusal::ClosedAlready), 2, 2),
            (Answer::Sent, 2, 3),
            (Answer::Refused(Refusal::ClosedAlready), 3, 3),
        ],
        events: &closed_events(rt, flow),
        steps: &[steps[0], steps[1], steps[3]],
        last_moment: 3,
    };
    expect_run(rt, fields, &steps, wanted);
}

/// The events of that run.
fn closed_events<R: Abort>(rt: &R, flow: u32) -> [Event; 3] {
    [
        Event::Accepted {
            id: 0,
            moment: 0,
            lane: 0,
            flow,
            packet: packet(rt, 53),
        },
        Event::Closed { moment: 1 },
        Event::Sent {
            id: 0,
            moment: 3,
            ecn: Ecn::NotEct,
            mark: Mark::NoMark,
        },
    ]
}

#[test]
fn too_large_moment_refused(rt: HostRuntime) {
    // No trace has such a moment, so the steps are made here.
    let greatest = (1 << 60) - 1;
    let steps = [
        Step::Close { moment: 1 << 60 },
        Step::Close { moment: greatest },
    ];
    let too_large = Answer::Refused(Refusal::Moment(MomentFault::TooLarge));
    let wanted = Wanted {
        outcomes: &[(too_large, 0, 0), (Answer::Closed, 0, 1)],
        events: &[Event::Closed { moment: greatest }],
        steps: &[steps[1]],
        last_moment: greatest,
    };
    expect_run(&rt, one_flow(), &steps, wanted);
}

#[test]
fn read_trace_gives_steps(rt: HostRuntime) {
    let steps = [
        enqueue(&rt, 4, 53),
        Step::Dequeue { moment: 5 },
        Step::Close { moment: 6 },
    ];
    let trace = "enq,4,17,10.0.0.1,10.0.0.2,5000,53,1000,0\n\ndeq,5\nclose,6";
    reads(&rt, trace, &steps);
}

/// The trace gives these steps.
fn reads(rt: &(impl Abort + AllocGlobal), trace: &str, wanted: &[Step]) {
    let mut reader = trace.as_bytes();
    let steps = read_trace(rt.alloc(), &mut reader).ok().expect(rt, "steps");
    assert!(rt; steps.as_slice() == wanted);
}

#[test]
fn read_trace_tells_the_row(rt: HostRuntime) {
    let fault = TraceFault {
        row: 2,
        what: TraceFaultKind::BadNumber,
    };
    refuses(&rt, "deq,5\ndeq,x", fault);
}

/// The trace is refused for that.
fn refuses(rt: &(impl Abort + AllocGlobal), trace: &str, wanted: TraceFault) {
    let mut reader = trace.as_bytes();
    assert!(rt; read_trace(rt.alloc(), &mut reader).err() == Some(wanted));
}
