//! Engines: what they answer, and the steps that they store.

use crate::packets::{SEED, enqueue, four_flows, packet, params_of, tuple};
use packet_core::{Packet, Params, Seed};
use sched_core::{
    Admitted, Answer, Engine, Event, Mark, MomentFault, NullRecorder, Recorder, Refusal, Sent,
    Step, StepRecorder, Totals, TupleRow,
};
use std::process::Abort;

/// A call, and what it is answered.
#[derive(Clone, Copy)]
enum Call<'a> {
    /// An enqueue at that moment from that lane.
    Enqueue(u64, u32, Packet, Result<Admitted, Refusal>),
    /// A dequeue at that moment.
    Dequeue(u64, Result<Option<Sent>, Refusal>),
    /// A close at that moment.
    Close(u64, Result<(), Refusal>),
    /// A step of any kind.
    Make(Step, Answer),
    /// A hundred steps, an enqueue and a dequeue every microsecond, and the close.
    Hundred,
    /// Memory for so many steps.
    Reserve(u32),
    /// What it was made with.
    MadeWith(Params, Seed),
    /// The statistics.
    Totals(Totals),
    /// The turns of the last dequeue.
    Turns(u64),
    /// The moment of the last step.
    LastMoment(u64),
    /// How many events the journal has.
    EventCount(usize),
    /// The steps that are stored.
    Steps(&'a [Step]),
    /// How many steps are stored.
    StepCount(usize),
    /// The rows by five-tuple.
    Rows(&'a [TupleRow]),
}

/// The calls are made in turn with a new engine of four flows, and each is answered as it has to be.
fn plays(rt: &(impl Abort + AllocGlobal), calls: &[Call<'_>]) {
    let mut engine = engine(rt);
    are_answered(rt, &mut engine, calls);
}

/// A new engine with four flows.
fn engine(rt: &(impl Abort + AllocGlobal)) -> Engine {
    let params = params_of(rt, four_flows());
    Engine::try_new(rt.alloc(), params, SEED).expect(rt, "an engine")
}

/// Each call is answered as it has to be.
fn are_answered(rt: &impl Abort, engine: &mut Engine, calls: &[Call<'_>]) {
    for (place, call) in calls.iter().enumerate() {
        assert!(rt;
            is_answered(rt, engine, call),
            "call {place} is answered otherwise"
        );
    }
}

/// Whether the call is answered as it has to be.
fn is_answered(rt: &impl Abort, engine: &mut Engine, call: &Call<'_>) -> bool {
    match *call {
        Call::Enqueue(moment, lane, packet, wanted) => {
            engine.enqueue(moment, lane, packet) == wanted
        }
        Call::Dequeue(moment, wanted) => engine.dequeue(moment) == wanted,
        Call::Close(moment, wanted) => engine.close(moment) == wanted,
        Call::Make(step, wanted) => engine.make(&step) == Ok(wanted),
        Call::Hundred => {
            make_hundred(rt, engine);
            true
        }
        Call::Reserve(steps) => engine.reserve(steps as u64).is_ok(),
        _ => is_told(engine, call),
    }
}

/// Whether the engine tells what it has to.
fn is_told(engine: &Engine, call: &Call<'_>) -> bool {
    match *call {
        Call::MadeWith(params, seed) => *engine.params() == params && engine.seed() == seed,
        Call::Totals(wanted) => engine.totals() == wanted,
        Call::Turns(wanted) => engine.turns() == wanted,
        Call::LastMoment(wanted) => engine.last_moment() == wanted,
        Call::EventCount(wanted) => engine.events().len() == wanted,
        Call::Steps(wanted) => engine.steps() == wanted,
        Call::StepCount(wanted) => engine.steps().len() == wanted,
        Call::Rows(wanted) => has_rows(engine, wanted),
        _ => false,
    }
}

/// Whether the rows by five-tuple are these.
fn has_rows(engine: &Engine, wanted: &[TupleRow]) -> bool {
    match engine.tuple_rows() {
        Ok(rows) => rows.as_slice() == wanted,
        Err(_) => false,
    }
}

/// Makes a hundred steps, an enqueue and a dequeue every microsecond, and the close.
fn make_hundred<K: Recorder, S: StepRecorder, R: Abort>(rt: &R, engine: &mut Engine<K, S>) {
    let packet = packet(rt, 0);
    for moment in 0..50 {
        assert!(rt; engine.enqueue(moment, 0, packet).is_ok());
        assert!(rt; engine.make(&Step::Dequeue { moment }) == Ok(Answer::Sent));
    }
    assert!(rt; engine.close(50).is_ok());
}

/// An enqueue at that moment that is accepted with that id, into that flow.
fn comes<'a>(moment: u64, lane: u32, packet: Packet, id: u64, flow: u32) -> Call<'a> {
    Call::Enqueue(moment, lane, packet, Ok(Admitted { id, moment, flow }))
}

/// A dequeue at that moment that gives the first packet, unmarked.
fn goes<'a>(moment: u64, packet: Packet) -> Call<'a> {
    let sent = Sent {
        id: 0,
        moment,
        packet,
        mark: Mark::NoMark,
    };
    Call::Dequeue(moment, Ok(Some(sent)))
}

/// What a new engine tells.
#[test]
fn a_new_engine(rt: HostRuntime) {
    let calls = [
        Call::MadeWith(params_of(&rt, four_flows()), SEED),
        Call::Totals(Totals::default()),
        Call::Turns(0),
        Call::LastMoment(0),
        Call::Reserve(4),
        Call::Steps(&[]),
    ];
    plays(&rt, &calls);
}

/// One call of each kind and a refused one are answered, and what they made is stored.
#[test]
fn calls_are_answered(rt: HostRuntime) {
    let packet = packet(&rt, 7);
    let fault = MomentFault::Backwards { last: 5 };
    // The refused step isn't stored.
    let steps = [
        Step::Enqueue {
            moment: 5,
            lane: 2,
            packet,
        },
        Step::Dequeue { moment: 6 },
        Step::Close { moment: 7 },
    ];
    let calls = [
        comes(5, 2, packet, 0, 3),
        Call::Dequeue(4, Err(Refusal::Moment(fault))),
        goes(6, packet),
        Call::Close(7, Ok(())),
        Call::Steps(&steps),
    ];
    plays(&rt, &calls);
}

/// Steps of each kind and refused ones are answered, and what they made is stored.
#[test]
fn steps_of_any_kind_are_answered(rt: HostRuntime) {
    let backwards = Refusal::Moment(MomentFault::Backwards { last: 3 });
    // The refused steps aren't stored.
    let steps = [
        Step::Dequeue { moment: 0 },
        enqueue(&rt, 1, 7),
        Step::Close { moment: 2 },
        Step::Dequeue { moment: 3 },
    ];
    let calls = [
        Call::Make(Step::Dequeue { moment: 0 }, Answer::Idle),
        Call::Make(enqueue(&rt, 1, 7), Answer::Accepted),
        Call::Make(Step::Close { moment: 2 }, Answer::Closed),
        Call::Make(enqueue(&rt, 3, 7), Answer::Refused(Refusal::ClosedAlready)),
        Call::Make(Step::Dequeue { moment: 3 }, Answer::Sent),
        Call::Make(Step::Dequeue { moment: 2 }, Answer::Refused(backwards)),
        Call::EventCount(3),
        Call::LastMoment(3),
        Call::Steps(&steps),
    ];
    plays(&rt, &calls);
}

/// Three packets of two five-tuples come and one leaves, and the rows tell it.
#[test]
fn rows_of_an_engine(rt: HostRuntime) {
    let (third, second) = (packet(&rt, 3), packet(&rt, 2));
    let rows = [
        TupleRow {
            tuple: tuple(3),
            flow: 3,
            accepted: 2,
            sent: 1,
            dropped: 0,
            queued: 1,
        },
        TupleRow {
            tuple: tuple(2),
            flow: 2,
            accepted: 1,
            sent: 0,
            dropped: 0,
            queued: 1,
        },
    ];
    let calls = [
        comes(0, 0, third, 0, 3),
        comes(1, 0, second, 1, 2),
        comes(2, 0, third, 2, 3),
        goes(3, third),
        Call::Rows(&rows),
    ];
    plays(&rt, &calls);
}

/// The totals of those hundred steps, each packet of which was sent.
fn totals_of_hundred() -> Totals {
    Totals {
        accepted: 50,
        accepted_bytes: 50_000,
        sent: 50,
        sent_bytes: 50_000,
        closed: true,
        ..Totals::default()
    }
}

/// An engine that stores neither its events nor its steps has the totals of one that stores both.
#[test]
fn engine_without_stored_steps(rt: HostRuntime) {
    let calls = [
        Call::Hundred,
        Call::StepCount(101),
        Call::Totals(totals_of_hundred()),
    ];
    plays(&rt, &calls);
    has_totals_unstored(&rt, &totals_of_hundred());
}

/// An engine that stores neither has those totals.
fn has_totals_unstored(rt: &(impl Abort + AllocGlobal), wanted: &Totals) {
    let mut engine = unstored(rt);
    assert!(rt; totals_after_hundred(rt, &mut engine) == *wanted);
}

/// A new engine with four flows that stores neither its events nor its steps.
fn unstored(rt: &(impl Abort + AllocGlobal)) -> Engine<NullRecorder, NullRecorder> {
    let params = params_of(rt, four_flows());
    Engine::try_with_recorders(
        rt.alloc(),
        params,
        SEED,
        NullRecorder::new(),
        NullRecorder::new(),
    )
    .expect(rt, "an engine")
}

/// The totals of an engine after those hundred steps.
fn totals_after_hundred<K: Recorder, S: StepRecorder, R: Abort>(
    rt: &R,
    engine: &mut Engine<K, S>,
) -> Totals {
    make_hundred(rt, engine);
    engine.totals()
}
