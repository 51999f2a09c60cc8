//! An engine, which stores its steps, and runs of steps.

use crate::calls::Memory::{EnqueueRooms, Keeps, Takes};
use crate::calls::{Answer, Calls, Row, Subject, compared};
use crate::pictures::{Picture, of_engine};
use crate::steps::Call::{self, Close, Dequeue, Enqueue, Reserve, Totals, TupleRows};
use crate::steps::{admitted, gave, has_room, is_row, is_total};
use crate::values::{SEED, Values};
use packet_core::Packet;
use sched_core::{self as sched, Engine, Outcome, Ran, Refusal, Step, run_steps};

/// What comes after the close is refused.
const CLOSED: Refusal = Refusal::ClosedAlready;

/// Packets come and go; then room is taken for steps that are made, and nothing comes any more.
static ENGINE: [Row<'static, Call>; 18] = [
    (Takes, Enqueue(0, Ok(0)), "Engine::enqueue"),
    (Takes, Enqueue(1, Ok(1)), "Engine::enqueue"),
    (Takes, Enqueue(2, Ok(2)), "Engine::enqueue"),
    (Takes, Enqueue(3, Ok(3)), "Engine::enqueue"),
    (Takes, Enqueue(4, Ok(4)), "Engine::enqueue"),
    (Takes, Dequeue(5, Ok(Some(0))), "Engine::dequeue"),
    (Takes, Dequeue(5, Ok(Some(1))), "Engine::dequeue"),
    (Takes, Dequeue(5, Ok(Some(2))), "Engine::dequeue"),
    (Takes, Dequeue(5, Ok(Some(3))), "Engine::dequeue"),
    (Takes, Dequeue(5, Ok(Some(4))), "Engine::dequeue"),
    (Takes, Reserve(2), "Engine::reserve"),
    (
        EnqueueRooms,
        Enqueue(9, Ok(5)),
        "Engine::enqueue after Engine::reserve",
    ),
    (
        EnqueueRooms,
        Dequeue(9, Ok(Some(5))),
        "Engine::dequeue after Engine::reserve",
    ),
    (Takes, Close(9, Ok(())), "Engine::close"),
    (
        Keeps,
        Enqueue(9, Err(CLOSED)),
        "Engine::enqueue after Engine::close",
    ),
    (Keeps, Close(9, Err(CLOSED)), "Engine::close once more"),
    (Takes, TupleRows(6, 6, 0), "Engine::tuple_rows"),
    (EnqueueRooms, Totals(6, 6, 0, true), "Engine::totals"),
];

/// Makes the calls of the sequence.
pub(crate) fn engine(values: &Values, calls: &mut Calls<'_>) {
    plays(values, &ENGINE, calls);
}

/// Makes the calls with a new engine.
pub(crate) fn plays<'a>(values: &Values, rows: &[Row<'a, Call>], calls: &mut Calls<'a>) {
    match new_engine(values, calls) {
        Some(mut engine) => calls.makes(&mut engine, values.packet, rows),
        None => calls.wanted(false, "Engine::try_new"),
    }
}

/// A new engine. Where memory was refused, the same call with ample memory gives one.
pub(crate) fn new_engine(values: &Values, calls: &mut Calls<'_>) -> Option<Engine> {
    match Engine::try_new(values.alloc, values.params, SEED) {
        Ok(engine) => Some(engine),
        Err(_) => {
            calls.note();
            Engine::try_new(values.alloc, values.params, SEED).ok()
        }
    }
}

impl Subject for Engine {
    type Call = Call;

    type Picture = Picture;

    fn picture(&mut self) -> Picture {
        of_engine(self)
    }

    fn answer(&mut self, call: Call, packet: Packet) -> Answer {
        match call {
            Enqueue(moment, wanted) => {
                compared(self.enqueue(moment, 0, packet), admitted(moment, wanted))
            }
            Dequeue(moment, wanted) => gave(self.dequeue(moment), wanted),
            Close(moment, wanted) => compared(self.close(moment), wanted),
            Reserve(steps) => has_room(self.reserve(u64::from(steps))),
            TupleRows(accepted, sent, queued) => {
                is_row(self.tuple_rows(), packet, accepted, sent, queued)
            }
            Totals(accepted, sent, queued, closed) => {
                is_total(&self.totals(), (accepted, sent, queued, closed))
            }
        }
    }
}

/// A run of steps gives all or nothing.
pub(crate) fn steps_run(values: &Values, calls: &mut Calls<'_>) {
    let mut answer = runs(values);
    if calls.is_refused(answer) {
        answer = runs(values);
    }
    calls.wanted(answer.is_right(), "run_steps");
}

/// Runs five steps, of which those after the close are refused.
fn runs(values: &Values) -> Answer {
    let Values {
        alloc,
        params,
        packet,
    } = *values;
    let lane = 0;
    let steps = [
        Step::Enqueue {
            moment: 0,
            lane,
            packet,
        },
        Step::Close { moment: 1 },
        Step::Enqueue {
            moment: 2,
            lane,
            packet,
        },
        Step::Dequeue { moment: 3 },
        Step::Close { moment: 4 },
    ];
    match run_steps(alloc, params, SEED, &steps) {
        Ok(ran) => Answer::of(is_run(&ran)),
        Err(_) => Answer::Refused,
    }
}

/// Whether the run is that of the five steps.
fn is_run(ran: &Ran) -> bool {
    let closed = sched::Answer::Refused(CLOSED);
    let answers = [
        sched::Answer::Accepted,
        sched::Answer::Closed,
        closed,
        sched::Answer::Sent,
        closed,
    ];
    let mut is = ran.outcomes.len() == answers.len() && ran.engine.events().len() == 3;
    for place in 0..answers.len() {
        is = is && is_answer(&ran.outcomes, place, answers[place]);
    }
    is
}

/// Whether that is the answer in that place.
fn is_answer(outcomes: &[Outcome], place: usize, wanted: sched::Answer) -> bool {
    match outcomes.get(place) {
        Some(outcome) => outcome.answer == wanted,
        None => false,
    }
}
