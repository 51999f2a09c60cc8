//! Locked ports by one thread with one seat: what their calls answer, before the close and after it, and what the
//! engine is that a settling gives.

use crate::calls::Call;
use crate::fixtures::{Form, counted, flows, packet, room_for_ten};
use crate::seats::{Part, plays, plays_in_room};
use packet_core::{Ecn, EcnUse, Packet, ParamFields, Params};
use sched_core::{Engine, Event, Mark, MomentFault, Refusal, Step, Totals};
use std::alloc::Global;
use std::process::Abort;
use std::sync::Wait;
use std::thread::Threads;
use test_support::by_port;

/// Why a moment of 2^60 microseconds is refused.
const TOO_LARGE: Refusal = Refusal::Moment(MomentFault::TooLarge);

/// The largest moment.
const LAST: u64 = (1 << 60) - 1;

/// A packet of 100 bytes.
const PACKET: Form = Form::Ip4(53, 100);

/// The calls are made by the one seat of a new port with those parameters, and it is settled.
fn plays_alone<R: Threads + Wait + Abort + Sync>(
    rt: &R,
    alloc: Global,
    params: Params,
    calls: &[Call<'_>],
) -> Engine {
    plays(rt, alloc, params, 1, Part::Alone(calls), &[])
}

/// Time doesn't go back: a call that comes with an earlier moment is made at the last one. The statistics have both
/// acceptances and what was sent, before the settling and after it.
#[test]
fn locked_moments_rise(rt: HostRuntime) {
    let engine = plays_alone(&rt, rt.alloc(), flows(&rt, 1), &MOMENTS_RISE);
    assert_eq!(rt; counted(&engine.totals()), (2, 1));
}

const MOMENTS_RISE: [Call<'static>; 5] = [
    Call::Comes(5, PACKET, 0, 0, 5),
    Call::Comes(3, PACKET, 1, 0, 5),
    Call::Goes(4, PACKET, 0, 5, Mark::NoMark),
    Call::Seat(2, 1),
    Call::Counts(2, 1),
];

/// The engine has one step for each call that was answered, at that moment, also where nothing waits and at the largest
/// moment. It has none for a refused call, for the statistics or for a settling.
#[test]
fn engine_has_the_steps_of_the_calls(rt: HostRuntime) {
    has_the_steps(&rt, &plays_alone(&rt, rt.alloc(), flows(&rt, 1), &ANSWERED));
}

const ANSWERED: [Call<'static>; 15] = [
    Call::Idle(1),
    Call::Comes(2, PACKET, 0, 0, 2),
    Call::Goes(3, PACKET, 0, 3, Mark::NoMark),
    Call::GoesNot(LAST + 1, TOO_LARGE),
    Call::Idle(4),
    Call::ComesNot(LAST + 1, PACKET, TOO_LARGE),
    Call::Comes(LAST, PACKET, 1, 0, LAST),
    Call::Counts(2, 1),
    Call::Close(LAST + 1, Err(TOO_LARGE)),
    Call::Close(5, Ok(LAST)),
    Call::Close(LAST + 1, Err(TOO_LARGE)),
    Call::Close(6, Err(Refusal::ClosedAlready)),
    Call::ComesNot(7, PACKET, Refusal::ClosedAlready),
    Call::Goes(8, PACKET, 1, LAST, Mark::NoMark),
    Call::Counts(2, 2),
];

/// Those of each answered call, in order.
fn has_the_steps<R: Abort>(rt: &R, engine: &Engine) {
    let (lane, packet) = (0, packet(rt, PACKET));
    let wanted = [
        Step::Dequeue { moment: 1 },
        Step::Enqueue {
            moment: 2,
            lane,
            packet,
        },
        Step::Dequeue { moment: 3 },
        Step::Dequeue { moment: 4 },
        Step::Enqueue {
            moment: LAST,
            lane,
            packet,
        },
        Step::Close { moment: LAST },
        Step::Dequeue { moment: LAST },
    ];
    assert_eq!(rt; engine.steps(), &wanted[..]);
}

/// A close alone closes. Packets are accepted behind the statistics, a dequeue that finds none, refused calls and a
/// refusal to settle. None of these makes a step of its own but that dequeue, and neither does the settling.
#[test]
fn only_a_close_closes(rt: HostRuntime) {
    let engine = plays_on(&rt, rt.alloc(), &STAYS_OPEN, &AFTER_THE_REFUSAL);
    assert!(&rt; !engine.is_closed());
    has_steps_of_open_port(&rt, &engine);
}

/// The calls are made by the one seat of a new port with one flow, the later ones after the refusal to settle.
fn plays_on<R: Threads + Wait + Abort + Sync>(
    rt: &R,
    alloc: Global,
    first: &[Call<'_>],
    later: &[Call<'_>],
) -> Engine {
    plays(rt, alloc, flows(rt, 1), 1, Part::Alone(first), later)
}

const STAYS_OPEN: [Call<'static>; 13] = [
    Call::Counts(0, 0),
    Call::Comes(1, PACKET, 0, 0, 1),
    Call::Comes(1, PACKET, 1, 0, 1),
    Call::Counts(2, 0),
    Call::Comes(2, PACKET, 2, 0, 2),
    Call::Goes(3, PACKET, 0, 3, Mark::NoMark),
    Call::Goes(3, PACKET, 1, 3, Mark::NoMark),
    Call::Goes(3, PACKET, 2, 3, Mark::NoMark),
    Call::Idle(4),
    Call::Comes(5, PACKET, 3, 0, 5),
    Call::ComesNot(LAST + 1, PACKET, TOO_LARGE),
    Call::GoesNot(LAST + 1, TOO_LARGE),
    Call::Comes(6, PACKET, 4, 0, 6),
];

const AFTER_THE_REFUSAL: [Call<'static>; 3] = [
    Call::Comes(7, PACKET, 5, 0, 7),
    Call::Goes(8, PACKET, 3, 8, Mark::NoMark),
    Call::Counts(6, 4),
];

/// Those of each answered call, in order.
fn has_steps_of_open_port<R: Abort>(rt: &R, engine: &Engine) {
    let packet = packet(rt, PACKET);
    let wanted = [
        enqueue(packet, 1),
        enqueue(packet, 1),
        enqueue(packet, 2),
        Step::Dequeue { moment: 3 },
        Step::Dequeue { moment: 3 },
        Step::Dequeue { moment: 3 },
        Step::Dequeue { moment: 4 },
        enqueue(packet, 5),
        enqueue(packet, 6),
        enqueue(packet, 7),
        Step::Dequeue { moment: 8 },
    ];
    assert_eq!(rt; engine.steps(), &wanted[..]);
}

/// The packet comes at that moment.
fn enqueue(packet: Packet, moment: u64) -> Step {
    Step::Enqueue {
        moment,
        lane: 0,
        packet,
    }
}

/// A port of packets that can't be marked, and one with a bound on the bytes that wait. Each is open at the end, where
/// nothing waits, and has one step for each call.
#[test]
fn other_parameters(rt: HostRuntime) {
    let mut fields = by_port(1);
    fields.ecn = EcnUse::Drop;
    passes_two(&rt, rt.alloc(), fields);
    fields = by_port(1);
    fields.memory_limit = Some(100_000);
    passes_two(&rt, rt.alloc(), fields);
}

/// Two packets pass through a port of these parameters.
fn passes_two<R: Threads + Wait + Abort + Sync>(rt: &R, alloc: Global, fields: ParamFields) {
    let params = Params::try_new(fields).expect(rt, "parameters");
    let engine = plays_alone(rt, alloc, params, &TWO_PASS);
    assert!(rt; !engine.is_closed());
    assert_eq!(rt; engine.steps().len(), 4);
}

const TWO_PASS: [Call<'static>; 5] = [
    Call::Comes(1, PACKET, 0, 0, 1),
    Call::Goes(2, PACKET, 0, 2, Mark::NoMark),
    Call::Comes(3, PACKET, 1, 0, 3),
    Call::Goes(4, PACKET, 1, 4, Mark::NoMark),
    Call::Counts(2, 2),
];

/// After the close each dequeue that finds none is one step.
#[test]
fn idle_after_the_close(rt: HostRuntime) {
    let engine = plays_alone(&rt, rt.alloc(), flows(&rt, 1), &IDLE_AFTER_CLOSE);
    let wanted = [
        Step::Close { moment: 1 },
        Step::Dequeue { moment: 2 },
        Step::Dequeue { moment: 3 },
    ];
    assert_eq!(rt; engine.steps(), &wanted[..]);
}

const IDLE_AFTER_CLOSE: [Call<'static>; 3] = [Call::Close(1, Ok(1)), Call::Idle(2), Call::Idle(3)];

/// More than 2^20 packets pass, and the port goes on, also after a dequeue that finds none.
#[test]
fn more_than_a_million_packets(rt: HostRuntime) {
    let engine = plays_alone(&rt, rt.alloc(), flows(&rt, 1), &A_MILLION);
    assert_eq!(rt; counted(&engine.totals()), (MILLION + 2, MILLION + 2));
}

const MILLION: u64 = (1 << 20) + 1;

const A_MILLION: [Call<'static>; 8] = [
    Call::Pass(1, PACKET, MILLION),
    Call::Idle(2),
    Call::Comes(3, PACKET, MILLION, 0, 3),
    Call::Comes(3, PACKET, MILLION + 1, 0, 3),
    Call::Goes(4, PACKET, MILLION, 4, Mark::NoMark),
    Call::Goes(4, PACKET, MILLION + 1, 4, Mark::NoMark),
    Call::Idle(5),
    Call::Counts(MILLION + 2, MILLION + 2),
];

/// Short and long packets of two flows take turns, with the standard quantum of 1,514 bytes: flow 1 sends 1,564 bytes,
/// so flow 2 is next; it sends as many, and then flow 1 has credits again. After the close packets of both lengths are
/// refused, and those that wait are given, from the two new flows in turn.
#[test]
fn short_and_long_packets(rt: HostRuntime) {
    let engine = plays_alone(&rt, rt.alloc(), flows(&rt, 4), &SHORT_AND_LONG);
    assert_eq!(rt; engine.totals(), WHOLE);
}

const SHORT1: Form = Form::Ip4(1, 64);

const LONG1: Form = Form::Ip4(1, 1_500);

const SHORT2: Form = Form::Ip4(2, 64);

const LONG2: Form = Form::Ip4(2, 1_500);

const SHORT3: Form = Form::Ip4(3, 64);

const SHORT_AND_LONG: [Call<'static>; 28] = [
    Call::Idle(0),
    Call::Idle(1),
    Call::Comes(2, LONG1, 0, 1, 2),
    Call::Comes(3, SHORT1, 1, 1, 3),
    Call::Comes(3, SHORT2, 2, 2, 3),
    Call::Comes(4, LONG1, 3, 1, 4),
    Call::Comes(5, LONG2, 4, 2, 5),
    Call::Counts(5, 0),
    Call::Goes(1_000, LONG1, 0, 1_000, Mark::NoMark),
    Call::Goes(1_001, SHORT1, 1, 1_001, Mark::NoMark),
    Call::Goes(1_002, SHORT2, 2, 1_002, Mark::NoMark),
    Call::Goes(1_003, LONG2, 4, 1_003, Mark::NoMark),
    Call::Goes(1_004, LONG1, 3, 1_004, Mark::NoMark),
    Call::Counts(5, 5),
    Call::Idle(1_005),
    Call::Idle(2_000),
    Call::Comes(3_000, SHORT3, 5, 3, 3_000),
    Call::Comes(3_000, LONG1, 6, 1, 3_000),
    Call::Close(3_001, Ok(3_001)),
    Call::ComesNot(3_002, SHORT1, Refusal::ClosedAlready),
    Call::ComesNot(3_002, LONG1, Refusal::ClosedAlready),
    Call::Close(3_003, Err(Refusal::ClosedAlready)),
    Call::Counts(7, 5),
    Call::Goes(3_500, SHORT3, 5, 3_500, Mark::NoMark),
    Call::Goes(3_501, LONG1, 6, 3_501, Mark::NoMark),
    Call::Seat(7, 7),
    Call::Idle(4_000),
    Call::Totals(WHOLE),
];

/// Three packets of 64 bytes and four of 1,500 came and went, and the port is closed.
const WHOLE: Totals = Totals {
    accepted: 7,
    accepted_bytes: 6_192,
    sent: 7,
    sent_bytes: 6_192,
    dropped_codel: 0,
    dropped_overflow: 0,
    dropped_bytes: 0,
    marked: 0,
    threshold_marked: 0,
    queued: 0,
    queued_bytes: 0,
    closed: true,
};

/// Packets of IPv6, the longest ones, with each ECN field, are settled as they came.
#[test]
fn settles_the_longest_packets(rt: HostRuntime) {
    let engine = plays_alone(&rt, rt.alloc(), flows(&rt, 1), &LONGEST);
    are_accepted(&rt, engine.events(), &LONG);
}

/// The longest packets with each field.
const LONG: [Form; 4] = [
    Form::Ip6(65_535, Ecn::NotEct),
    Form::Ip6(65_535, Ecn::Ect1),
    Form::Ip6(65_535, Ecn::Ect0),
    Form::Ip6(65_535, Ecn::Ce),
];

const LONGEST: [Call<'static>; 4] = [
    Call::Comes(0, Form::Ip6(65_535, Ecn::NotEct), 0, 0, 0),
    Call::Comes(0, Form::Ip6(65_535, Ecn::Ect1), 1, 0, 0),
    Call::Comes(0, Form::Ip6(65_535, Ecn::Ect0), 2, 0, 0),
    Call::Comes(0, Form::Ip6(65_535, Ecn::Ce), 3, 0, 0),
];

/// Packets have any tag, also the least and the greatest. The seat is told of it, and it is given back with the packet.
#[test]
fn any_tag_is_given_back(rt: HostRuntime) {
    let engine = plays_alone(&rt, rt.alloc(), flows(&rt, 1), &TAGGED);
    assert_eq!(rt; counted(&engine.totals()), (4, 4));
}

const TAG_0: Form = Form::Tagged(53, 0);

const TAG_1: Form = Form::Tagged(53, 1);

const TAG_2_32: Form = Form::Tagged(53, 1 << 32);

const GREATEST_TAG: Form = Form::Tagged(53, u64::MAX);

const TAGGED: [Call<'static>; 9] = [
    Call::Comes(0, TAG_0, 0, 0, 0),
    Call::Comes(0, TAG_1, 1, 0, 0),
    Call::Comes(0, GREATEST_TAG, 2, 0, 0),
    Call::Comes(0, TAG_2_32, 3, 0, 0),
    Call::Told(&[(0, TAG_0), (0, TAG_1), (0, GREATEST_TAG), (0, TAG_2_32)]),
    Call::Goes(1, TAG_0, 0, 1, Mark::NoMark),
    Call::Goes(1, TAG_1, 1, 1, Mark::NoMark),
    Call::Goes(1, GREATEST_TAG, 2, 1, Mark::NoMark),
    Call::Goes(1, TAG_2_32, 3, 1, Mark::NoMark),
];

/// The events are the acceptances of these packets at 0.
fn are_accepted<R: Abort>(rt: &R, events: &[Event], forms: &[Form]) {
    assert_eq!(rt; events.len(), forms.len());
    let mut id = 0u64;
    for (event, &form) in events.iter().zip(forms) {
        let wanted = Event::Accepted {
            lane: 0,
            id,
            moment: 0,
            flow: 0,
            packet: packet(rt, form),
        };
        assert_eq!(rt; *event, wanted);
        id = id.wrapping_add(1);
    }
}

/// The statistics of a port have each kind of drop and mark, what waits, and the close. Eleven packets of 1,000 to
/// 1,010 bytes come at 0, so the first is dropped. Before the last of them the port is full, and is asked for its
/// statistics. Of those with the ids 4 and 5 the sender takes part in ECN. At 5 ms the packet 1 is sent. At 105 ms
/// CoDel drops the packet 2, and the packet 3 is sent. At 205 ms CoDel marks the packet 4. A microsecond later the
/// packet 5 is not due, and is marked for the threshold. At 275.71 ms CoDel drops the packet 6, and the packet 7 is
/// sent. So the packets 8, 9 and 10 wait.
#[test]
fn totals_of_a_whole_run(rt: HostRuntime) {
    let engine = plays_alone(&rt, rt.alloc(), room_for_ten(&rt), &WHOLE_RUN);
    assert_eq!(rt; engine.totals(), CLOSED);
}

const WHOLE_RUN: [Call<'static>; 20] = [
    Call::Comes(0, Form::Ip6(1_000, Ecn::NotEct), 0, 0, 0),
    Call::Comes(0, Form::Ip6(1_001, Ecn::NotEct), 1, 0, 0),
    Call::Comes(0, Form::Ip6(1_002, Ecn::NotEct), 2, 0, 0),
    Call::Comes(0, Form::Ip6(1_003, Ecn::NotEct), 3, 0, 0),
    Call::Comes(0, Form::Ip6(1_004, Ecn::Ect0), 4, 0, 0),
    Call::Comes(0, Form::Ip6(1_005, Ecn::Ect0), 5, 0, 0),
    Call::Comes(0, Form::Ip6(1_006, Ecn::NotEct), 6, 0, 0),
    Call::Comes(0, Form::Ip6(1_007, Ecn::NotEct), 7, 0, 0),
    Call::Comes(0, Form::Ip6(1_008, Ecn::NotEct), 8, 0, 0),
    Call::Comes(0, Form::Ip6(1_009, Ecn::NotEct), 9, 0, 0),
    Call::Counts(10, 0),
    Call::Comes(0, Form::Ip6(1_010, Ecn::NotEct), 10, 0, 0),
    Call::Goes(5_000, Form::Ip6(1_001, Ecn::NotEct), 1, 5_000, Mark::NoMark),
    Call::Goes(
        105_000,
        Form::Ip6(1_003, Ecn::NotEct),
        3,
        105_000,
        Mark::NoMark,
    ),
    Call::Goes(
        205_000,
        Form::Ip6(1_004, Ecn::Ce),
        4,
        205_000,
        Mark::CodelMark,
    ),
    Call::Goes(
        205_001,
        Form::Ip6(1_005, Ecn::Ce),
        5,
        205_001,
        Mark::Threshold,
    ),
    Call::Goes(
        275_710,
        Form::Ip6(1_007, Ecn::NotEct),
        7,
        275_710,
        Mark::NoMark,
    ),
    Call::Totals(OPEN),
    Call::Close(275_710, Ok(275_710)),
    Call::Totals(CLOSED),
];

/// The statistics of that run before the close.
const OPEN: Totals = Totals {
    accepted: 11,
    accepted_bytes: 11_055,
    sent: 5,
    sent_bytes: 5_020,
    dropped_codel: 2,
    dropped_overflow: 1,
    dropped_bytes: 3_008,
    marked: 1,
    threshold_marked: 1,
    queued: 3,
    queued_bytes: 3_027,
    closed: false,
};

/// Those after it.
const CLOSED: Totals = Totals {
    closed: true,
    ..OPEN
};

/// Lists with memory from the start change no answer, no step and no event, and neither does memory that a seat takes
/// while packets wait. There are 17 steps and 20 events, and an engine asks for memory for 129 events first.
#[test]
fn room_changes_no_call(rt: HostRuntime) {
    let alloc = rt.alloc();
    let plain = halves(&rt, alloc, &WHOLE_RUN, None);
    assert_eq!(rt; plain.totals(), CLOSED);
    for room in [0, 1, 7, 17, 20, 128, 129, 1_000] {
        let roomy = halves(&rt, alloc, &WHOLE_RUN, Some(room));
        assert_eq!(rt; roomy.steps(), plain.steps());
        assert_eq!(rt; roomy.events(), plain.events());
    }
}

/// The calls are made by the one seat, the later half of them after the refusal to settle.
fn halves<R: Threads + Wait + Abort + Sync>(
    rt: &R,
    alloc: Global,
    calls: &[Call<'_>],
    room: Option<u32>,
) -> Engine {
    let (first, later) = calls.split_at(calls.len() / 2);
    let part = Part::Alone(first);
    plays_in_room(rt, alloc, room_for_ten(rt), 1, room, part, later)
}
