//! Monitors: what they see of a device's journal, after which publish, and that what they see never shrinks.

use crate::calls::{Call, Given, plays};
use crate::fixtures::{one_flow, room_for_one};
use crate::totals::{CLOSED, NOTHING, ONE, THREE, TWO};
use packet_core::Ecn;
use port_core::MAX_MONITORS;
use sched_core::Mark;

/// A packet comes.
const SUBMIT: Call = Call::Submit(100, Ecn::NotEct);

/// It is accepted at 7.
const PUMP: Call = Call::Pump(7, 1);

/// A monitor has seen no event at first. After an acceptance, a publish and its receipt it sees one.
#[test]
fn monitor_learns(rt: HostRuntime) {
    plays(&rt, rt.alloc(), one_flow(&rt), room_for_one(1), &LEARNS);
}

const LEARNS: [Call; 7] = [
    Call::Receipt(0),
    Call::See(0, 0, NOTHING),
    SUBMIT,
    PUMP,
    Call::Publish(1),
    Call::Learn(0, 0),
    Call::See(0, 1, ONE),
];

/// Of three acceptances two were published. The monitor that learnt the second receipt sees two; the other, which
/// learnt the first, sees one or two, and two once it has read often enough, without that receipt.
#[test]
fn two_monitors(rt: HostRuntime) {
    plays(
        &rt,
        rt.alloc(),
        one_flow(&rt),
        room_for_one(2),
        &TWO_OF_THREE,
    );
}

const TWO_OF_THREE: [Call; 15] = [
    SUBMIT,
    PUMP,
    Call::Publish(1),
    SUBMIT,
    PUMP,
    Call::Publish(2),
    SUBMIT,
    PUMP,
    Call::Learn(0, 1),
    Call::Learn(1, 0),
    Call::See(0, 2, TWO),
    Call::EachComesTo(1, 2, TWO),
    Call::Learn(1, 1),
    Call::See(1, 2, TWO),
    Call::Journal(3, THREE),
];

/// A journal without events, the same one again, one that was closed, and one whose packets are sent then are each
/// published, and a monitor sees the close.
#[test]
fn any_journal_is_published(rt: HostRuntime) {
    plays(
        &rt,
        rt.alloc(),
        one_flow(&rt),
        room_for_one(1),
        &ANY_JOURNAL,
    );
}

/// So they are where nobody reads.
#[test]
fn unread_journals_are_published(rt: HostRuntime) {
    plays(
        &rt,
        rt.alloc(),
        one_flow(&rt),
        room_for_one(0),
        &ANY_JOURNAL,
    );
}

const ANY_JOURNAL: [Call; 12] = [
    Call::Publish(0),
    Call::Publish(0),
    SUBMIT,
    PUMP,
    Call::Publish(1),
    Call::Publish(1),
    Call::Close(7),
    Call::Publish(2),
    Call::Dequeue(8, Given(0, 100, Ecn::NotEct, Mark::NoMark)),
    Call::Publish(3),
    Call::Journal(3, CLOSED),
    Call::EachComesTo(1, 3, CLOSED),
];

/// While the device publishes 1,000 times, what a monitor in a thread of its own sees never shrinks, and after the
/// last of them it sees all.
#[test]
fn reads_never_shrink(rt: HostRuntime) {
    let calls = [Call::Beside(1_000)];
    plays(&rt, rt.alloc(), one_flow(&rt), room_for_one(1), &calls);
}

/// As many monitors as there may be see one publish.
#[test]
fn sixty_four_monitors(rt: HostRuntime) {
    plays(
        &rt,
        rt.alloc(),
        one_flow(&rt),
        room_for_one(MAX_MONITORS),
        &ALL_LEARN,
    );
}

/// So does each of any number of them.
#[test]
fn any_number_of_monitors(rt: HostRuntime) {
    for monitors in 0..=MAX_MONITORS {
        plays(
            &rt,
            rt.alloc(),
            one_flow(&rt),
            room_for_one(monitors),
            &ALL_LEARN,
        );
    }
}

const ALL_LEARN: [Call; 5] = [
    SUBMIT,
    PUMP,
    Call::Publish(1),
    Call::EachLearns(0),
    // What was learnt is seen at once.
    Call::EachComesTo(1, 1, ONE),
];
