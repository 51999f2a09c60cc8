//! Lanes by one thread: what goes through them, in what order, when they are full, and what a device refuses.

ghost use Rattle.std.specs.Prelude.{◌≡◌};

use crate::calls::{Call, Sending, fills_twice, full, plays, plays_unstored, put, submits, takes};
use crate::fixtures::{accepted, open, packet, packets};
use crate::gates::{Asked, new_gate, was_asked};
use packet_core::{Ecn, Packet};
use port_core::{
    BookBlank, BookName, LaneFull, LaneSender, MAX_CAPACITY, MAX_LANES, Open, Opened, Screen,
    Shown, Stop, send_lane,
};
use sched_core::{Event, Mark, MomentFault, Refusal, Sent};
use std::alloc::Global;
use std::marker::Brand;
use std::process::Abort;
use std::sync::Wait;

/// Why a moment of 2^60 microseconds is refused.
const TOO_LARGE: Refusal = Refusal::Moment(MomentFault::TooLarge);

/// Why a moment before 7 is refused after a pump at 7.
const TOO_EARLY: Refusal = Refusal::Moment(MomentFault::Backwards { last: 7 });

/// The close at 7.
const CLOSED: Event = Event::Closed { moment: 7 };

/// A lane with room for two packets gives back the third, has room again once one was taken, and keeps what is
/// submitted after the close. Three of four packets were accepted, so one is left.
#[test]
fn lane_of_two(rt: HostRuntime) {
    let p = packets(&rt, 0);
    let calls = [
        put(0, p[1]),
        put(0, p[2]),
        full(0, p[3]),
        takes(0, 1, 1),
        put(0, p[3]),
        takes(0, 8, 2),
        Call::Close(7, Ok(())),
        put(0, p[4]),
        Call::Pump(0, 7, 1, Err(Refusal::ClosedAlready)),
        Call::Finish(1),
    ];
    let events = [
        accepted(0, 0, p[1]),
        accepted(0, 1, p[2]),
        accepted(0, 2, p[3]),
        CLOSED,
    ];
    plays(&rt, rt.alloc(), (1, 2), &calls, &events);
}

/// A lane with room for one packet gives each second one back, five times, and the others come out in order.
#[test]
fn full_again_and_again(rt: HostRuntime) {
    let (p, q) = (packets(&rt, 0), packets(&rt, 1000));
    let calls = [
        put(0, p[1]),
        full(0, q[1]),
        takes(0, 1, 1),
        put(0, p[2]),
        full(0, q[2]),
        takes(0, 1, 1),
        put(0, p[3]),
        full(0, q[3]),
        takes(0, 1, 1),
        put(0, p[4]),
        full(0, q[4]),
        takes(0, 1, 1),
        put(0, p[5]),
        full(0, q[5]),
        takes(0, 1, 1),
    ];
    let events = [
        accepted(0, 0, p[1]),
        accepted(0, 1, p[2]),
        accepted(0, 2, p[3]),
        accepted(0, 3, p[4]),
        accepted(0, 4, p[5]),
    ];
    plays(&rt, rt.alloc(), (1, 1), &calls, &events);
}

/// A lane with room for any power of two, or for one packet fewer or more, is full after as many packets. It has room for
/// one once one was taken, and for all once it was emptied. So it is up to 4,096 packets.
#[test]
fn full_at_any_short_capacity(rt: HostRuntime) {
    fills_each(&rt, rt.alloc(), 1, 13);
}

/// So it is from 8,192 up to 65,536.
#[test]
fn full_at_any_long_capacity(rt: HostRuntime) {
    fills_each(&rt, rt.alloc(), 8_192, 4);
}

/// Lanes with room for that power of two and so many in all, each twice as large as the one before, and for one packet
/// fewer and more.
fn fills_each<R: Wait + Abort>(rt: &R, alloc: Global, first: u32, powers: u32) {
    let mut power = first;
    for _power in 0..powers {
        for capacity in power.saturating_sub(1).max(1)..=power.saturating_add(1) {
            fills_twice(rt, alloc, capacity, packet(rt, 1));
        }
        power = power.saturating_mul(2);
    }
}

/// A pump takes all that stand in its lane, where its burst lets it: the largest burst is 1,024.
#[test]
fn a_long_burst(rt: HostRuntime) {
    let packet = packet(&rt, 1);
    let calls = [
        put(0, packet),
        put(0, packet),
        put(0, packet),
        put(0, packet),
        put(0, packet),
        put(0, packet),
        put(0, packet),
        put(0, packet),
        put(0, packet),
        put(0, packet),
        put(0, packet),
        put(0, packet),
        put(0, packet),
        put(0, packet),
        put(0, packet),
        put(0, packet),
        put(0, packet),
        put(0, packet),
        put(0, packet),
        put(0, packet),
        takes(0, 1_024, 20),
    ];
    let mut events = [accepted(0, 0, packet); 20];
    for id in 0..20 {
        events[id] = accepted(0, id as u64, packet);
    }
    plays(&rt, rt.alloc(), (1, 64), &calls, &events);
}

/// A pump looks into its lane at the largest moment, too.
#[test]
fn a_pump_at_the_largest_moment(rt: HostRuntime) {
    let packet = packet(&rt, 1);
    let moment = (1 << 60) - 1;
    let calls = [put(0, packet), Call::Pump(0, moment, 8, Ok(1))];
    let events = [Event::Accepted {
        lane: 0,
        id: 0,
        moment,
        flow: 0,
        packet,
    }];
    plays(&rt, rt.alloc(), (1, 2), &calls, &events);
}

/// There may be any number of lanes from 1 to 64, and a packet comes through the last of them.
#[test]
fn any_number_of_lanes(rt: HostRuntime) {
    let packet = packet(&rt, 1);
    for number in 1..=MAX_LANES {
        let last = number - 1;
        let calls = [put(last, packet), takes(last, 8, 1)];
        let events = [accepted(last, 0, packet)];
        plays(&rt, rt.alloc(), (number, 2), &calls, &events);
    }
}

/// A lane may have room for 1,048,576 packets.
#[test]
fn lane_of_the_greatest_capacity(rt: HostRuntime) {
    let p = packets(&rt, 0);
    let calls = [put(0, p[1]), put(0, p[2]), takes(0, 8, 2)];
    let events = [accepted(0, 0, p[1]), accepted(0, 1, p[2])];
    plays(&rt, rt.alloc(), (1, MAX_CAPACITY), &calls, &events);
}

/// Such a lane is settled by the end that its sender gives.
#[test]
fn end_of_the_greatest_capacity(rt: HostRuntime) {
    let p = packets(&rt, 0);
    let calls = [put(0, p[1]), put(0, p[2]), takes(0, 1, 1), Call::Finish(1)];
    let events = [accepted(0, 0, p[1])];
    plays(&rt, rt.alloc(), (1, MAX_CAPACITY), &calls, &events);
}

/// What a sender submitted comes out once it was dropped, whether the device looked into its lane before or not, and
/// then the lane is empty.
#[test]
fn packets_of_a_dropped_sender(rt: HostRuntime) {
    let p = packets(&rt, 0);
    let calls = [
        put(0, p[1]),
        takes(0, 8, 1),
        put(0, p[2]),
        put(1, p[3]),
        put(1, p[4]),
        Call::DropLast,
        takes(1, 1, 1),
        Call::DropLast,
        takes(0, 8, 1),
        takes(1, 8, 1),
        takes(0, 8, 0),
        takes(1, 8, 0),
    ];
    let events = [
        accepted(0, 0, p[1]),
        accepted(1, 1, p[3]),
        accepted(0, 2, p[2]),
        accepted(1, 3, p[4]),
    ];
    plays(&rt, rt.alloc(), (2, 4), &calls, &events);
}

/// What a sender submitted comes out once it has finished, before its lane is settled and after it.
#[test]
fn packets_of_a_finished_sender(rt: HostRuntime) {
    let (p, q) = (packets(&rt, 0), packets(&rt, 6));
    let calls = [
        put(0, p[0]),
        takes(0, 8, 1),
        put(0, p[1]),
        put(0, p[2]),
        put(0, p[3]),
        put(0, p[4]),
        put(0, p[5]),
        put(0, q[0]),
        put(0, q[1]),
        put(0, q[2]),
        put(0, q[3]),
        Call::FinishPumped(8, 1),
        takes(0, 8, 1),
        takes(0, 8, 0),
    ];
    let events = [
        accepted(0, 0, p[0]),
        accepted(0, 1, p[1]),
        accepted(0, 2, p[2]),
        accepted(0, 3, p[3]),
        accepted(0, 4, p[4]),
        accepted(0, 5, p[5]),
        accepted(0, 6, q[0]),
        accepted(0, 7, q[1]),
        accepted(0, 8, q[2]),
        accepted(0, 9, q[3]),
    ];
    plays(&rt, rt.alloc(), (1, 16), &calls, &events);
}

/// The refusals of a pump are tested in the order of their rules, also after the close, and a refused pump leaves the
/// packet in its lane.
#[test]
fn refused_pumps_take_nothing(rt: HostRuntime) {
    let p = packets(&rt, 0);
    let calls = [
        put(0, p[1]),
        put(0, p[2]),
        takes(0, 1, 1),
        Call::Pump(0, 1 << 60, 1, Err(TOO_LARGE)),
        Call::Pump(0, 6, 1, Err(TOO_EARLY)),
        takes(0, 1, 1),
        Call::Close(7, Ok(())),
        Call::Pump(0, 1 << 60, 1, Err(TOO_LARGE)),
        Call::Pump(0, 6, 1, Err(TOO_EARLY)),
        Call::Pump(0, 7, 1, Err(Refusal::ClosedAlready)),
    ];
    let events = [accepted(0, 0, p[1]), accepted(0, 1, p[2]), CLOSED];
    plays(&rt, rt.alloc(), (1, 4), &calls, &events);
}

/// A pump of one lane leaves the other's packet.
#[test]
fn lanes_stand_apart(rt: HostRuntime) {
    let p = packets(&rt, 0);
    let calls = [
        put(0, p[1]),
        put(1, p[2]),
        takes(1, 8, 1),
        takes(1, 8, 0),
        takes(0, 8, 1),
    ];
    let events = [accepted(1, 0, p[2]), accepted(0, 1, p[1])];
    plays(&rt, rt.alloc(), (2, 4), &calls, &events);
}

/// A dequeue at 8 that gives the first packet, unmarked.
fn gives<'a>(packet: Packet) -> Call<'a> {
    Call::Dequeue(
        8,
        Ok(Some(Sent {
            id: 0,
            moment: 8,
            packet,
            mark: Mark::NoMark,
        })),
    )
}

/// Memory for two steps is taken first; then a pump takes one packet, and a dequeue gives it.
#[test]
fn gives_what_it_took(rt: HostRuntime) {
    let packet = packet(&rt, 1);
    let calls = [
        Call::Reserve(2, Ok(())),
        put(0, packet),
        takes(0, 2, 1),
        gives(packet),
        Call::Dequeue(8, Ok(None)),
    ];
    let sent = Event::Sent {
        id: 0,
        moment: 8,
        ecn: Ecn::NotEct,
        mark: Mark::NoMark,
    };
    plays(
        &rt,
        rt.alloc(),
        (1, 4),
        &calls,
        &[accepted(0, 0, packet), sent],
    );
}

/// A device that keeps neither events nor steps has the totals of what went through its lanes.
#[test]
fn counts_without_a_journal(rt: HostRuntime) {
    let p = packets(&rt, 0);
    let calls = [
        put(0, p[1]),
        put(0, p[2]),
        put(1, p[1]),
        put(1, p[2]),
        takes(0, 1, 1),
        takes(1, 8, 2),
        gives(p[1]),
        Call::Counts(3, 1),
    ];
    plays_unstored(&rt, rt.alloc(), (2, 2), &calls);
}

/// Once its device was dropped, a sender fills its lane as before, and has no end.
#[test]
fn outlives_its_device(rt: HostRuntime) {
    outlives::<Brand, _>(&rt, rt.alloc(), BookBlank::new());
}

fn outlives<J: BookName, R: Wait + Abort>(rt: &R, alloc: Global, blank: BookBlank)
    requires { blank ≡ J.book }
{
    has_no_end(rt, senders_of(open::<J, R>(rt, alloc, blank, 1, 1)));
}

/// The device is dropped.
fn senders_of<J: BookName, X: Screen<Shown<J>> + Drop>(opened: Opened<J, X>) -> Vec<LaneSender> {
    let Opened {
        senders,
        device,
        monitors: _monitors,
    } = opened;
    drop(device);
    senders
}

fn has_no_end<R: Abort>(rt: &R, senders: Vec<LaneSender>) {
    let mut senders = senders;
    let full = packet(rt, 2);
    submits(rt, &mut senders, 0, packet(rt, 1), Ok(()));
    submits(rt, &mut senders, 0, full, Err(LaneFull(full)));
    assert!(rt; senders.pop().expect(rt, "a sender").finish().is_none());
}

/// A sender whose device was dropped sends its packets all the same, and has no end.
#[test]
fn sends_without_its_device(rt: HostRuntime) {
    sends_alone::<Brand, _>(&rt, rt.alloc(), BookBlank::new());
}

fn sends_alone<J: BookName, R: Wait + Abort>(rt: &R, alloc: Global, blank: BookBlank)
    requires { blank ≡ J.book }
{
    sends_both(rt, senders_of(open::<J, R>(rt, alloc, blank, 1, 3)));
}

fn sends_both<R: Abort>(rt: &R, senders: Vec<LaneSender>) {
    let mut senders = senders;
    let packets = [packet(rt, 1), packet(rt, 2)];
    let done = send_lane(senders.pop().expect(rt, "a sender"), &packets, &Open);
    assert_eq!(rt; (done.submitted, done.stop), (2, Stop::Done));
    assert!(rt; done.end.is_none());
}

/// Of three packets two go into a lane with room for two, and a device finds them there once the sender is done.
#[test]
fn sends_until_it_is_full(rt: HostRuntime) {
    sends(&rt, rt.alloc(), 2, Stop::Full);
}

/// Into a lane with room for three all go.
#[test]
fn sends_all(rt: HostRuntime) {
    sends(&rt, rt.alloc(), 3, Stop::Done);
}

/// A sender of three packets fills a lane with room for so many, and stops so.
fn sends<R: Wait + Abort>(rt: &R, alloc: Global, capacity: u32, stop: Stop) {
    let p = packets(rt, 0);
    let all: &[Packet] = &p;
    let sending = Sending {
        packets: &all[1..4],
        submitted: u64::from(capacity),
        stop,
        left: u64::from(capacity),
    };
    let calls = [Call::Send(sending), takes(0, 1, 1)];
    plays(rt, alloc, (1, capacity), &calls, &[accepted(0, 0, p[1])]);
}

/// A sender whose gate stays closed asks a million times for that call, the first one too, and submits nothing more.
#[test]
fn closed_gates_stall(rt: HostRuntime) {
    let p = packets(&rt, 0);
    let (zero, one) = (new_gate(0, false), new_gate(1, false));
    stalls(&rt, rt.alloc(), &zero, &one, &p);
    was_asked(&rt, &zero, 1_000_000);
    was_asked(&rt, &one, 1_000_001);
}

/// The sender of lane 0 submits nothing, and that of lane 1 one packet.
fn stalls<'a, R: Wait + Abort>(
    rt: &R,
    alloc: Global,
    zero: &'a Asked,
    one: &'a Asked,
    p: &'a [Packet; 6],
) {
    let all: &'a [Packet] = p;
    let stalled = Sending {
        packets: &all[1..4],
        submitted: 0,
        stop: Stop::Stalled,
        left: 0,
    };
    let later = Sending {
        submitted: 1,
        left: 1,
        ..stalled
    };
    let calls = [
        Call::Ask(one, later),
        Call::Ask(zero, stalled),
        takes(0, 8, 0),
        takes(1, 8, 1),
    ];
    plays(rt, alloc, (2, 3), &calls, &[accepted(1, 0, p[1])]);
}
