//! A port with its seats, and what these do. What owns the port makes two calls, of which the first borrows it: so the
//! proof drops it on few ways.

ghost use Rattle.std.specs.Prelude.{◌≡◌, ◌<◌, ◌≤◌};

use crate::calls::{Call, makes};
use crate::together::{all_send, both_send};
use packet_core::Params;
use port_core::{LockedPort, MAX_SEATS, PortSeat, Stop, Unsettled, Why};
use sched_core::{Engine, EventList, Recorder, StepList, StepRecorder};
use std::alloc::Global;
use std::marker::Brand;
use std::process::Abort;
use std::sync::Wait;
use std::sync::ledger::{Blank, Ledger};
use std::thread::Threads;
use test_support::SEED;

/// What the seats of a port do.
#[derive(Clone, Copy)]
pub(crate) enum Part<'a> {
    /// Each seat makes its calls in turn.
    Calls(&'a [&'a [Call<'a>]]),
    /// The one seat makes those calls.
    Alone(&'a [Call<'a>]),
    /// Each seat makes the same calls. Then the seats at each two of these places change places, in turn, and the port
    /// is handed them in that order.
    Each(&'a [Call<'a>], &'a [(usize, usize)]),
    /// In each of these rounds each seat makes the same calls.
    Rounds(&'a [&'a [Call<'a>]]),
    /// Two senders, at once or in turn, make so many calls each and stop so.
    Gates(bool, [(u64, Stop); 2]),
    /// All seats but the last send a thousand packets each, and the last one takes packets meanwhile.
    Beside,
}

/// A new port with so many seats does this. Without its last seat it isn't settled then, and stays as it was. That seat
/// makes those calls, and the port is settled with all of them.
pub(crate) fn plays<R: Threads + Wait + Abort + Sync>(
    rt: &R,
    alloc: Global,
    params: Params,
    seats: u32,
    part: Part<'_>,
    later: &[Call<'_>],
) -> Engine {
    plays_in_room(rt, alloc, params, seats, None, part, later)
}

/// The same of a port over lists that have memory for so many events and steps. Each seat takes memory for as many
/// packets before the first call, and the last seat again after the refusal to settle.
pub(crate) fn plays_in_room<R: Threads + Wait + Abort + Sync>(
    rt: &R,
    alloc: Global,
    params: Params,
    seats: u32,
    room: Option<u32>,
    part: Part<'_>,
    later: &[Call<'_>],
) -> Engine {
    assert!(rt; 0 < seats && seats <= MAX_SEATS);
    let (accepted, sent) = (Blank::new(u64::from(seats)), Blank::new(u64::from(seats)));
    at_seats::<Brand, Brand, _>(rt, alloc, params, seats, room, part, later, accepted, sent)
}

fn at_seats<A: Ledger + Send + Sync, S: Ledger + Send + Sync, R: Threads + Wait + Abort + Sync>(
    rt: &R,
    alloc: Global,
    params: Params,
    number: u32,
    room: Option<u32>,
    part: Part<'_>,
    later: &[Call<'_>],
    accepted: Blank,
    sent: Blank,
) -> Engine
    requires number { (0 < number) × (number ≤ MAX_SEATS) }
    requires accepted { (accepted.name ≡ A.name) × (accepted.parts ≡ A.parts) × (A.parts ≡ number) }
    requires sent { (sent.name ≡ S.name) × (sent.parts ≡ S.parts) × (S.parts ≡ number) }
{
    let (port, mut seats) = started::<A, S, _>(rt, alloc, params, number, room, accepted, sent);
    assert!(rt; have_room(&mut seats, room));
    let seats = do_part(rt, alloc, &port, seats, part);
    settles(rt, alloc, port, seats, room, later)
}

/// A new port over lists with memory for so many events and steps, if for any.
fn started<A: Ledger, S: Ledger, R: Abort>(
    rt: &R,
    alloc: Global,
    params: Params,
    number: u32,
    room: Option<u32>,
    accepted: Blank,
    sent: Blank,
) -> (LockedPort<A, S>, Vec<PortSeat<A, S>>)
    requires number { (0 < number) × (number ≤ MAX_SEATS) }
    requires accepted { (accepted.name ≡ A.name) × (accepted.parts ≡ A.parts) × (A.parts ≡ number) }
    requires sent { (sent.name ≡ S.name) × (sent.parts ≡ S.parts) × (S.parts ≡ number) }
{
    let started = match room {
        None => LockedPort::<A, S>::start(alloc, params, SEED, number, accepted, sent),
        Some(room) => {
            let (mut events, mut steps) = (EventList::new(alloc), StepList::new(alloc));
            events.reserve(room as usize).expect(rt, "memory");
            steps.reserve(room as usize).expect(rt, "memory");
            LockedPort::<A, S>::start_with_recorders(
                alloc, params, SEED, number, accepted, sent, events, steps,
            )
        }
    };
    started.expect(rt, "a port")
}

/// Each seat takes memory for so many packets, if for any, and has it then.
fn have_room<A: Ledger, S: Ledger>(seats: &mut [PortSeat<A, S>], room: Option<u32>) -> bool {
    for seat in 0..seats.len() {
        if !has_room(&mut seats[seat], room) {
            return false;
        }
    }
    true
}

/// The seat takes memory for so many packets, if for any, and has it then.
fn has_room<A: Ledger, S: Ledger>(seat: &mut PortSeat<A, S>, room: Option<u32>) -> bool {
    match room {
        Some(packets) => seat.reserve(packets as usize).is_ok(),
        None => true,
    }
}

/// The seats do their part.
fn do_part<A: Ledger + Send + Sync, S: Ledger + Send + Sync, R: Threads + Wait + Abort + Sync>(
    rt: &R,
    alloc: Global,
    port: &LockedPort<A, S>,
    seats: Vec<PortSeat<A, S>>,
    part: Part<'_>,
) -> Vec<PortSeat<A, S>> {
    match part {
        Part::Calls(lists) => in_turn(rt, alloc, port, seats, lists),
        Part::Alone(calls) => alone(rt, alloc, port, seats, calls),
        Part::Each(calls, places) => {
            change_places(rt, each(rt, alloc, port, seats, calls), places)
        }
        Part::Rounds(rounds) => in_rounds(rt, alloc, port, seats, rounds),
        Part::Gates(at_once, wanted) => both_send(rt, port, seats, at_once, wanted),
        Part::Beside => all_send(rt, alloc, port, seats),
    }
}

/// Each seat makes its calls in turn.
fn in_turn<A: Ledger, S: Ledger, R: Wait + Abort>(
    rt: &R,
    alloc: Global,
    port: &LockedPort<A, S>,
    seats: Vec<PortSeat<A, S>>,
    lists: &[&[Call<'_>]],
) -> Vec<PortSeat<A, S>> {
    assert_eq!(rt; seats.len(), lists.len());
    let mut made = Vec::new(alloc);
    for seat in seats {
        let calls = lists.get(made.len()).expect(rt, "calls");
        made.push(makes(rt, alloc, port, seat, calls))
            .expect(rt, "memory");
    }
    made
}

/// The one seat makes those calls.
fn alone<A: Ledger, S: Ledger, R: Wait + Abort>(
    rt: &R,
    alloc: Global,
    port: &LockedPort<A, S>,
    seats: Vec<PortSeat<A, S>>,
    calls: &[Call<'_>],
) -> Vec<PortSeat<A, S>> {
    assert_eq!(rt; seats.len(), 1);
    each(rt, alloc, port, seats, calls)
}

/// Each seat makes those calls.
fn each<A: Ledger, S: Ledger, R: Wait + Abort>(
    rt: &R,
    alloc: Global,
    port: &LockedPort<A, S>,
    seats: Vec<PortSeat<A, S>>,
    calls: &[Call<'_>],
) -> Vec<PortSeat<A, S>> {
    let mut made = Vec::new(alloc);
    for seat in seats {
        made.push(makes(rt, alloc, port, seat, calls))
            .expect(rt, "memory");
    }
    made
}

/// In each of these rounds each seat makes the same calls.
fn in_rounds<A: Ledger, S: Ledger, R: Wait + Abort>(
    rt: &R,
    alloc: Global,
    port: &LockedPort<A, S>,
    seats: Vec<PortSeat<A, S>>,
    rounds: &[&[Call<'_>]],
) -> Vec<PortSeat<A, S>> {
    let mut seats = seats;
    for calls in rounds {
        seats = each(rt, alloc, port, seats, calls);
    }
    seats
}

/// The seats at each two of these places change places, in turn.
fn change_places<A: Ledger, S: Ledger, R: Abort>(
    rt: &R,
    seats: Vec<PortSeat<A, S>>,
    places: &[(usize, usize)],
) -> Vec<PortSeat<A, S>> {
    let mut seats = seats;
    for &(one, other) in places {
        assert!(rt; one < seats.len() && other < seats.len());
        seats.swap(one, other);
    }
    seats
}

/// The port isn't settled without its last seat, which makes those calls then, and it is settled with all of them. All
/// packets that were sent were given to that seat.
fn settles<A: Ledger, S: Ledger, R: Wait + Abort>(
    rt: &R,
    alloc: Global,
    port: LockedPort<A, S>,
    seats: Vec<PortSeat<A, S>>,
    room: Option<u32>,
    later: &[Call<'_>],
) -> Engine {
    let mut seats = seats;
    let last = seats.pop().expect(rt, "the last seat");
    // Nor is it without any seat.
    let (port, none) = unsettled(rt, port, Vec::new(alloc));
    assert!(rt; none.is_empty());
    let (port, mut seats) = unsettled(rt, port, seats);
    let mut last = last;
    assert!(rt; has_room(&mut last, room));
    let last = makes(rt, alloc, &port, last, later);
    let given = last.sent();
    seats.push(last).expect(rt, "memory");
    let engine = port.settle(seats).ok().expect(rt, "an engine");
    assert_eq!(rt; engine.totals().sent, given);
    engine
}

/// A seat is missing, so the port and the other seats are given back.
fn unsettled<A: Ledger, S: Ledger, R: Abort>(
    rt: &R,
    port: LockedPort<A, S>,
    seats: Vec<PortSeat<A, S>>,
) -> (LockedPort<A, S>, Vec<PortSeat<A, S>>) {
    let number = seats.len();
    let Unsettled { why, port, seats } = port.settle(seats).err().expect(rt, "a refusal");
    assert_eq!(rt; (why, seats.len()), (Why::NotAll, number));
    (port, seats)
}
