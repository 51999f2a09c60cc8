//! Whether the journal has of each seat's lane what the seat was told: one pass over the journal, with a place for
//! each seat on the stack.

ghost use Rattle.std.specs.Prelude.{◌≡◌, ◌<◌, ◌↔◌, All, IfSome, IsSome, IsTrue, List, [], ◌∷◌, ◌++◌, get_or, length};
ghost use Rattle.journal_core.specs.declared.event.Event.{Event as EventShown};
ghost use Rattle.port_core.specs.Settling.{Agrees, AreAllTold, AreMet, AreOneAcceptance, AreTheirPlaces, FitsNext, HaveLanes};
ghost use Rattle.port_core.specs.declared.seat.TheConstants.{MAX_SEATS as most_seats};

use crate::seat::{MAX_SEATS, PortSeat};
use packet_core::{Packet, Params, Seed};
use sched_core::{Engine, Event};
use std::sync::ledger::Ledger;

/// The number of places, as an index.
const PLACES: usize = MAX_SEATS as usize;

/// No seat has this place.
const NO_PLACE: usize = usize::MAX;

/// For each lane the place of its seat among these, unless two have one lane.
fn places_of<A: Ledger, S: Ledger>(seats: &[PortSeat<A, S>]) -> Option<[usize; PLACES]>
    ensures places { IfSome result (λ places. AreTheirPlaces seats.now places) }
    ensures lanes { IsSome result ↔ HaveLanes seats.now }
{
    let mut places = [NO_PLACE; PLACES];
    for place in 0..seats.len() {
        let seat = &seats[place];
        let lane = seat.lane as usize;
        if lane >= PLACES || places[lane] != NO_PLACE {
            return None;
        }
        places[lane] = place;
    }
    Some(places)
}

/// Whether the two tell of one acceptance.
fn is_same(one: &Event, other: &Event) -> bool
    ensures { IsTrue result ↔ AreOneAcceptance one.now other.now }
{
    let Event::Accepted {
        id,
        moment,
        lane,
        flow,
        packet,
    } = *one
    else {
        return false;
    };
    let Event::Accepted {
        id: other_id,
        moment: other_moment,
        lane: other_lane,
        flow: other_flow,
        packet: other_packet,
    } = *other
    else {
        return false;
    };
    id == other_id
        && moment == other_moment
        && lane == other_lane
        && flow == other_flow
        && packet.is_same(&other_packet)
}

/// One event more: where it is an acceptance, the seat of its lane was told of it next.
fn meet<A: Ledger, S: Ledger>(
    seats: &[PortSeat<A, S>],
    places: &[usize; PLACES],
    met: &mut [usize; PLACES],
    event: &Event,
) -> bool
    requires { AreTheirPlaces seats.now places.now }
    ensures met { IsTrue result → (before : List EventShown)
        → AreMet seats.now met.old before → AreMet seats.now met.new (before ++ event.now ∷ []) }
    ensures fits { IsTrue result ↔ FitsNext seats.now met.old event.now }
{
    let Event::Accepted { lane, .. } = *event else {
        return true;
    };
    let lane = lane as usize;
    if lane >= PLACES || places[lane] >= seats.len() {
        return false;
    }
    let seat = &seats[places[lane]];
    let told = &seat.told;
    let next = met[lane];
    if next >= told.len() || !is_same(&told[next], event) {
        return false;
    }
    met[lane] = next + 1;
    true
}

/// Each seat was told of all acceptances from its lane, in order, and of no other, and each acceptance is from some
/// seat's lane.
fn all_told<A: Ledger, S: Ledger>(events: &[Event], seats: &[PortSeat<A, S>]) -> bool
    ensures { IsTrue result ↔ AreAllTold events.now seats.now }
{
    let Some(places) = places_of(seats) else {
        return false;
    };
    let mut met = [0usize; PLACES];
    for event in events {
        if !meet(seats, &places, &mut met, event) {
            return false;
        }
    }
    are_done(seats, &met)
}

/// Each seat's list was met to its end.
fn are_done<A: Ledger, S: Ledger>(seats: &[PortSeat<A, S>], met: &[usize; PLACES]) -> bool
    ensures { IsTrue result
        ↔ All (λ s. (s.lane < most_seats) × (get_or met.now s.lane 0 ≡ length s.told)) seats.now }
{
    for seat in seats {
        let lane = seat.lane as usize;
        if lane >= PLACES || met[lane] != seat.told.len() {
            return false;
        }
    }
    true
}

/// The engine is one of these parameters and this seed, and its journal has what these seats were told. What the books
/// can't say is compared here.
pub(crate) fn agrees<A: Ledger, S: Ledger>(
    engine: &Engine,
    params: &Params,
    seed: &Seed,
    seats: &[PortSeat<A, S>],
) -> bool
    ensures { IsTrue result ↔ Agrees engine.now.sched params.now seed.now seats.now }
{
    if engine.params() != params {
        return false;
    }
    if engine.seed() != *seed {
        return false;
    }
    all_told(engine.events(), seats)
}
