//! Recorders: memory for what they will be told, one that makes packets of events, and a tally beside one.

ghost use Rattle.std.specs.Prelude.{◌≡◌, ◌-◌, ◌<◌, ◌≤◌, ◌∷◌, [], IfSome, true};
ghost use Rattle.journal_core.specs.Happened.{Acceptance};
ghost use Rattle.journal_core.specs.Tallies.{HasSeen, tuple_of};
ghost use Rattle.journal_core.specs.declared.event.Event.TheVariants.{Accepted};

use crate::calls::Calls;
use crate::quiet::allocate;
use crate::values::{SEED, Values};
use codel_core::Served;
use journal_core::{Mark, Noted, Recorder, StepRecorder, Tally};
use link_report::Gathered;
use packet_core::{Ecn, Packet, Seed, Waiting};
use test_support::tuple;

/// So many packets come, each of another five-tuple, and then go. For so many a recorder stores the flows' latest ones.
const PACKETS: u64 = 10_220;

/// No machine has memory for so many events.
const NO_ROOM: usize = 1 << 40;

/// Memory is reserved for several events, where there is some for fewer, and to tell them takes none, all of them
/// arrivals or not. So at the end each packet is there. Where no memory is given for the flows' latest five-tuples, no
/// call is refused.
pub(crate) fn gathered(values: &Values, calls: &mut Calls<'_>) {
    let mut gathered = Gathered::new(values.alloc, &Seed([0; 16]), u64::MAX);
    for (fewer, count) in [
        (40, 60),
        (0, 1),
        (2, 20),
        (3, 90),
        (1, 49),
        (0, 10_000),
        (0, PACKETS as usize),
    ] {
        take(&mut gathered, fewer, calls);
        tell(&mut gathered, count, values, calls);
    }
    calls.wanted(has_all(&gathered), "Gathered::packets");
    take_for_two(values, calls);
}

/// A recorder that makes the packets of two events takes memory for those, however many are reserved.
fn take_for_two(values: &Values, calls: &mut Calls<'_>) {
    let mut gathered = Gathered::new(values.alloc, &SEED, 2);
    take(&mut gathered, NO_ROOM, calls);
}

/// Tells it so many events, for which memory is reserved at once.
fn tell(gathered: &mut Gathered, count: usize, values: &Values, calls: &mut Calls<'_>) {
    let told = gathered.event_count();
    if take(gathered, count, calls) {
        calls.wanted(gathered.event_count() == told, "Recorder::reserve");
        for _event in 0..count {
            tell_next(gathered, values.packet);
        }
    }
}

/// Tells it the next event: each packet comes, and then each goes.
fn tell_next(gathered: &mut Gathered, packet: Packet)
    requires { 0 < gathered.old.room }
    ensures { gathered.new.room ≡ gathered.old.room - 1 }
{
    let number = gathered.event_count();
    if number < PACKETS {
        let port = (number % PACKETS) as u16;
        let packet = Packet::try_new(tuple(port), 1_000, Ecn::NotEct).unwrap_or(packet);
        gathered.accept(&waiting(number, packet), 0, u32::from(port));
    } else {
        let served = Served {
            waiting: waiting(number - PACKETS, packet),
            mark: Mark::NoMark,
        };
        gathered.send(&served, 2);
    }
}

/// The packet, as it waits since moment 1.
fn waiting(id: u64, packet: Packet) -> Waiting
    ensures id { result.id ≡ id }
    ensures stamp { result.stamp ≡ 1 }
    ensures packet { result.packet ≡ packet }
{
    Waiting {
        id,
        stamp: 1,
        packet,
    }
}

/// Reserves memory for so many events more of a recorder, and answers whether there is. Where it is refused it is reserved
/// once more.
pub(crate) fn take<K: Recorder>(recorder: &mut K, more: usize, calls: &mut Calls<'_>) -> bool
    ensures room { result ≡ true → more ≤ K.room recorder.new }
    ensures told { K.told recorder.new ≡ K.told recorder.old }
    ensures sent { K.sent recorder.new ≡ K.sent recorder.old }
    ensures lost { K.lost recorder.new ≡ K.lost recorder.old }
{
    if recorder.reserve(more).is_ok() {
        return true;
    }
    calls.note();
    let is_there = recorder.reserve(more).is_ok();
    calls.wanted(is_there, "Recorder::reserve");
    is_there
}

/// The same for so many steps more.
pub(crate) fn take_steps<S: StepRecorder>(recorder: &mut S, more: usize, calls: &mut Calls<'_>)
    ensures { S.told recorder.new ≡ S.told recorder.old }
{
    if recorder.reserve(more).is_err() {
        calls.note();
        let is_there = recorder.reserve(more).is_ok();
        calls.wanted(is_there, "StepRecorder::reserve");
    }
}

/// Whether each packet is among its packets, with a five-tuple of its own, and was sent.
fn has_all(gathered: &Gathered) -> bool {
    match gathered.packets() {
        Some(packets) => {
            let (tuples, records) = (packets.tuples(), packets.records());
            records.len() as u64 == PACKETS
                && tuples.len() == records.len()
                && records.iter().all(|record| record.is_sent())
        }
        None => false,
    }
}

/// A packet comes to a tally and to a recorder of notes. What memory its row needs is taken then, so the rows take none.
pub(crate) fn tallied(values: &Values, calls: &mut Calls<'_>) {
    let Some(tally) = tally_of(values, calls) else {
        return;
    };
    let Some(noted) = note_of(values, calls) else {
        return;
    };
    let rows = tally.rows(&noted);
    let is_right = match rows.first() {
        Some(row) => rows.len() == 1 && row.accepted == 1 && row.queued == 1,
        None => false,
    };
    calls.wanted(is_right, "Tally::rows");
    allocate(values.alloc, calls);
}

/// A tally of the packet, in flow 0. Where memory is refused, the packet comes once more.
fn tally_of(values: &Values, calls: &mut Calls<'_>) -> Option<Tally>
    ensures { IfSome result (λ tally. (a : Acceptance) → tuple_of a ≡ values.now.packet.tuple → a.flow ≡ 0
        → HasSeen tally (a ∷ [])) }
{
    let tuple = values.packet.tuple();
    let mut tally = Tally::new(values.alloc, &SEED);
    match tally.accept(tuple, 0) {
        Ok(()) => return Some(tally),
        Err(_) => calls.note(),
    }
    match tally.accept(tuple, 0) {
        Ok(()) => Some(tally),
        Err(_) => {
            calls.wanted(false, "Tally::accept");
            None
        }
    }
}

/// A note of the packet.
fn note_of(values: &Values, calls: &mut Calls<'_>) -> Option<Noted>
    ensures { IfSome result (λ noted. noted.events ≡ Accepted 0 0 1 0 values.now.packet ∷ []) }
{
    let mut noted = Noted::new(values.alloc);
    if !take(&mut noted, 1, calls) {
        return None;
    }
    noted.accept(&waiting(0, values.packet), 0, 0);
    Some(noted)
}
