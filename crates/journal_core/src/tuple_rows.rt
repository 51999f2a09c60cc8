//! What became of the packets of each five-tuple.

ghost use Rattle.std.specs.Prelude.{◌≡◌, ◌<◌, ◌≤◌, ◌↔◌, All, ◌+◌, ℕ, List, IfOk, IsOk, OnErr, OnOk, length, map, take, [], ◌∷◌, ◌++◌, slice_get, slice_index, Some, IsTrue, vec_len};
ghost use Rattle.packet_core.specs.Packets.{same_tuple};
ghost use Rattle.journal_core.specs.Happened.{acceptances, fate_ids};
ghost use Rattle.journal_core.specs.JournalLaws.{AreDistinct, FatesFollow, IdsInOrder};
ghost use Rattle.journal_core.specs.Notes.{IsNotedAt, counted_by};
ghost use Rattle.journal_core.specs.Tallies.{HasRowRoom, IsBalanced, IsTallied, settled, tuple_of, with_row};
ghost use Rattle.journal_core.specs.TupleRows.{tuple_rows, with_new};

use crate::event::Event;
use crate::ghost_list::GhostList;
use crate::latest::LatestPlaces;
use crate::note::Note;
use crate::noted::Noted;
use crate::step::Memory;
use indexmap::IndexSet;
use packet_core::{FiveTuple, Seed, SeededHash};
use std::alloc::{AllocError, Global};

/// What became of the packets of one five-tuple.
#[derive(Clone, Copy, Debug, PartialEq, Eq)]
pub struct TupleRow {
    /// The five-tuple.
    pub tuple: FiveTuple,
    /// The flow that its packets go to.
    pub flow: u32,
    /// Packets accepted.
    pub accepted: u64,
    /// Packets sent.
    pub sent: u64,
    /// Packets dropped, for whatever cause.
    pub dropped: u64,
    /// Packets that wait.
    pub queued: u64,
}

impl TupleRow {
    /// Counts the event of that note, which is of one of its packets.
    fn count(&mut self, note: Note)
        requires accepted { self.old.accepted < u64.MAX }
        requires sent { self.old.sent < u64.MAX }
        requires dropped { self.old.dropped < u64.MAX }
        ensures { self.new ≡ counted_by note self.old }
    {
        match note {
            Note::Accepted { .. } => self.accepted += 1,
            Note::Sent { .. } => self.sent += 1,
            Note::Dropped { .. } => self.dropped += 1,
            Note::Closed => {}
        }
    }

    /// Packets that were accepted and are neither sent nor dropped wait.
    fn settle(&mut self)
        requires { self.old.sent + self.old.dropped ≤ self.old.accepted }
        ensures { self.new ≡ settled self.old }
    {
        self.queued = self.accepted - self.sent - self.dropped;
    }
}

/// The rows of the packets that were accepted so far, with the place of each packet's row among them.
#[derive(Drop)]
pub(crate) struct RowsByTuple {
    /// The five-tuples, in the order of their rows. Senders choose them, so their hash is by a seed.
    tuples: IndexSet<FiveTuple, SeededHash>,
    rows: Vec<TupleRow>,
    /// For each packet, by its id, the place of its five-tuple's row.
    places: Vec<usize>,
    /// For each flow the place of its last packet. One comparison finds the row of most packets, and no hash is taken.
    latest: LatestPlaces,
}

impl RowsByTuple {
    ghost use Rattle.journal_core.specs.Happened.{Acceptance};

    /// No packet yet.
    pub(crate) fn new(alloc: Global, seed: &Seed) -> RowsByTuple
        ensures { IsTallied result [] [] }
    {
        RowsByTuple {
            tuples: IndexSet::with_hasher(alloc, SeededHash::new(seed)),
            rows: Vec::new(alloc),
            places: Vec::new(alloc),
            latest: LatestPlaces::new(alloc),
        }
    }

    /// A packet more, which was accepted into that flow. It fails for want of memory alone.
    pub(crate) fn accept(&mut self, tuple: FiveTuple, flow: u32) -> Result<(), Memory>
        ensures { OnOk result ((accepted : List Acceptance) → (a : Acceptance)
            → tuple_of a ≡ tuple → a.flow ≡ flow
            → IsTallied self.old accepted [] → IsTallied self.new (accepted ++ a ∷ []) []) }
    {
        self.places.reserve(1)?;
        let row = self.place_of(tuple, flow)?;
        self.places.push_reserved(row);
        self.latest.prepare(self.places.len());
        Ok(())
    }

    /// The same where there is room for it, so that it can't fail. It is found by its hash at once.
    pub(crate) fn accept_reserved(&mut self, tuple: FiveTuple, flow: u32)
        requires { HasRowRoom 1 self.old }
        ensures added { (accepted : List Acceptance) → (a : Acceptance)
            → tuple_of a ≡ tuple → a.flow ≡ flow
            → IsTallied self.old accepted [] → IsTallied self.new (accepted ++ a ∷ []) [] }
        ensures room { (more : ℕ) → HasRowRoom (more + 1) self.old → HasRowRoom more self.new }
    {
        let row = self.place_by_hash(tuple, flow).unwrap();
        self.places.push_reserved(row);
    }

    /// Takes memory for so many packets more, each of a five-tuple of its own.
    pub(crate) fn reserve(&mut self, more: usize) -> Result<(), Memory>
        ensures tuples { self.new.tuples.keys ≡ self.old.tuples.keys }
        ensures rows { self.new.rows.items ≡ self.old.rows.items }
        ensures places { self.new.places.items ≡ self.old.places.items }
        ensures ok { OnOk result (HasRowRoom more self.new) }
        ensures room { (few : ℕ) → HasRowRoom few self.old → HasRowRoom few self.new }
    {
        self.tuples.reserve(more)?;
        self.rows.reserve_exact(more)?;
        self.places.reserve_exact(more)
    }

    /// The packets are those at these places among the packets so far.
    pub(crate) fn turn(&mut self, mut places: Vec<usize>)
        requires { All (λ place. place < vec_len self.old.places) places.items }
        ensures tuples { self.new.tuples ≡ self.old.tuples }
        ensures rows { self.new.rows ≡ self.old.rows }
        ensures places { self.new.places.items ≡ map (λ place. slice_index self.old.places.items place) places.items }
    {
        for place in places.iter_mut() {
            *place = self.places[*place];
        }
        self.places = places;
    }

    /// The rows.
    pub(crate) fn into_rows(self) -> Vec<TupleRow>
        ensures { result.items ≡ self.rows.items }
    {
        self.rows
    }

    /// A row for each five-tuple of an accepted packet, with nothing counted.
    fn open(alloc: Global, seed: &Seed, events: &[Event]) -> Result<RowsByTuple, Memory>
        ensures { IfOk result (λ rows. IsTallied rows (acceptances events.now) []) }
    {
        let mut rows = RowsByTuple::new(alloc, seed);
        for place in 0..events.len() {
            rows.add(events, place)?;
        }
        Ok(rows)
    }

    /// Gives a row to the packet that the event at that place accepts, where those before it have theirs.
    fn add(&mut self, events: &[Event], place: usize) -> Result<(), Memory>
        requires within { place < length events.now }
        requires before { IsTallied self.old (acceptances (take place events.now)) [] }
        ensures { OnOk result (IsTallied self.new (acceptances (take (place + 1) events.now)) []) }
    {
        if let Event::Accepted { flow, packet, .. } = events[place] {
            self.accept(packet.tuple(), flow)?;
        }
        Ok(())
    }

    /// The place of the five-tuple's row, which is made where there is none.
    fn place_of(&mut self, tuple: FiveTuple, flow: u32) -> Result<usize, Memory>
        ensures place { IfOk result (λ place. slice_get self.new.tuples.keys place ≡ Some tuple) }
        ensures tuples { OnOk result (self.new.tuples.keys ≡ with_new same_tuple self.old.tuples.keys tuple) }
        ensures row { OnOk result
            (self.new.rows.items ≡ with_row self.old.tuples.keys self.old.rows.items tuple flow) }
        ensures places { self.new.places ≡ self.old.places }
        ensures known { OnErr result (self.new.tuples.keys ≡ self.old.tuples.keys) }
        ensures rows { OnErr result (self.new.rows.items ≡ self.old.rows.items) }
    {
        let latest = self.latest.at(flow);
        if self.stands_at(&tuple, latest) {
            return Ok(latest);
        }
        let place = self.place_by_hash(tuple, flow)?;
        self.latest.set(flow, place);
        Ok(place)
    }

    /// The same, whatever came last. Where there is room for a five-tuple more, it takes no memory and doesn't fail.
    fn place_by_hash(&mut self, tuple: FiveTuple, flow: u32) -> Result<usize, Memory>
        ensures place { IfOk result (λ place. slice_get self.new.tuples.keys place ≡ Some tuple) }
        ensures tuples { OnOk result (self.new.tuples.keys ≡ with_new same_tuple self.old.tuples.keys tuple) }
        ensures row { OnOk result
            (self.new.rows.items ≡ with_row self.old.tuples.keys self.old.rows.items tuple flow) }
        ensures places { self.new.places ≡ self.old.places }
        ensures known { OnErr result (self.new.tuples.keys ≡ self.old.tuples.keys) }
        ensures rows { OnErr result (self.new.rows.items ≡ self.old.rows.items) }
        ensures reserved { HasRowRoom 1 self.old → IsOk result }
        ensures room { (more : ℕ) → HasRowRoom (more + 1) self.old → HasRowRoom more self.new }
    {
        let (place, is_new) = self.tuples.insert_full(tuple)?;
        if is_new {
            let row = TupleRow {
                tuple,
                flow,
                accepted: 0,
                sent: 0,
                dropped: 0,
                queued: 0,
            };
            // A five-tuple stands nowhere without its row.
            if self.rows.push(row).is_err() {
                let _undone = self.tuples.pop();
                return Err(AllocError);
            }
        }
        Ok(place)
    }

    /// Whether the five-tuple is the one at that place.
    fn stands_at(&self, tuple: &FiveTuple, place: usize) -> bool
        ensures { IsTrue result ↔ (slice_get self.now.tuples.keys place ≡ Some tuple.now) }
    {
        self.tuples.get_index(place) == Some(tuple)
    }

    /// Counts the events.
    fn count_all(&mut self, events: &[Event])
        requires ids { IdsInOrder events.now }
        requires follow { FatesFollow events.now }
        requires before { IsTallied self.old (acceptances events.now) [] }
        ensures { IsTallied self.new (acceptances events.now) events.now }
    {
        let told = listed(events);
        for place in 0..events.len() {
            self.count(Note::of(&events[place]), &told, place);
        }
    }

    /// Counts the events that a recorder noted.
    pub(crate) fn count_noted(&mut self, noted: &Noted)
        requires ids { IdsInOrder noted.now.events }
        requires follow { FatesFollow noted.now.events }
        requires before { IsTallied self.old (acceptances noted.now.events) [] }
        ensures { IsTallied self.new (acceptances noted.now.events) noted.now.events }
    {
        let notes = noted.notes();
        for place in 0..notes.len() {
            self.count(notes[place], noted.told(), place);
        }
    }

    /// Counts the event of that note in the row of its packet, where those before it are counted. It stands at that
    /// place among those told.
    fn count(&mut self, note: Note, told: &GhostList<Event>, _place: usize)
        requires noted { IsNotedAt told.now.items _place note }
        requires few { _place < u64.MAX }
        requires ids { IdsInOrder told.now.items }
        requires follow { FatesFollow told.now.items }
        requires before { IsTallied self.old (acceptances told.now.items) (take _place told.now.items) }
        ensures { IsTallied self.new (acceptances told.now.items) (take (_place + 1) told.now.items) }
    {
        if let Some(id) = note.packet_id() {
            let row = self.places[id as usize];
            self.rows[row].count(note);
        }
    }

    /// Sets in each row how many packets wait.
    pub(crate) fn settle(&mut self)
        requires { All (λ row. row.sent + row.dropped ≤ row.accepted) self.old.rows.items }
        ensures { self.new.rows.items ≡ map settled self.old.rows.items }
    {
        for place in 0..self.rows.len() {
            self.rows[place].settle();
        }
    }
}

/// The events as a list for proofs.
fn listed(events: &[Event]) -> GhostList<Event>
    ensures { result.items ≡ events.now }
{
    let mut list = GhostList::new();
    for event in events {
        list = list.and(event);
    }
    list
}

/// The rows of a journal. Its five-tuples are found by a hash that everybody knows, so senders can choose some that share
/// their places: then this takes time with the square of their number. `gather_rows_with_seed` is for these.
pub fn gather_rows(alloc: Global, events: &[Event]) -> Result<Vec<TupleRow>, Memory>
    requires ids { IdsInOrder events.now }
    requires follow { FatesFollow events.now }
    requires once { AreDistinct (fate_ids events.now) }
    ensures rows { IfOk result (λ rows. rows.items ≡ tuple_rows events.now) }
    ensures balance { IfOk result (λ rows. All IsBalanced rows.items) }
{
    gather_rows_with_seed(alloc, &Seed([0; 16]), events)
}

/// The rows of a journal, whose five-tuples are found by a hash of that seed. The rows are the same under every seed. It
/// fails for want of memory alone.
pub fn gather_rows_with_seed(
    alloc: Global,
    seed: &Seed,
    events: &[Event],
) -> Result<Vec<TupleRow>, Memory>
    requires ids { IdsInOrder events.now }
    requires follow { FatesFollow events.now }
    requires once { AreDistinct (fate_ids events.now) }
    ensures rows { IfOk result (λ rows. rows.items ≡ tuple_rows events.now) }
    ensures balance { IfOk result (λ rows. All IsBalanced rows.items) }
{
    let mut rows = RowsByTuple::open(alloc, seed, events)?;
    rows.count_all(events);
    rows.settle();
    Ok(rows.into_rows())
}
