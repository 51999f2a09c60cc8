//! The five-tuples of the packets that were accepted, as they came.

ghost use Rattle.std.specs.Prelude.{◌≡◌, ◌<◌, ◌≤◌, ◌%◌, ◌++◌, ◌∷◌, ◌⊎◌, ◌↔◌, All, List, IfOk, IsOk, OnErr, OnOk, IsTrue, Some, [], slice_get, slice_index, slice_set, vec_capacity, vec_len};
ghost use Rattle.journal_core.specs.Happened.{Acceptance, acceptances, fate_ids};
ghost use Rattle.journal_core.specs.JournalLaws.{AreDistinct, FatesFollow, IdsInOrder};
ghost use Rattle.journal_core.specs.Tallies.{HasRoom, HasSeen, IsBalanced, IsTallied, KeepsRowRoom, tuple_of, tuples_of};
ghost use Rattle.journal_core.specs.TupleRows.{tuple_rows};

use crate::latest::LatestPlaces;
use crate::noted::Noted;
use crate::step::Memory;
use crate::tuple_rows::{RowsByTuple, TupleRow};
use packet_core::{FiveTuple, Seed};
use std::alloc::Global;

/// The five-tuple of a packet, and the flow that it was accepted into.
#[derive(Clone, Copy, Debug, PartialEq, Eq)]
struct Seen {
    tuple: FiveTuple,
    flow: u32,
}

/// How many five-tuples there is room for at first.
const FIRST_ROOM: usize = 4;

/// The five-tuples of the packets that were accepted so far. Where all packets have come to it, it makes the rows.
/// Until then it hashes nothing, so that a packet costs the same whatever five-tuples came before it. What memory the
/// rows need is taken as five-tuples come, so that the rows can't fail.
#[derive(Drop)]
pub struct Tally {
    /// Five-tuples, in the order in which they came. One that isn't found by a guess stands here again.
    seen: Vec<Seen>,
    /// For each packet, by its id, a place where its five-tuple is seen.
    places: Vec<usize>,
    /// For each flow the place of its last packet.
    latest: LatestPlaces,
    /// No row yet, and room for as many as there is room to see five-tuples.
    rows: RowsByTuple,
}

impl Tally {
    /// No packet yet. The rows find five-tuples by a hash of that seed, and are the same under every seed. It takes no
    /// memory.
    pub fn new(alloc: Global, seed: &Seed) -> Tally
        ensures { HasSeen result [] }
    {
        Tally {
            seen: Vec::new(alloc),
            places: Vec::new(alloc),
            latest: LatestPlaces::new(alloc),
            rows: RowsByTuple::new(alloc, seed),
        }
    }

    /// A packet more, which was accepted into that flow. It fails only where there was no memory for it and none is given,
    /// and tallies nothing then.
    pub fn accept(&mut self, tuple: FiveTuple, flow: u32) -> Result<(), Memory>
        ensures added { OnOk result ((accepted : List Acceptance) → (a : Acceptance)
            → tuple_of a ≡ tuple → a.flow ≡ flow
            → HasSeen self.old accepted → HasSeen self.new (accepted ++ a ∷ [])) }
        ensures unchanged { OnErr result ((accepted : List Acceptance)
            → HasSeen self.old accepted → HasSeen self.new accepted) }
        ensures room { HasRoom self.old → IsOk result }
    {
        self.places.reserve(1)?;
        let place = self.place_of(tuple, flow)?;
        self.places.push_reserved(place);
        self.latest.prepare(self.places.len());
        Ok(())
    }

    /// The rows of the events that a recorder noted, where all packets that they accept have come here. It takes no
    /// memory.
    pub fn rows(self, noted: &Noted) -> Vec<TupleRow>
        requires ids { IdsInOrder noted.now.events }
        requires follow { FatesFollow noted.now.events }
        requires once { AreDistinct (fate_ids noted.now.events) }
        requires seen { HasSeen self (acceptances noted.now.events) }
        ensures rows { result.items ≡ tuple_rows noted.now.events }
        ensures balance { All IsBalanced result.items }
    {
        let mut rows = self.open();
        rows.count_noted(noted);
        rows.settle();
        rows.into_rows()
    }

    /// A row for each five-tuple, with nothing counted.
    fn open(self) -> RowsByTuple
        requires { (accepted : List Acceptance) × HasSeen self accepted }
        ensures { (accepted : List Acceptance) → HasSeen self accepted → IsTallied result accepted [] }
    {
        let Tally {
            seen,
            places,
            mut rows,
            ..
        } = self;
        for one in &seen {
            rows.accept_reserved(one.tuple, one.flow);
        }
        rows.turn(places);
        rows
    }

    /// A place where the five-tuple is seen. It is added where no guess finds it.
    fn place_of(&mut self, tuple: FiveTuple, flow: u32) -> Result<usize, Memory>
        ensures place { IfOk result (λ place. slice_get (tuples_of self.new.seen.items) place ≡ Some tuple) }
        ensures seen { OnOk result ((self.new.seen.items ≡ self.old.seen.items) ⊎ (self.new.seen.items
            ≡ self.old.seen.items ++ record { tuple = tuple; flow = flow } ∷ [])) }
        ensures guessed { slice_get (tuples_of self.old.seen.items) (slice_index self.old.latest (flow % 1024))
            ≡ Some tuple → self.new.seen.items ≡ self.old.seen.items }
        ensures latest { IfOk result (λ place. self.new.latest ≡ slice_set self.old.latest (flow % 1024) place) }
        ensures places { self.new.places ≡ self.old.places }
        ensures unchanged { OnErr result (self.new.seen.items ≡ self.old.seen.items) }
        ensures missing { OnErr result (vec_capacity self.old.seen ≤ vec_len self.old.seen) }
        ensures room { KeepsRowRoom self.old self.new }
    {
        let latest = self.latest.at(flow);
        if self.stands_at(&tuple, latest) {
            return Ok(latest);
        }
        let place = self.seen.len();
        if place == self.seen.capacity() {
            self.grow()?;
        }
        self.seen.push_reserved(Seen { tuple, flow });
        self.latest.set(flow, place);
        Ok(place)
    }

    /// Takes memory for as many five-tuples again, and for their rows.
    fn grow(&mut self) -> Result<(), Memory>
        ensures seen { self.new.seen.items ≡ self.old.seen.items }
        ensures places { self.new.places ≡ self.old.places }
        ensures latest { self.new.latest ≡ self.old.latest }
        ensures ok { OnOk result (vec_len self.new.seen < vec_capacity self.new.seen) }
        ensures room { KeepsRowRoom self.old self.new }
    {
        let more = self.seen.len().max(FIRST_ROOM);
        // The rows come first: so there is never room to see a five-tuple that has none for its row.
        self.rows.reserve(self.seen.len() + more)?;
        self.seen.reserve_exact(more)
    }

    /// Whether the five-tuple is the one at that place.
    fn stands_at(&self, tuple: &FiveTuple, place: usize) -> bool
        ensures { IsTrue result ↔ (slice_get (tuples_of self.now.seen.items) place ≡ Some tuple.now) }
    {
        match self.seen.get(place) {
            Some(seen) => seen.tuple == *tuple,
            None => false,
        }
    }
}
