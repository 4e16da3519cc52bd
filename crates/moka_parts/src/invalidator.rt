//! Predicates that hide what was written before them, each under an identifier.
//! moka: `sync::invalidator`.
ghost use Rattle.std.specs.Prelude.{◌≡◌, ◌<◌, ◌==◌, ◌↔◌, List, [], length, remove, slice_get, IsTrue, Some, MatchBool, MatchOption};
ghost use Rattle.uuid.specs.declared.Uuid.{Uuid};
ghost use Rattle.moka_parts.specs.declared.records.Registered.{Registered};
ghost use Rattle.moka_parts.specs.Visibility.{Covers, SomeCovers, NoneCovers, FirstCovers};
ghost use Rattle.moka_parts.specs.Registry.{IsTaken, AsksForFree, Registers};

pub use crate::calls::PredicateId;
use crate::closures::PredicateFn;
pub use crate::error::PredicateError;
use crate::error::PredicateRefused;
use crate::policy::Instant;
use crate::record_ref::RecordRef;
use crate::records::Registered;
use std::alloc::Global;
use std::marker::Model;

// At most so many identifiers are asked for.
const MAX_RETRY: usize = 1_000;

/// Gives identifiers, perhaps the same more than once.
pub trait IdSource {
    ghost use Rattle.uuid.specs.declared.Uuid.{Uuid};

    /// One identifier may be given and lead from the first state to the second.
    ghost gives: { Self → Uuid → Self → Type 0 };

    /// The next identifier.
    fn next_id(&mut self) -> PredicateId
        ensures { gives self.old result self.new };
}

impl<P> Registered<P> {
    // Whether it was registered no earlier than the record was written, and says yes to it. The predicate is asked
    // only if the moments allow it.
    fn covers<K, V>(&self, entry: &RecordRef<'_, K, V>) -> bool
    where
        P: PredicateFn<K, V>,
        ensures { IsTrue result ↔ Covers P.says self.now entry.now }
    {
        entry.written() <= self.registered && self.predicate.applies(entry.key(), entry.value())
    }
}

/// The registered predicates, in the order of their registration; seen as their list.
/// moka: `sync::invalidator::Invalidator`.
pub struct Invalidator<P> {
    predicates: Vec<Registered<P>>,
}

// Written out so that an owner's drop is one call.
impl<P: Drop> Drop for Invalidator<P> {
    fn drop(self) {
        let Invalidator { predicates: _ } = self;
    }
}

impl<P> Model for Invalidator<P> {
    ghost use Rattle.std.specs.Prelude.{List};
    ghost use Rattle.moka_parts.specs.declared.records.Registered.{Registered};

    ghost Value = { List (Registered P) };

    ghost view = { λ a. a.predicates.items };
}

impl<P> Invalidator<P> {
    /// An empty registry.
    pub fn new(alloc: Global) -> Self
        ensures { result ≡ [] }
    {
        Invalidator {
            predicates: Vec::new(alloc),
        }
    }

    /// Whether no predicate is registered.
    pub fn is_empty(&self) -> bool
        ensures { result ≡ (length self.now == 0) }
    {
        self.predicates.is_empty()
    }

    /// How many predicates are registered.
    pub fn len(&self) -> usize
        ensures { result ≡ length self.now }
    {
        self.predicates.len()
    }

    /// Registers a predicate at a moment, under the first identifier of the source that is free. At most 1,000 are
    /// asked for, and none before there is memory for the predicate. A predicate that is refused comes back, and the
    /// registry is as it was.
    pub fn register_predicate<I: IdSource>(
        &mut self,
        predicate: P,
        now: Instant,
        ids: &mut I,
    ) -> Result<PredicateId, PredicateRefused<P>>
        ensures { Registers I.gives self.old predicate now ids.old result self.new ids.new }
    {
        if self.predicates.reserve(1).is_err() {
            let error = PredicateError::OutOfMemory;
            return Err(PredicateRefused { error, predicate });
        }
        let Some(id) = self.free_id(ids) else {
            let error = PredicateError::NoFreeId;
            return Err(PredicateRefused { error, predicate });
        };
        self.predicates.push_reserved(Registered {
            id,
            predicate,
            registered: now,
        });
        Ok(id)
    }

    // The first identifier of the source that no registered predicate has.
    fn free_id<I: IdSource>(&self, ids: &mut I) -> Option<PredicateId>
        ensures { AsksForFree I.gives self.now ids.old result ids.new }
    {
        for _ in 0..MAX_RETRY {
            let id = ids.next_id();
            if !self.is_taken(id) {
                return Some(id);
            }
        }
        None
    }

    // Whether a registered predicate has the identifier.
    fn is_taken(&self, id: PredicateId) -> bool
        ensures { IsTrue result ↔ IsTaken self.now id }
    {
        self.predicates.iter().any(|registered| registered.id == id)
    }

    /// Whether a registered predicate covers the record: it was registered no earlier than the record was written,
    /// and says yes to it.
    pub fn apply_predicates<K, V>(&self, entry: &RecordRef<'_, K, V>) -> bool
    where
        P: PredicateFn<K, V>,
        ensures { MatchBool result
            (SomeCovers P.says self.now entry.now)
            (NoneCovers P.says self.now entry.now) }
    {
        self.first_covering(entry).is_some()
    }

    /// The identifier of the first predicate that covers the record, if one does.
    pub fn first_covering<K, V>(&self, entry: &RecordRef<'_, K, V>) -> Option<PredicateId>
    where
        P: PredicateFn<K, V>,
        ensures { MatchOption result
            (NoneCovers P.says self.now entry.now)
            (FirstCovers P.says self.now entry.now) }
    {
        for registered in &self.predicates {
            if registered.covers(entry) {
                return Some(registered.id);
            }
        }
        None
    }

    /// Whether the predicate at this place covers the record.
    pub fn covers_at<K, V>(&self, index: usize, entry: &RecordRef<'_, K, V>) -> bool
    where
        P: PredicateFn<K, V>,
        requires { index < length self.now }
        ensures { (p : Registered P) → slice_get self.now index ≡ Some p →
            (IsTrue result ↔ Covers P.says p entry.now) }
    {
        self.predicates[index].covers(entry)
    }

    /// Takes the predicate at this place out; the later ones move up.
    pub fn remove(&mut self, index: usize) -> Registered<P>
        requires { index < length self.old }
        ensures removed { slice_get self.old index ≡ Some result }
        ensures rest { self.new ≡ remove self.old index }
    {
        self.predicates.remove(index)
    }
}
