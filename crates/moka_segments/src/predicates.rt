//! A predicate that every segment registers. moka: `sync::segment`, `invalidate_entries_if`.
ghost use Rattle.std.specs.Prelude.{◌≡◌, ◌++◌, List};
ghost use Rattle.uuid.specs.declared.Uuid.{Uuid};
ghost use Rattle.moka_segments.specs.Registering.{AllRegister, ids_given, outcome};

use crate::segmented::SegmentedCache;
use moka_cache::Cache;
use moka_parts::closures::{PredicateFn, Weigher};
use moka_parts::error::{PredicateError, PredicateRefused};
use moka_parts::invalidator::{IdSource, PredicateId};
use moka_parts::notification::Listener;
use moka_parts::policy::{Expiry, Instant};
use std::error::Error;
use std::fmt;
use std::hash::{BuildHasher, Hash};

/// A predicate that one of the segments did not register. Those before it did, and those after it were not asked.
#[derive(Debug, Drop)]
pub struct RegisterRefused<P> {
    /// The predicate that was made for that segment, and why it was refused.
    pub refused: PredicateRefused<P>,
    /// Under which identifiers the segments before it registered theirs, in order.
    pub done: Vec<PredicateId>,
}

impl<P> fmt::Display for RegisterRefused<P> {
    ghost use Rattle.std.specs.Prelude.{Some};
    ghost use Rattle.moka_types.specs.Texts.{predicate_text};

    ghost output = { λ refused. Some (predicate_text refused.refused.error) };

    fn fmt<W: fmt::Write>(&self, f: &mut fmt::Formatter<W>) -> fmt::Result {
        write!(f, "{}", self.refused.error)
    }
}

impl<P: fmt::Debug + Drop> Error for RegisterRefused<P> {}

impl<
    K: Eq + Hash,
    V,
    X: Expiry<K, V>,
    L: Listener<K, V>,
    P: PredicateFn<K, V>,
    W: Weigher<K, V>,
    S: BuildHasher,
> SegmentedCache<K, V, X, L, P, W, S> {
    /// Registers a predicate in each segment in turn at the moment `now`: what it covers is hidden from now on, and
    /// runs of maintenance remove it. `make` makes the predicate of each segment. The answer is the identifiers, one
    /// for each segment, in order.
    ///
    /// # Errors
    /// As `Cache::invalidate_entries_if`, at the first segment that refuses, and if memory for its identifier is
    /// refused. The segments before it have the predicate, under the identifiers that come back; no other segment has
    /// changed. If the call is made again, those before it have it twice, until a run of maintenance drops both; one
    /// of capacity 0 makes no runs.
    pub fn invalidate_entries_if<F: Fn() -> P, I: IdSource>(
        &mut self,
        make: F,
        now: Instant,
        ids: &mut I,
    ) -> Result<Vec<PredicateId>, RegisterRefused<P>>
    where
        F: Drop,
        requires { F.IsAlwaysCallable make }
        ensures routing { self.new.routing ≡ self.old.routing }
        ensures each { AllRegister L.tells I.gives (F.post make) now (ids_given result)
            (outcome result) ids.old ids.new self.old.segments self.new.segments }
    {
        let mut done = Vec::new(*self.segments.allocator());
        match Self::register_each(&mut self.segments, &make, now, ids, &mut done) {
            Ok(()) => Ok(done),
            Err(refused) => Err(RegisterRefused { refused, done }),
        }
    }

    // Registers a predicate in each, and appends their identifiers, up to the first that refuses.
    fn register_each<F: Fn() -> P, I: IdSource>(
        segments: &mut [Cache<K, V, X, L, P, W, S>],
        make: &F,
        now: Instant,
        ids: &mut I,
        done: &mut Vec<PredicateId>,
    ) -> Result<(), PredicateRefused<P>>
        requires { F.IsAlwaysCallable make.now }
        ensures { (given : List Uuid) × (done.new.items ≡ done.old.items ++ given)
            × AllRegister L.tells I.gives (F.post make.now) now given result ids.old ids.new segments.old segments.new }
    {
        let Some((first, rest)) = segments.split_first_mut() else {
            return Ok(());
        };
        let predicate = make();
        let Ok(()) = done.reserve(1) else {
            let error = PredicateError::OutOfMemory;
            return Err(PredicateRefused { error, predicate });
        };
        match first.invalidate_entries_if(predicate, now, ids) {
            Ok(id) => done.push_reserved(id),
            Err(refused) => return Err(refused),
        }
        Self::register_each(rest, make, now, ids, done)
    }
}
