//! Entry calls of the cache that owns its clock, at the moment that it reads at the start of each.
ghost use Rattle.std.specs.Prelude.{◌≡◌, false, true, IfErr, IsOk, Option, option_copied};
ghost use Rattle.moka_parts.specs.Calls.{ContainsStep};
ghost use Rattle.moka_parts.specs.State.{is_disabled};
ghost use Rattle.moka_calls.specs.Compute.{AndUpserts, AndComputes};
ghost use Rattle.moka_calls.specs.Entry.{OrInserts, OrInsertsMade, OrInsertsIfMade, OrInsertsIfNoError};
ghost use Rattle.moka_calls.specs.Given.{Sees};
ghost use Rattle.moka_records.specs.Hashing.{key_hash};
ghost use Rattle.moka_records.specs.Records.{record_of_key};
ghost use Rattle.moka_engine.specs.Looks.{CanHandOutValue};
ghost use Rattle.moka_cache.specs.Keyed.{CanNotifyOfAny, IsNotOfNotice, IsOfChange, IsOfClone, IsOfComputedClone, IsOfInsert, MayFail};
ghost use Rattle.moka_timed.specs.Moments.{AtItsMoment, AtAnyMoment};
ghost use Rattle.moka_calls.specs.Synchronous.{meaning_of, hears_clones};

use crate::cache::TimedCache;
use moka_cache::compute::{CompResult, ComputeRefused, Op};
use moka_cache::entry::CacheEntry;
use moka_cache::error::GetWithRefused;
use moka_parts::closures::{PredicateFn, Weigher};
use moka_parts::error::InsertRefused;
use moka_parts::housekeeper::Clock;
use moka_parts::notification::Listener;
use moka_parts::policy::Expiry;
use std::hash::{BuildHasher, Hash};

/// A key of a cache that owns its clock, of which one entry call is to be made. moka: `OwnedKeyEntrySelector`.
#[derive(Drop)]
pub struct TimedEntrySelector<'a, K: Eq + Hash, V, C, X: Expiry<K, V>, L, P, W, S: BuildHasher> {
    cache: &'a mut TimedCache<K, V, C, X, L, P, W, S>,
    key: K,
}

impl<
    K: Eq + Hash,
    V,
    C: Clock,
    X: Expiry<K, V>,
    L: Listener<K, V>,
    P: PredicateFn<K, V>,
    W: Weigher<K, V>,
    S: BuildHasher,
> TimedCache<K, V, C, X, L, P, W, S> {
    /// Selects a key for one entry call. moka: `entry`.
    pub fn entry(&mut self, key: K) -> TimedEntrySelector<'_, K, V, C, X, L, P, W, S>
        ensures same_cache { result.cache.ghost_name ≡ self.entry.ghost_name }
        ensures unchanged { result.cache.now ≡ self.old }
        ensures key { result.key ≡ key }
    {
        TimedEntrySelector { cache: self, key }
    }
}

impl<
    'a,
    K: Eq + Hash,
    V,
    C: Clock,
    X: Expiry<K, V>,
    L: Listener<K, V>,
    P: PredicateFn<K, V>,
    W: Weigher<K, V>,
    S: BuildHasher,
> TimedEntrySelector<'a, K, V, C, X, L, P, W, S> {
    /// As `OwnedKeyEntrySelector::or_insert`, at the clock's moment.
    ///
    /// # Errors
    /// As there.
    pub fn or_insert(self, value: V) -> Result<CacheEntry<K, V>, InsertRefused<K, V>>
    where
        K: Clone + Drop,
        V: Clone + Drop,
        P: Drop,
        ensures made { AtItsMoment C.reads self.entry.cache.now self.exit.0.now (λ now old clock new clock_after.
            OrInserts (meaning_of K.eq L.tells P.says W.weighs C.reads X.created X.read X.updated)
            K.is_clone V.is_clone self.entry.key
            (key_hash S.BuildHasher S.Hasher.Hasher old.engine.hasher (K.hash_input self.entry.key)) now
            old clock new clock_after value result
            × (ContainsStep P.says K.eq old.engine.state self.entry.key now.0 true
            → CanHandOutValue V.is_infallible (record_of_key K.eq old.engine.state.records self.entry.key)
            → IsOk result)) }
        ensures disabled { is_disabled self.entry.cache.now.cache.engine.state.capacity ≡ true
            → IfErr result (MayFail K.is_infallible V.is_infallible) }
    {
        let TimedEntrySelector { cache: timed, key } = self;
        let now = timed.clock.now();
        timed
            .cache
            .entry(key)
            .or_insert(value, now, &mut timed.clock)
    }

    /// As `OwnedKeyEntrySelector::or_insert_with`, at the clock's moment.
    ///
    /// # Errors
    /// As there.
    pub fn or_insert_with<F: FnOnce() -> V>(
        self,
        init: F,
    ) -> Result<CacheEntry<K, V>, GetWithRefused<K, V>>
    where
        K: Clone + Drop,
        V: Clone + Drop,
        P: Drop,
        requires callable { AtAnyMoment C.reads self.cache.now.clock (λ now.
            ContainsStep P.says K.eq self.cache.now.cache.engine.state self.key now.0 false → F.pre init) }
        ensures made { AtItsMoment C.reads self.entry.cache.now self.exit.0.now (λ now old clock new clock_after.
            OrInsertsMade (meaning_of K.eq L.tells P.says W.weighs C.reads X.created X.read X.updated)
            K.is_clone V.is_clone self.entry.key
            (key_hash S.BuildHasher S.Hasher.Hasher old.engine.hasher (K.hash_input self.entry.key)) now
            old clock new clock_after (F.post init) result) }
        ensures looks_up { CanHandOutValue V.is_infallible (record_of_key K.eq
            self.entry.cache.now.cache.engine.state.records self.entry.key) → IfErr result IsOfInsert }
        ensures disabled { is_disabled self.entry.cache.now.cache.engine.state.capacity ≡ true
            → IfErr result (IsOfClone K.is_infallible V.is_infallible) }
    {
        let TimedEntrySelector { cache: timed, key } = self;
        let now = timed.clock.now();
        timed
            .cache
            .entry(key)
            .or_insert_with(init, now, &mut timed.clock)
    }

    /// As `OwnedKeyEntrySelector::or_optionally_insert_with`, at the clock's moment.
    ///
    /// # Errors
    /// As there.
    pub fn or_optionally_insert_with<F: FnOnce() -> Option<V>>(
        self,
        init: F,
    ) -> Result<Option<CacheEntry<K, V>>, GetWithRefused<K, V>>
    where
        K: Clone + Drop,
        V: Clone + Drop,
        P: Drop,
        requires callable { AtAnyMoment C.reads self.cache.now.clock (λ now.
            ContainsStep P.says K.eq self.cache.now.cache.engine.state self.key now.0 false → F.pre init) }
        ensures made { AtItsMoment C.reads self.entry.cache.now self.exit.0.now (λ now old clock new clock_after.
            OrInsertsIfMade (meaning_of K.eq L.tells P.says W.weighs C.reads X.created X.read X.updated)
            K.is_clone V.is_clone self.entry.key
            (key_hash S.BuildHasher S.Hasher.Hasher old.engine.hasher (K.hash_input self.entry.key)) now
            old clock new clock_after (F.post init) result) }
        ensures looks_up { CanHandOutValue V.is_infallible (record_of_key K.eq
            self.entry.cache.now.cache.engine.state.records self.entry.key) → IfErr result IsOfInsert }
        ensures disabled { is_disabled self.entry.cache.now.cache.engine.state.capacity ≡ true
            → IfErr result (IsOfClone K.is_infallible V.is_infallible) }
    {
        let TimedEntrySelector { cache: timed, key } = self;
        let now = timed.clock.now();
        timed
            .cache
            .entry(key)
            .or_optionally_insert_with(init, now, &mut timed.clock)
    }

    /// As `OwnedKeyEntrySelector::or_try_insert_with`, at the clock's moment.
    ///
    /// # Errors
    /// As there.
    pub fn or_try_insert_with<E, F: FnOnce() -> Result<V, E>>(
        self,
        init: F,
    ) -> Result<Result<CacheEntry<K, V>, E>, GetWithRefused<K, V>>
    where
        K: Clone + Drop,
        V: Clone + Drop,
        P: Drop,
        requires callable { AtAnyMoment C.reads self.cache.now.clock (λ now.
            ContainsStep P.says K.eq self.cache.now.cache.engine.state self.key now.0 false → F.pre init) }
        ensures made { AtItsMoment C.reads self.entry.cache.now self.exit.0.now (λ now old clock new clock_after.
            OrInsertsIfNoError (meaning_of K.eq L.tells P.says W.weighs C.reads X.created X.read X.updated)
            K.is_clone V.is_clone self.entry.key
            (key_hash S.BuildHasher S.Hasher.Hasher old.engine.hasher (K.hash_input self.entry.key)) now
            old clock new clock_after (F.post init) result) }
        ensures looks_up { CanHandOutValue V.is_infallible (record_of_key K.eq
            self.entry.cache.now.cache.engine.state.records self.entry.key) → IfErr result IsOfInsert }
        ensures disabled { is_disabled self.entry.cache.now.cache.engine.state.capacity ≡ true
            → IfErr result (IsOfClone K.is_infallible V.is_infallible) }
    {
        let TimedEntrySelector { cache: timed, key } = self;
        let now = timed.clock.now();
        timed
            .cache
            .entry(key)
            .or_try_insert_with(init, now, &mut timed.clock)
    }

    /// As `OwnedKeyEntrySelector::and_upsert_with`, at the clock's moment.
    ///
    /// # Errors
    /// As there.
    pub fn and_upsert_with<F: FnOnce(Option<V>) -> V>(
        self,
        f: F,
    ) -> Result<CacheEntry<K, V>, GetWithRefused<K, V>>
    where
        K: Clone + Drop,
        V: Clone + Drop,
        P: Drop,
        requires callable { AtAnyMoment C.reads self.cache.now.clock (λ now. (seen : Option V)
            → Sees K.eq P.says V.is_clone self.cache.now.cache.engine.state self.key now.0 seen → F.pre f seen) }
        ensures made { AtItsMoment C.reads self.entry.cache.now self.exit.0.now (λ now old clock new clock_after.
            AndUpserts (meaning_of K.eq L.tells P.says W.weighs C.reads X.created X.read X.updated)
            K.is_clone V.is_clone self.entry.key
            (key_hash S.BuildHasher S.Hasher.Hasher old.engine.hasher (K.hash_input self.entry.key)) now
            old clock new clock_after (F.post f) result) }
        ensures looks_up { CanHandOutValue V.is_infallible (record_of_key K.eq
            self.entry.cache.now.cache.engine.state.records self.entry.key) → IfErr result IsOfInsert }
        ensures disabled { is_disabled self.entry.cache.now.cache.engine.state.capacity ≡ true
            → IfErr result (IsOfClone K.is_infallible V.is_infallible) }
    {
        let TimedEntrySelector { cache: timed, key } = self;
        let now = timed.clock.now();
        timed
            .cache
            .entry(key)
            .and_upsert_with(f, now, &mut timed.clock)
    }

    /// As `OwnedKeyEntrySelector::and_compute_with`, at the clock's moment.
    ///
    /// # Errors
    /// As there.
    pub fn and_compute_with<F: FnOnce(Option<&V>) -> Op<V>>(
        self,
        f: F,
    ) -> Result<CompResult<K, V>, ComputeRefused<K, V>>
    where
        K: Clone + Drop,
        V: Clone + Drop,
        P: Drop,
        requires callable { AtAnyMoment C.reads self.cache.now.clock (λ now. (seen : _)
            → Sees K.eq P.says V.is_clone self.cache.now.cache.engine.state self.key now.0 (option_copied seen)
            → F.pre f seen) }
        ensures made { AtItsMoment C.reads self.entry.cache.now self.exit.0.now (λ now old clock new clock_after.
            AndComputes (meaning_of K.eq (hears_clones K.is_clone V.is_clone L.tells) P.says W.weighs C.reads
            X.created X.read X.updated)
            K.is_clone V.is_clone self.entry.key
            (key_hash S.BuildHasher S.Hasher.Hasher old.engine.hasher (K.hash_input self.entry.key)) now
            old clock new clock_after (λ seen op. (x : _) × (option_copied x ≡ seen) × F.post f x op) result) }
        ensures looks_up { CanHandOutValue V.is_infallible (record_of_key K.eq
            self.entry.cache.now.cache.engine.state.records self.entry.key) → IfErr result IsOfChange }
        ensures disabled { is_disabled self.entry.cache.now.cache.engine.state.capacity ≡ true
            → IfErr result (IsOfComputedClone K.is_infallible V.is_infallible) }
        ensures notified { CanNotifyOfAny K.is_infallible V.is_infallible
            self.entry.cache.now.cache.engine.state.settings.listening → IfErr result IsNotOfNotice }
    {
        let TimedEntrySelector { cache: timed, key } = self;
        let now = timed.clock.now();
        timed
            .cache
            .entry(key)
            .and_compute_with(f, now, &mut timed.clock)
    }
}
