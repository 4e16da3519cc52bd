//! A synchronous cache that owns its clock.
ghost use Rattle.std.specs.Prelude.{◌≡◌, ◌≤◌, false, true, Option, Some, None, Result, IfOk, IfErr, IsOk, OnErr, option_copied, unwrap_or, IfSome, option_map, ⊤};
ghost use Rattle.moka_parts.specs.Calls.{CapacityStep, ContainsStep, InvalidateStep, no_events, only_ids};
ghost use Rattle.moka_parts.specs.Exact.{IsExact, IsWithin};
ghost use Rattle.moka_records.specs.Records.{record_of_key};
ghost use Rattle.moka_parts.specs.Runs.{Befalls};
ghost use Rattle.moka_parts.specs.State.{Events, is_disabled, limits_of};
ghost use Rattle.moka_parts.specs.Surroundings.{Leads};
ghost use Rattle.moka_types.specs.declared.calls.Reply.TheVariants as reply;
ghost use Rattle.moka_types.specs.declared.error.InsertRefused.{InsertRefused};
ghost use Rattle.moka_types.specs.declared.error.OutOfMemory.{OutOfMemory};
ghost use Rattle.moka_records.specs.declared.instant.Instant.{Instant};
ghost use Rattle.moka_records.specs.declared.records.Record.{Record};
ghost use Rattle.moka_engine.specs.Config.{new_engine};
ghost use Rattle.moka_engine.specs.Looks.{CanHandOutValue};
ghost use Rattle.moka_parts.specs.Counters.{after_look_up};
ghost use Rattle.moka_records.specs.Hashing.{key_hash};
ghost use Rattle.moka_cache.specs.Keyed.{CanNotify, Gets, Inserts, IsOfClone, IsOfInsert, Removes};
ghost use Rattle.moka_cache.specs.Saves.{HasOnlyMembers};
ghost use Rattle.moka_timed.specs.Moments.{AtItsMoment, AtItsOnlyMoment, AtAnyMoment};
ghost use Rattle.moka_calls.specs.Synchronous.{fresh, Makes, meaning_of, Just, own_run, removed, invalidated, taken_out, GetsWith, GetsWithIfMade, GetsWithIfNoError};

use moka_cache::cache::Cache;
use moka_cache::error::{GetWithRefused, NotTold};
use moka_cache::stats::Stats;
use moka_engine::config::{CacheConfig, DefaultHasher};
use moka_parts::closures::{NoPredicate, NoWeigher, PredicateFn, Weigher};
use moka_parts::error::{CapacityError, InsertRefused, OutOfMemory, PredicateRefused};
use moka_parts::housekeeper::Clock;
use moka_parts::invalidator::{IdSource, PredicateId};
use moka_parts::notification::{Listener, NoListener};
use moka_parts::policy::{Expiry, NoExpiry, Policy};
use std::alloc::Global;
use std::hash::{BuildHasher, Hash};

/// A cache with a clock. Each call that needs the moment reads it at its start; a run of maintenance may read it again
/// for its time limit.
#[derive(Drop)]
pub struct TimedCache<
    K: Eq + Hash,
    V,
    C,
    X: Expiry<K, V> = NoExpiry,
    L = NoListener,
    P = NoPredicate,
    W = NoWeigher,
    S: BuildHasher = DefaultHasher,
> {
    /// The cache, whose calls are given moments.
    pub cache: Cache<K, V, X, L, P, W, S>,
    /// The clock.
    pub clock: C,
}

impl<
    K: Eq + Hash,
    V,
    C: Clock,
    X: Expiry<K, V>,
    L: Listener<K, V>,
    P: PredicateFn<K, V>,
    W: Weigher<K, V>,
> TimedCache<K, V, C, X, L, P, W> {
    /// An empty cache made at the clock's moment, with the default hasher. It takes its memory from `alloc`.
    ///
    /// # Errors
    /// As `CacheConfig::build`.
    pub fn build(
        config: CacheConfig<X, L, P, W>,
        alloc: Global,
        mut clock: C,
    ) -> Result<Self, OutOfMemory>
    where
        K: Drop,
        V: Drop,
        C: Drop,
        X: Drop,
        L: Drop,
        P: Drop,
        W: Drop,
        ensures empty { IfOk result (λ c. (now : Instant) × C.reads clock now c.clock
            × (c.cache ≡ fresh (new_engine config c.cache.engine.hasher now.0 c.cache.engine.room))) }
        ensures room { IfOk result (λ c. unwrap_or config.initial_capacity 0 ≤ c.cache.engine.room) }
    {
        let now = clock.now();
        let cache = Cache::build(config, alloc, now)?;
        Ok(TimedCache { cache, clock })
    }
}

impl<
    K: Eq + Hash,
    V,
    C: Clock,
    X: Expiry<K, V>,
    L: Listener<K, V>,
    P: PredicateFn<K, V>,
    W: Weigher<K, V>,
    S: BuildHasher,
> TimedCache<K, V, C, X, L, P, W, S> {
    /// Hits, misses and loads since the cache was made.
    pub fn stats(&self) -> Stats
        ensures { result ≡ self.now.cache.stats }
    {
        self.cache.stats()
    }

    /// The cache's name, if it has one.
    pub fn name(&self) -> Option<&str>
        ensures { option_copied result ≡ self.now.cache.engine.name }
    {
        self.cache.name()
    }

    /// Capacity and times, as they are set.
    pub fn policy(&self) -> Policy
        ensures { result ≡ limits_of self.now.cache.engine.state }
    {
        self.cache.policy()
    }

    /// How many entries the last run of maintenance counted; 0 before the first run.
    pub fn entry_count(&self) -> u64
        ensures { result ≡ self.now.cache.engine.state.count }
    {
        self.cache.entry_count()
    }

    /// The total weight that the last run of maintenance counted, saturating; 0 before the first run.
    pub fn weighted_size(&self) -> u64
        ensures { result ≡ self.now.cache.engine.state.weight }
    {
        self.cache.weighted_size()
    }

    /// Whether a key is there and visible. Nothing is recorded.
    pub fn contains_key(&mut self, key: &K) -> bool
        ensures { AtItsOnlyMoment C.reads self.old self.new (λ now old new.
            ContainsStep P.says K.eq old.engine.state key.now now.0 result × (new ≡ old)) }
    {
        let now = self.clock.now();
        self.cache.contains_key(key, now)
    }

    /// Puts a value under a key, in place of one that is there. A cache of capacity 0 drops both.
    ///
    /// # Errors
    /// As `Cache::insert`.
    pub fn insert(&mut self, key: K, value: V) -> Result<(), InsertRefused<K, V>>
    where
        K: Drop,
        V: Drop,
        P: Drop,
        ensures made { AtItsMoment C.reads self.old self.new (λ now old clock new clock_after.
            Inserts (meaning_of K.eq L.tells P.says W.weighs C.reads X.created X.read X.updated)
            (λ h k. key_hash S.BuildHasher S.Hasher.Hasher h (K.hash_input k)) key now clock clock_after value result
            old new) }
        ensures back { IfErr result (λ refused. (refused.key ≡ key) × (refused.value ≡ value)) }
        ensures unchanged { OnErr result (self.new.cache.engine.state ≡ self.old.cache.engine.state) }
        ensures counted { self.new.cache.stats ≡ self.old.cache.stats }
    {
        let now = self.clock.now();
        self.cache.insert(key, value, now, &mut self.clock)
    }

    /// A clone of a key's value, if the key is there and visible. The read is queued.
    ///
    /// # Errors
    /// As `Cache::get`.
    pub fn get(&mut self, key: &K) -> Result<Option<V>, OutOfMemory>
    where
        K: Clone + Drop,
        V: Clone + Drop,
        P: Drop,
        ensures made { AtItsMoment C.reads self.old self.new (λ now old clock new clock_after.
            Gets (meaning_of K.eq L.tells P.says W.weighs C.reads X.created X.read X.updated)
            (λ h k. key_hash S.BuildHasher S.Hasher.Hasher h (K.hash_input k)) key.now now clock clock_after V.is_clone
            result old new) }
        ensures value { IfOk result (λ found. IfSome found (λ v. (r : Record K V)
            × (record_of_key K.eq self.old.cache.engine.state.records key.now ≡ Some r) × V.is_clone r.value v)) }
        ensures succeeds { CanHandOutValue V.is_infallible
            (record_of_key K.eq self.old.cache.engine.state.records key.now) → IsOk result }
        ensures unchanged { OnErr result (self.new.cache.engine.state ≡ self.old.cache.engine.state) }
        ensures counted { self.new.cache.stats ≡ after_look_up result self.old.cache.stats }
    {
        let now = self.clock.now();
        self.cache.get(key, now, &mut self.clock)
    }

    /// Takes a key out, and hands its value out, expired or not. The listener, if one is set, is notified.
    ///
    /// # Errors
    /// As `Cache::remove`.
    pub fn remove(&mut self, key: &K) -> Result<Option<V>, NotTold<V>>
    where
        K: Clone + Drop,
        V: Clone + Drop,
        P: Drop,
        ensures made { AtItsMoment C.reads self.old self.new (λ now old clock new clock_after.
            Removes (meaning_of K.eq L.tells P.says W.weighs C.reads X.created X.read X.updated)
            (λ h k. key_hash S.BuildHasher S.Hasher.Hasher h (K.hash_input k)) key.now now clock clock_after K.is_clone
            V.is_clone (λ taken. result ≡ removed taken) old new) }
        ensures succeeds { CanNotify K.is_infallible V.is_infallible self.old.cache.engine.state.settings.listening
            (record_of_key K.eq self.old.cache.engine.state.records key.now) → IsOk result }
        ensures gone { record_of_key K.eq self.new.cache.engine.state.records key.now ≡ None }
        ensures value { taken_out result
            ≡ option_map (λ r. r.value) (record_of_key K.eq self.old.cache.engine.state.records key.now) }
        ensures counted { self.new.cache.stats ≡ self.old.cache.stats }
    {
        let now = self.clock.now();
        self.cache.remove(key, now, &mut self.clock)
    }

    /// Takes a key out, expired or not, and drops its value. The listener, if one is set, is notified.
    ///
    /// # Errors
    /// As `Cache::invalidate`.
    pub fn invalidate(&mut self, key: &K) -> Result<(), NotTold<V>>
    where
        K: Clone + Drop,
        V: Clone + Drop,
        P: Drop,
        ensures made { AtItsMoment C.reads self.old self.new (λ now old clock new clock_after.
            Removes (meaning_of K.eq L.tells P.says W.weighs C.reads X.created X.read X.updated)
            (λ h k. key_hash S.BuildHasher S.Hasher.Hasher h (K.hash_input k)) key.now now clock clock_after K.is_clone
            V.is_clone (λ taken. result ≡ invalidated taken) old new) }
        ensures succeeds { CanNotify K.is_infallible V.is_infallible self.old.cache.engine.state.settings.listening
            (record_of_key K.eq self.old.cache.engine.state.records key.now) → IsOk result }
        ensures gone { record_of_key K.eq self.new.cache.engine.state.records key.now ≡ None }
        ensures counted { self.new.cache.stats ≡ self.old.cache.stats }
    {
        let now = self.clock.now();
        self.cache.invalidate(key, now, &mut self.clock)
    }

    /// A clone of a key's value, if the key is there and visible. Otherwise `init` is called, and the value that it
    /// returns is inserted and a clone of it handed out. The entry is inserted at the moment that was read before
    /// `init` was called, so if that takes longer than the time to live, the entry has expired already.
    ///
    /// # Errors
    /// As `Cache::get_with`.
    pub fn get_with<F: FnOnce() -> V>(&mut self, key: K, init: F) -> Result<V, GetWithRefused<K, V>>
    where
        K: Clone + Drop,
        V: Clone + Drop,
        P: Drop,
        requires callable { AtAnyMoment C.reads self.old.clock (λ now.
            ContainsStep P.says K.eq self.old.cache.engine.state key now.0 false → F.pre init) }
        ensures made { AtItsMoment C.reads self.old self.new (λ now old clock new clock_after.
            GetsWith (meaning_of K.eq L.tells P.says W.weighs C.reads X.created X.read X.updated)
            V.is_clone key (key_hash S.BuildHasher S.Hasher.Hasher old.engine.hasher (K.hash_input key)) now
            old clock new clock_after (F.post init) result) }
        ensures looks_up { CanHandOutValue V.is_infallible
            (record_of_key K.eq self.old.cache.engine.state.records key) → IfErr result IsOfInsert }
        ensures disabled { is_disabled self.old.cache.engine.state.capacity ≡ true
            → IfErr result (IsOfClone (λ _. ⊤) V.is_infallible) }
    {
        let now = self.clock.now();
        self.cache.get_with(key, init, now, &mut self.clock)
    }

    /// As `get_with`, for an `init` that may return `None`: then nothing is inserted, and `None` is returned.
    ///
    /// # Errors
    /// As `Cache::get_with`.
    pub fn optionally_get_with<F: FnOnce() -> Option<V>>(
        &mut self,
        key: K,
        init: F,
    ) -> Result<Option<V>, GetWithRefused<K, V>>
    where
        K: Clone + Drop,
        V: Clone + Drop,
        P: Drop,
        requires callable { AtAnyMoment C.reads self.old.clock (λ now.
            ContainsStep P.says K.eq self.old.cache.engine.state key now.0 false → F.pre init) }
        ensures made { AtItsMoment C.reads self.old self.new (λ now old clock new clock_after.
            GetsWithIfMade (meaning_of K.eq L.tells P.says W.weighs C.reads X.created X.read X.updated)
            V.is_clone key (key_hash S.BuildHasher S.Hasher.Hasher old.engine.hasher (K.hash_input key)) now
            old clock new clock_after (F.post init) result) }
        ensures looks_up { CanHandOutValue V.is_infallible
            (record_of_key K.eq self.old.cache.engine.state.records key) → IfErr result IsOfInsert }
        ensures disabled { is_disabled self.old.cache.engine.state.capacity ≡ true
            → IfErr result (IsOfClone (λ _. ⊤) V.is_infallible) }
    {
        let now = self.clock.now();
        self.cache
            .optionally_get_with(key, init, now, &mut self.clock)
    }

    /// As `get_with`, for an `init` that may fail: then nothing is inserted, and its error is returned.
    ///
    /// # Errors
    /// The outer error as `Cache::get_with`; the inner one is the maker's.
    pub fn try_get_with<E, F: FnOnce() -> Result<V, E>>(
        &mut self,
        key: K,
        init: F,
    ) -> Result<Result<V, E>, GetWithRefused<K, V>>
    where
        K: Clone + Drop,
        V: Clone + Drop,
        P: Drop,
        requires callable { AtAnyMoment C.reads self.old.clock (λ now.
            ContainsStep P.says K.eq self.old.cache.engine.state key now.0 false → F.pre init) }
        ensures made { AtItsMoment C.reads self.old self.new (λ now old clock new clock_after.
            GetsWithIfNoError (meaning_of K.eq L.tells P.says W.weighs C.reads X.created X.read X.updated)
            V.is_clone key (key_hash S.BuildHasher S.Hasher.Hasher old.engine.hasher (K.hash_input key)) now
            old clock new clock_after (F.post init) result) }
        ensures looks_up { CanHandOutValue V.is_infallible
            (record_of_key K.eq self.old.cache.engine.state.records key) → IfErr result IsOfInsert }
        ensures disabled { is_disabled self.old.cache.engine.state.capacity ≡ true
            → IfErr result (IsOfClone (λ _. ⊤) V.is_infallible) }
    {
        let now = self.clock.now();
        self.cache.try_get_with(key, init, now, &mut self.clock)
    }

    /// Registers a predicate at the clock's moment. The entries written at that moment or before that it applies to are
    /// hidden from now on, and runs of maintenance remove them.
    ///
    /// # Errors
    /// As `Cache::invalidate_entries_if`.
    pub fn invalidate_entries_if<I: IdSource>(
        &mut self,
        predicate: P,
        ids: &mut I,
    ) -> Result<PredicateId, PredicateRefused<P>>
        ensures made { AtItsOnlyMoment C.reads self.old self.new (λ now old new.
            (e : Events K V) × InvalidateStep old.engine.state predicate now result e.ids new.engine.state
            × (e ≡ only_ids e.ids) × Befalls L.tells e old.engine new.engine × Leads I.gives ids.old e.ids ids.new) }
        ensures counted { self.new.cache.stats ≡ self.old.cache.stats }
    {
        let now = self.clock.now();
        self.cache.invalidate_entries_if(predicate, now, ids)
    }

    /// Sets the greatest total weight that the cache keeps, `None` for no bound. What exceeds a lower capacity is
    /// evicted by the runs that follow.
    ///
    /// # Errors
    /// As `Cache::set_max_capacity`.
    pub fn set_max_capacity(&mut self, capacity: Option<u64>) -> Result<(), CapacityError>
        ensures step { CapacityStep self.old.cache.engine.state capacity result self.new.cache.engine.state }
        ensures events { Befalls L.tells no_events self.old.cache.engine self.new.cache.engine }
        ensures clock { self.new.clock ≡ self.old.clock }
        ensures counted { self.new.cache.stats ≡ self.old.cache.stats }
    {
        self.cache.set_max_capacity(capacity)
    }

    /// Hides all entries that were written or read before the clock's moment; runs of maintenance remove them.
    pub fn invalidate_all(&mut self)
        ensures made { AtItsOnlyMoment C.reads self.old self.new (λ now old new.
            (new.engine.state ≡ record old.engine.state { invalid_before = Some now })
            × Befalls L.tells no_events old.engine new.engine) }
        ensures counted { self.new.cache.stats ≡ self.old.cache.stats }
    {
        let now = self.clock.now();
        self.cache.invalidate_all(now);
    }

    /// Runs maintenance without a time limit. The answer tells whether more is left.
    ///
    /// Afterwards `entry_count` and `weighted_size` are exact, the weight is within the capacity, and a snapshot leaves
    /// no visible entry out.
    pub fn run_pending_tasks(&mut self) -> bool
    where
        K: Drop,
        V: Drop,
        P: Drop,
        ensures made { AtItsMoment C.reads self.old self.new (λ now old clock new clock_after.
            Makes (meaning_of K.eq L.tells P.says W.weighs C.reads X.created X.read X.updated)
            (Just (own_run now) (reply.Run result)) old.engine clock new.engine clock_after) }
        ensures members { HasOnlyMembers self.new.cache.engine.state }
        ensures exact { IsExact self.new.cache.engine.state }
        ensures within { IsWithin self.new.cache.engine.state.capacity self.new.cache.engine.state.access }
        ensures counted { self.new.cache.stats ≡ self.old.cache.stats }
    {
        let now = self.clock.now();
        self.cache.run_pending_tasks(now, &mut self.clock)
    }
}
