//! The synchronous cache: put, get and remove in one call each. moka: `sync::cache`.
ghost use Rattle.std.specs.Prelude.{◌≡◌, ◌≤◌, [], true, false, Option, Some, None, Result, Ok, Err, IfOk, OnErr, IfErr, IfSome, IsOk, is_some, option_copied, unwrap_or, option_map, ⊤};
ghost use Rattle.std.specs.FinMap as finite;
ghost use Rattle.moka_parts.specs.Calls.{CapacityStep, ContainsStep, InvalidateStep, no_events, only_ids};
ghost use Rattle.moka_parts.specs.Copies.{IsCopiedAnswer};
ghost use Rattle.moka_parts.specs.Exact.{IsExact, IsWithin};
ghost use Rattle.moka_records.specs.Records.{record_of_key};
ghost use Rattle.moka_parts.specs.Runs.{Befalls};
ghost use Rattle.moka_parts.specs.State.{Events, is_disabled, limits_of};
ghost use Rattle.moka_parts.specs.Surroundings.{Leads};
ghost use Rattle.moka_engine.specs.Config.{new_engine};
ghost use Rattle.moka_engine.specs.Looks.{CanHandOutValue};
ghost use Rattle.moka_types.specs.declared.calls.Reply.TheVariants as reply;
ghost use Rattle.moka_types.specs.declared.error.InsertRefused.{InsertRefused};
ghost use Rattle.moka_types.specs.declared.error.OutOfMemory.{OutOfMemory};
ghost use Rattle.moka_records.specs.declared.records.Operation.{Operation};
ghost use Rattle.moka_records.specs.declared.records.Record.{Record};
ghost use Rattle.moka_records.specs.Hashing.{key_hash};
ghost use Rattle.moka_cache.specs.Keyed.{CanNotify, Gets, Inserts, IsOfClone, IsOfInsert, MayFail, Removes};
ghost use Rattle.moka_cache.specs.Unsent.{HoldsUnsent, HidesNoMore, IsThere, ShowsWrites};
ghost use Rattle.moka_parts.specs.Counters.{after_look_up, after_load};
ghost use Rattle.moka_calls.specs.Given.{Sees};
ghost use Rattle.moka_cache.specs.Saves.{HasOnlyMembers, KeepsRecords, TakesOnlyExpired};
ghost use Rattle.moka_calls.specs.Synchronous.{fresh, InsertsMade, HandsOutOwn, Makes, meaning_of, hears_clones, Just, own_run, Posts, InsertsEntry, GetsValue, RemovesEntry, removed, invalidated, taken_out, GetsWith, GetsWithIfMade, GetsWithIfNoError};

use moka_calls::answers::{always_made, if_made, invalidated, removed, value_of};
use moka_calls::error::{GetWithRefused, NotTold};
use moka_engine::base_cache::BaseCache;
use moka_engine::config::{CacheConfig, DefaultHasher};
use moka_parts::calls::Ticket;
use moka_parts::closures::{NoPredicate, NoWeigher, PredicateFn, Weigher};
use moka_parts::error::{CapacityError, InsertError, InsertRefused, OutOfMemory, PredicateRefused};
use moka_parts::housekeeper::{Clock, EVICTION_BATCH_SIZE, MAX_LOG_SYNC_REPEATS};
use moka_parts::invalidator::{IdSource, PredicateId};
use moka_parts::key_test::SameKey;
use moka_parts::notification::{Listener, NoListener};
use moka_parts::policy::{Expiry, Instant, NoExpiry, Policy};
use moka_parts::stats::Stats;
use std::alloc::Global;
use std::hash::{BuildHasher, Hash};
use std::marker::Model;

mod by_key_test;
mod saves;

pub use saves::RestoreManyRefused;

// What is put: a value under a key, which comes with its hash by the engine's own hasher.
#[derive(Drop)]
pub(crate) struct Put<K, V> {
    pub(crate) key: K,
    pub(crate) hash: u64,
    pub(crate) value: V,
}

/// A cache that sends each operation as it is handed out, so that none waits between two calls. Each call is given the
/// moment, and a clock for the runs of maintenance that it makes. moka: `sync::cache::Cache`.
///
/// ```text
/// let config = CacheConfig::default().max_capacity(10_000);
/// let mut cache: Cache<u64, u64> = Cache::build(config, alloc, now)?;
/// cache.insert(1, 10, now, &mut clock)?;
/// let found = cache.get(&1, now, &mut clock)?; // Some(10)
/// ```
pub struct Cache<
    K: Eq + Hash,
    V,
    X: Expiry<K, V> = NoExpiry,
    L = NoListener,
    P = NoPredicate,
    W = NoWeigher,
    S: BuildHasher = DefaultHasher,
> {
    engine: BaseCache<K, V, S, X, L, P, W>,
    stats: Stats,
}

impl<K: Eq + Hash, V, X: Expiry<K, V>, L, P, W, S: BuildHasher> Model
    for Cache<K, V, X, L, P, W, S> {
    ghost use Rattle.std.specs.Prelude.{◌≡◌};
    ghost use Rattle.std.specs.Coded.{codes, coded_ℕ};
    ghost use Rattle.std.specs.FinMap as finite;
    ghost use Rattle.moka_calls.specs.Synchronous.{Synchronous};

    ghost Value = { Synchronous K V S X L P W };

    ghost coded = { Prim.hlevel (codes, finite.code, coded_ℕ, K.code, V.code, S.code, X.code, L.code, P.code, W.code) };

    ghost view = { λ c. record { engine = c.engine; stats = c.stats } };

    ghost invariant = { λ c. c.engine.state.outstanding ≡ finite.empty };
}

// A cache that is dropped notifies nobody.
impl<
    K: Eq + Hash + Drop,
    V: Drop,
    X: Expiry<K, V> + Drop,
    L: Drop,
    P: Drop,
    W: Drop,
    S: BuildHasher + Drop,
> Drop for Cache<K, V, X, L, P, W, S> {
    fn drop(self) {
        let Cache {
            engine: _,
            stats: _,
        } = self;
    }
}

impl<
    K: Eq + Hash,
    V,
    X: Expiry<K, V>,
    L: Listener<K, V>,
    P: PredicateFn<K, V>,
    W: Weigher<K, V>,
    S: BuildHasher,
> Cache<K, V, X, L, P, W, S> {
    /// A cache over an engine all of whose operations were sent.
    pub fn new(engine: BaseCache<K, V, S, X, L, P, W>) -> Self
        requires { engine.state.outstanding ≡ finite.empty }
        ensures { result ≡ fresh engine }
    {
        let stats = Stats::new();
        Cache { engine, stats }
    }

    /// An empty cache made at the moment `now`, with this hasher. It takes its memory from `alloc`.
    ///
    /// # Errors
    /// As `CacheConfig::build_with_hasher`.
    pub fn build_with_hasher(
        config: CacheConfig<X, L, P, W>,
        alloc: Global,
        hasher: S,
        now: Instant,
    ) -> Result<Self, OutOfMemory>
    where
        K: Drop,
        V: Drop,
        S: Drop,
        X: Drop,
        L: Drop,
        P: Drop,
        W: Drop,
        ensures empty { IfOk result (λ c. c ≡ fresh (new_engine config hasher now.0 c.engine.room)) }
        ensures room { IfOk result (λ c. unwrap_or config.initial_capacity 0 ≤ c.engine.room) }
    {
        let engine = config.build_with_hasher(alloc, hasher, now)?;
        Ok(Cache::new(engine))
    }

    /// No operation waits to be sent. It does nothing when it runs.
    pub fn invariant_holds(&self)
        ensures { self.now.engine.state.outstanding ≡ finite.empty }
    {
        let _ = &self.engine;
    }

    /// The engine below.
    pub fn engine(&self) -> &BaseCache<K, V, S, X, L, P, W>
        ensures { result.now ≡ self.now.engine }
    {
        &self.engine
    }

    /// Hits, misses and loads since the cache was made.
    pub fn stats(&self) -> Stats
        ensures { result ≡ self.now.stats }
    {
        self.stats
    }

    /// The cache's name, if it has one.
    pub fn name(&self) -> Option<&str>
        ensures { option_copied result ≡ self.now.engine.name }
    {
        self.engine.name()
    }

    /// Capacity and times, as they are set.
    pub fn policy(&self) -> Policy
        ensures { result ≡ limits_of self.now.engine.state }
    {
        self.engine.policy()
    }

    /// How many entries the last run of maintenance counted; 0 before the first run.
    pub fn entry_count(&self) -> u64
        ensures { result ≡ self.now.engine.state.count }
    {
        self.engine.entry_count()
    }

    /// The total weight that the last run of maintenance counted, saturating; 0 before the first run.
    pub fn weighted_size(&self) -> u64
        ensures { result ≡ self.now.engine.state.weight }
    {
        self.engine.weighted_size()
    }

    /// Whether a key is there and visible at the moment `now`. Nothing is recorded.
    pub fn contains_key(&self, key: &K, now: Instant) -> bool
        ensures { ContainsStep P.says K.eq self.now.engine.state key.now now.0 result }
    {
        let hash = self.engine.hash(key);
        self.engine.contains_key_with_own_hash(key, hash, now)
    }

    /// Puts a value under a key at the moment `now`, in place of one that is there. A cache of capacity 0 drops both.
    ///
    /// # Errors
    /// `NumbersUsedUp` if too few tickets are left, or `OutOfMemory`. Key and value come back; nothing has changed.
    pub fn insert<C: Clock>(
        &mut self,
        key: K,
        value: V,
        now: Instant,
        clock: &mut C,
    ) -> Result<(), InsertRefused<K, V>>
    where
        K: Drop,
        V: Drop,
        P: Drop,
        ensures { Inserts (meaning_of K.eq L.tells P.says W.weighs C.reads X.created X.read X.updated)
            (λ h k. key_hash S.BuildHasher S.Hasher.Hasher h (K.hash_input k)) key now clock.old clock.new value result
            self.old self.new }
    {
        let hash = self.engine.hash(&key);
        self.insert_hashed(Put { key, hash, value }, now, clock)
    }

    // An insert of a key with its hash.
    fn insert_hashed<C: Clock>(
        &mut self,
        put: Put<K, V>,
        now: Instant,
        clock: &mut C,
    ) -> Result<(), InsertRefused<K, V>>
    where
        K: Drop,
        V: Drop,
        P: Drop,
        requires own { put.hash ≡ key_hash S.BuildHasher S.Hasher.Hasher self.old.engine.hasher (K.hash_input put.key) }
        ensures made { Makes (meaning_of K.eq L.tells P.says W.weighs C.reads X.created X.read X.updated)
            (InsertsEntry put.key (key_hash S.BuildHasher S.Hasher.Hasher self.old.engine.hasher (K.hash_input put.key))
            put.value now result)
            self.old.engine clock.old self.new.engine clock.new }
        ensures back { IfErr result (λ refused. (refused.key ≡ put.key) × (refused.value ≡ put.value)) }
        ensures unchanged { OnErr result ((self.new.engine.state ≡ self.old.engine.state) × (clock.new ≡ clock.old)) }
        ensures kept { IfOk result (λ _. is_disabled self.old.engine.state.capacity ≡ false
            → IsThere K.eq self.new.engine.state put.key put.value now) }
        ensures shown { IfOk result (λ _. is_disabled self.old.engine.state.capacity ≡ false
            → ShowsWrites self.old.engine.state now.0
            → ContainsStep P.says K.eq self.new.engine.state put.key now.0 true) }
        ensures disabled { is_disabled self.old.engine.state.capacity ≡ true → IsOk result }
        ensures counted { self.new.stats ≡ self.old.stats }
    {
        let Put { key, hash, value } = put;
        self.engine.invariant_holds();
        if self.engine.is_map_disabled() {
            return Ok(());
        }
        let (ticket, _) = self.engine.do_insert_with_own_hash(key, hash, value, now)?;
        Self::post(&mut self.engine, ticket, now, clock);
        self.engine.invariant_holds();
        Ok(())
    }

    /// A clone of a key's value, if the key is there and visible at the moment `now`. The read is queued.
    ///
    /// # Errors
    /// `OutOfMemory` if memory for the clone is refused. Nothing has changed.
    #[inline(always)]
    pub fn get<C: Clock>(
        &mut self,
        key: &K,
        now: Instant,
        clock: &mut C,
    ) -> Result<Option<V>, OutOfMemory>
    where
        K: Clone + Drop,
        V: Clone + Drop,
        P: Drop,
        ensures step { Gets (meaning_of K.eq L.tells P.says W.weighs C.reads X.created X.read X.updated)
            (λ h k. key_hash S.BuildHasher S.Hasher.Hasher h (K.hash_input k)) key.now now clock.old clock.new
            V.is_clone result self.old self.new }
        ensures succeeds { CanHandOutValue V.is_infallible
            (record_of_key K.eq self.old.engine.state.records key.now) → IsOk result }
    {
        let hash = self.engine.hash(key);
        self.get_hashed(key, hash, now, clock)
    }

    // A get of a key with its hash.
    #[inline(always)]
    pub(crate) fn get_hashed<C: Clock>(
        &mut self,
        key: &K,
        hash: u64,
        now: Instant,
        clock: &mut C,
    ) -> Result<Option<V>, OutOfMemory>
    where
        K: Clone + Drop,
        V: Clone + Drop,
        P: Drop,
        requires own { hash ≡ key_hash S.BuildHasher S.Hasher.Hasher self.old.engine.hasher (K.hash_input key.now) }
        ensures made { (own : Result (Option V) OutOfMemory) × IsCopiedAnswer V.is_clone own result
            × Makes (meaning_of K.eq L.tells P.says W.weighs C.reads X.created X.read X.updated)
            (GetsValue key.now
            (key_hash S.BuildHasher S.Hasher.Hasher self.old.engine.hasher (K.hash_input key.now)) now own)
            self.old.engine clock.old self.new.engine clock.new }
        ensures sees { IfOk result (Sees K.eq P.says V.is_clone self.old.engine.state key.now now.0) }
        ensures shown { IfOk result
            (λ found. ContainsStep P.says K.eq self.old.engine.state key.now now.0 (is_some found)) }
        ensures succeeds { CanHandOutValue V.is_infallible
            (record_of_key K.eq self.old.engine.state.records key.now) → IsOk result }
        ensures unchanged { OnErr result ((self.new.engine.state ≡ self.old.engine.state) × (clock.new ≡ clock.old)) }
        ensures counted { self.new.stats ≡ after_look_up result self.old.stats }
        ensures stays { (p : Record K V) → record_of_key K.eq self.new.engine.state.records key.now ≡ Some p
            → (r : Record K V) × (record_of_key K.eq self.old.engine.state.records key.now ≡ Some r)
            × (p.value ≡ r.value) }
        ensures hasher { self.new.engine.hasher ≡ self.old.engine.hasher }
        ensures disabled { is_disabled self.old.engine.state.capacity ≡ true
            → (result ≡ Ok None) × (is_disabled self.new.engine.state.capacity ≡ true) }
    {
        self.engine.invariant_holds();
        let entry = self.engine.get_with_own_hash(key, hash, false, now, clock);
        let found = value_of(entry);
        self.stats.count_look_up(&found);
        found
    }

    /// Takes a key out, and hands its value out, expired or not. The listener, if one is set, is notified.
    ///
    /// # Errors
    /// `NotTold`, with the value, if a listener is set and memory for a clone is refused. The entry is gone all the
    /// same.
    pub fn remove<C: Clock>(
        &mut self,
        key: &K,
        now: Instant,
        clock: &mut C,
    ) -> Result<Option<V>, NotTold<V>>
    where
        K: Clone + Drop,
        V: Clone + Drop,
        P: Drop,
        ensures step { Removes (meaning_of K.eq L.tells P.says W.weighs C.reads X.created X.read X.updated)
            (λ h k. key_hash S.BuildHasher S.Hasher.Hasher h (K.hash_input k)) key.now now clock.old clock.new
            K.is_clone V.is_clone (λ taken. result ≡ removed taken) self.old self.new }
        ensures succeeds { CanNotify K.is_infallible V.is_infallible self.old.engine.state.settings.listening
            (record_of_key K.eq self.old.engine.state.records key.now) → IsOk result }
        ensures value { taken_out result
            ≡ option_map (λ r. r.value) (record_of_key K.eq self.old.engine.state.records key.now) }
    {
        let hash = self.engine.hash(key);
        removed(self.take(key, hash, now, clock))
    }

    /// Takes a key out, expired or not, and drops its value. The listener, if one is set, is notified.
    ///
    /// # Errors
    /// As `remove`.
    pub fn invalidate<C: Clock>(
        &mut self,
        key: &K,
        now: Instant,
        clock: &mut C,
    ) -> Result<(), NotTold<V>>
    where
        K: Clone + Drop,
        V: Clone + Drop,
        P: Drop,
        ensures step { Removes (meaning_of K.eq L.tells P.says W.weighs C.reads X.created X.read X.updated)
            (λ h k. key_hash S.BuildHasher S.Hasher.Hasher h (K.hash_input k)) key.now now clock.old clock.new
            K.is_clone V.is_clone (λ taken. result ≡ invalidated taken) self.old self.new }
        ensures succeeds { CanNotify K.is_infallible V.is_infallible self.old.engine.state.settings.listening
            (record_of_key K.eq self.old.engine.state.records key.now) → IsOk result }
    {
        let hash = self.engine.hash(key);
        invalidated(self.take(key, hash, now, clock))
    }

    // Takes a key with its hash out: its value, and whether the listener was notified.
    pub(crate) fn take<C: Clock>(
        &mut self,
        key: &K,
        hash: u64,
        now: Instant,
        clock: &mut C,
    ) -> Option<(V, Result<(), OutOfMemory>)>
    where
        K: Clone + Drop,
        V: Clone + Drop,
        P: Drop,
        requires own { hash ≡ key_hash S.BuildHasher S.Hasher.Hasher self.old.engine.hasher (K.hash_input key.now) }
        ensures made { Makes (meaning_of K.eq (hears_clones K.is_clone V.is_clone L.tells) P.says W.weighs C.reads
            X.created X.read X.updated)
            (RemovesEntry key.now
            (key_hash S.BuildHasher S.Hasher.Hasher self.old.engine.hasher (K.hash_input key.now)) now result)
            self.old.engine clock.old self.new.engine clock.new }
        ensures notified { CanNotify K.is_infallible V.is_infallible self.old.engine.state.settings.listening
            (record_of_key K.eq self.old.engine.state.records key.now) → IfSome result (λ t. IsOk t.1) }
        ensures gone { record_of_key K.eq self.new.engine.state.records key.now ≡ None }
        ensures value { option_map (λ t. t.0) result
            ≡ option_map (λ r. r.value) (record_of_key K.eq self.old.engine.state.records key.now) }
        ensures counted { self.new.stats ≡ self.old.stats }
    {
        self.take_by(&SameKey(key), hash, now, clock)
    }

    /// A clone of a key's value, if the key is there and visible at the moment `now`. Otherwise `init` is called, and
    /// the value that it returns is inserted and a clone of it handed out. The value is inserted at the moment `now`,
    /// so if `init` takes longer than the time to live, the entry has expired already.
    ///
    /// ```text
    /// let value = cache.get_with(key, || 20, now, &mut clock)?;
    /// ```
    ///
    /// # Errors
    /// `Lookup`, with the key, if memory for the clone of a value that is there is refused; and `Insert`, with key and
    /// the value that was made, if memory for its clone or for the insert is refused, or tickets are used up.
    pub fn get_with<F: FnOnce() -> V, C: Clock>(
        &mut self,
        key: K,
        init: F,
        now: Instant,
        clock: &mut C,
    ) -> Result<V, GetWithRefused<K, V>>
    where
        K: Clone + Drop,
        V: Clone + Drop,
        P: Drop,
        requires callable { ContainsStep P.says K.eq self.old.engine.state key now.0 false → F.pre init }
        ensures step { GetsWith (meaning_of K.eq L.tells P.says W.weighs C.reads X.created X.read X.updated)
            V.is_clone key (key_hash S.BuildHasher S.Hasher.Hasher self.old.engine.hasher (K.hash_input key)) now
            self.old clock.old self.new clock.new (F.post init) result }
        ensures looks_up { CanHandOutValue V.is_infallible
            (record_of_key K.eq self.old.engine.state.records key) → IfErr result IsOfInsert }
        ensures disabled { is_disabled self.old.engine.state.capacity ≡ true
            → IfErr result (IsOfClone (λ _. ⊤) V.is_infallible) }
    {
        always_made(self.try_get_with(key, || Ok(init()), now, clock))
    }

    /// As `get_with`, for an `init` that may return `None`: then nothing is inserted, and `None` is returned.
    ///
    /// # Errors
    /// As `get_with`.
    pub fn optionally_get_with<F: FnOnce() -> Option<V>, C: Clock>(
        &mut self,
        key: K,
        init: F,
        now: Instant,
        clock: &mut C,
    ) -> Result<Option<V>, GetWithRefused<K, V>>
    where
        K: Clone + Drop,
        V: Clone + Drop,
        P: Drop,
        requires callable { ContainsStep P.says K.eq self.old.engine.state key now.0 false → F.pre init }
        ensures step { GetsWithIfMade (meaning_of K.eq L.tells P.says W.weighs C.reads X.created X.read X.updated)
            V.is_clone key (key_hash S.BuildHasher S.Hasher.Hasher self.old.engine.hasher (K.hash_input key)) now
            self.old clock.old self.new clock.new (F.post init) result }
        ensures looks_up { CanHandOutValue V.is_infallible
            (record_of_key K.eq self.old.engine.state.records key) → IfErr result IsOfInsert }
        ensures disabled { is_disabled self.old.engine.state.capacity ≡ true
            → IfErr result (IsOfClone (λ _. ⊤) V.is_infallible) }
    {
        if_made(self.try_get_with(key, || init().ok_or(()), now, clock))
    }

    /// As `get_with`, for an `init` that may fail: then nothing is inserted, and its error is returned.
    ///
    /// ```text
    /// match cache.try_get_with(key, || read_from(source), now, &mut clock)? {
    ///     Ok(value) => use_it(value),
    ///     Err(error) => report(error), // of `read_from`
    /// }
    /// ```
    ///
    /// # Errors
    /// The outer error as `get_with`; the inner one is the maker's.
    #[inline(always)]
    pub fn try_get_with<E, F: FnOnce() -> Result<V, E>, C: Clock>(
        &mut self,
        key: K,
        init: F,
        now: Instant,
        clock: &mut C,
    ) -> Result<Result<V, E>, GetWithRefused<K, V>>
    where
        K: Clone + Drop,
        V: Clone + Drop,
        P: Drop,
        requires callable { ContainsStep P.says K.eq self.old.engine.state key now.0 false → F.pre init }
        ensures step { GetsWithIfNoError (meaning_of K.eq L.tells P.says W.weighs C.reads X.created X.read X.updated)
            V.is_clone key (key_hash S.BuildHasher S.Hasher.Hasher self.old.engine.hasher (K.hash_input key)) now
            self.old clock.old self.new clock.new (F.post init) result }
        ensures looks_up { CanHandOutValue V.is_infallible
            (record_of_key K.eq self.old.engine.state.records key) → IfErr result IsOfInsert }
        ensures disabled { is_disabled self.old.engine.state.capacity ≡ true
            → IfErr result (IsOfClone (λ _. ⊤) V.is_infallible) }
    {
        let hash = self.engine.hash(&key);
        match self.get_hashed(&key, hash, now, clock) {
            Ok(Some(value)) => return Ok(Ok(value)),
            Ok(None) => {}
            Err(_) => return Err(GetWithRefused::Lookup(key)),
        }
        self.count_load();
        let value = match init() {
            Ok(value) => value,
            Err(error) => return Ok(Err(error)),
        };
        match self.insert_made_hashed(Put { key, hash, value }, now, clock) {
            Ok(copy) => Ok(Ok(copy)),
            Err(refused) => Err(GetWithRefused::Insert(refused)),
        }
    }

    // Makes the run that is due, if one is, and sends the operation; if the queue is full, another run empties it
    // before.
    fn post<C: Clock>(
        engine: &mut BaseCache<K, V, S, X, L, P, W>,
        ticket: Ticket,
        now: Instant,
        clock: &mut C,
    )
    where
        K: Drop,
        V: Drop,
        P: Drop,
        requires waiting { (o : Operation) × (engine.old.state.outstanding ≡ finite.insert finite.empty ticket.0 o) }
        requires enabled { is_disabled engine.old.state.capacity ≡ false }
        ensures made { Makes (meaning_of K.eq L.tells P.says W.weighs C.reads X.created X.read X.updated)
            (Posts now ticket) engine.old clock.old engine.new clock.new }
        ensures sent { engine.new.state.outstanding ≡ finite.empty }
        ensures holds { HoldsUnsent engine.old.state engine.new.state }
        ensures hides { HidesNoMore engine.old.state engine.new.state }
        ensures keeps { KeepsRecords engine.old.state engine.new.state }
        ensures lasts { TakesOnlyExpired W.weighs [] now.0 engine.old.state engine.new.state }
    {
        engine.apply_reads_writes_if_needed(now, clock);
        match engine.send(ticket) {
            Ok(()) => {}
            // The ticket is known, so the queue is full.
            Err(_) => {
                engine.run_pending_tasks(
                    now,
                    clock,
                    None,
                    MAX_LOG_SYNC_REPEATS,
                    EVICTION_BATCH_SIZE,
                );
                let _sent = engine.send(ticket);
            }
        }
    }

    // Inserts a value that was made for a key with its hash, and hands out a clone of it.
    pub(crate) fn insert_made_hashed<C: Clock>(
        &mut self,
        put: Put<K, V>,
        now: Instant,
        clock: &mut C,
    ) -> Result<V, InsertRefused<K, V>>
    where
        K: Drop,
        V: Clone + Drop,
        P: Drop,
        requires own { put.hash ≡ key_hash S.BuildHasher S.Hasher.Hasher self.old.engine.hasher (K.hash_input put.key) }
        ensures made { (own : Result V (InsertRefused K V)) × HandsOutOwn V.is_clone own result
            × Makes (meaning_of K.eq L.tells P.says W.weighs C.reads X.created X.read X.updated)
            (InsertsMade put.key (key_hash S.BuildHasher S.Hasher.Hasher self.old.engine.hasher (K.hash_input put.key))
            now put.value own)
            self.old.engine clock.old self.new.engine clock.new }
        ensures back { IfErr result (λ refused. (refused.key ≡ put.key) × (refused.value ≡ put.value)) }
        ensures disabled { is_disabled self.old.engine.state.capacity ≡ true
            → IfErr result (MayFail (λ _. ⊤) V.is_infallible) }
        ensures counted { self.new.stats ≡ self.old.stats }
    {
        let Put { key, hash, value } = put;
        let Ok(copy) = value.clone() else {
            let error = InsertError::OutOfMemory;
            return Err(InsertRefused { error, key, value });
        };
        self.insert_hashed(Put { key, hash, value }, now, clock)?;
        Ok(copy)
    }

    // Counts a call of a maker.
    pub(crate) fn count_load(&mut self)
        ensures { self.new ≡ record self.old { stats = after_load self.old.stats } }
    {
        self.stats.loads = self.stats.loads.saturating_add(1);
    }

    /// Registers a predicate at the moment `now`. The entries written at that moment or before that it applies to are
    /// hidden from now on, and runs of maintenance remove them.
    ///
    /// # Errors
    /// As the engine's: the predicate comes back, and nothing has changed.
    pub fn invalidate_entries_if<I: IdSource>(
        &mut self,
        predicate: P,
        now: Instant,
        ids: &mut I,
    ) -> Result<PredicateId, PredicateRefused<P>>
        ensures made { (e : Events K V)
            × InvalidateStep self.old.engine.state predicate now result e.ids self.new.engine.state
            × (e ≡ only_ids e.ids)
            × Befalls L.tells e self.old.engine self.new.engine
            × Leads I.gives ids.old e.ids ids.new }
        ensures counted { self.new.stats ≡ self.old.stats }
    {
        self.engine.invalidate_entries_if(predicate, now, ids)
    }

    /// Sets the greatest total weight that the cache keeps, `None` for no bound. What exceeds a lower capacity is
    /// evicted by the runs that follow.
    ///
    /// # Errors
    /// `ZeroCapacity` if the present capacity or the new one is 0. Nothing has changed.
    pub fn set_max_capacity(&mut self, capacity: Option<u64>) -> Result<(), CapacityError>
        ensures step { CapacityStep self.old.engine.state capacity result self.new.engine.state }
        ensures events { Befalls L.tells no_events self.old.engine self.new.engine }
        ensures counted { self.new.stats ≡ self.old.stats }
    {
        self.engine.set_max_capacity(capacity)
    }

    /// Hides all entries that were written or read before the moment `now`; runs of maintenance remove them. This
    /// moment replaces that of an earlier call.
    pub fn invalidate_all(&mut self, now: Instant)
        ensures step { self.new.engine.state ≡ record self.old.engine.state { invalid_before = Some now } }
        ensures events { Befalls L.tells no_events self.old.engine self.new.engine }
        ensures counted { self.new.stats ≡ self.old.stats }
    {
        self.engine.invalidate_all(now);
    }

    /// Runs maintenance without a time limit. The answer tells whether more is left.
    ///
    /// Afterwards `entry_count` and `weighted_size` are exact, the weight is within the capacity, and `snapshot` leaves
    /// no visible entry out.
    pub fn run_pending_tasks<C: Clock>(&mut self, now: Instant, clock: &mut C) -> bool
    where
        K: Drop,
        V: Drop,
        P: Drop,
        ensures made { Makes (meaning_of K.eq L.tells P.says W.weighs C.reads X.created X.read X.updated)
            (Just (own_run now) (reply.Run result)) self.old.engine clock.old self.new.engine clock.new }
        ensures exact { IsExact self.new.engine.state }
        ensures within { IsWithin self.new.engine.state.capacity self.new.engine.state.access }
        ensures members { HasOnlyMembers self.new.engine.state }
        ensures counted { self.new.stats ≡ self.old.stats }
    {
        let (repeats, batch) = (MAX_LOG_SYNC_REPEATS, EVICTION_BATCH_SIZE);
        let more = self
            .engine
            .run_pending_tasks(now, clock, None, repeats, batch);
        self.engine.invariant_holds();
        more
    }
}

impl<
    K: Eq + Hash,
    V,
    X: Expiry<K, V>,
    L: Listener<K, V>,
    P: PredicateFn<K, V>,
    W: Weigher<K, V>,
> Cache<K, V, X, L, P, W> {
    /// An empty cache made at the moment `now`, with the default hasher. It takes its memory from `alloc`.
    ///
    /// # Errors
    /// As `CacheConfig::build`.
    pub fn build(
        config: CacheConfig<X, L, P, W>,
        alloc: Global,
        now: Instant,
    ) -> Result<Self, OutOfMemory>
    where
        K: Drop,
        V: Drop,
        X: Drop,
        L: Drop,
        P: Drop,
        W: Drop,
        ensures empty { IfOk result (λ c. c ≡ fresh (new_engine config c.engine.hasher now.0 c.engine.room)) }
        ensures room { IfOk result (λ c. unwrap_or config.initial_capacity 0 ≤ c.engine.room) }
    {
        Cache::build_with_hasher(config, alloc, DefaultHasher::default(), now)
    }
}
