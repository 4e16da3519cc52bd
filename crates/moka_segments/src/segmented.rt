//! The segmented cache, and its calls by key. moka: `sync::segment`.
ghost use Rattle.std.specs.Prelude.{◌≡◌, ◌<◌, false, true, length, IfErr, IsOk, option_map, ⊤};
ghost use Rattle.moka_parts.specs.Calls.{ContainsStep};
ghost use Rattle.moka_parts.specs.State.{is_disabled};
ghost use Rattle.moka_records.specs.Hashing.{key_hash};
ghost use Rattle.moka_records.specs.Records.{record_of_key};
ghost use Rattle.moka_calls.specs.Synchronous.{meaning_of, removed, invalidated, taken_out};
ghost use Rattle.moka_engine.specs.Looks.{CanHandOutValue};
ghost use Rattle.moka_router.specs.Routing.{segment_of};
ghost use Rattle.moka_segments.specs.Segmented.{Holds, HoldsIfThere, IsAt, Steps as StepsIn};
ghost use Rattle.moka_cache.specs.Keyed.{CanNotify, Inserts, Gets, IsOfClone, IsOfInsert, Removes, GetsWith, GetsWithIfMade, GetsWithIfNoError};

use moka_cache::each::insert_into_own;
use moka_cache::{Cache, GetWithRefused, NotTold};
use moka_engine::config::DefaultHasher;
use moka_parts::closures::{NoPredicate, NoWeigher, PredicateFn, Weigher};
use moka_parts::error::{InsertRefused, OutOfMemory};
use moka_parts::housekeeper::Clock;
use moka_parts::notification::{Listener, NoListener};
use moka_parts::policy::{Expiry, Instant, NoExpiry};
use moka_router::{Router, select_mut};
use std::hash::{BuildHasher, Hash};
use std::marker::Model;

/// Synchronous caches side by side. A key's hash names the one that the key belongs to, and each call by key is that
/// cache's call.
pub struct SegmentedCache<
    K: Eq + Hash,
    V,
    X: Expiry<K, V> = NoExpiry,
    L = NoListener,
    P = NoPredicate,
    W = NoWeigher,
    S: BuildHasher = DefaultHasher,
> {
    pub(crate) router: Router<S>,
    pub(crate) segments: Vec<Cache<K, V, X, L, P, W, S>>,
}

impl<K: Eq + Hash, V, X: Expiry<K, V>, L, P, W, S: BuildHasher> Model
    for SegmentedCache<K, V, X, L, P, W, S> {
    ghost use Rattle.std.specs.Prelude.{◌≡◌, length};
    ghost use Rattle.std.specs.Coded.{codes, coded_ℕ};
    ghost use Rattle.std.specs.FinMap as finite;
    ghost use Rattle.moka_segments.specs.Segmented.{Segmented};

    ghost Value = { Segmented K V S X L P W };

    ghost coded = { Prim.hlevel (codes, finite.code, coded_ℕ, K.code, V.code, S.code, X.code, L.code, P.code, W.code) };

    ghost view = { λ c. record { routing = c.router; segments = c.segments.items } };

    ghost invariant = { λ c. length c.segments.items ≡ c.router.count };
}

// A cache that is dropped notifies nobody.
impl<
    K: Eq + Hash + Drop,
    V: Drop,
    X: Expiry<K, V> + Drop,
    L: Drop,
    P: Drop,
    W: Drop,
    S: BuildHasher + Drop,
> Drop for SegmentedCache<K, V, X, L, P, W, S> {
    fn drop(self) {
        let SegmentedCache {
            router: _,
            segments: _,
        } = self;
    }
}

impl<
    K: Eq + Hash,
    V,
    X: Expiry<K, V>,
    L: Listener<K, V>,
    P: PredicateFn<K, V>,
    W: Weigher<K, V>,
    S: BuildHasher,
> SegmentedCache<K, V, X, L, P, W, S> {
    ghost use Rattle.std.specs.Borrow.{sem};
    ghost use Rattle.moka_segments.specs.Lending.{LendsSegment};

    /// The cache of these segments, as many as the router knows.
    pub fn from_parts(router: Router<S>, segments: Vec<Cache<K, V, X, L, P, W, S>>) -> Self
        requires { length segments.items ≡ router.count }
        ensures { result ≡ record { routing = router; segments = segments.items } }
    {
        SegmentedCache { router, segments }
    }

    /// The router and the segments, so that each segment can have a lock of its own.
    ///
    /// Each key is to stay in the segment that the router names, or it is not found.
    pub fn into_parts(self) -> (Router<S>, Vec<Cache<K, V, X, L, P, W, S>>)
        ensures router { result.0 ≡ self.routing }
        ensures segments { result.1.items ≡ self.segments }
        ensures as_many { length result.1.items ≡ result.0.count }
    {
        let SegmentedCache { router, segments } = self;
        (router, segments)
    }

    /// The router, which names the segment of each key.
    pub fn router(&self) -> &Router<S>
        ensures { result.now ≡ self.now.routing }
    {
        &self.router
    }

    /// The segment at `index`, which must be less than the number of segments (`router().count()`).
    pub fn segment(&self, index: usize) -> &Cache<K, V, X, L, P, W, S>
        requires { index < length self.now.segments }
        ensures { IsAt self.now.segments index result.now }
    {
        &self.segments[index]
    }

    /// The segment at `index`, less than the number of segments, for calls that this cache does not have: entry calls,
    /// those for many keys or by a test of the key, snapshots, `set_max_capacity`:
    ///
    /// ```text
    /// let own = cache.segment_of(&key);
    /// let entry = cache.segment_mut(own).entry(key).or_insert(value, now, &mut clock)?;
    /// ```
    ///
    /// Each key is to stay in the segment that it belongs to, or it is not found.
    pub fn segment_mut(&mut self, index: usize) -> &mut Cache<K, V, X, L, P, W, S>
        requires { index < length self.old.segments }
        ensures* lends { sem 𝓛 (LendsSegment K.row V.row X.row L.row P.row W.row S.row S.Hasher.row
            K.PartialEq K.Hash.own X.Expiry S.BuildHasher S.Hasher.Hasher self.entry index result) }
        ensures is { IsAt self.old.segments index result.now }
    {
        &mut self.segments[index]
    }

    // The segment that a key belongs to.
    fn own_segment(&mut self, key: &K) -> &mut Cache<K, V, X, L, P, W, S>
        ensures* lends { sem 𝓛 (LendsSegment K.row V.row X.row L.row P.row W.row S.row S.Hasher.row
            K.PartialEq K.Hash.own X.Expiry S.BuildHasher S.Hasher.Hasher self.entry
            (segment_of self.old.routing.count
            (key_hash S.BuildHasher S.Hasher.Hasher self.old.routing.hasher (K.hash_input key.now))) result) }
        ensures is { IsAt self.old.segments (segment_of self.old.routing.count
            (key_hash S.BuildHasher S.Hasher.Hasher self.old.routing.hasher (K.hash_input key.now))) result.now }
    {
        select_mut(&mut self.segments, &self.router, key)
    }

    // The first segment: a router knows of one at least.
    pub(crate) fn first(&self) -> &Cache<K, V, X, L, P, W, S>
        ensures { IsAt self.now.segments 0 result.now }
    {
        let _count = self.router.count();
        &self.segments[0]
    }

    /// The index of the segment that a key belongs to.
    pub fn segment_of(&self, key: &K) -> usize
        ensures place { result ≡ segment_of self.now.routing.count
            (key_hash S.BuildHasher S.Hasher.Hasher self.now.routing.hasher (K.hash_input key.now)) }
        ensures within { result < length self.now.segments }
    {
        let _ = &self.segments;
        self.router.segment_of(key)
    }

    /// Whether a key is there and visible at the moment `now`. Nothing is recorded.
    pub fn contains_key(&self, key: &K, now: Instant) -> bool
        ensures { Holds (segment_of self.now.routing.count
            (key_hash S.BuildHasher S.Hasher.Hasher self.now.routing.hasher (K.hash_input key.now)))
            (λ s. ContainsStep P.says K.eq s.engine.state key.now now.0 result) self.now.segments }
    {
        let index = self.segment_of(key);
        self.segment(index).contains_key(key, now)
    }

    /// Puts a value under a key at the moment `now`, in place of one that is there. A segment of capacity 0 drops both.
    ///
    /// # Errors
    /// `NumbersUsedUp` if too few tickets are left, or `OutOfMemory`. Key and value come back; nothing has changed.
    pub fn insert<C: Clock>(
        &mut self,
        key: K,
        value: V,
        now: Instant,
        clock: &mut C,
    ) -> Result<(), InsertRefused<K, V>>
    where
        K: Drop,
        V: Drop,
        P: Drop,
        ensures step { StepsIn (segment_of self.old.routing.count
            (key_hash S.BuildHasher S.Hasher.Hasher self.old.routing.hasher (K.hash_input key)))
            (Inserts (meaning_of K.eq L.tells P.says W.weighs C.reads X.created X.read X.updated)
            (λ h k. key_hash S.BuildHasher S.Hasher.Hasher h (K.hash_input k)) key now clock.old clock.new value result)
            self.old self.new }
        ensures back { IfErr result (λ refused. (refused.key ≡ key) × (refused.value ≡ value)) }
    {
        insert_into_own(&mut self.segments, &self.router, key, value, now, clock)
    }

    /// A clone of a key's value, if the key is there and visible at the moment `now`. The read is queued.
    ///
    /// # Errors
    /// `OutOfMemory` if memory for the clone is refused. Nothing has changed.
    pub fn get<C: Clock>(
        &mut self,
        key: &K,
        now: Instant,
        clock: &mut C,
    ) -> Result<Option<V>, OutOfMemory>
    where
        K: Clone + Drop,
        V: Clone + Drop,
        P: Drop,
        ensures step { StepsIn (segment_of self.old.routing.count
            (key_hash S.BuildHasher S.Hasher.Hasher self.old.routing.hasher (K.hash_input key.now)))
            (Gets (meaning_of K.eq L.tells P.says W.weighs C.reads X.created X.read X.updated)
            (λ h k. key_hash S.BuildHasher S.Hasher.Hasher h (K.hash_input k)) key.now now clock.old
            clock.new V.is_clone result)
            self.old self.new }
        ensures succeeds { StepsIn (segment_of self.old.routing.count
            (key_hash S.BuildHasher S.Hasher.Hasher self.old.routing.hasher (K.hash_input key.now)))
            (λ old new. CanHandOutValue V.is_infallible (record_of_key K.eq old.engine.state.records key.now)
            → IsOk result) self.old self.new }
    {
        self.own_segment(key).get(key, now, clock)
    }

    /// Takes a key out, and hands its value out, expired or not. The listener, if one is set, is notified.
    ///
    /// # Errors
    /// `NotTold`, with the value, if a listener is set and memory for a clone is refused. The entry is gone all the
    /// same.
    pub fn remove<C: Clock>(
        &mut self,
        key: &K,
        now: Instant,
        clock: &mut C,
    ) -> Result<Option<V>, NotTold<V>>
    where
        K: Clone + Drop,
        V: Clone + Drop,
        P: Drop,
        ensures step { StepsIn (segment_of self.old.routing.count
            (key_hash S.BuildHasher S.Hasher.Hasher self.old.routing.hasher (K.hash_input key.now)))
            (Removes (meaning_of K.eq L.tells P.says W.weighs C.reads X.created X.read X.updated)
            (λ h k. key_hash S.BuildHasher S.Hasher.Hasher h (K.hash_input k)) key.now now clock.old clock.new
            K.is_clone V.is_clone (λ taken. result ≡ removed taken))
            self.old self.new }
        ensures succeeds { StepsIn (segment_of self.old.routing.count
            (key_hash S.BuildHasher S.Hasher.Hasher self.old.routing.hasher (K.hash_input key.now)))
            (λ old new. CanNotify K.is_infallible V.is_infallible old.engine.state.settings.listening
            (record_of_key K.eq old.engine.state.records key.now) → IsOk result) self.old self.new }
        ensures value { StepsIn (segment_of self.old.routing.count
            (key_hash S.BuildHasher S.Hasher.Hasher self.old.routing.hasher (K.hash_input key.now)))
            (λ old new. taken_out result
            ≡ option_map (λ r. r.value) (record_of_key K.eq old.engine.state.records key.now))
            self.old self.new }
    {
        self.own_segment(key).remove(key, now, clock)
    }

    /// As `remove`, without the value.
    ///
    /// # Errors
    /// As `remove`.
    pub fn invalidate<C: Clock>(
        &mut self,
        key: &K,
        now: Instant,
        clock: &mut C,
    ) -> Result<(), NotTold<V>>
    where
        K: Clone + Drop,
        V: Clone + Drop,
        P: Drop,
        ensures step { StepsIn (segment_of self.old.routing.count
            (key_hash S.BuildHasher S.Hasher.Hasher self.old.routing.hasher (K.hash_input key.now)))
            (Removes (meaning_of K.eq L.tells P.says W.weighs C.reads X.created X.read X.updated)
            (λ h k. key_hash S.BuildHasher S.Hasher.Hasher h (K.hash_input k)) key.now now clock.old clock.new
            K.is_clone V.is_clone (λ taken. result ≡ invalidated taken))
            self.old self.new }
        ensures succeeds { StepsIn (segment_of self.old.routing.count
            (key_hash S.BuildHasher S.Hasher.Hasher self.old.routing.hasher (K.hash_input key.now)))
            (λ old new. CanNotify K.is_infallible V.is_infallible old.engine.state.settings.listening
            (record_of_key K.eq old.engine.state.records key.now) → IsOk result) self.old self.new }
    {
        self.own_segment(key).invalidate(key, now, clock)
    }

    /// A clone of a key's value, if the key is there and visible at the moment `now`. Otherwise `init` is called, and
    /// the value that it returns is inserted and a clone of it handed out.
    ///
    /// # Errors
    /// As the synchronous cache's call of this name.
    pub fn get_with<F: FnOnce() -> V, C: Clock>(
        &mut self,
        key: K,
        init: F,
        now: Instant,
        clock: &mut C,
    ) -> Result<V, GetWithRefused<K, V>>
    where
        K: Clone + Drop,
        V: Clone + Drop,
        P: Drop,
        requires callable { HoldsIfThere (segment_of self.old.routing.count
            (key_hash S.BuildHasher S.Hasher.Hasher self.old.routing.hasher (K.hash_input key)))
            (λ s. ContainsStep P.says K.eq s.engine.state key now.0 false → F.pre init) self.old.segments }
        ensures step { StepsIn (segment_of self.old.routing.count
            (key_hash S.BuildHasher S.Hasher.Hasher self.old.routing.hasher (K.hash_input key)))
            (GetsWith (meaning_of K.eq L.tells P.says W.weighs C.reads X.created X.read X.updated)
            (λ h k. key_hash S.BuildHasher S.Hasher.Hasher h (K.hash_input k)) key now clock.old clock.new
            V.is_clone (F.post init) result)
            self.old self.new }
        ensures looks_up { StepsIn (segment_of self.old.routing.count
            (key_hash S.BuildHasher S.Hasher.Hasher self.old.routing.hasher (K.hash_input key)))
            (λ old new. CanHandOutValue V.is_infallible (record_of_key K.eq old.engine.state.records key)
            → IfErr result IsOfInsert) self.old self.new }
        ensures disabled { StepsIn (segment_of self.old.routing.count
            (key_hash S.BuildHasher S.Hasher.Hasher self.old.routing.hasher (K.hash_input key)))
            (λ old new. is_disabled old.engine.state.capacity ≡ true
            → IfErr result (IsOfClone (λ _. ⊤) V.is_infallible)) self.old self.new }
    {
        self.own_segment(&key).get_with(key, init, now, clock)
    }

    /// As `get_with`, for an `init` that may return `None`: then nothing is inserted, and `None` is returned.
    ///
    /// # Errors
    /// As `get_with`.
    pub fn optionally_get_with<F: FnOnce() -> Option<V>, C: Clock>(
        &mut self,
        key: K,
        init: F,
        now: Instant,
        clock: &mut C,
    ) -> Result<Option<V>, GetWithRefused<K, V>>
    where
        K: Clone + Drop,
        V: Clone + Drop,
        P: Drop,
        requires callable { HoldsIfThere (segment_of self.old.routing.count
            (key_hash S.BuildHasher S.Hasher.Hasher self.old.routing.hasher (K.hash_input key)))
            (λ s. ContainsStep P.says K.eq s.engine.state key now.0 false → F.pre init) self.old.segments }
        ensures step { StepsIn (segment_of self.old.routing.count
            (key_hash S.BuildHasher S.Hasher.Hasher self.old.routing.hasher (K.hash_input key)))
            (GetsWithIfMade (meaning_of K.eq L.tells P.says W.weighs C.reads X.created X.read X.updated)
            (λ h k. key_hash S.BuildHasher S.Hasher.Hasher h (K.hash_input k)) key now clock.old clock.new
            V.is_clone (F.post init) result)
            self.old self.new }
        ensures looks_up { StepsIn (segment_of self.old.routing.count
            (key_hash S.BuildHasher S.Hasher.Hasher self.old.routing.hasher (K.hash_input key)))
            (λ old new. CanHandOutValue V.is_infallible (record_of_key K.eq old.engine.state.records key)
            → IfErr result IsOfInsert) self.old self.new }
        ensures disabled { StepsIn (segment_of self.old.routing.count
            (key_hash S.BuildHasher S.Hasher.Hasher self.old.routing.hasher (K.hash_input key)))
            (λ old new. is_disabled old.engine.state.capacity ≡ true
            → IfErr result (IsOfClone (λ _. ⊤) V.is_infallible)) self.old self.new }
    {
        self.own_segment(&key)
            .optionally_get_with(key, init, now, clock)
    }

    /// As `get_with`, for an `init` that may fail: then nothing is inserted, and its error is returned.
    ///
    /// # Errors
    /// The outer error as `get_with`; the inner one is the maker's.
    pub fn try_get_with<E, F: FnOnce() -> Result<V, E>, C: Clock>(
        &mut self,
        key: K,
        init: F,
        now: Instant,
        clock: &mut C,
    ) -> Result<Result<V, E>, GetWithRefused<K, V>>
    where
        K: Clone + Drop,
        V: Clone + Drop,
        P: Drop,
        requires callable { HoldsIfThere (segment_of self.old.routing.count
            (key_hash S.BuildHasher S.Hasher.Hasher self.old.routing.hasher (K.hash_input key)))
            (λ s. ContainsStep P.says K.eq s.engine.state key now.0 false → F.pre init) self.old.segments }
        ensures step { StepsIn (segment_of self.old.routing.count
            (key_hash S.BuildHasher S.Hasher.Hasher self.old.routing.hasher (K.hash_input key)))
            (GetsWithIfNoError (meaning_of K.eq L.tells P.says W.weighs C.reads X.created X.read X.updated)
            (λ h k. key_hash S.BuildHasher S.Hasher.Hasher h (K.hash_input k)) key now clock.old clock.new
            V.is_clone (F.post init) result)
            self.old self.new }
        ensures looks_up { StepsIn (segment_of self.old.routing.count
            (key_hash S.BuildHasher S.Hasher.Hasher self.old.routing.hasher (K.hash_input key)))
            (λ old new. CanHandOutValue V.is_infallible (record_of_key K.eq old.engine.state.records key)
            → IfErr result IsOfInsert) self.old self.new }
        ensures disabled { StepsIn (segment_of self.old.routing.count
            (key_hash S.BuildHasher S.Hasher.Hasher self.old.routing.hasher (K.hash_input key)))
            (λ old new. is_disabled old.engine.state.capacity ≡ true
            → IfErr result (IsOfClone (λ _. ⊤) V.is_infallible)) self.old self.new }
    {
        self.own_segment(&key).try_get_with(key, init, now, clock)
    }
}
