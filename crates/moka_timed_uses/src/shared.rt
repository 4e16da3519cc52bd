//! A cache in segments that keeps its bound, and each key in one segment, each of which is a cache of its own.
ghost use Rattle.std.specs.Prelude.{◌≡◌, ◌≤◌, true, IfErr, IfSome, IsOk};
ghost use Rattle.moka_engine.specs.Calls.{ContainsStep};
ghost use Rattle.moka_engine.specs.Hashing.{key_hash};
ghost use Rattle.moka_engine.specs.Looks.{CanHandOutValue};
ghost use Rattle.moka_engine.specs.Records.{record_of_key};
ghost use Rattle.moka_cache.specs.Synchronous.{meaning_of};
ghost use Rattle.moka_router.specs.Routing.{segment_of};
ghost use Rattle.moka_segments.specs.Keys.{AreInOneSegment, KeysBelong};
ghost use Rattle.moka_segments.specs.Moves.{InsertsThenGets};
ghost use Rattle.moka_segments.specs.Segmented.{Steps};
ghost use Rattle.moka_segments.specs.Whole.{saturated, total, whole_capacity};
ghost use Rattle.moka_timed_uses.specs.Shared.{EachRan, GetsOrPuts, InsertsAndFinds, InsertsInOne, OrInsertsInOne};

use moka_cache::CacheEntry;
use moka_engine::{
    Clock, Expiry, FixedClock, InsertRefused, Instant, Listener, OutOfMemory, PredicateFn, Weigher,
};
use moka_segments::SegmentedCache;
use moka_segments::laws::{
    calls_by_key_are_moves, calls_by_key_keep_keys, lent_calls_are_moves, one_segment_each,
    own_calls_run,
};
use moka_uses::selected::put_if_absent;
use std::hash::{BuildHasher, Hash};

/// What the segments of a cache keep together.
#[derive(Clone, Copy)]
pub struct Kept {
    /// The weight of all entries.
    pub weight: u64,
    /// The capacity of all segments, if each has one.
    pub most: Option<u64>,
}

/// Runs maintenance of each segment at the moment `now`, and tells what they keep.
pub fn keep_bound(cache: &mut SegmentedCache<u64, u64>, now: Instant) -> Kept
    ensures within { IfSome result.most (λ most. result.weight ≤ most) }
    ensures weight { result.weight ≡ total (λ s. s.engine.state.weight) cache.new.segments }
    ensures most { result.most ≡ saturated (whole_capacity cache.new.segments) }
    ensures ran { EachRan now cache.old cache.new }
{
    cache.run_pending_tasks(now, &mut FixedClock(now));
    let (weight, most) = (cache.weighted_size(), cache.max_capacity());
    Kept { weight, most }
}

/// Puts an entry into a cache each of whose segments holds only keys that belong to it, as a new one. That stays so
/// (`calls_by_key_keep_keys`), and keys that are equal are in one segment at most (`one_segment_each`).
///
/// # Errors
/// As `SegmentedCache::insert`: key and value come back, and nothing has changed.
pub fn put_where_it_belongs<
    K: Eq + Hash + Clone + Drop,
    V: Clone + Drop,
    S: BuildHasher,
    X: Expiry<K, V>,
    L: Listener<K, V>,
    P: PredicateFn<K, V> + Drop,
    W: Weigher<K, V>,
    C: Clock,
>(
    cache: &mut SegmentedCache<K, V, X, L, P, W, S>,
    key: K,
    value: V,
    now: Instant,
    clock: &mut C,
) -> Result<(), InsertRefused<K, V>>
    requires { KeysBelong (λ h k. key_hash S.BuildHasher S.Hasher.Hasher h (K.hash_input k)) cache.old }
    ensures belong { KeysBelong (λ h k. key_hash S.BuildHasher S.Hasher.Hasher h (K.hash_input k)) cache.new }
    ensures apart { AreInOneSegment K.eq cache.new }
    ensures put { InsertsInOne (λ h k. key_hash S.BuildHasher S.Hasher.Hasher h (K.hash_input k))
        (meaning_of K.eq L.tells P.says W.weighs C.reads X.created X.read X.updated) key value now
        cache.old clock.old cache.new clock.new result }
    ensures back { IfErr result (λ refused. (refused.key ≡ key) × (refused.value ≡ value)) }
{
    calls_by_key_keep_keys::<K, V, S, X, L, P, W, C>();
    one_segment_each::<K, V, S, X, L, P, W>();
    cache.insert(key, value, now, clock)
}

/// Puts an entry in, and looks a key up. These are two moves of a segment each (`calls_by_key_are_moves`), so each
/// segment is one run of the reference cache, of those of the two that are its own (`own_calls_run`).
///
/// # Errors
/// As `SegmentedCache::insert` the first, and as `SegmentedCache::get` the second, which is made in any case, and never
/// refused if no clone of a value is.
pub fn put_and_find<
    K: Eq + Hash + Clone + Drop,
    V: Clone + Drop,
    S: BuildHasher,
    X: Expiry<K, V>,
    L: Listener<K, V>,
    P: PredicateFn<K, V> + Drop,
    W: Weigher<K, V>,
    C: Clock,
>(
    cache: &mut SegmentedCache<K, V, X, L, P, W, S>,
    entry: (K, V),
    sought: &K,
    now: Instant,
    clock: &mut C,
) -> (
    Result<(), InsertRefused<K, V>>,
    Result<Option<V>, OutOfMemory>,
)
    ensures made { InsertsAndFinds (λ h k. key_hash S.BuildHasher S.Hasher.Hasher h (K.hash_input k))
        (meaning_of K.eq L.tells P.says W.weighs C.reads X.created X.read X.updated) V.is_clone
        entry.0 entry.1 sought.now now cache.old clock.old cache.new clock.new result.0 result.1 }
    ensures runs { InsertsThenGets (λ h k. key_hash S.BuildHasher S.Hasher.Hasher h (K.hash_input k))
        (meaning_of K.eq L.tells P.says W.weighs C.reads X.created X.read X.updated) K.is_clone V.is_clone
        entry.0 entry.1 sought.now now result.0 result.1 cache.old cache.new }
    ensures found { ((value : V) → V.is_infallible value) → IsOk result.1 }
{
    own_calls_run::<K, V, S, X, L, P, W, C>();
    calls_by_key_are_moves::<K, V, S, X, L, P, W, C>();
    let (key, value) = entry;
    let put = cache.insert(key, value, now, clock);
    let found = cache.get(sought, now, clock);
    (put, found)
}

/// A clone of a key's value, or, if none is visible, of the value that is put in: an entry call of the segment that the
/// key belongs to, and so a move of this segment, as the cache's own calls by key are (`lent_calls_are_moves`).
///
/// # Errors
/// As `OwnedKeyEntrySelector::or_insert`: key and value come back, and nothing was put in. Of a key that is visible in
/// its segment only the clone of its value can be refused.
pub fn get_or_put<
    K: Eq + Hash + Clone + Drop,
    V: Clone + Drop,
    S: BuildHasher,
    X: Expiry<K, V>,
    L: Listener<K, V>,
    P: PredicateFn<K, V> + Drop,
    W: Weigher<K, V>,
    C: Clock,
>(
    cache: &mut SegmentedCache<K, V, X, L, P, W, S>,
    key: K,
    value: V,
    now: Instant,
    clock: &mut C,
) -> Result<CacheEntry<K, V>, InsertRefused<K, V>>
    ensures made { OrInsertsInOne (λ h k. key_hash S.BuildHasher S.Hasher.Hasher h (K.hash_input k))
        (meaning_of K.eq L.tells P.says W.weighs C.reads X.created X.read X.updated) K.is_clone V.is_clone key value now
        cache.old clock.old cache.new clock.new result }
    ensures moves { GetsOrPuts (λ h k. key_hash S.BuildHasher S.Hasher.Hasher h (K.hash_input k))
        (meaning_of K.eq L.tells P.says W.weighs C.reads X.created X.read X.updated) K.is_clone V.is_clone key now
        cache.old clock.old cache.new clock.new }
    ensures succeeds { Steps (segment_of cache.old.routing.count
        (key_hash S.BuildHasher S.Hasher.Hasher cache.old.routing.hasher (K.hash_input key)))
        (λ old new. ContainsStep P.says K.eq old.engine.state key now.0 true → CanHandOutValue V.is_infallible
        (record_of_key K.eq old.engine.state.records key) → IsOk result) cache.old cache.new }
{
    lent_calls_are_moves::<K, V, S, X, L, P, W, C>();
    let own = cache.segment_of(&key);
    put_if_absent(cache.segment_mut(own), key, value, now, clock)
}
