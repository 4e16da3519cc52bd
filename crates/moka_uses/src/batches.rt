//! Rows that are put in, looked up and taken out many at a time.
ghost use Rattle.std.specs.Prelude.{◌≡◌, ◌++◌, ◌∷◌, List, length, IfOk, IfErr};
ghost use Rattle.std.specs.Vec.Iter.{into_iter_items};
ghost use Rattle.moka_engine.specs.Hashing.{key_hash};
ghost use Rattle.moka_cache.specs.Many.{GetsMany, InsertsMany, InvalidatesMany};
ghost use Rattle.moka_cache.specs.Synchronous.{Makes, hears_clones, meaning_of};

use moka_cache::{Cache, GetManyRefused, InsertManyRefused, InvalidateManyRefused};
use moka_engine::{Clock, Expiry, Instant, Listener, PredicateFn, Weigher};
use std::alloc::Global;
use std::hash::{BuildHasher, Hash};

/// Puts rows in at the moment `now`, one after the other.
///
/// # Errors
/// As `Cache::insert_many`: no row is lost. The row that was refused comes back with those after it, in order, and the
/// count of those before it, which were put in.
pub fn load<
    K: Eq + Hash + Drop,
    V: Drop,
    X: Expiry<K, V>,
    L: Listener<K, V>,
    P: PredicateFn<K, V> + Drop,
    W: Weigher<K, V>,
    S: BuildHasher,
    C: Clock,
>(
    cache: &mut Cache<K, V, X, L, P, W, S>,
    rows: Vec<(K, V)>,
    now: Instant,
    clock: &mut C,
) -> Result<(), InsertManyRefused<K, V>>
    ensures made { Makes (meaning_of K.eq L.tells P.says W.weighs C.reads X.created X.read X.updated)
        (InsertsMany (λ key. key_hash S.BuildHasher S.Hasher.Hasher cache.old.engine.hasher (K.hash_input key)) now
        rows.items result)
        cache.old.engine clock.old cache.new.engine clock.new }
    ensures back { IfErr result (λ e. (put : List (K × V))
        × (rows.items ≡ put ++ (e.refused.key, e.refused.value) ∷ into_iter_items e.rest) × (e.done ≡ length put)) }
{
    cache.insert_many(rows, now, clock)
}

/// What each key finds at the moment `now`, in order.
///
/// # Errors
/// As `Cache::get_many`: what the keys before the one that was refused found.
pub fn ask<
    K: Eq + Hash + Clone + Drop,
    V: Clone + Drop,
    X: Expiry<K, V>,
    L: Listener<K, V>,
    P: PredicateFn<K, V> + Drop,
    W: Weigher<K, V>,
    S: BuildHasher,
    C: Clock,
>(
    alloc: Global,
    cache: &mut Cache<K, V, X, L, P, W, S>,
    keys: &[K],
    now: Instant,
    clock: &mut C,
) -> Result<Vec<Option<V>>, GetManyRefused<V>>
    ensures made { Makes (meaning_of K.eq L.tells P.says W.weighs C.reads X.created X.read X.updated)
        (GetsMany V.is_clone (λ key. key_hash S.BuildHasher S.Hasher.Hasher cache.old.engine.hasher (K.hash_input key))
        now keys.now result)
        cache.old.engine clock.old cache.new.engine clock.new }
    ensures each { IfOk result (λ found. length found.items ≡ length keys.now) }
{
    cache.get_many(alloc, keys, now, clock)
}

/// Takes the rows of these keys out at the moment `now`.
///
/// # Errors
/// As `Cache::invalidate_many`: how many come before the key whose listener was not notified, and its value.
pub fn drop_all<
    K: Eq + Hash + Clone + Drop,
    V: Clone + Drop,
    X: Expiry<K, V>,
    L: Listener<K, V>,
    P: PredicateFn<K, V> + Drop,
    W: Weigher<K, V>,
    S: BuildHasher,
    C: Clock,
>(
    cache: &mut Cache<K, V, X, L, P, W, S>,
    keys: &[K],
    now: Instant,
    clock: &mut C,
) -> Result<(), InvalidateManyRefused<V>>
    ensures made { Makes (meaning_of K.eq (hears_clones K.is_clone V.is_clone L.tells) P.says W.weighs C.reads
        X.created X.read X.updated)
        (InvalidatesMany (λ key. key_hash S.BuildHasher S.Hasher.Hasher cache.old.engine.hasher (K.hash_input key)) now
        keys.now result)
        cache.old.engine clock.old cache.new.engine clock.new }
    ensures stopped { IfErr result (λ e. (before : List K) × (key : K) × (after : List K)
        × (keys.now ≡ before ++ key ∷ after) × (e.done ≡ length before)) }
{
    cache.invalidate_many(keys, now, clock)
}
