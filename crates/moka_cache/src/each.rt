//! Several caches: an insert into the one that the key belongs to, and invalidation and maintenance of each.
ghost use Rattle.std.specs.Prelude.{◌≡◌, length, IfErr};
ghost use Rattle.std.specs.List.{AllZip};
ghost use Rattle.moka_records.specs.Hashing.{key_hash};
ghost use Rattle.moka_router.specs.Lending.{StepsAt};
ghost use Rattle.moka_router.specs.Routing.{segment_of};
ghost use Rattle.moka_calls.specs.Synchronous.{meaning_of};
ghost use Rattle.moka_cache.specs.Each.{AllRan, Hides};
ghost use Rattle.moka_cache.specs.Keyed.{Inserts};

use crate::cache::Cache;
use moka_parts::closures::{PredicateFn, Weigher};
use moka_parts::error::InsertRefused;
use moka_parts::housekeeper::Clock;
use moka_parts::notification::Listener;
use moka_parts::policy::{Expiry, Instant};
use moka_router::{Router, select_mut};
use std::hash::{BuildHasher, Hash};

/// Puts a value under a key at the moment `now` into the cache that the key belongs to by the router, of as many as it
/// knows.
///
/// # Errors
/// As `Cache::insert`.
pub fn insert_into_own<
    K: Eq + Hash + Drop,
    V: Drop,
    X: Expiry<K, V>,
    L: Listener<K, V>,
    P: PredicateFn<K, V> + Drop,
    W: Weigher<K, V>,
    S: BuildHasher,
    C: Clock,
>(
    caches: &mut Vec<Cache<K, V, X, L, P, W, S>>,
    router: &Router<S>,
    key: K,
    value: V,
    now: Instant,
    clock: &mut C,
) -> Result<(), InsertRefused<K, V>>
    requires as_many { length caches.old.items ≡ router.now.count }
    ensures step { StepsAt (segment_of router.now.count
        (key_hash S.BuildHasher S.Hasher.Hasher router.now.hasher (K.hash_input key)))
        (Inserts (meaning_of K.eq L.tells P.says W.weighs C.reads X.created X.read X.updated)
        (λ h k. key_hash S.BuildHasher S.Hasher.Hasher h (K.hash_input k)) key now clock.old clock.new value result)
        caches.old.items caches.new.items }
    ensures back { IfErr result (λ refused. (refused.key ≡ key) × (refused.value ≡ value)) }
{
    select_mut(caches, router, &key).insert(key, value, now, clock)
}

/// Hides all entries of each cache that were written or read before the moment `now`; runs of maintenance remove them.
/// This moment replaces that of an earlier call.
pub fn invalidate_each<
    K: Eq + Hash,
    V,
    X: Expiry<K, V>,
    L: Listener<K, V>,
    P: PredicateFn<K, V>,
    W: Weigher<K, V>,
    S: BuildHasher,
>(caches: &mut [Cache<K, V, X, L, P, W, S>], now: Instant)
    ensures { AllZip (Hides L.tells now) caches.old caches.new }
{
    let Some((first, rest)) = caches.split_first_mut() else {
        return;
    };
    first.invalidate_all(now);
    invalidate_each(rest, now);
}

/// Runs maintenance of each cache in turn, without a time limit. The answer tells whether more is left of any.
pub fn run_each<
    K: Eq + Hash + Drop,
    V: Drop,
    X: Expiry<K, V>,
    L: Listener<K, V>,
    P: PredicateFn<K, V> + Drop,
    W: Weigher<K, V>,
    S: BuildHasher,
    C: Clock,
>(caches: &mut [Cache<K, V, X, L, P, W, S>], now: Instant, clock: &mut C) -> bool
    ensures { AllRan (meaning_of K.eq L.tells P.says W.weighs C.reads X.created X.read X.updated) now clock.old
        result clock.new caches.old caches.new }
{
    let Some((first, rest)) = caches.split_first_mut() else {
        return false;
    };
    let more = first.run_pending_tasks(now, clock);
    let others = run_each(rest, now, clock);
    more | others
}
