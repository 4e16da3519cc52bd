//! Calls of a cache that owns its clock, joined into one list, however far the clock moves between them.
ghost use Rattle.std.specs.Prelude.{IsOk};
ghost use Rattle.moka_cache.specs.Synchronous.{meaning_of};
ghost use Rattle.moka_timed_uses.specs.Joined.{DrivesBoth};

use moka_cache::laws::made_anytime;
use moka_engine::{
    Clock, DefaultHasher, Expiry, InsertRefused, Listener, OutOfMemory, PredicateFn, Weigher,
};
use moka_timed::TimedCache;
use std::hash::Hash;

/// Puts an entry in, and looks a key up. Each call reads the clock first, and is made at the moment that it tells. So
/// each is taken to a clock that may tell any moment, and joined there (`made_anytime`): both are one run of the
/// reference cache that keeps all that is promised of a list of calls.
///
/// # Errors
/// As `TimedCache::insert` the first, and as `TimedCache::get` the second, which is made in any case, and never refused
/// if no clone of a value is.
pub fn put_and_find<
    K: Eq + Hash + Clone + Drop,
    V: Clone + Drop,
    C: Clock,
    X: Expiry<K, V>,
    L: Listener<K, V>,
    P: PredicateFn<K, V> + Drop,
    W: Weigher<K, V>,
>(
    cache: &mut TimedCache<K, V, C, X, L, P, W>,
    entry: (K, V),
    sought: &K,
) -> (
    Result<(), InsertRefused<K, V>>,
    Result<Option<V>, OutOfMemory>,
)
    ensures made { DrivesBoth (meaning_of K.eq L.tells P.says W.weighs C.reads X.created X.read X.updated) V.is_clone
        entry.0 entry.1 sought.now result.0 result.1 cache.old.cache.engine cache.old.clock
        cache.new.cache.engine cache.new.clock }
    ensures found { ((value : V) → V.is_infallible value) → IsOk result.1 }
{
    made_anytime::<K, V, DefaultHasher, X, L, P, W, C>();
    cache.cache.engine().invariant_holds();
    let (key, value) = entry;
    let put = cache.insert(key, value);
    let found = cache.get(sought);
    (put, found)
}
