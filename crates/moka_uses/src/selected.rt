//! Entry calls by moka's names: a value that is put only if its key is not there.
ghost use Rattle.std.specs.Prelude.{◌≡◌, true, IfErr, IfOk, IsOk};
ghost use Rattle.moka_cache.specs.Entry.{OrInserts};
ghost use Rattle.moka_cache.specs.Given.{IsHandedOut};
ghost use Rattle.moka_engine.specs.Calls.{ContainsStep};
ghost use Rattle.moka_engine.specs.Hashing.{key_hash};
ghost use Rattle.moka_engine.specs.Looks.{CanHandOutValue};
ghost use Rattle.moka_engine.specs.Records.{record_of_key};
ghost use Rattle.moka_cache.specs.Synchronous.{meaning_of};

use moka_cache::{Cache, CacheEntry};
use moka_engine::{Clock, Expiry, InsertRefused, Instant, Listener, PredicateFn, Weigher};
use std::hash::{BuildHasher, Hash};

/// Puts a value if its key is not there. The entry says which of the two is handed out: a fresh one has the value that
/// was put.
///
/// # Errors
/// As `OwnedKeyEntrySelector::or_insert`: key and value come back. Of a key that is visible only the clone of its value
/// can be refused.
pub fn put_if_absent<
    K: Eq + Hash + Clone + Drop,
    V: Clone + Drop,
    X: Expiry<K, V>,
    L: Listener<K, V>,
    P: PredicateFn<K, V> + Drop,
    W: Weigher<K, V>,
    S: BuildHasher,
    C: Clock,
>(
    cache: &mut Cache<K, V, X, L, P, W, S>,
    key: K,
    value: V,
    now: Instant,
    clock: &mut C,
) -> Result<CacheEntry<K, V>, InsertRefused<K, V>>
    ensures made { OrInserts (meaning_of K.eq L.tells P.says W.weighs C.reads X.created X.read X.updated)
        K.is_clone V.is_clone key
        (key_hash S.BuildHasher S.Hasher.Hasher cache.old.engine.hasher (K.hash_input key)) now
        cache.old clock.old cache.new clock.new value result }
    ensures given { IfOk result (λ entry.
        IsHandedOut K.eq P.says V.is_clone cache.old.engine.state key now.0 (λ v. v ≡ value) entry.value) }
    ensures back { IfErr result (λ refused. (refused.key ≡ key) × (refused.value ≡ value)) }
    ensures succeeds { ContainsStep P.says K.eq cache.old.engine.state key now.0 true → CanHandOutValue V.is_infallible
        (record_of_key K.eq cache.old.engine.state.records key) → IsOk result }
{
    cache.entry(key).or_insert(value, now, clock)
}
