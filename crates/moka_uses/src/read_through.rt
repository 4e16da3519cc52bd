//! A read-through cache over a source that can fail.
ghost use Rattle.std.specs.Prelude.{ℕ, false, None, Ok, Err, IfOk, IfErr};
ghost use Rattle.moka_engine.specs.Calls.{ContainsStep};
ghost use Rattle.moka_engine.specs.Looks.{CanHandOutValue};
ghost use Rattle.moka_engine.specs.Records.{record_of_key};
ghost use Rattle.moka_cache.specs.Given.{ComesBack, IsHandedOut};
ghost use Rattle.moka_cache.specs.Keyed.{IsOfInsert};
ghost use Rattle.moka_cache.specs.Synchronous.{GetsWithIfNoError, meaning_of};
ghost use Rattle.moka_uses.specs.Made.{LooksUp};

use moka_cache::{Cache, GetWithRefused};
use moka_engine::{Clock, Expiry, Instant, Listener, PredicateFn, Weigher};
use std::hash::Hash;

/// The value of a key: a clone of the visible one, or else what the source gives, which is kept. A failure of the
/// source is handed on, and nothing is inserted then. The source is asked only if no value is visible, and then once.
///
/// # Errors
/// The inner error is the source's. The outer one, as of `Cache::try_get_with`, has the key, and the source's value if
/// it gave one; it is of the insert alone if no clone of the value that is there is refused.
pub fn look_up<
    K: Eq + Hash + Clone + Drop,
    V: Clone + Drop,
    E,
    X: Expiry<K, V>,
    L: Listener<K, V>,
    P: PredicateFn<K, V> + Drop,
    W: Weigher<K, V>,
    F: FnOnce() -> Result<V, E>,
    C: Clock,
>(
    cache: &mut Cache<K, V, X, L, P, W>,
    key: K,
    ask: F,
    now: Instant,
    clock: &mut C,
) -> Result<Result<V, E>, GetWithRefused<K, V>>
    requires callable { ContainsStep P.says K.eq cache.old.engine.state key now.0 false → F.pre ask }
    ensures made { (hash : ℕ)
        × GetsWithIfNoError (meaning_of K.eq L.tells P.says W.weighs C.reads X.created X.read X.updated)
        V.is_clone key hash now cache.old clock.old cache.new clock.new (F.post ask) result }
    ensures given { IfOk result (λ answer. IfOk answer
        (IsHandedOut K.eq P.says V.is_clone cache.old.engine.state key now.0 (λ value. F.post ask (Ok value)))) }
    ensures failed { IfOk result (λ answer. IfErr answer (λ error. F.post ask (Err error)
        × LooksUp (meaning_of K.eq L.tells P.says W.weighs C.reads X.created X.read X.updated) key now
        cache.old.engine clock.old cache.new.engine clock.new (Ok None))) }
    ensures back { IfErr result
        (ComesBack cache.old.engine.state cache.new.engine.state key (λ value. F.post ask (Ok value))) }
    ensures looks_up { CanHandOutValue V.is_infallible (record_of_key K.eq cache.old.engine.state.records key)
        → IfErr result IsOfInsert }
{
    cache.try_get_with(key, ask, now, clock)
}
