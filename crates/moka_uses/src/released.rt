//! A cache with a listener that gives back what a value held.
ghost use Rattle.moka_engine.specs.Copies.{ClonesAreEqual};
ghost use Rattle.std.specs.Prelude.{◌≡◌, IsOk, None, Option, Result};
ghost use Rattle.moka_engine.specs.parts.OutOfMemory.{OutOfMemory};
ghost use Rattle.moka_engine.specs.Records.{record_of_key};
ghost use Rattle.moka_cache.specs.Keyed.{CanNotify};
ghost use Rattle.moka_cache.specs.Synchronous.{invalidated, meaning_of};
ghost use Rattle.moka_uses.specs.Released.{DrivesRemoval};

use moka_cache::laws::{hears_themselves, keeps_promises};
use moka_cache::{Cache, NotTold};
use moka_engine::{
    Clock, DefaultHasher, Expiry, Instant, Listener, NoExpiry, PredicateFn, RemovalCause, Weigher,
};
use std::hash::Hash;

/// How many places are free in a pool of connections. Each connection that leaves the cache gives its place back.
#[derive(Clone, Copy, Debug, PartialEq)]
pub struct Places {
    pub free: u64,
}

impl<K: Drop, V: Drop> Listener<K, V> for Places {
    ghost use Rattle.std.specs.Prelude.{◌≡◌, ◌+◌, min};
    ghost use Rattle.moka_engine.specs.Time.{greatest};

    ghost tells = { λ before _ _ _ after. after ≡ record { free = min (before.free + 1) greatest } };

    fn notify(&mut self, _: K, _: V, _: RemovalCause) {
        self.free = self.free.saturating_add(1);
    }
}

/// Users' connections, each by a number.
pub type Connections = Cache<u64, u64, NoExpiry, Places>;

/// Closes what is kept under a key. This is a run of the reference cache that keeps all that is promised of a list of
/// calls (`keeps_promises`): if a listener is set, the value that is closed is handed to it exactly once, unless that
/// is refused (`is_run`, by `NotifiesAfter`), and so is each other that leaves (`told_once`).
///
/// # Errors
/// `NotTold`, with the value, of which the listener was not told: its place is the caller's to give back. Only a clone
/// of key or value for the listener can be refused.
pub fn close<
    K: Eq + Hash + Clone + Drop,
    V: Clone + Drop,
    X: Expiry<K, V>,
    L: Listener<K, V>,
    P: PredicateFn<K, V> + Drop,
    W: Weigher<K, V>,
    C: Clock,
>(
    cache: &mut Cache<K, V, X, L, P, W>,
    key: &K,
    now: Instant,
    clock: &mut C,
) -> Result<(), NotTold<V>>
    requires keys { ClonesAreEqual K.is_clone }
    requires values { ClonesAreEqual V.is_clone }
    ensures closed { (taken : Option (V × Result (Unit {0}) OutOfMemory)) × (result ≡ invalidated taken)
        × DrivesRemoval (meaning_of K.eq L.tells P.says W.weighs C.reads X.created X.read X.updated)
        key.now now taken cache.old.engine clock.old cache.new.engine clock.new }
    ensures gone { record_of_key K.eq cache.new.engine.state.records key.now ≡ None }
    ensures succeeds { CanNotify K.is_infallible V.is_infallible cache.old.engine.state.settings.listening
        (record_of_key K.eq cache.old.engine.state.records key.now) → IsOk result }
{
    hears_themselves::<K, V, DefaultHasher, X, L, P, W, C>();
    keeps_promises::<K, V, DefaultHasher, X, L, P, W, C>();
    cache.engine().invariant_holds();
    cache.invalidate(key, now, clock)
}
