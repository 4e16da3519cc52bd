//! Removals counted by their causes.
ghost use Rattle.std.specs.Prelude.{◌≡◌};
ghost use Rattle.moka_calls.specs.Removed.{removals_of};

use crate::cache::TimedCache;
use moka_cache::removals::{CountingListener, Removals};
use moka_parts::closures::{PredicateFn, Weigher};
use moka_parts::notification::Listener;
use moka_parts::policy::Expiry;
use std::hash::{BuildHasher, Hash};

impl<
    K: Eq + Hash,
    V,
    C,
    X: Expiry<K, V>,
    L: Listener<K, V>,
    P: PredicateFn<K, V>,
    W: Weigher<K, V>,
    S: BuildHasher,
> TimedCache<K, V, C, X, CountingListener<L>, P, W, S> {
    /// How many values left, by cause, as `Cache::removals` counts them.
    pub fn removals(&self) -> Removals
        ensures { result ≡ removals_of self.now.cache.engine.listener }
    {
        self.cache.removals()
    }
}
