//! The removals that a cache's listener counted.
ghost use Rattle.std.specs.Prelude.{◌≡◌};
ghost use Rattle.moka_calls.specs.Removed.{removals_of};

use crate::cache::Cache;
pub use moka_calls::removals::{CountingListener, Removals};
use moka_parts::closures::{PredicateFn, Weigher};
use moka_parts::notification::Listener;
use moka_parts::policy::Expiry;
use std::hash::{BuildHasher, Hash};

impl<
    K: Eq + Hash,
    V,
    X: Expiry<K, V>,
    L: Listener<K, V>,
    P: PredicateFn<K, V>,
    W: Weigher<K, V>,
    S: BuildHasher,
> Cache<K, V, X, CountingListener<L>, P, W, S> {
    /// How many removals the cache's listener was notified of, by cause; all 0 if the cache has no listener. A removal
    /// of which it could not be notified, since memory was refused, is not counted.
    ///
    /// ```text
    /// let config = CacheConfig::default().eviction_listener(CountingListener::new(NoListener));
    /// let evicted = cache.removals().size; // of a cache that was built from it
    /// ```
    pub fn removals(&self) -> Removals
        ensures { result ≡ removals_of self.now.engine.listener }
    {
        match self.engine().listener() {
            Some(counted) => counted.removals,
            None => Removals::new(),
        }
    }
}
