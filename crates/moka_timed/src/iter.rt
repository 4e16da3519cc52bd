//! The entries that are visible. moka: `sync::iter`.
ghost use Rattle.std.specs.Prelude.{◌≡◌, IfOk};
ghost use Rattle.std.specs.Vec.Iter.{into_iter_items};
ghost use Rattle.moka_timed.specs.Moments.{AtItsOnlyMoment};
ghost use Rattle.moka_cache.specs.Visible.{ClonesAreSameKeys, ListsVisible, LooksUpClones};

use crate::cache::TimedCache;
use moka_parts::closures::{PredicateFn, Weigher};
use moka_parts::error::OutOfMemory;
use moka_parts::housekeeper::Clock;
use moka_parts::notification::Listener;
use moka_parts::policy::Expiry;
use std::hash::{BuildHasher, Hash};
use std::vec::IntoIter;

impl<
    K: Eq + Hash,
    V,
    C: Clock,
    X: Expiry<K, V>,
    L: Listener<K, V>,
    P: PredicateFn<K, V>,
    W: Weigher<K, V>,
    S: BuildHasher,
> TimedCache<K, V, C, X, L, P, W, S> {
    /// As `Cache::iter`, at the clock's moment.
    ///
    /// # Errors
    /// As `Cache::iter`.
    pub fn iter(&mut self) -> Result<IntoIter<(K, V)>, OutOfMemory>
    where
        K: Clone + Drop,
        V: Clone + Drop,
        ensures listed { AtItsOnlyMoment C.reads self.old self.new (λ now old new.
            IfOk result (λ found.
            LooksUpClones P.says V.is_clone old.engine.state now.0 K.eq K.is_clone (into_iter_items found))
            × (ClonesAreSameKeys K.eq K.is_clone → IfOk result (λ found.
            ListsVisible P.says V.is_clone old.engine.state now.0 K.is_clone (into_iter_items found)))) }
        ensures unchanged { self.new.cache ≡ self.old.cache }
    {
        let now = self.clock.now();
        self.cache.iter(now)
    }
}
