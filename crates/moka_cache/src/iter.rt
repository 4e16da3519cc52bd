//! The entries that are visible. moka: `sync::iter`.
ghost use Rattle.std.specs.Prelude.{IfOk};
ghost use Rattle.std.specs.Vec.Iter.{into_iter_items};
ghost use Rattle.moka_cache.specs.Visible.{ClonesAreSameKeys, ListsVisible, LooksUp, LooksUpClones};

use crate::cache::Cache;
use moka_engine::base_cache::BaseCache;
use moka_parts::closures::{PredicateFn, Weigher};
use moka_parts::error::OutOfMemory;
use moka_parts::notification::Listener;
use moka_parts::policy::{Expiry, Instant};
use std::hash::{BuildHasher, Hash};
use std::vec::IntoIter;

impl<
    K: Eq + Hash,
    V,
    X: Expiry<K, V>,
    L: Listener<K, V>,
    P: PredicateFn<K, V>,
    W: Weigher<K, V>,
    S: BuildHasher,
> Cache<K, V, X, L, P, W, S> {
    /// The entries that are visible at the moment `now`, each once if clones of keys are equal to them, in no special
    /// order: clones of key and value. Nothing is recorded.
    ///
    /// ```text
    /// for (key, value) in cache.iter(now)? {
    ///     print_entry(key, value);
    /// }
    /// ```
    ///
    /// # Errors
    /// `OutOfMemory` if memory for the list or for a clone is refused.
    pub fn iter(&self, now: Instant) -> Result<IntoIter<(K, V)>, OutOfMemory>
    where
        K: Clone + Drop,
        V: Clone + Drop,
        ensures looked_up { IfOk result (λ found.
            LooksUpClones P.says V.is_clone self.now.engine.state now.0 K.eq K.is_clone (into_iter_items found)) }
        ensures visible { ClonesAreSameKeys K.eq K.is_clone → IfOk result (λ found.
            ListsVisible P.says V.is_clone self.now.engine.state now.0 K.is_clone (into_iter_items found)) }
    {
        self.engine().invariant_holds();
        match self.engine().keys(0)? {
            Some(keys) => Ok(Self::look_up_all(self.engine(), keys, now)?.into_iter()),
            // Segment 0 is always there.
            None => Err(OutOfMemory),
        }
    }

    // The keys' entries that are visible, with clones of their values.
    fn look_up_all(
        engine: &BaseCache<K, V, S, X, L, P, W>,
        keys: Vec<K>,
        now: Instant,
    ) -> Result<Vec<(K, V)>, OutOfMemory>
    where
        K: Drop,
        V: Clone + Drop,
        ensures { IfOk result (λ found. LooksUp P.says V.is_clone engine.now.state now.0 K.eq keys.items found.items) }
    {
        let alloc = *keys.allocator();
        let Ok(mut found) = Vec::with_capacity(alloc, keys.len()) else {
            return Err(OutOfMemory);
        };
        for key in keys {
            if let Some(value) = engine.scanning_get(&key, now)? {
                found.push_reserved((key, value));
            }
        }
        Ok(found)
    }
}
