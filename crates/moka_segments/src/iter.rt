//! The entries that are visible, of all segments. moka: `sync::segment`, `iter`.
ghost use Rattle.std.specs.Prelude.{◌≡◌, ◌++◌, List, IfOk};
ghost use Rattle.std.specs.Vec.Iter.{into_iter_items};
ghost use Rattle.moka_segments.specs.Listing.{AllListed, ListsOwn};

use crate::segmented::SegmentedCache;
use moka_cache::Cache;
use moka_parts::closures::{PredicateFn, Weigher};
use moka_parts::error::OutOfMemory;
use moka_parts::notification::Listener;
use moka_parts::policy::{Expiry, Instant};
use std::hash::{BuildHasher, Hash};
use std::vec::IntoIter;

impl<
    K: Eq + Hash,
    V,
    X: Expiry<K, V>,
    L: Listener<K, V>,
    P: PredicateFn<K, V>,
    W: Weigher<K, V>,
    S: BuildHasher,
> SegmentedCache<K, V, X, L, P, W, S> {
    /// The entries of all segments that are visible at the moment `now`, as `Cache::iter` lists them: segment after
    /// segment, and in no particular order within one. Nothing is recorded.
    ///
    /// # Errors
    /// `OutOfMemory` if memory for a list or for a clone is refused.
    pub fn iter(&self, now: Instant) -> Result<IntoIter<(K, V)>, OutOfMemory>
    where
        K: Clone + Drop,
        V: Clone + Drop,
        ensures { IfOk result (λ found.
            AllListed (ListsOwn P.says V.is_clone K.eq K.is_clone now.0) self.now.segments (into_iter_items found)) }
    {
        let mut found = Vec::new(*self.segments.allocator());
        Self::list_each(&self.segments, now, &mut found)?;
        Ok(found.into_iter())
    }

    // Appends the visible entries of each.
    fn list_each(
        segments: &[Cache<K, V, X, L, P, W, S>],
        now: Instant,
        found: &mut Vec<(K, V)>,
    ) -> Result<(), OutOfMemory>
    where
        K: Clone + Drop,
        V: Clone + Drop,
        ensures { IfOk result (λ _. (listed : List _) × (found.new.items ≡ found.old.items ++ listed)
            × AllListed (ListsOwn P.says V.is_clone K.eq K.is_clone now.0) segments.now listed) }
    {
        let Some((first, rest)) = segments.split_first() else {
            return Ok(());
        };
        let Ok(()) = found.extend(first.iter(now)?) else {
            return Err(OutOfMemory);
        };
        Self::list_each(rest, now, found)
    }
}
