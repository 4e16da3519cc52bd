//! A new segmented cache. moka: `sync::builder`, `build` with `segments`.
ghost use Rattle.std.specs.Prelude.{◌≡◌, ◌<◌, ℕ, IfOk, length, max};
ghost use Rattle.moka_segments.specs.Built.{IsNew, IsSegment, SumsTo, with_share};
ghost use Rattle.moka_segments.specs.Keys.{HoldNone};

use crate::segmented::SegmentedCache;
use moka_cache::Cache;
use moka_engine::config::{CacheConfig, DefaultHasher};
use moka_parts::closures::{PredicateFn, Weigher};
use moka_parts::error::OutOfMemory;
use moka_parts::notification::Listener;
use moka_parts::policy::{Expiry, Instant};
use moka_router::Router;
use std::alloc::Global;
use std::hash::{BuildHasher, Hash};

impl<
    K: Eq + Hash + Drop,
    V: Drop,
    X: Expiry<K, V> + Drop,
    L: Listener<K, V> + Drop,
    P: PredicateFn<K, V> + Drop,
    W: Weigher<K, V> + Drop,
    S: BuildHasher + Clone + Drop,
> SegmentedCache<K, V, X, L, P, W, S> {
    /// An empty cache of as many segments as the router has, made at the moment `now`. `make` gives the configuration
    /// of the segment at each index. If `max_capacity` is set it is shared out among the segments, in place of the
    /// configurations' own, so it should be no less than their number: a segment whose share is 0 keeps nothing.
    ///
    /// # Errors
    /// As `CacheConfig::build_with_hasher`, and if memory for the segments or for a clone of the hasher is refused.
    pub fn build_with_router<F: Fn(u32) -> CacheConfig<X, L, P, W>>(
        router: Router<S>,
        max_capacity: Option<u64>,
        make: F,
        alloc: Global,
        now: Instant,
    ) -> Result<Self, OutOfMemory>
    where
        F: Drop,
        requires { (index : ℕ) → index < router.count → F.pre make index }
        ensures new { IfOk result (λ c. IsNew router max_capacity S.is_clone now.0 (F.post make) c) }
        ensures empty { IfOk result HoldNone }
    {
        let segments = Self::build_segments(&router, max_capacity, &make, alloc, now)?;
        Ok(SegmentedCache { router, segments })
    }

    // The segments, one after the other.
    fn build_segments<F: Fn(u32) -> CacheConfig<X, L, P, W>>(
        router: &Router<S>,
        max_capacity: Option<u64>,
        make: &F,
        alloc: Global,
        now: Instant,
    ) -> Result<Vec<Cache<K, V, X, L, P, W, S>>, OutOfMemory>
        requires { (index : ℕ) → index < router.now.count → F.pre make.now index }
        ensures { IfOk result (λ segments. IsNew router.now max_capacity S.is_clone now.0 (F.post make.now)
            (record { routing = router.now; segments = segments.items })) }
    {
        let mut segments = Vec::new(alloc);
        for index in 0..router.count() {
            let config = with_share(router, make(index), max_capacity, index);
            let segment = Self::build_segment(router, config, alloc, now)?;
            let Ok(()) = segments.push(segment) else {
                return Err(OutOfMemory);
            };
        }
        Ok(segments)
    }

    // A segment with this configuration.
    fn build_segment(
        router: &Router<S>,
        config: CacheConfig<X, L, P, W>,
        alloc: Global,
        now: Instant,
    ) -> Result<Cache<K, V, X, L, P, W, S>, OutOfMemory>
        ensures { IfOk result (λ s. IsSegment router.now S.is_clone now.0 config s) }
    {
        let Ok(hasher) = router.hasher().clone() else {
            return Err(OutOfMemory);
        };
        Cache::build_with_hasher(config, alloc, hasher, now)
    }
}

impl<
    K: Eq + Hash + Drop,
    V: Drop,
    X: Expiry<K, V> + Drop,
    L: Listener<K, V> + Drop,
    P: PredicateFn<K, V> + Drop,
    W: Weigher<K, V> + Drop,
> SegmentedCache<K, V, X, L, P, W> {
    /// As `build_with_router`, with the default hasher, and `count` segments, or one if `count` is 0. Calls that
    /// concern all segments, except the sums, recurse once per segment, so use at most a few thousand.
    ///
    /// # Errors
    /// As `build_with_router`.
    pub fn build<F: Fn(u32) -> CacheConfig<X, L, P, W>>(
        count: u32,
        max_capacity: Option<u64>,
        make: F,
        alloc: Global,
        now: Instant,
    ) -> Result<Self, OutOfMemory>
    where
        F: Drop,
        requires { (index : ℕ) → index < max count 1 → F.pre make index }
        ensures new { IfOk result (λ c. (c.routing.count ≡ max count 1)
            × IsNew c.routing max_capacity (λ a b. b.initial ≡ a.initial) now.0 (F.post make) c) }
        ensures shares { IfOk result (λ c. (length c.segments ≡ max count 1) × SumsTo max_capacity c.segments) }
        ensures empty { IfOk result HoldNone }
    {
        let router = Router::new(DefaultHasher::new(), count);
        let cache = SegmentedCache::build_with_router(router, max_capacity, make, alloc, now)?;
        Ok(cache)
    }
}

// The configuration of a segment with its share of the capacity, if one is set.
fn with_share<S, X, L, P, W>(
    router: &Router<S>,
    config: CacheConfig<X, L, P, W>,
    max_capacity: Option<u64>,
    index: u32,
) -> CacheConfig<X, L, P, W>
    ensures { result ≡ with_share router.now.count index max_capacity config }
{
    match max_capacity {
        Some(whole) => config.max_capacity(router.share(whole, index)),
        None => config,
    }
}
