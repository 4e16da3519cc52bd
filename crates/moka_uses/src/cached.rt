//! A bounded cache.
ghost use Rattle.std.specs.Prelude.{◌≡◌, Some, IfOk};

use anyhow::Result;
use moka_cache::Cache;
use moka_engine::{CacheConfig, FixedClock, Instant};
use std::alloc::Global;

/// Puts a value into a cache of at most 10,000 entries, and gets it back.
pub fn put_and_get(alloc: Global, key: u64, value: u64, now: Instant) -> Result<Option<u64>>
    ensures { IfOk result (λ found. found ≡ Some value) }
{
    let config = CacheConfig::default().max_capacity(10_000);
    let mut cache: Cache<u64, u64> = Cache::build(config, alloc, now)?;
    cache.insert(key, value, now, &mut FixedClock(now))?;
    Ok(cache.get(&key, now, &mut FixedClock(now))?)
}
