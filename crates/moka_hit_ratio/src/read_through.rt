//! A cache that is read through.
ghost use Rattle.std.specs.Prelude.{◌≡◌, false, Some, IfOk};
ghost use Rattle.moka_cache.specs.Limits.{HasSameLimits};
ghost use Rattle.moka_engine.specs.Exact.{IsExact, IsWithin};
ghost use Rattle.moka_engine.specs.Runs.{IsEmpty};
ghost use Rattle.moka_hit_ratio.specs.Reads.{IsRead};

use anyhow::Result;
use moka_cache::Cache;
use moka_engine::{CacheConfig, EvictionPolicy, FixedClock, Instant, OutOfMemory};
use std::alloc::Global;

// Nothing expires, so that all is done at one moment.
const NOW: Instant = Instant(0);

/// A cache of this engine. A run of maintenance follows each insert, so that it keeps to its capacity.
#[derive(Drop)]
pub struct ReadThrough {
    cache: Cache<u64, u64>,
}

impl ReadThrough {
    /// An empty cache of at most so many keys.
    ///
    /// # Errors
    /// `OutOfMemory` if memory for its tables is refused.
    pub fn new(
        alloc: Global,
        capacity: u64,
        policy: EvictionPolicy,
    ) -> Result<ReadThrough, OutOfMemory>
        ensures empty { IfOk result (λ c. IsEmpty c.cache.engine.state) }
        ensures capacity { IfOk result (λ c. c.cache.engine.state.capacity ≡ Some capacity) }
        ensures policy { IfOk result (λ c. c.cache.engine.state.settings.policy ≡ policy) }
    {
        let config = CacheConfig::default()
            .max_capacity(capacity)
            .eviction_policy(policy);
        Ok(ReadThrough {
            cache: Cache::build(config, alloc, NOW)?,
        })
    }

    /// Reads a key, and puts it in if it is missing. Whether it was there.
    ///
    /// # Errors
    /// What a read or an insert was refused for.
    pub fn read(&mut self, key: u64) -> Result<bool>
        ensures read { IfOk result (λ found. IsRead key found self.old.cache.engine self.new.cache.engine) }
        ensures within { IfOk result (λ found. found ≡ false
            → IsWithin self.new.cache.engine.state.capacity self.new.cache.engine.state.access) }
        ensures exact { IfOk result (λ found. found ≡ false → IsExact self.new.cache.engine.state) }
        ensures limits { HasSameLimits self.old.cache.engine.state self.new.cache.engine.state }
    {
        let mut clock = FixedClock(NOW);
        let is_there = self.cache.get(&key, NOW, &mut clock)?.is_some();
        if !is_there {
            self.cache.insert(key, key, NOW, &mut clock)?;
            self.cache.run_pending_tasks(NOW, &mut clock);
        }
        Ok(is_there)
    }
}
