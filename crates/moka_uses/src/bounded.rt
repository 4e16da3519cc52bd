//! A bounded cache, by the engine and its tickets.
ghost use Rattle.std.specs.Prelude.{◌≡◌, Some, None, IfOk};

use anyhow::Result;
use moka_engine::{CacheConfig, Engine, Entry, EvictionPolicy, FixedClock, Instant};
use std::alloc::Global;

/// Puts a value into a cache of at most 10,000 entries, and gets it back.
pub fn put_and_get(alloc: Global, key: u64, value: u64) -> Result<Option<Entry<u64, u64>>>
    ensures { IfOk result (λ found. found ≡ Some (record { key = None; value = value })) }
{
    let now = Instant(0);
    let policy = EvictionPolicy::lru();
    let config = CacheConfig::default()
        .max_capacity(10_000)
        .eviction_policy(policy);
    let mut cache: Engine<u64, u64> = config.build(alloc, now)?;
    let hash = cache.hash(&key);
    let (ticket, _) = cache.do_insert_with_hash(key, hash, value, now)?;
    cache.send(ticket)?;
    let found = cache.get_with_hash(&key, hash, false, now, &mut FixedClock(now))?;
    cache.run_pending_tasks(now, &mut FixedClock(now), None, 1, 384);
    Ok(found)
}
