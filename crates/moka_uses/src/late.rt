//! A cache whose operations are sent late, and not in the order in which they were handed out.
ghost use Rattle.std.specs.Prelude.{◌≡◌, ◌==◌, IfOk};
ghost use Rattle.moka_engine.specs.Config.{default_config};
ghost use Rattle.moka_engine.specs.Exact.{IsExact};
ghost use Rattle.moka_uses.specs.Late.{SendsSecondFirst};
ghost use Rattle.moka_uses.specs.Made.{engine_meaning};

use anyhow::Result;
use moka_engine::{CacheConfig, Engine, FixedClock, Instant};
use std::alloc::Global;

/// Inserts two entries, sends the second one's operation before the first one's, and makes a run. The count and the
/// weight that the cache reports are exactly its records', of which there are two.
pub fn send_in_other_order(alloc: Global) -> Result<Engine<u64, u64>>
    ensures exact { IfOk result (λ cache. IsExact cache.state) }
    ensures made { IfOk result
        (SendsSecondFirst (engine_meaning (λ a b. a == b)) default_config (record { 0 = 0 }) (1, 10) (2, 20)) }
    ensures both { IfOk result (λ cache. (cache.state.count ≡ 2) × (cache.state.weight ≡ 2)) }
{
    let now = Instant(0);
    let mut cache: Engine<u64, u64> = CacheConfig::default().build(alloc, now)?;
    let (one, other) = (cache.hash(&1), cache.hash(&2));
    let (first, _) = cache.do_insert_with_hash(1, one, 10, now)?;
    let (second, _) = cache.do_insert_with_hash(2, other, 20, now)?;
    cache.send(second)?;
    cache.send(first)?;
    cache.run_pending_tasks(now, &mut FixedClock(now), None, 1, 384);
    Ok(cache)
}
