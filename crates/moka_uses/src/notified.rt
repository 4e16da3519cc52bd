//! A cache with a listener that counts what leaves.
ghost use Rattle.std.specs.Prelude.{◌≡◌, ◌==◌, Some, IfOk};
ghost use Rattle.std.specs.FinMap.{empty};
ghost use Rattle.moka_cache.specs.Unsent.{IsThere};
ghost use Rattle.moka_uses.specs.Notified.{PutsInTurn};

use anyhow::Result;
use moka_engine::{CacheConfig, Engine, Instant, Listener, NoExpiry, RemovalCause};
use std::alloc::Global;

/// Counts the values that leave.
#[derive(Clone, Copy, Debug, PartialEq)]
pub struct Counter {
    pub count: u64,
}

impl<K: Drop, V: Drop> Listener<K, V> for Counter {
    ghost use Rattle.std.specs.Prelude.{◌≡◌, ◌+◌, min};
    ghost use Rattle.moka_engine.specs.Time.{greatest};

    ghost tells = { λ before _ _ _ after. after ≡ record { count = min (before.count + 1) greatest } };

    fn notify(&mut self, _: K, _: V, _: RemovalCause) {
        self.count = self.count.saturating_add(1);
    }
}

/// Puts two values under one key, of which the first leaves: the listener has counted one, and the second is there.
/// Both operations were sent.
pub fn replace(
    alloc: Global,
    key: u64,
    first: u64,
    second: u64,
) -> Result<Engine<u64, u64, NoExpiry, Counter>>
    ensures notified { IfOk result (λ cache. cache.listener ≡ Some (record { count = 1 })) }
    ensures sent { IfOk result (λ cache. cache.state.outstanding ≡ empty) }
    ensures replaced { IfOk result (λ cache. IsThere (λ a b. a == b) cache.state key second (record { 0 = 0 })) }
    ensures made { IfOk result (PutsInTurn (record { 0 = 0 }) key first second) }
{
    let now = Instant(0);
    let config = CacheConfig::default().eviction_listener(Counter { count: 0 });
    let mut cache: Engine<u64, u64, NoExpiry, Counter> = config.build(alloc, now)?;
    let hash = cache.hash(&key);
    let (put, _) = cache.do_insert_with_hash(key, hash, first, now)?;
    cache.send(put)?;
    cache.invariant_holds();
    let (replaced, _) = cache.do_insert_with_hash(key, hash, second, now)?;
    cache.send(replaced)?;
    cache.invariant_holds();
    Ok(cache)
}
