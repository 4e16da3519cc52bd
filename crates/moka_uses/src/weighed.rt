//! A cache bounded by the bytes of its texts.
ghost use Rattle.std.specs.Prelude.{◌≡◌, ◌+◌, ◌≤◌, IfOk};
ghost use Rattle.std.specs.String.{string_len};
ghost use Rattle.moka_uses.specs.Weighed.{IsWeightKept};

use anyhow::Result;
use moka_engine::{
    CacheConfig, Engine, EvictionPolicy, FixedClock, Instant, NoExpiry, NoListener, NoPredicate,
    Weigher,
};
use std::alloc::Global;

/// Weighs a text by its bytes.
#[derive(Clone, Copy)]
pub struct ByLength;

impl<K> Weigher<K, String> for ByLength {
    ghost use Rattle.std.specs.Prelude.{◌≡◌, min};
    ghost use Rattle.std.specs.String.{string_len};
    ghost use Rattle.std.proofs.Common.{sym, ◌∙◌};

    ghost weighs = { λ _ _ text weight. weight ≡ min (string_len text) 4294967295 };

    fn weigh(&self, _: &K, text: &String) -> u32 {
        u32::try_from(text.len()).unwrap_or(u32::MAX)
    }

    ghost one_weight = { λ _ _ _ _ _ first second. first ∙ sym second };
}

/// A cache of texts by number.
pub type Texts = Engine<u64, String, NoExpiry, NoListener, NoPredicate, ByLength>;

/// Puts two texts into a cache of at most 1,000 bytes, and tells how many bytes it keeps: those of both, if there is
/// room for both.
pub fn keep_two(alloc: Global, one: String, other: String) -> Result<u64>
    ensures within { IfOk result (λ kept. kept ≤ 1_000) }
    ensures made { IfOk result (IsWeightKept one other) }
    ensures both { string_len one + string_len other ≤ 1_000
        → IfOk result (λ kept. kept ≡ string_len one + string_len other) }
{
    let now = Instant(0);
    let policy = EvictionPolicy::lru();
    let config = CacheConfig::default()
        .max_capacity(1_000)
        .eviction_policy(policy)
        .weigher(ByLength);
    let mut cache: Texts = config.build(alloc, now)?;
    let (one_hash, other_hash) = (cache.hash(&1), cache.hash(&2));
    let (first, _) = cache.do_insert_with_hash(1, one_hash, one, now)?;
    cache.send(first)?;
    let (second, _) = cache.do_insert_with_hash(2, other_hash, other, now)?;
    cache.send(second)?;
    cache.run_pending_tasks(now, &mut FixedClock(now), None, 1, 384);
    Ok(cache.weighted_size())
}
