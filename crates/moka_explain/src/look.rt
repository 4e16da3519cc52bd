//! What is known of keys at a moment.
ghost use Rattle.std.specs.Prelude.{◌≡◌, map, IfOk};
ghost use Rattle.std.specs.List.{AllByRecursion};
ghost use Rattle.moka_explain.specs.Looks.{IsLook};

use moka_engine::base_cache::Sight;
use moka_parts::error::OutOfMemory;
use moka_parts::policy::Instant;
use moka_play::play::ScriptCache;
use std::alloc::Global;

/// What is known of a key at a moment.
#[derive(Clone, Copy)]
pub struct Look {
    pub key: u32,
    /// What a look-up meets.
    pub sight: Sight,
    /// Whether the key's last write was applied, if it has a record.
    pub applied: Option<bool>,
    /// How much it weighs, if it has one.
    pub weight: Option<u32>,
}

/// What is known of one key.
pub fn look_at(cache: &ScriptCache, key: u32, now: Instant) -> Look
    ensures key { result.key ≡ key }
    ensures look { IsLook cache.now.state now.0 result }
{
    let sight = cache.sight(&key, now);
    let applied = cache.is_applied(&key);
    let weight = cache.weight(&key);
    Look {
        key,
        sight,
        applied,
        weight,
    }
}

/// What is known of each of these keys, in their order.
///
/// # Errors
/// `OutOfMemory` if memory for the list is refused.
pub fn look_at_all(
    alloc: Global,
    cache: &ScriptCache,
    keys: &[u32],
    now: Instant,
) -> Result<Vec<Look>, OutOfMemory>
    ensures { IfOk result (λ looks.
        (map (λ l. l.key) looks.items ≡ keys.now) × AllByRecursion (IsLook cache.now.state now.0) looks.items) }
{
    let looks = keys
        .iter()
        .map(|key| look_at(cache, *key, now))
        .collect(alloc)?;
    Ok(looks)
}
