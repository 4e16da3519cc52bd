//! Caches of texts by texts. A look-up hands out a clone, which has the bytes of the text that was put.
ghost use Rattle.std.specs.Prelude.{◌≡◌, false, Some, None, IfOk, IfSome, option_map};
ghost use Rattle.std.specs.String.{string_bytes};
ghost use Rattle.std.specs.Vec.Iter.{into_iter_items};
ghost use Rattle.moka_cache.specs.Visible.{ListsVisible};

use anyhow::Result;
use moka_cache::Cache;
use moka_engine::{CacheConfig, Engine, Entry, EvictionPolicy, FixedClock, Instant, OutOfMemory};
use std::alloc::Global;
use std::vec::IntoIter;

/// Puts a text into a cache of at most 10,000 entries, and gets a clone of it.
pub fn put_and_get(
    alloc: Global,
    key: String,
    text: String,
) -> Result<Option<Entry<String, String>>>
    ensures text { IfOk result
        (λ found. option_map (λ entry. string_bytes entry.value) found ≡ Some (string_bytes text)) }
    ensures no_key { IfOk result (λ found. IfSome found (λ entry. entry.key ≡ None)) }
{
    let now = Instant(0);
    let policy = EvictionPolicy::lru();
    let config = CacheConfig::default()
        .max_capacity(10_000)
        .eviction_policy(policy);
    let mut cache: Engine<String, String> = config.build(alloc, now)?;
    let hash = cache.hash(&key);
    let asked = key.clone()?;
    let (ticket, _) = cache.do_insert_with_hash(key, hash, text, now)?;
    cache.send(ticket)?;
    let found = cache.get_with_hash(&asked, hash, false, now, &mut FixedClock(now))?;
    Ok(found)
}

/// The entries that are visible at a moment: exactly these, each once, with the bytes of its key and of its value.
///
/// # Errors
/// `OutOfMemory`
pub fn list(
    cache: &Cache<String, String>,
    now: Instant,
) -> Result<IntoIter<(String, String)>, OutOfMemory>
    ensures { IfOk result (λ found. ListsVisible (λ _ _ _ answer. answer ≡ false)
        (λ s t. string_bytes t ≡ string_bytes s) cache.now.engine.state now.0
        (λ s t. string_bytes t ≡ string_bytes s) (into_iter_items found)) }
{
    cache.iter(now)
}
