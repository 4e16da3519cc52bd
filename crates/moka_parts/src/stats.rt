//! What a cache counts of its look-ups.
ghost use Rattle.std.specs.Prelude.{◌≡◌, Option, Result};
ghost use Rattle.moka_parts.specs.Counters.{after_look_up, no_stats};

use crate::error::OutOfMemory;

/// How often a cache was asked for a value since it was made. Each counter saturates. A look-up for which memory was
/// refused is neither a hit nor a miss.
#[derive(Clone, Copy, Debug, PartialEq, Eq)]
pub struct Stats {
    /// Look-ups that found a value.
    pub hits: u64,
    /// Look-ups that found none.
    pub misses: u64,
    /// Calls of a maker: of the `init` of `get_with`, `or_insert_with` and their kin.
    pub loads: u64,
}

impl Stats {
    /// Counters that are all 0.
    pub fn new() -> Self
        ensures { result ≡ no_stats }
    {
        Stats {
            hits: 0,
            misses: 0,
            loads: 0,
        }
    }

    /// Counts a look-up.
    #[inline(always)]
    pub fn count_look_up<V>(&mut self, found: &Result<Option<V>, OutOfMemory>)
        ensures { self.new ≡ after_look_up found.now self.old }
    {
        match found {
            Ok(Some(_)) => self.hits = self.hits.saturating_add(1),
            Ok(None) => self.misses = self.misses.saturating_add(1),
            Err(_) => {}
        }
    }
}
