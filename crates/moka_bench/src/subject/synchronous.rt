//! The synchronous cache, which sends by itself, and whose runs have a batch of their own.
ghost use Rattle.std.specs.Prelude.{◌≡◌, IfOk};
ghost use Rattle.moka_bench.specs.Engines.{made_with, plain_config};

use super::Subject;
use crate::config::Config;
use crate::engines::engine_of;
use moka_cache::Cache;
use moka_parts::closures::{NoPredicate, NoWeigher};
use moka_parts::error::OutOfMemory;
use moka_parts::housekeeper::FixedClock;
use moka_parts::notification::NoListener;
use moka_parts::policy::{Instant, NoExpiry};
use std::alloc::Global;
use std::hash::BuildHasher;

/// The synchronous cache of numbers by numbers.
#[derive(Drop)]
pub struct Synchronous<S: BuildHasher> {
    cache: Cache<u64, u64, NoExpiry, NoListener, NoPredicate, NoWeigher, S>,
}

impl<S: BuildHasher> Synchronous<S> {
    /// An empty cache at the moment 0.
    pub fn new(alloc: Global, hasher: S, config: Config) -> Result<Self, OutOfMemory>
    where
        S: Drop,
        ensures { IfOk result (λ s. s.cache.engine.state
            ≡ made_with {L = Unit {0}} (plain_config config) hasher config.is_automatic) }
    {
        let engine = engine_of(alloc, hasher, config.plain(), config.is_automatic)?;
        Ok(Synchronous {
            cache: Cache::new(engine),
        })
    }
}

impl<S: BuildHasher> Subject for Synchronous<S> {
    #[inline(always)]
    fn get(&mut self, key: u64, now: Instant) -> Result<Option<u64>, OutOfMemory> {
        self.cache.get(&key, now, &mut FixedClock(now))
    }

    fn put(&mut self, key: u64, value: u64, now: Instant, _: bool) -> Result<bool, OutOfMemory> {
        if self.cache.engine().is_map_disabled() {
            return Ok(false);
        }
        match self.cache.insert(key, value, now, &mut FixedClock(now)) {
            Ok(()) => Ok(true),
            Err(_) => Err(OutOfMemory),
        }
    }

    fn run(&mut self, now: Instant, _: u32) {
        let _left = self.cache.run_pending_tasks(now, &mut FixedClock(now));
    }

    fn entry_count(&self) -> u64 {
        self.cache.entry_count()
    }

    fn notices(&self) -> u64 {
        0
    }
}
