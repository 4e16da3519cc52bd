//! The engine with numbers by numbers.
use super::Subject;
use crate::engines::Driven;
use crate::given::Notices;
use moka_parts::closures::Weigher;
use moka_parts::error::OutOfMemory;
use moka_parts::housekeeper::FixedClock;
use moka_parts::notification::Listener;
use moka_parts::policy::{Expiry, Instant};
use std::hash::BuildHasher;

impl<
    S: BuildHasher,
    X: Expiry<u64, u64>,
    L: Listener<u64, u64> + Notices,
    W: Weigher<u64, u64>,
> Subject for Driven<u64, u64, S, X, L, W> {
    #[inline(always)]
    fn get(&mut self, key: u64, now: Instant) -> Result<Option<u64>, OutOfMemory> {
        let hash = self.engine.hash(&key);
        let found = self
            .engine
            .get_with_own_hash(&key, hash, false, now, &mut FixedClock(now))?;
        match found {
            Some(entry) => Ok(Some(*entry.value())),
            None => Ok(None),
        }
    }

    fn put(
        &mut self,
        key: u64,
        value: u64,
        now: Instant,
        may_run: bool,
    ) -> Result<bool, OutOfMemory> {
        self.put_and_send(key, value, now, may_run)
    }

    fn run(&mut self, now: Instant, batch: u32) {
        self.maintain(now, batch);
    }

    fn entry_count(&self) -> u64 {
        self.engine.entry_count()
    }

    fn notices(&self) -> u64 {
        match self.engine.listener() {
            Some(listener) => listener.notices(),
            None => 0,
        }
    }
}
