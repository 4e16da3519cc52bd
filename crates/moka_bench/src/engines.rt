//! How an engine is made, and how something is put into it.
ghost use Rattle.std.specs.Prelude.{◌≡◌, IfOk};
ghost use Rattle.std.specs.FinMap as finite;
ghost use Rattle.moka_bench.specs.Engines.{made_with};

use moka_engine::{BaseCache, CacheConfig};
use moka_parts::calls::Ticket;
use moka_parts::closures::{NoPredicate, Weigher};
use moka_parts::error::{OutOfMemory, SendError};
use moka_parts::housekeeper::{EVICTION_BATCH_SIZE, FixedClock, MAX_LOG_SYNC_REPEATS};
use moka_parts::notification::Listener;
use moka_parts::policy::{Expiry, Instant};
use std::alloc::Global;
use std::hash::{BuildHasher, Hash};

/// An engine without predicates.
pub type Engine<K, V, S, X, L, W> = BaseCache<K, V, S, X, L, NoPredicate, W>;

/// An empty engine at the moment 0, which starts runs by itself if `is_automatic`.
pub fn engine_of<
    K: Eq + Hash + Drop,
    V: Drop,
    S: BuildHasher + Drop,
    X: Expiry<K, V> + Drop,
    L: Listener<K, V> + Drop,
    W: Weigher<K, V> + Drop,
>(
    alloc: Global,
    hasher: S,
    given: CacheConfig<X, L, NoPredicate, W>,
    is_automatic: bool,
) -> Result<Engine<K, V, S, X, L, W>, OutOfMemory>
    ensures made { IfOk result (λ engine. engine.state ≡ made_with given hasher is_automatic) }
    ensures unsent { IfOk result (λ engine. engine.state.outstanding ≡ finite.empty) }
{
    let mut engine = given.build_with_hasher(alloc, hasher, Instant(0))?;
    if !is_automatic {
        engine.disable_auto_run();
    }
    Ok(engine)
}

/// An engine with how it is driven: operations are sent as they are handed out.
#[derive(Drop)]
pub struct Driven<
    K: Eq + Hash,
    V,
    S: BuildHasher,
    X: Expiry<K, V>,
    L: Listener<K, V>,
    W: Weigher<K, V>,
> {
    pub engine: Engine<K, V, S, X, L, W>,
}

impl<
    K: Eq + Hash + Clone + Drop,
    V: Drop,
    S: BuildHasher,
    X: Expiry<K, V>,
    L: Listener<K, V>,
    W: Weigher<K, V>,
> Driven<K, V, S, X, L, W> {
    /// As `engine_of`.
    pub fn new(
        alloc: Global,
        hasher: S,
        given: CacheConfig<X, L, NoPredicate, W>,
        is_automatic: bool,
    ) -> Result<Self, OutOfMemory>
    where
        S: Drop,
        X: Drop,
        L: Drop,
        W: Drop,
        ensures { IfOk result (λ driven. driven.engine.state ≡ made_with given hasher is_automatic) }
    {
        let engine = engine_of(alloc, hasher, given, is_automatic)?;
        Ok(Driven { engine })
    }

    /// Puts a value under a key and sends the operation, if `may_run` after the run that is due. Whether the engine
    /// keeps anything.
    #[inline(always)]
    pub fn put_and_send(
        &mut self,
        key: K,
        value: V,
        now: Instant,
        may_run: bool,
    ) -> Result<bool, OutOfMemory> {
        let Some(ticket) = self.hand_out(key, value, now)? else {
            return Ok(false);
        };
        if may_run {
            self.engine
                .apply_reads_writes_if_needed(now, &mut FixedClock(now));
        }
        match self.send(ticket, now) {
            Ok(()) => Ok(true),
            Err(_) => Err(OutOfMemory),
        }
    }

    // Puts a value under a key, if the engine keeps anything. The ticket of the operation.
    #[inline(always)]
    fn hand_out(&mut self, key: K, value: V, now: Instant) -> Result<Option<Ticket>, OutOfMemory> {
        if self.engine.is_map_disabled() {
            return Ok(None);
        }
        let hash = self.engine.hash(&key);
        match self.engine.do_insert_with_own_hash(key, hash, value, now) {
            Ok((ticket, _)) => Ok(Some(ticket)),
            Err(_) => Err(OutOfMemory),
        }
    }

    // Sends an operation; if the queue is full, after a run.
    fn send(&mut self, ticket: Ticket, now: Instant) -> Result<(), SendError> {
        match self.engine.send(ticket) {
            Err(SendError::QueueFull) => {
                self.maintain(now, EVICTION_BATCH_SIZE);
                self.engine.send(ticket)
            }
            sent => sent,
        }
    }

    /// Makes a run of maintenance.
    pub fn maintain(&mut self, now: Instant, batch: u32) {
        let _left = self.engine.run_pending_tasks(
            now,
            &mut FixedClock(now),
            None,
            MAX_LOG_SYNC_REPEATS,
            batch,
        );
    }
}
