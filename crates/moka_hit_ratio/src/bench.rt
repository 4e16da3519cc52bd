//! The caches that a trace is played through, and what comes of it.
ghost use Rattle.std.specs.Prelude.{◌≡◌, ◌+◌, ◌-◌, ◌^◌, [], length, map, nat_le, vec_len, Some, None, IfOk, min};
ghost use Rattle.std.specs.List.{AllZip};
ghost use Rattle.moka_cache.specs.Limits.{HasSameLimits};
ghost use Rattle.moka_engine.specs.parts.EvictionPolicy.TheVariants.{Lru, TinyLfu};
ghost use Rattle.moka_engine.specs.Runs.{IsEmpty};
ghost use Rattle.moka_hit_ratio.specs.Through.{AreRead};

use crate::fifo::Fifo;
use crate::optimum;
use crate::read_through::ReadThrough;
use crate::row::Row;
use crate::tally::Tally;
use anyhow::Result;
use moka_engine::{EvictionPolicy, OutOfMemory};
use std::alloc::Global;

/// The caches of a capacity.
struct Caches {
    tiny_lfu: ReadThrough,
    lru: ReadThrough,
    fifo: Fifo,
    row: Row,
}

// Written out so that an owner's drop is one call.
impl Drop for Caches {
    fn drop(self) {
        let Caches {
            tiny_lfu: _,
            lru: _,
            fifo: _,
            row: _,
        } = self;
    }
}

impl Caches {
    /// Empty caches.
    fn new(alloc: Global, capacity: u64) -> Result<Self, OutOfMemory>
        ensures tiny_lfu { IfOk result (λ c. (c.tiny_lfu.cache.engine.state.capacity ≡ Some capacity)
            × (c.tiny_lfu.cache.engine.state.settings.policy ≡ TinyLfu)) }
        ensures lru { IfOk result (λ c. (c.lru.cache.engine.state.capacity ≡ Some capacity)
            × (c.lru.cache.engine.state.settings.policy ≡ Lru)) }
        ensures fifo { IfOk result (λ c. c.fifo.capacity ≡ capacity) }
        ensures empty { IfOk result (λ c. IsEmpty c.tiny_lfu.cache.engine.state × IsEmpty c.lru.cache.engine.state
            × (c.fifo.queue.items ≡ [])) }
        ensures row { IfOk result (λ c. (c.row.capacity ≡ capacity) × (c.row.optimum ≡ None)
            × (c.row.tiny_lfu.reads ≡ 0) × (c.row.lru.reads ≡ 0) × (c.row.fifo.reads ≡ 0)) }
    {
        let none = Tally::new();
        Ok(Caches {
            tiny_lfu: ReadThrough::new(alloc, capacity, EvictionPolicy::tiny_lfu())?,
            lru: ReadThrough::new(alloc, capacity, EvictionPolicy::lru())?,
            fifo: Fifo::new(alloc, capacity),
            row: Row {
                capacity,
                optimum: None,
                tiny_lfu: none,
                lru: none,
                fifo: none,
            },
        })
    }

    /// Empty caches of each of these capacities.
    fn of_each(alloc: Global, capacities: &[u64]) -> Result<Vec<Self>>
        ensures length { IfOk result (λ all. vec_len all ≡ length capacities.now) }
        ensures capacities { IfOk result (λ all. map (λ c. c.row.capacity) all.items ≡ capacities.now) }
    {
        let mut all = Vec::new(alloc);
        for capacity in capacities {
            all.push(Caches::new(alloc, *capacity)?)?;
        }
        Ok(all)
    }

    /// Reads a key through each, and counts what each has found, if that is asked for.
    fn read(&mut self, key: u64, is_counted: bool) -> Result<()>
        ensures read { IfOk result (λ _. AreRead key is_counted self.old self.new) }
        ensures limits { HasSameLimits self.old.tiny_lfu.cache.engine.state self.new.tiny_lfu.cache.engine.state
            × HasSameLimits self.old.lru.cache.engine.state self.new.lru.cache.engine.state
            × (self.new.fifo.capacity ≡ self.old.fifo.capacity) }
        ensures row { (self.new.row.capacity ≡ self.old.row.capacity) × (self.new.row.optimum ≡ self.old.row.optimum) }
    {
        let tiny_lfu = self.tiny_lfu.read(key)?;
        let lru = self.lru.read(key)?;
        let fifo = self.fifo.read(key)?;
        if is_counted {
            self.row.tiny_lfu.count(tiny_lfu);
            self.row.lru.count(lru);
            self.row.fifo.count(fifo);
        }
        Ok(())
    }
}

/// The caches of all capacities.
pub struct Bench {
    alloc: Global,
    caches: Vec<Caches>,
    /// All keys read, if the optimum is asked for.
    keys: Option<Vec<u64>>,
    warm: u64,
    reads: u64,
}

// Written out so that an owner's drop is one call.
impl Drop for Bench {
    fn drop(self) {
        let Bench {
            alloc: _,
            caches: _,
            keys: _,
            warm: _,
            reads: _,
        } = self;
    }
}

impl Bench {
    /// Empty caches of these capacities. The first accesses, so many as `warm` says, fill them and are not counted.
    /// The optimum keeps all keys in memory; without it memory is bounded by the capacities.
    ///
    /// # Errors
    /// What memory was refused for.
    pub fn new(alloc: Global, capacities: &[u64], warm: u64, has_optimum: bool) -> Result<Self>
        ensures caches { IfOk result (λ bench. vec_len bench.caches ≡ length capacities.now) }
        ensures capacities { IfOk result (λ bench. map (λ c. c.row.capacity) bench.caches.items ≡ capacities.now) }
        ensures begun { IfOk result (λ bench. (bench.warm ≡ warm) × (bench.reads ≡ 0)) }
    {
        let caches = Caches::of_each(alloc, capacities)?;
        let keys = if has_optimum {
            Some(Vec::new(alloc))
        } else {
            None
        };
        Ok(Bench {
            alloc,
            caches,
            keys,
            warm,
            reads: 0,
        })
    }

    /// How many keys were read.
    pub fn reads(&self) -> u64
        ensures { result ≡ self.now.reads }
    {
        self.reads
    }

    /// Reads a key through each cache.
    ///
    /// # Errors
    /// What a cache refused.
    pub fn read(&mut self, key: u64) -> Result<()>
        ensures caches { vec_len self.new.caches ≡ vec_len self.old.caches }
        ensures capacities { IfOk result (λ _. map (λ c. c.row.capacity) self.new.caches.items
            ≡ map (λ c. c.row.capacity) self.old.caches.items) }
        ensures read { IfOk result (λ _. AllZip (AreRead key (nat_le self.old.warm self.old.reads))
            self.old.caches.items self.new.caches.items) }
        ensures warm { self.new.warm ≡ self.old.warm }
        ensures reads { IfOk result (λ _. self.new.reads ≡ min (self.old.reads + 1) (2 ^ 64 - 1)) }
    {
        if let Some(keys) = &mut self.keys {
            keys.push(key)?;
        }
        let is_counted = self.reads >= self.warm;
        self.reads = self.reads.saturating_add(1);
        for caches in self.caches.iter_mut() {
            caches.read(key, is_counted)?;
        }
        Ok(())
    }

    /// What the caches found, and what the optimum finds, in the order of the capacities.
    ///
    /// # Errors
    /// What memory was refused for.
    pub fn rows(&self) -> Result<Vec<Row>>
        ensures rows { IfOk result (λ rows. vec_len rows ≡ vec_len self.now.caches) }
        ensures capacities { IfOk result (λ rows. map (λ row. row.capacity) rows.items
            ≡ map (λ c. c.row.capacity) self.now.caches.items) }
    {
        let nexts = match &self.keys {
            Some(keys) => Some(optimum::next_reads(self.alloc, keys)?),
            None => None,
        };
        let mut rows = Vec::new(self.alloc);
        for caches in &self.caches {
            let mut row = caches.row;
            if let Some(nexts) = &nexts {
                row.optimum = Some(optimum::count(self.alloc, nexts, self.warm, row.capacity)?);
            }
            rows.push(row)?;
        }
        Ok(rows)
    }
}
