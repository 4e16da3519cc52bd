//! A cache that evicts what came first.
ghost use Rattle.std.specs.Prelude.{◌≡◌, ◌==◌, ℕ, true, [], IfOk, OnErr};
ghost use Rattle.std.specs.HashSet.{contains};
ghost use Rattle.moka_hit_ratio.specs.Fifo.{is_kept, are_distinct, after_read};

use std::alloc::{AllocError, Global};
use std::collections::{HashSet, VecDeque};

/// At most so many keys, of which the one that came first is evicted first.
#[derive(Drop)]
pub struct Fifo {
    capacity: u64,
    kept: HashSet<u64>,
    // The same keys, in the order in which they came.
    queue: VecDeque<u64>,
    ghost tied: { (key : ℕ) → contains (◌==◌) kept key ≡ is_kept key queue.items },
    ghost once: { are_distinct queue.items ≡ true },
}

impl Fifo {
    /// An empty cache of at most so many keys.
    pub fn new(alloc: Global, capacity: u64) -> Self
        ensures empty { result.queue.items ≡ [] }
        ensures capacity { result.capacity ≡ capacity }
    {
        Fifo {
            capacity,
            kept: HashSet::new(alloc),
            queue: VecDeque::new(alloc),
        }
    }

    /// Reads a key, and puts it in if it is missing. Whether it was there.
    ///
    /// # Errors
    /// `AllocError` if memory for the key is refused. Then the same keys are there.
    pub fn read(&mut self, key: u64) -> Result<bool, AllocError>
        ensures found { IfOk result (λ found. found ≡ is_kept key self.old.queue.items) }
        ensures kept { IfOk result (λ _. self.new.queue.items
            ≡ after_read self.old.capacity key self.old.queue.items) }
        ensures refused { OnErr result (self.new.queue.items ≡ self.old.queue.items) }
        ensures capacity { self.new.capacity ≡ self.old.capacity }
    {
        if self.kept.contains(&key) {
            return Ok(true);
        }
        if self.capacity == 0 {
            return Ok(false);
        }
        self.kept.insert(key)?;
        if self.queue.push_back(key).is_err() {
            self.kept.remove(&key);
            return Err(AllocError);
        }
        if self.queue.len() as u64 > self.capacity {
            if let Some(oldest) = self.queue.pop_front() {
                self.kept.remove(&oldest);
            }
        }
        Ok(false)
    }
}
