//! How often hashes were seen lately, which decides who enters a full cache.
ghost use Rattle.std.specs.Prelude.{◌≡◌, ◌+◌, ◌-◌, ◌^◌, ◌<◌, ◌≤◌, ℕ, min, max, Option, Some, None, List, [], ◌∷◌, ◌++◌, IfOk, OnOk, OnErr, replicate, vec_capacity};
ghost use Rattle.std.specs.Int.{IsPowerOfTwo};
ghost use Rattle.moka_parts.specs.Frequency.{SketchTable, frequency, counted_once, no_counts, table_after, length_of, table_length_for, sketch_capacity_for};
ghost use Rattle.moka_sketch.specs.Words.{IsSketch};

use crate::words::{count_once, least_count};
use std::alloc::{AllocError, Global};
use std::marker::Model;

/// The length of the shortest table, in words of sixteen counters.
const SHORTEST: usize = 128;

/// The length of the longest table, in words of sixteen counters.
const LONGEST: u64 = 1 << 30;

/// A count for each hash, kept in four small counters that hashes share.
///
/// A sketch is off until `ensure_capacity` makes its table: every frequency is then 0, and increments do nothing.
/// Counts grow stale, so all of them are halved once ten increments per word have raised a counter, and then after each
/// five more per word.
///
/// moka: `common::frequency_sketch::FrequencySketch`, with factors of its own.
pub struct FrequencySketch {
    // Words of sixteen counters, and none while the sketch is off. There is always room for the shortest table.
    words: Vec<u64>,
    // How many increments raised a counter, halved when the counters are.
    size: u64,
}

// Written out so that an owner's drop is one call.
impl Drop for FrequencySketch {
    fn drop(self) {
        let FrequencySketch { words: _, size: _ } = self;
    }
}

impl Model for FrequencySketch {
    ghost use Rattle.std.specs.Prelude.{Option, vec_capacity};
    ghost use Rattle.moka_parts.specs.Frequency.{SketchTable};
    ghost use Rattle.moka_sketch.specs.Words.{table_of, IsSketch};

    ghost Value = { Option SketchTable };

    ghost view = { λ s. table_of s.words.items s.size };

    ghost invariant = { λ s. IsSketch s.words.items (vec_capacity s.words) s.size };
}

/// The length of the table, in words, for a size asked for: the least power of two that is no less than the size,
/// which counts as 128 if it is less, and as 2 ^ 30 if it is more.
pub fn table_len_for(size: u64) -> usize
    ensures value { result ≡ table_length_for size }

    // The same in words of its own.
    ensures power { IsPowerOfTwo result }
    ensures enough { min (max size 128) (2 ^ 30) ≤ result }
    ensures least { (k : ℕ) → min (max size 128) (2 ^ 30) ≤ 2 ^ k → result ≤ 2 ^ k }
    ensures within { (128 ≤ result) × (result ≤ 2 ^ 30) }
{
    size.max(SHORTEST as u64).min(LONGEST).next_power_of_two() as usize
}

/// The size of a sketch for a capacity: the capacity itself, but at least 128 and at most `u32::MAX`.
pub fn sketch_capacity(capacity: u64) -> u32
    ensures value { result ≡ sketch_capacity_for capacity }

    // No table is long enough to tell it from the capacity.
    ensures same_table { table_length_for result ≡ table_length_for capacity }
{
    capacity.max(SHORTEST as u64).min(u32::MAX as u64) as u32
}

/// Makes the words zeros of a new length, or of the shortest one if memory for them is refused.
fn zeroed(words: &mut Vec<u64>, length: usize) -> Result<(), AllocError>
    requires power { IsPowerOfTwo length }
    requires within { length ≤ 2 ^ 30 }
    requires room { 128 ≤ vec_capacity words.old }
    ensures ok { OnOk result (words.new.items ≡ replicate length 0) }
    ensures err { OnErr result (words.new.items ≡ replicate 128 0) }
    ensures refused { OnErr result (128 < length) }
    ensures sound { IsSketch words.new.items (vec_capacity words.new) 0 }
{
    words.clear();
    let made = words.resize(length, 0);
    if made.is_err() {
        let _ = words.resize(SHORTEST, 0);
    }
    made
}

impl FrequencySketch {
    /// A sketch that is off, with room for the shortest table.
    pub fn new(alloc: Global) -> Result<Self, AllocError>
        ensures { IfOk result (λ sketch. sketch ≡ None) }
    {
        Ok(FrequencySketch {
            words: Vec::with_capacity(alloc, SHORTEST)?,
            size: 0,
        })
    }

    /// Makes a fresh table for a size asked for, even if there is one already, whose counts are then lost.
    ///
    /// A table of 128 words asks for no memory. If a longer one is refused, this is said, and the length is 128:
    /// so the sketch is always on afterwards.
    pub fn ensure_capacity(&mut self, size: u64) -> Result<(), AllocError>
        ensures ok { OnOk result (self.new ≡ Some (no_counts (table_length_for size))) }
        ensures err { OnErr result (self.new ≡ Some (no_counts 128)) }
        ensures refused { OnErr result (128 < table_length_for size) }
    {
        self.size = 0;
        zeroed(&mut self.words, table_len_for(size))
    }

    /// The length of the table in words of sixteen counters, and 0 while the sketch is off.
    pub fn table_len(&self) -> usize
        ensures length { result ≡ length_of self.now }
        ensures off { result ≡ 0 → self.now ≡ None }
    {
        self.words.len()
    }

    /// How often a hash was seen, from 0 to 15, and 0 while the sketch is off.
    pub fn frequency(&self, hash: u64) -> u8
        ensures { result ≡ frequency self.now hash }
    {
        if self.words.is_empty() {
            return 0;
        }
        least_count(self.words.as_slice(), hash)
    }

    /// Counts a hash once more, if the sketch is on.
    #[inline(always)]
    pub fn increment(&mut self, hash: u64)
        ensures counted { self.new ≡ counted_once self.old hash }

        // The same for a sketch that is seen as the list of hashes that were counted since its table was fresh.
        ensures history { (n : ℕ) (hashes : List ℕ) → self.old ≡ Some (table_after n hashes)
            → self.new ≡ Some (table_after n (hashes ++ hash ∷ [])) }
    {
        if !self.words.is_empty() {
            self.size = count_once(self.words.as_mut_slice(), self.size, hash);
        }
    }
}
