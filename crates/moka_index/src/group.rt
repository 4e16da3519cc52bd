//! A few places with their hashes, in one cache line.
ghost use Rattle.std.specs.Prelude.{◌≡◌, ◌≢◌, ℕ, ◌^◌, ◌<◌, ◌≤◌, true, false, slice_index};
ghost use Rattle.std.specs.Int.{w64, trailing_zeros};
ghost use Rattle.std_collections.specs.IndexTable.Group.{IsBitSet};
ghost use Rattle.moka_index.specs.Group.{home, lane_hash, with_entry, without_lane};

use std::simd::prelude::*;

/// How many lanes a group has.
pub(crate) const LANES: usize = 7;

/// Lanes for places, the first `count` of which are in use: 64 bytes in all.
///
/// What a search reads of each group it meets comes first, and the places last. So the first 48 bytes serve a search
/// that finds nothing, and nearly every other: a table in memory of its own begins 16 bytes past the start of a cache
/// line.
#[derive(Clone, Copy)]
pub(crate) struct Group {
    pub(crate) hashes: [u32; 7],
    /// How many groups past this one a hash may lie whose home this is.
    pub(crate) reach: u32,
    pub(crate) count: u32,
    pub(crate) places: [u32; 7],
}

/// The home of a hash, of `count` groups: the group in which its search begins.
#[inline(always)]
pub(crate) fn home(hash: u32, count: usize) -> usize
    requires { count ≤ 2 ^ 32 }
    ensures { result ≡ home count hash }
{
    (hash as usize * count) >> 32
}

/// The position of the lowest bit that is set.
#[inline(always)]
pub(crate) fn lowest_set_bit(bits: u64) -> usize
    requires { 0 < bits }
    ensures value { result ≡ trailing_zeros w64 bits }
    ensures set { IsBitSet bits result }
{
    bits.trailing_zeros() as usize
}

/// The bits without the lowest one that is set.
#[inline(always)]
pub(crate) fn without_lowest_bit(bits: u64) -> u64
    requires { 0 < bits }
    ensures less { result < bits }
    ensures only { (k : ℕ) → IsBitSet result k → IsBitSet bits k }
    ensures others { (k : ℕ) → IsBitSet bits k → k ≢ trailing_zeros w64 bits → IsBitSet result k }
{
    bits & (bits - 1)
}

impl Group {
    /// A bit for each lane that has the hash. The bits of lanes that are not in use, and the eighth bit, may be set as
    /// well.
    #[inline(always)]
    pub(crate) fn matches(&self, hash: u32) -> u64
        ensures set { (k : ℕ) → k < 7 → slice_index self.now.hashes k ≡ hash → IsBitSet result k }
        ensures only { (k : ℕ) → k < 7 → IsBitSet result k → slice_index self.now.hashes k ≡ hash }
    {
        let [a, b, c, d, e, f, g] = self.hashes;
        // The word that lies behind the hashes, so that the eight are read at once.
        let lanes = u32x8::from_array([a, b, c, d, e, f, g, self.reach]);
        lanes.simd_eq(u32x8::splat(hash)).to_bitmask()
    }

    /// Adds a place in the first free lane.
    pub(crate) fn push(&mut self, hash: u32, place: u32)
        requires { self.old.count < 7 }
        ensures { self.new ≡ with_entry self.old hash place }
    {
        let lane = self.count as usize;
        self.hashes[lane] = hash;
        self.places[lane] = place;
        self.count += 1;
    }

    /// Removes the place in a lane, into which the last one moves.
    pub(crate) fn swap_remove(&mut self, lane: usize)
        requires lane { lane < self.old.count }
        requires count { self.old.count ≤ 7 }
        ensures { self.new ≡ without_lane self.old lane }
    {
        let last = self.count as usize - 1;
        self.hashes[lane] = self.hashes[last];
        self.places[lane] = self.places[last];
        self.count -= 1;
    }

    /// Whether a hash is here whose home is the group `first`, of `count` groups.
    pub(crate) fn has_home(&self, first: usize, count: usize) -> bool
        requires lanes { self.now.count ≤ 7 }
        requires count { count ≤ 2 ^ 32 }
        ensures none { result ≡ false → (lane : ℕ) → lane < self.now.count
            → home count (lane_hash self.now lane) ≢ first }
        ensures one { result ≡ true → (lane : ℕ) × (lane < self.now.count)
            × (home count (lane_hash self.now lane) ≡ first) }
    {
        for lane in 0..self.count as usize {
            if home(self.hashes[lane], count) == first {
                return true;
            }
        }
        false
    }
}
