//! The hash under which a store has a key.
ghost use Rattle.std.specs.Prelude.{◌≡◌};
ghost use Rattle.moka_store.specs.Hashing.{index_hash};

// An odd number whose bits are as those of a random one: 2^64 over the golden ratio.
const SPREAD: u64 = 0x9E37_79B9_7F4A_7C15;

/// The hash under which a store has a key, or would have it: 32 bits of the hash that its hasher makes of the key.
#[derive(Clone, Copy)]
pub struct IndexHash(pub(crate) u32);

impl IndexHash {
    /// What a store keeps of the hash that its hasher makes of a key. Hashes that differ in their lower bits alone come
    /// apart too, with few exceptions.
    #[inline(always)]
    pub fn of(hash: u64) -> Self
        ensures { result.0 ≡ index_hash hash }
    {
        IndexHash((hash.wrapping_mul(SPREAD) >> 32) as u32)
    }
}
