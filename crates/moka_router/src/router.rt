//! Which segment a key belongs to. moka: `sync::segment`, `select`.
ghost use Rattle.std.specs.Prelude.{◌≡◌, ◌<◌, length, max};
ghost use Rattle.std.specs.Borrow.{sem};
ghost use Rattle.moka_router.specs.Lending.{IsAt, LendsAt};
ghost use Rattle.moka_router.specs.Routing.{segment_of, share};
ghost use Rattle.moka_records.specs.Hashing.{key_hash};

use std::hash::{BuildHasher, Hash};
use std::marker::Model;

/// Names the segment of each key by the upper half of the key's hash; the number of segments never changes. A segment's
/// own index goes by a product of the whole hash, so the segment's keys still spread over it.
pub struct Router<S> {
    hasher: S,
    count: u32,
}

impl<S> Model for Router<S> {
    ghost use Rattle.std.specs.Prelude.{◌<◌, ◌^◌};
    ghost use Rattle.moka_router.specs.Routing.{Routing};

    ghost Value = { Routing S };

    ghost view = { λ r. record { hasher = r.hasher; count = r.count } };

    ghost invariant = { λ r. (0 < r.count) × (r.count < 2 ^ 32) };
}

impl<S: Drop> Drop for Router<S> {
    fn drop(self) {
        let Router {
            hasher: _,
            count: _,
        } = self;
    }
}

impl<S> Router<S> {
    /// A router for `count` segments, or for one if `count` is 0.
    pub fn new(hasher: S, count: u32) -> Self
        ensures { result ≡ record { hasher = hasher; count = max count 1 } }
    {
        let count = count.max(1);
        Router { hasher, count }
    }

    /// The number of segments.
    pub fn count(&self) -> u32
        ensures same { result ≡ self.now.count }
        ensures some { 0 < result }
    {
        self.count
    }

    /// The hasher of the keys.
    pub fn hasher(&self) -> &S
        ensures { result.now ≡ self.now.hasher }
    {
        &self.hasher
    }

    /// The share of `capacity` of the segment at `index`. The shares of all segments sum to `capacity`
    /// (`moka_segments::laws::shares_sum`).
    #[tactic(auto, unfolding(crate::specs::Routing::share))]
    pub fn share(&self, capacity: u64, index: u32) -> u64
        ensures { result ≡ share self.now.count capacity index }
    {
        let count = u64::from(self.count);
        let has_more = u64::from(index) < capacity % count;
        capacity / count + u64::from(has_more)
    }

    /// The index of the segment of a key whose hash, by this router's hasher, is `hash`.
    pub fn segment_of_hash(&self, hash: u64) -> usize
        ensures place { result ≡ segment_of self.now.count hash }
        ensures within { result < self.now.count }
    {
        place(hash, self.count)
    }
}

impl<S: BuildHasher> Router<S> {
    /// The index of the segment of a key.
    pub fn segment_of<K: Hash>(&self, key: &K) -> usize
        ensures place { result ≡ segment_of self.now.count
            (key_hash S.BuildHasher S.Hasher.Hasher self.now.hasher (K.hash_input key.now)) }
        ensures within { result < self.now.count }
    {
        self.segment_of_hash(self.hasher.hash_one(key))
    }
}

/// The segment that a key belongs to by the router, borrowed mutably. moka: `select`.
pub fn select_mut<'a, T, S: BuildHasher, K: Hash>(
    segments: &'a mut Vec<T>,
    router: &Router<S>,
    key: &K,
) -> &'a mut T
    requires as_many { length segments.old.items ≡ router.now.count }
    ensures* lends { sem 𝓛 (LendsAt T.row segments.entry (segment_of router.now.count
        (key_hash S.BuildHasher S.Hasher.Hasher router.now.hasher (K.hash_input key.now))) result) }
    ensures is { IsAt segments.old.items (segment_of router.now.count
        (key_hash S.BuildHasher S.Hasher.Hasher router.now.hasher (K.hash_input key.now))) result.now }
{
    let index = router.segment_of(key);
    &mut segments[index]
}

// The segment of a hash, of this many.
#[tactic(auto, unfolding(crate::specs::Routing::segment_of))]
fn place(hash: u64, count: u32) -> usize
    requires { 0 < count }
    ensures place { result ≡ segment_of count hash }
    ensures within { result < count }
{
    (((hash >> 32) * u64::from(count)) >> 32) as usize
}
