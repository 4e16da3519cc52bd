//! What a look-up meets, and why, for those who ask why a key is not found; and all entries that are visible. Nothing
//! here changes anything.
ghost use Rattle.std.specs.Prelude.{◌≡◌, option_map};
ghost use Rattle.moka_records.specs.Records.{is_applied, record_of_key};
ghost use Rattle.moka_lookups.specs.Sights.{IsSight};
ghost use Rattle.moka_lookups.specs.Snapshot.{scene_of};

use super::BaseCache;
use moka_lookups::sights::{Sight, lapse_of};
use moka_lookups::snapshot::Snapshot;
use moka_parts::closures::{PredicateFn, Weigher};
use moka_parts::notification::Listener;
use moka_parts::policy::{Expiry, Instant};
use std::hash::{BuildHasher, Hash};

impl<
    K: Eq + Hash,
    V,
    S: BuildHasher,
    X: Expiry<K, V>,
    L: Listener<K, V>,
    P: PredicateFn<K, V>,
    W: Weigher<K, V>,
> BaseCache<K, V, S, X, L, P, W> {
    /// What a look-up of a key meets at the moment `now`, and why. Nothing is recorded.
    pub fn sight(&self, key: &K, now: Instant) -> Sight
        ensures { IsSight P.says self.now.state now.0 (record_of_key K.eq self.now.state.records key.now) result }
    {
        let own = self.inner.index_hash(key);
        let Some((_, found)) = self.inner.store().find_by_key(key, own) else {
            return Sight::Absent;
        };
        if let Some(lapse) = lapse_of(&found, &self.expiration_policy, self.valid_after, now) {
            return lapse;
        }
        match self.invalidator.first_covering(&found) {
            Some(id) => Sight::Covered(id),
            None => Sight::Visible,
        }
    }

    /// Whether the last write of a key was applied by a run of maintenance, and `None` if the key has no record.
    pub fn is_applied(&self, key: &K) -> Option<bool>
        ensures { result ≡ option_map is_applied (record_of_key K.eq self.now.state.records key.now) }
    {
        let own = self.inner.index_hash(key);
        let (_, found) = self.inner.store().find_by_key(key, own)?;
        Some(found.is_settled())
    }

    /// How much a key's record weighs, whether a run of maintenance has counted it yet or not, and `None` if the key
    /// has no record.
    pub fn weight(&self, key: &K) -> Option<u32>
        ensures { result ≡ option_map (λ r. r.weight) (record_of_key K.eq self.now.state.records key.now) }
    {
        let own = self.inner.index_hash(key);
        let (_, found) = self.inner.store().find_by_key(key, own)?;
        Some(found.weight())
    }

    /// The entries that are visible at the moment `now`, least recently used first. An entry whose write was not
    /// applied yet by a run of maintenance stands at the place that it had before, and is left out if it had none.
    pub fn snapshot(&self, now: Instant) -> Snapshot<'_, K, V, S, X, P>
        ensures { result ≡ scene_of self.now.state now.0 }
    {
        Snapshot::new(self.inner.store(), self.moments(now), &self.invalidator)
    }
}
