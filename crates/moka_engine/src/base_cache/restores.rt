//! Entries that are put back, as a snapshot listed them.
ghost use Rattle.std.specs.Prelude.{◌≡◌, ◌&&◌, false, is_some, not};
ghost use Rattle.moka_records.specs.Hashing.{key_hash};
ghost use Rattle.moka_parts.specs.Calls.{no_events};
ghost use Rattle.moka_parts.specs.Restores.{RestoreStep};
ghost use Rattle.moka_parts.specs.Runs.{Befalls};
ghost use Rattle.moka_parts.specs.State.{is_disabled};

use super::BaseCache;
use moka_inner::Hashes;
use moka_lookups::inserts;
use moka_parts::calls::Ticket;
use moka_parts::closures::{PredicateFn, Weigher};
use moka_parts::notification::Listener;
use moka_parts::policy::{ExpirationPolicy, Expiry, Instant};
use moka_parts::restores::{RestoreError, RestoreRefused, Restored};
use moka_store::{IndexHash, Update};
use std::hash::{BuildHasher, Hash};

impl<
    K: Eq + Hash,
    V,
    S: BuildHasher,
    X: Expiry<K, V>,
    L: Listener<K, V>,
    P: PredicateFn<K, V>,
    W: Weigher<K, V>,
> BaseCache<K, V, S, X, L, P, W> {
    /// Puts back an entry whose key has none, with the moments and the expiry that it had, and returns a ticket, under
    /// which its operation is to be sent. The weigher is asked, and the expiry is not: that which the entry had stays.
    /// Its moments may be in any order, and before those of other entries.
    ///
    /// # Errors
    /// `KeyPresent` if the key has an entry, else `NoExpiry` if the entry has an expiry of its own and the cache
    /// has none set, and else `NumbersUsedUp` and `OutOfMemory` as an insert. The entry comes back, and nothing has
    /// changed.
    pub fn restore(&mut self, item: Restored<K, V>) -> Result<Ticket, RestoreRefused<K, V>>
        requires enabled { is_disabled self.old.state.capacity ≡ false }
        ensures step { RestoreStep W.weighs K.eq self.old.state item
            (key_hash S.BuildHasher S.Hasher.Hasher self.old.hasher (K.hash_input item.key))
            result self.new.state }
        ensures events { Befalls L.tells no_events self.old self.new }
    {
        let store = self.inner.store();
        let hash = store.hash(&item.key);
        let own = IndexHash::of(hash);
        if inserts::has_key(store, &item.key, own) {
            let error = RestoreError::KeyPresent;
            return Err(RestoreRefused { error, item });
        }
        if is_unsupported(item.expires, &self.expiration_policy) {
            let error = RestoreError::NoExpiry;
            return Err(RestoreRefused { error, item });
        }
        let weight = inserts::weigh(&self.weigher, &item.key, &item.value);
        if let Err(refused) = self.inner.reserve_record() {
            let error = RestoreError::from(refused);
            return Err(RestoreRefused { error, item });
        }
        let Restored {
            key,
            value,
            last_modified: now,
            last_accessed: read,
            expires,
        } = item;
        let update = Update {
            value,
            now,
            expires,
            weight,
        };
        Ok(self.inner.restore(key, Hashes { hash, own }, update, read))
    }
}

// Whether an entry has an expiry of its own, and the cache has none set.
fn is_unsupported<X>(expires: Option<Instant>, policy: &ExpirationPolicy<X>) -> bool
    ensures { result ≡ (is_some expires && not (is_some policy.now.expiry)) }
{
    expires.is_some() && policy.expiry().is_none()
}
