//! Look-ups and removals by a test of the key in place of a key.
ghost use Rattle.std.specs.Prelude.{◌≡◌, IsOk, Some, length, true, option_map};
ghost use Rattle.moka_records.specs.Hashing.{key_hash};
ghost use Rattle.moka_parts.specs.Calls.{RecordsRead, no_events};
ghost use Rattle.moka_parts.specs.Copies.{HandsOut, IsEntryCopy};
ghost use Rattle.moka_parts.specs.Housekeeping.{is_due};
ghost use Rattle.moka_parts.specs.KeyTests.{ContainsByStep, GetByStep, RemoveByStep};
ghost use Rattle.moka_records.specs.KeyTests.{record_by};
ghost use Rattle.moka_parts.specs.Runs.{Befalls};
ghost use Rattle.moka_parts.specs.Surroundings.{Leads};
ghost use Rattle.moka_records.specs.declared.records.ReadOperation.TheVariants as operation;
ghost use Rattle.moka_store.specs.Hashing.{IsIndexHash};
ghost use Rattle.moka_engine.specs.Looks.{CanHandOut};
ghost use Rattle.moka_engine.specs.Makes.{Takes};

use super::BaseCache;
use moka_inner::Hashes;
use moka_lookups::gets::Hit;
use moka_parts::calls::{Entry, KvEntry, Ticket};
use moka_parts::closures::{NoTest, PredicateFn, Weigher};
use moka_parts::error::OutOfMemory;
use moka_parts::housekeeper::Clock;
use moka_parts::key_test::KeyTest;
use moka_parts::notification::Listener;
use moka_parts::policy::{Expiry, Instant};
use moka_store::IndexHash;
use std::hash::{BuildHasher, Hash};

impl<
    K: Eq + Hash,
    V,
    S: BuildHasher,
    X: Expiry<K, V>,
    L: Listener<K, V>,
    P: PredicateFn<K, V>,
    W: Weigher<K, V>,
> BaseCache<K, V, S, X, L, P, W> {
    /// The hash of a form of a key, by the cache's own hasher. It equals the key's own hash if both feed the hasher the
    /// same data, as a `&str` and a `String` of the same text do.
    #[inline(always)]
    pub fn hash_of<Q: Hash>(&self, form: &Q) -> u64
        ensures { result ≡ key_hash S.BuildHasher S.Hasher.Hasher self.now.hasher (Q.hash_input form.now) }
    {
        self.inner.store().hash_of(form)
    }

    /// As `contains_key_with_own_hash` of the key that passes. `hash` is that of the keys that do, by the cache's own
    /// hasher.
    pub fn contains_by<T: KeyTest<K>>(&self, test: &T, hash: u64, now: Instant) -> bool
        requires own { (k : K) → T.passes test.now k ≡ true
            → hash ≡ key_hash S.BuildHasher S.Hasher.Hasher self.now.hasher (K.hash_input k) }
        ensures { ContainsByStep P.says (T.passes test.now) self.now.state now.0 result }
    {
        self.contains_hashed(test, IndexHash::of(hash), now)
    }

    /// As `remove_entry_with_own_hash` of the key that passes. `hash` is that of the keys that do, by the cache's own
    /// hasher.
    pub fn remove_by<T: KeyTest<K>>(
        &mut self,
        test: &T,
        hash: u64,
    ) -> Option<(KvEntry<K, V>, Ticket)>
    where
        K: Drop,
        requires own { (k : K) → T.passes test.now k ≡ true
            → hash ≡ key_hash S.BuildHasher S.Hasher.Hasher self.old.hasher (K.hash_input k) }
        ensures step { RemoveByStep (T.passes test.now) self.old.state result self.new.state }
        ensures events { Befalls L.tells no_events self.old self.new }
    {
        self.remove_hashed(test, IndexHash::of(hash))
    }

    /// As `get_with_own_hash` of the key that passes. `hash` is that of the keys that do, by the cache's own hasher.
    ///
    /// # Errors
    /// As those of `get_with_hash`.
    #[inline(always)]
    pub fn get_by<T: KeyTest<K>, C: Clock>(
        &mut self,
        test: &T,
        hash: u64,
        need_key: bool,
        now: Instant,
        clock: &mut C,
    ) -> Result<Option<Entry<K, V>>, OutOfMemory>
    where
        K: Clone + Drop,
        V: Clone + Drop,
        P: Drop,
        requires own { (k : K) → T.passes test.now k ≡ true
            → hash ≡ key_hash S.BuildHasher S.Hasher.Hasher self.old.hasher (K.hash_input k) }
        ensures step { HandsOut (IsEntryCopy K.is_clone V.is_clone)
            (λ own. Takes P.says X.read L.tells
            (λ Runs s. GetByStep P.says (T.passes test.now) s X.read Runs hash need_key now.0 own)
            self.old self.new (λ e. Leads C.reads clock.old e.readings clock.new)) result }
        ensures succeeds { CanHandOut K.is_infallible V.is_infallible need_key
            (record_by (T.passes test.now) self.old.state.records) → IsOk result }
    {
        let own = IndexHash::of(hash);
        let sought = (test, Hashes { hash, own });
        self.get_hashed(sought, need_key, now, &mut NoTest, clock)
    }

    // Makes the run that is due, and queues a hit of the record whose key passes, with its number and first hash. The
    // run may remove that record, so its place is looked up again.
    #[inline(always)]
    pub(super) fn record_hit_by<T: KeyTest<K>, C: Clock>(
        &mut self,
        sought: (&T, IndexHash),
        number: u64,
        hash: u64,
        hit: Hit,
        clock: &mut C,
    )
    where
        K: Drop,
        V: Drop,
        P: Drop,
        requires own { (k : K) → T.passes sought.0.now k ≡ true
            → IsIndexHash S.BuildHasher S.Hasher.Hasher self.old.hasher (K.hash_input k) sought.1 }
        requires due { is_due self.old.state.housekeeping (length self.old.state.reads) hit.read.0 ≡ true }
        requires found { option_map (λ r. r.number)
            (record_by (T.passes sought.0.now) self.old.state.records) ≡ Some number }
        ensures { Takes P.says X.read L.tells
            (λ Runs s. RecordsRead Runs s hit.read.0 (operation.Hit number hash hit.is_renewed)) self.old self.new
            (λ e. Leads C.reads clock.old e.readings clock.new) }
    {
        self.run_by_housekeeper(hit.read, clock);
        self.inner
            .queue_hit_by(sought, number, hash, hit.is_renewed);
    }
}
