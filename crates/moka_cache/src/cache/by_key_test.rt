//! Look-ups and removals by a test of the key in place of a key.
ghost use Rattle.std.specs.Prelude.{◌≡◌, [], true, Option, Some, None, Result, IfSome, IsOk, option_map};
ghost use Rattle.moka_parts.specs.Calls.{ContainsStep};
ghost use Rattle.moka_parts.specs.KeyTests.{ContainsByStep};
ghost use Rattle.moka_records.specs.KeyTests.{record_by};
ghost use Rattle.moka_records.specs.Records.{record_of_key};
ghost use Rattle.moka_types.specs.declared.error.OutOfMemory.{OutOfMemory};
ghost use Rattle.moka_records.specs.Hashing.{key_hash};
ghost use Rattle.moka_engine.specs.Looks.{CanHandOutValue};
ghost use Rattle.moka_cache.specs.Keyed.{CanNotify, GetsBy, RemovesBy};
ghost use Rattle.moka_calls.specs.Synchronous.{Made, Makes, RemovesEntry, hears_clones, invalidated, meaning_of, removed, taken_out};

use super::Cache;
use moka_calls::answers::{invalidated, removed, value_of};
use moka_calls::error::NotTold;
use moka_parts::closures::{PredicateFn, Weigher};
use moka_parts::error::OutOfMemory;
use moka_parts::housekeeper::Clock;
use moka_parts::key_test::KeyTest;
use moka_parts::notification::Listener;
use moka_parts::policy::{Expiry, Instant};
use std::hash::{BuildHasher, Hash};

impl<
    K: Eq + Hash,
    V,
    X: Expiry<K, V>,
    L: Listener<K, V>,
    P: PredicateFn<K, V>,
    W: Weigher<K, V>,
    S: BuildHasher,
> Cache<K, V, X, L, P, W, S> {
    /// The hash of a form of a key, by the cache's hasher. It equals the key's own hash if both feed the hasher the
    /// same data, as a `&str` and a `String` of the same text do.
    pub fn hash_of<Q: Hash>(&self, form: &Q) -> u64
        ensures { result ≡ key_hash S.BuildHasher S.Hasher.Hasher self.now.engine.hasher (Q.hash_input form.now) }
    {
        self.engine.hash_of(form)
    }

    /// As `contains_key` of the key that passes; `false` if none is there. `hash` is that key's, by the cache's hasher.
    pub fn contains_key_by<T: KeyTest<K>>(&self, test: &T, hash: u64, now: Instant) -> bool
        requires own { (k : K) → T.passes test.now k ≡ true
            → hash ≡ key_hash S.BuildHasher S.Hasher.Hasher self.now.engine.hasher (K.hash_input k) }
        ensures shown { ContainsByStep P.says (T.passes test.now) self.now.engine.state now.0 result }
        ensures as_key { (key : K) → T.passes test.now key ≡ true
            → ContainsStep P.says K.eq self.now.engine.state key now.0 result }
    {
        self.engine.contains_by(test, hash, now)
    }

    /// As `get` of the key that passes, or, if no key of the cache does, of any other that is not there. `hash` is that
    /// of the keys that pass, by the cache's hasher.
    ///
    /// ```text
    /// let name = "a key"; // of a cache with `String` keys; none is made
    /// let hash = cache.hash_of(&name);
    /// let found = cache.get_by(&name, hash, now, &mut clock)?;
    /// ```
    ///
    /// # Errors
    /// As `get`.
    pub fn get_by<T: KeyTest<K>, C: Clock>(
        &mut self,
        test: &T,
        hash: u64,
        now: Instant,
        clock: &mut C,
    ) -> Result<Option<V>, OutOfMemory>
    where
        K: Clone + Drop,
        V: Clone + Drop,
        P: Drop,
        requires own { (k : K) → T.passes test.now k ≡ true
            → hash ≡ key_hash S.BuildHasher S.Hasher.Hasher self.old.engine.hasher (K.hash_input k) }
        ensures step { GetsBy (meaning_of K.eq L.tells P.says W.weighs C.reads X.created X.read X.updated)
            (T.passes test.now) hash now clock.old clock.new V.is_clone result self.old self.new }
        ensures succeeds { CanHandOutValue V.is_infallible (record_by (T.passes test.now) self.old.engine.state.records)
            → IsOk result }
    {
        self.engine.invariant_holds();
        let entry = self.engine.get_by(test, hash, false, now, clock);
        let found = value_of(entry);
        self.stats.count_look_up(&found);
        found
    }

    /// As `remove` of the key that passes; if no key of the cache does, nothing changes. `hash` is that of the keys
    /// that pass, by the cache's hasher.
    ///
    /// # Errors
    /// As `remove`.
    pub fn remove_by<T: KeyTest<K>, C: Clock>(
        &mut self,
        test: &T,
        hash: u64,
        now: Instant,
        clock: &mut C,
    ) -> Result<Option<V>, NotTold<V>>
    where
        K: Clone + Drop,
        V: Clone + Drop,
        P: Drop,
        requires own { (k : K) → T.passes test.now k ≡ true
            → hash ≡ key_hash S.BuildHasher S.Hasher.Hasher self.old.engine.hasher (K.hash_input k) }
        ensures step { RemovesBy (meaning_of K.eq L.tells P.says W.weighs C.reads X.created X.read X.updated)
            (T.passes test.now) hash now clock.old clock.new K.is_clone V.is_clone (λ taken. result ≡ removed taken)
            self.old self.new }
        ensures succeeds { CanNotify K.is_infallible V.is_infallible self.old.engine.state.settings.listening
            (record_by (T.passes test.now) self.old.engine.state.records) → IsOk result }
        ensures value { (key : K) → T.passes test.now key ≡ true → taken_out result
            ≡ option_map (λ r. r.value) (record_of_key K.eq self.old.engine.state.records key) }
    {
        removed(self.take_by(test, hash, now, clock))
    }

    /// As `invalidate` of the key that passes; if no key of the cache does, nothing changes. `hash` is that of the keys
    /// that pass, by the cache's hasher.
    ///
    /// # Errors
    /// As `invalidate`.
    pub fn invalidate_by<T: KeyTest<K>, C: Clock>(
        &mut self,
        test: &T,
        hash: u64,
        now: Instant,
        clock: &mut C,
    ) -> Result<(), NotTold<V>>
    where
        K: Clone + Drop,
        V: Clone + Drop,
        P: Drop,
        requires own { (k : K) → T.passes test.now k ≡ true
            → hash ≡ key_hash S.BuildHasher S.Hasher.Hasher self.old.engine.hasher (K.hash_input k) }
        ensures step { RemovesBy (meaning_of K.eq L.tells P.says W.weighs C.reads X.created X.read X.updated)
            (T.passes test.now) hash now clock.old clock.new K.is_clone V.is_clone (λ taken. result ≡ invalidated taken)
            self.old self.new }
        ensures succeeds { CanNotify K.is_infallible V.is_infallible self.old.engine.state.settings.listening
            (record_by (T.passes test.now) self.old.engine.state.records) → IsOk result }
    {
        invalidated(self.take_by(test, hash, now, clock))
    }

    // Takes the key that passes out: its value, and whether the listener was notified.
    pub(super) fn take_by<T: KeyTest<K>, C: Clock>(
        &mut self,
        test: &T,
        hash: u64,
        now: Instant,
        clock: &mut C,
    ) -> Option<(V, Result<(), OutOfMemory>)>
    where
        K: Clone + Drop,
        V: Clone + Drop,
        P: Drop,
        requires own { (k : K) → T.passes test.now k ≡ true
            → hash ≡ key_hash S.BuildHasher S.Hasher.Hasher self.old.engine.hasher (K.hash_input k) }
        ensures made { (key : K) → T.passes test.now key ≡ true
            → Makes (meaning_of K.eq (hears_clones K.is_clone V.is_clone L.tells) P.says W.weighs C.reads
            X.created X.read X.updated)
            (RemovesEntry key hash now result) self.old.engine clock.old self.new.engine clock.new }
        ensures none { record_by (T.passes test.now) self.old.engine.state.records ≡ None → (result ≡ None)
            × Made (meaning_of K.eq L.tells P.says W.weighs C.reads X.created X.read X.updated) [] []
            self.old.engine clock.old self.new.engine clock.new }
        ensures notified { CanNotify K.is_infallible V.is_infallible self.old.engine.state.settings.listening
            (record_by (T.passes test.now) self.old.engine.state.records) → IfSome result (λ t. IsOk t.1) }
        ensures gone { (key : K) → T.passes test.now key ≡ true
            → record_of_key K.eq self.new.engine.state.records key ≡ None }
        ensures value { (key : K) → T.passes test.now key ≡ true → option_map (λ t. t.0) result
            ≡ option_map (λ r. r.value) (record_of_key K.eq self.old.engine.state.records key) }
        ensures hasher { self.new.engine.hasher ≡ self.old.engine.hasher }
        ensures counted { self.new.stats ≡ self.old.stats }
    {
        self.engine.invariant_holds();
        let Some((entry, ticket)) = self.engine.remove_by(test, hash) else {
            return None;
        };
        let told = self.engine.notify_invalidate(&entry, now);
        Self::post(&mut self.engine, ticket, now, clock);
        Some((entry.value, told))
    }
}
