//! Look-ups and removals by a test of the key in place of a key.
ghost use Rattle.std.specs.Prelude.{◌≡◌, true, Option, Some, None, Result, IfOk, IfSome, IsOk, OnErr, option_map};
ghost use Rattle.moka_parts.specs.Calls.{ContainsStep};
ghost use Rattle.moka_parts.specs.KeyTests.{ContainsByStep};
ghost use Rattle.moka_records.specs.KeyTests.{record_by};
ghost use Rattle.moka_records.specs.Records.{record_of_key};
ghost use Rattle.moka_types.specs.declared.error.OutOfMemory.{OutOfMemory};
ghost use Rattle.moka_records.specs.declared.records.Record.{Record};
ghost use Rattle.moka_parts.specs.Counters.{after_look_up};
ghost use Rattle.moka_records.specs.Hashing.{key_hash};
ghost use Rattle.moka_engine.specs.Looks.{CanHandOutValue};
ghost use Rattle.moka_cache.specs.Keyed.{CanNotify, GetsBy, RemovesBy};
ghost use Rattle.moka_timed.specs.Moments.{AtItsMoment, AtItsOnlyMoment};
ghost use Rattle.moka_calls.specs.Synchronous.{invalidated, meaning_of, removed, taken_out};

use crate::cache::TimedCache;
use moka_cache::error::NotTold;
use moka_parts::closures::{PredicateFn, Weigher};
use moka_parts::error::OutOfMemory;
use moka_parts::housekeeper::Clock;
use moka_parts::key_test::KeyTest;
use moka_parts::notification::Listener;
use moka_parts::policy::Expiry;
use std::hash::{BuildHasher, Hash};

impl<
    K: Eq + Hash,
    V,
    C: Clock,
    X: Expiry<K, V>,
    L: Listener<K, V>,
    P: PredicateFn<K, V>,
    W: Weigher<K, V>,
    S: BuildHasher,
> TimedCache<K, V, C, X, L, P, W, S> {
    /// As `Cache::hash_of`.
    pub fn hash_of<Q: Hash>(&self, form: &Q) -> u64
        ensures { result ≡ key_hash S.BuildHasher S.Hasher.Hasher self.now.cache.engine.hasher (Q.hash_input form.now) }
    {
        self.cache.hash_of(form)
    }

    /// As `contains_key` of the key that passes; `false` if none is there. `hash` is that key's, by the cache's hasher.
    pub fn contains_key_by<T: KeyTest<K>>(&mut self, test: &T, hash: u64) -> bool
        requires own { (k : K) → T.passes test.now k ≡ true
            → hash ≡ key_hash S.BuildHasher S.Hasher.Hasher self.old.cache.engine.hasher (K.hash_input k) }
        ensures { AtItsOnlyMoment C.reads self.old self.new (λ now old new.
            ContainsByStep P.says (T.passes test.now) old.engine.state now.0 result
            × ((key : K) → T.passes test.now key ≡ true
            → ContainsStep P.says K.eq old.engine.state key now.0 result) × (new ≡ old)) }
    {
        let now = self.clock.now();
        self.cache.contains_key_by(test, hash, now)
    }

    /// As `get` of the key that passes, or, if no key of the cache does, of any other that is not there. `hash` is that
    /// of the keys that pass, by the cache's hasher.
    ///
    /// # Errors
    /// As `get`.
    pub fn get_by<T: KeyTest<K>>(&mut self, test: &T, hash: u64) -> Result<Option<V>, OutOfMemory>
    where
        K: Clone + Drop,
        V: Clone + Drop,
        P: Drop,
        requires own { (k : K) → T.passes test.now k ≡ true
            → hash ≡ key_hash S.BuildHasher S.Hasher.Hasher self.old.cache.engine.hasher (K.hash_input k) }
        ensures made { AtItsMoment C.reads self.old self.new (λ now old clock new clock_after.
            GetsBy (meaning_of K.eq L.tells P.says W.weighs C.reads X.created X.read X.updated)
            (T.passes test.now) hash now clock clock_after V.is_clone result old new) }
        ensures value { IfOk result (λ found. IfSome found (λ v. (r : Record K V)
            × (record_by (T.passes test.now) self.old.cache.engine.state.records ≡ Some r)
            × V.is_clone r.value v)) }
        ensures succeeds { CanHandOutValue V.is_infallible
            (record_by (T.passes test.now) self.old.cache.engine.state.records) → IsOk result }
        ensures unchanged { OnErr result (self.new.cache.engine.state ≡ self.old.cache.engine.state) }
        ensures hasher { self.new.cache.engine.hasher ≡ self.old.cache.engine.hasher }
        ensures counted { self.new.cache.stats ≡ after_look_up result self.old.cache.stats }
    {
        let now = self.clock.now();
        self.cache.get_by(test, hash, now, &mut self.clock)
    }

    /// As `remove` of the key that passes; if no key of the cache does, nothing changes. `hash` is that of the keys
    /// that pass, by the cache's hasher.
    ///
    /// # Errors
    /// As `remove`.
    pub fn remove_by<T: KeyTest<K>>(&mut self, test: &T, hash: u64) -> Result<Option<V>, NotTold<V>>
    where
        K: Clone + Drop,
        V: Clone + Drop,
        P: Drop,
        requires own { (k : K) → T.passes test.now k ≡ true
            → hash ≡ key_hash S.BuildHasher S.Hasher.Hasher self.old.cache.engine.hasher (K.hash_input k) }
        ensures made { AtItsMoment C.reads self.old self.new (λ now old clock new clock_after.
            RemovesBy (meaning_of K.eq L.tells P.says W.weighs C.reads X.created X.read X.updated)
            (T.passes test.now) hash now clock clock_after K.is_clone V.is_clone (λ taken. result ≡ removed taken)
            old new) }
        ensures succeeds { CanNotify K.is_infallible V.is_infallible self.old.cache.engine.state.settings.listening
            (record_by (T.passes test.now) self.old.cache.engine.state.records) → IsOk result }
        ensures gone { (key : K) → T.passes test.now key ≡ true
            → record_of_key K.eq self.new.cache.engine.state.records key ≡ None }
        ensures value { (key : K) → T.passes test.now key ≡ true → taken_out result
            ≡ option_map (λ r. r.value) (record_of_key K.eq self.old.cache.engine.state.records key) }
        ensures hasher { self.new.cache.engine.hasher ≡ self.old.cache.engine.hasher }
        ensures counted { self.new.cache.stats ≡ self.old.cache.stats }
    {
        let now = self.clock.now();
        self.cache.remove_by(test, hash, now, &mut self.clock)
    }

    /// As `invalidate` of the key that passes; if no key of the cache does, nothing changes. `hash` is that of the keys
    /// that pass, by the cache's hasher.
    ///
    /// # Errors
    /// As `invalidate`.
    pub fn invalidate_by<T: KeyTest<K>>(&mut self, test: &T, hash: u64) -> Result<(), NotTold<V>>
    where
        K: Clone + Drop,
        V: Clone + Drop,
        P: Drop,
        requires own { (k : K) → T.passes test.now k ≡ true
            → hash ≡ key_hash S.BuildHasher S.Hasher.Hasher self.old.cache.engine.hasher (K.hash_input k) }
        ensures made { AtItsMoment C.reads self.old self.new (λ now old clock new clock_after.
            RemovesBy (meaning_of K.eq L.tells P.says W.weighs C.reads X.created X.read X.updated)
            (T.passes test.now) hash now clock clock_after K.is_clone V.is_clone (λ taken. result ≡ invalidated taken)
            old new) }
        ensures succeeds { CanNotify K.is_infallible V.is_infallible self.old.cache.engine.state.settings.listening
            (record_by (T.passes test.now) self.old.cache.engine.state.records) → IsOk result }
        ensures gone { (key : K) → T.passes test.now key ≡ true
            → record_of_key K.eq self.new.cache.engine.state.records key ≡ None }
        ensures hasher { self.new.cache.engine.hasher ≡ self.old.cache.engine.hasher }
        ensures counted { self.new.cache.stats ≡ self.old.cache.stats }
    {
        let now = self.clock.now();
        self.cache.invalidate_by(test, hash, now, &mut self.clock)
    }
}
