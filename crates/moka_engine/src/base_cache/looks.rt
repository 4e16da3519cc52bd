//! Look-ups with a caller's test, and look-ups that record nothing.
//! moka: `sync::base_cache::BaseCache`, `common::concurrent::ScanningGet`.
ghost use Rattle.std.specs.Prelude.{◌≡◌, Bool, IsOk, Some, true};
ghost use Rattle.moka_parts.specs.Calls.{GetStep, PeekStep, ScanStep, no_events};
ghost use Rattle.moka_parts.specs.Closures.{CanAskIfGiven, test_given, test_left};
ghost use Rattle.moka_parts.specs.Copies.{HandsOut, IsEntryCopy};
ghost use Rattle.moka_records.specs.KeyTests.{record_by};
ghost use Rattle.moka_records.specs.Records.{record_of_key};
ghost use Rattle.moka_parts.specs.Runs.{Befalls};
ghost use Rattle.moka_parts.specs.Surroundings.{IsAskedOnce, Leads};
ghost use Rattle.moka_store.specs.Hashing.{IsIndexHash};
ghost use Rattle.moka_engine.specs.Looks.{CanHandOut, CanHandOutValue, LooksUp};
ghost use Rattle.moka_lookups.specs.Gets.{value_of};
ghost use Rattle.moka_engine.specs.Makes.{Takes};

use super::{BaseCache, hits};
use moka_inner::Hashes;
use moka_lookups::gets::{self, Look, Moments};
use moka_parts::calls::Entry;
use moka_parts::closures::{NoTest, PredicateFn, ValueTest, Weigher};
use moka_parts::error::OutOfMemory;
use moka_parts::housekeeper::Clock;
use moka_parts::key_test::{KeyTest, SameKey};
use moka_parts::notification::Listener;
use moka_parts::policy::{Expiry, Instant};
use std::hash::{BuildHasher, Hash};

impl<
    K: Eq + Hash,
    V,
    S: BuildHasher,
    X: Expiry<K, V>,
    L: Listener<K, V>,
    P: PredicateFn<K, V>,
    W: Weigher<K, V>,
> BaseCache<K, V, S, X, L, P, W> {
    /// Looks up a key as `get_with_hash` does, unless the caller's test, if one is given, ignores the value that is
    /// found: then it is as if the key were not there. The test is asked once of the value of the key's record, visible
    /// or not, and never if there is none.
    ///
    /// # Errors
    /// `OutOfMemory` if memory for a clone is refused. Nothing has changed but what the test keeps itself.
    pub fn get_with_hash_and_ignore_if<I: ValueTest<V>, C: Clock>(
        &mut self,
        key: &K,
        hash: u64,
        ignore_if: Option<&mut I>,
        need_key: bool,
        now: Instant,
        clock: &mut C,
    ) -> Result<Option<Entry<K, V>>, OutOfMemory>
    where
        K: Clone + Drop,
        V: Clone + Drop,
        P: Drop,
        requires askable { CanAskIfGiven I.can_ask (test_given ignore_if) }
        ensures step { (ignored : Bool)
            × IsAskedOnce I.asks (test_given ignore_if.entry)
            (value_of (record_of_key K.eq self.old.state.records key.now)) ignored (test_left ignore_if.exit)
            × HandsOut (IsEntryCopy K.is_clone V.is_clone)
            (λ own. Takes P.says X.read L.tells
            (λ Runs s. GetStep P.says X.read Runs K.eq s key.now hash need_key ignored now.0 own)
            self.old self.new (λ e. Leads C.reads clock.old e.readings clock.new)) result }
        ensures succeeds { CanHandOut K.is_infallible V.is_infallible need_key
            (record_of_key K.eq self.old.state.records key.now) → IsOk result }
    {
        match ignore_if {
            Some(test) => {
                let own = self.inner.index_hash(key);
                let sought = (&SameKey(key), Hashes { hash, own });
                self.get_hashed(sought, need_key, now, test, clock)
            }
            None => self.get_with_hash(key, hash, need_key, now, clock),
        }
    }

    // A look-up that is recorded, of the key that passes. The caller's test may ignore what it finds.
    #[inline(always)]
    pub(super) fn get_hashed<T: KeyTest<K>, I: ValueTest<V>, C: Clock>(
        &mut self,
        sought: (&T, Hashes),
        need_key: bool,
        now: Instant,
        ignore_if: &mut I,
        clock: &mut C,
    ) -> Result<Option<Entry<K, V>>, OutOfMemory>
    where
        K: Clone + Drop,
        V: Clone + Drop,
        P: Drop,
        requires own { (k : K) → T.passes sought.0.now k ≡ true
            → IsIndexHash S.BuildHasher S.Hasher.Hasher self.old.hasher (K.hash_input k) sought.1.own }
        requires askable { (v : V) → I.can_ask ignore_if.old v }
        ensures step { (ignored : Bool)
            × IsAskedOnce I.asks (Some ignore_if.old)
            (value_of (record_by (T.passes sought.entry.0.now) self.old.state.records)) ignored (Some ignore_if.new)
            × HandsOut (IsEntryCopy K.is_clone V.is_clone)
            (λ own. Takes P.says X.read L.tells
            (λ Runs s. LooksUp P.says X.read (record_by (T.passes sought.entry.0.now)) sought.entry.1.hash
            need_key ignored now.0 Runs s own)
            self.old self.new (λ e. Leads C.reads clock.old e.readings clock.new)) result }
        ensures succeeds { CanHandOut K.is_infallible V.is_infallible need_key
            (record_by (T.passes sought.entry.0.now) self.old.state.records) → IsOk result }
    {
        let (test, Hashes { hash: given, own }) = sought;
        let sought = (test, own);
        let looked = {
            let moments = Moments {
                policy: &self.expiration_policy,
                valid_after: &self.valid_after,
                now,
            };
            let (store, predicates) = (self.inner.store(), &self.invalidator);
            gets::look_up(store, &moments, predicates, sought, ignore_if, need_key)
        };
        match looked {
            Look::Found(handle, (entry, hash, hit)) => {
                if hits::note_hit(&mut self.inner, &self.housekeeper, handle, hash, hit) {
                    self.record_hit_by(sought, handle.number, hash, hit, clock);
                    return Ok(Some(entry));
                }
                Ok(Some(entry))
            }
            Look::Missed => {
                self.record_miss(given, now, clock);
                Ok(None)
            }
            Look::Refused => Err(OutOfMemory),
        }
    }

    /// Looks up a key at the moment `now` as `get_with_hash_and_ignore_if` does, but queues no read and starts no run.
    /// That the record was read is noted in it, and its expiry asked. `_hash`, which moka takes, is ignored.
    ///
    /// # Errors
    /// `OutOfMemory` if memory for a clone of the value is refused. Nothing has changed but what the test keeps
    /// itself.
    pub fn get_with_hash_without_recording<I: ValueTest<V>>(
        &mut self,
        key: &K,
        _hash: u64,
        ignore_if: Option<&mut I>,
        now: Instant,
    ) -> Result<Option<V>, OutOfMemory>
    where
        V: Clone,
        requires askable { CanAskIfGiven I.can_ask (test_given ignore_if) }
        ensures step { (ignored : Bool)
            × IsAskedOnce I.asks (test_given ignore_if.entry)
            (value_of (record_of_key K.eq self.old.state.records key.now)) ignored (test_left ignore_if.exit)
            × HandsOut V.is_clone
            (λ a. PeekStep P.says X.read K.eq self.old.state key.now ignored now.0 a self.new.state) result
            × Befalls L.tells no_events self.old self.new }
        ensures succeeds { CanHandOutValue V.is_infallible (record_of_key K.eq self.old.state.records key.now)
            → IsOk result }
    {
        match ignore_if {
            Some(test) => self.do_get_without_recording(key, test, now),
            None => self.do_get_without_recording(key, &mut NoTest, now),
        }
    }

    // The same with a test.
    fn do_get_without_recording<I: ValueTest<V>>(
        &mut self,
        key: &K,
        test: &mut I,
        now: Instant,
    ) -> Result<Option<V>, OutOfMemory>
    where
        V: Clone,
        requires askable { (v : V) → I.can_ask test.old v }
        ensures step { (ignored : Bool)
            × IsAskedOnce I.asks (Some test.old)
            (value_of (record_of_key K.eq self.old.state.records key.now)) ignored (Some test.new)
            × HandsOut V.is_clone
            (λ a. PeekStep P.says X.read K.eq self.old.state key.now ignored now.0 a self.new.state) result
            × Befalls L.tells no_events self.old self.new }
        ensures succeeds { CanHandOutValue V.is_infallible (record_of_key K.eq self.old.state.records key.now)
            → IsOk result }
    {
        let sought = (&SameKey(key), self.inner.index_hash(key));
        let looked = {
            let moments = Moments {
                policy: &self.expiration_policy,
                valid_after: &self.valid_after,
                now,
            };
            gets::look_at(
                self.inner.store(),
                &moments,
                &self.invalidator,
                sought,
                test,
            )
        };
        match looked {
            Look::Found(handle, (value, hit)) => {
                self.inner
                    .touch(handle, hit.read, hit.expires, hit.is_renewed);
                Ok(Some(value))
            }
            Look::Missed => Ok(None),
            Look::Refused => Err(OutOfMemory),
        }
    }

    /// A clone of a key's value, if the key is there and visible at the moment `now`. Nothing is recorded, not even
    /// that the record was read.
    ///
    /// # Errors
    /// `OutOfMemory` if memory for the clone is refused.
    pub fn scanning_get(&self, key: &K, now: Instant) -> Result<Option<V>, OutOfMemory>
    where
        V: Clone,
        ensures step { HandsOut V.is_clone (ScanStep P.says K.eq self.now.state key.now now.0) result }
        ensures succeeds { CanHandOutValue V.is_infallible (record_of_key K.eq self.now.state.records key.now)
            → IsOk result }
    {
        let moments = self.moments(now);
        let sought = (&SameKey(key), self.inner.index_hash(key));
        let shown = gets::find_shown(self.inner.store(), &moments, &self.invalidator, sought);
        let Some((_, found)) = shown else {
            return Ok(None);
        };
        match found.value().clone() {
            Ok(value) => Ok(Some(value)),
            Err(_) => Err(OutOfMemory),
        }
    }
}
