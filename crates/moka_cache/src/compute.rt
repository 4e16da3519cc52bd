//! The entry call that computes what is to be done from the value that is there. moka: `ops::compute`.
ghost use Rattle.std.specs.Prelude.{◌≡◌, true, Option, None, Result, IfErr, option_copied, option_map};
ghost use Rattle.moka_parts.specs.State.{is_disabled};
ghost use Rattle.moka_records.specs.Records.{record_of_key};
ghost use Rattle.moka_types.specs.declared.error.InsertRefused.{InsertRefused};
ghost use Rattle.moka_types.specs.declared.error.OutOfMemory.{OutOfMemory};
ghost use Rattle.moka_calls.specs.Compute.{HandsOutComputedPut, HandsOutTaken, AndComputes};
ghost use Rattle.moka_calls.specs.Given.{Sees};
ghost use Rattle.moka_records.specs.Hashing.{key_hash};
ghost use Rattle.moka_engine.specs.Looks.{CanHandOutValue};
ghost use Rattle.moka_cache.specs.Keyed.{CanNotifyOfAny, IsNotOfNotice, IsOfChange, IsOfComputedClone};
ghost use Rattle.moka_calls.specs.Synchronous.{InsertsMade, Makes, RemovesEntry, hears_clones, meaning_of};

use crate::cache::{Cache, Put};
use moka_calls::answers::found;
pub use moka_calls::compute::{CompResult, ComputeRefused, Op};
use moka_calls::error::NotTold;
use moka_parts::closures::{PredicateFn, Weigher};
use moka_parts::housekeeper::Clock;
use moka_parts::notification::Listener;
use moka_parts::policy::{Expiry, Instant};
use std::hash::{BuildHasher, Hash};

impl<
    K: Eq + Hash,
    V,
    X: Expiry<K, V>,
    L: Listener<K, V>,
    P: PredicateFn<K, V>,
    W: Weigher<K, V>,
    S: BuildHasher,
> Cache<K, V, X, L, P, W, S> {
    // `OwnedKeyEntrySelector::and_compute_with`, of this key.
    pub(crate) fn compute_with<F: FnOnce(Option<&V>) -> Op<V>, C: Clock>(
        &mut self,
        key: K,
        f: F,
        now: Instant,
        clock: &mut C,
    ) -> Result<CompResult<K, V>, ComputeRefused<K, V>>
    where
        K: Clone + Drop,
        V: Clone + Drop,
        P: Drop,
        requires callable { (seen : _)
            → Sees K.eq P.says V.is_clone self.old.engine.state key now.0 (option_copied seen) → F.pre f seen }
        ensures step { AndComputes (meaning_of K.eq (hears_clones K.is_clone V.is_clone L.tells) P.says W.weighs C.reads
            X.created X.read X.updated)
            K.is_clone V.is_clone key
            (key_hash S.BuildHasher S.Hasher.Hasher self.old.engine.hasher (K.hash_input key)) now
            self.old clock.old self.new clock.new (λ seen op. (x : _) × (option_copied x ≡ seen)
            × F.post f x op) result }
        ensures looks_up { CanHandOutValue V.is_infallible
            (record_of_key K.eq self.old.engine.state.records key) → IfErr result IsOfChange }
        ensures disabled { is_disabled self.old.engine.state.capacity ≡ true
            → IfErr result (IsOfComputedClone K.is_infallible V.is_infallible) }
        ensures notified { CanNotifyOfAny K.is_infallible V.is_infallible self.old.engine.state.settings.listening
            → IfErr result IsNotOfNotice }
    {
        let hash = self.hash_of(&key);
        let Ok(seen) = self.get_hashed(&key, hash, now, clock) else {
            return Err(ComputeRefused::Lookup(key));
        };
        let is_there = seen.is_some();
        match f(seen.as_ref()) {
            Op::Put(value) => self.put_computed(Put { key, hash, value }, is_there, now, clock),
            Op::Nop => match seen {
                Some(value) => Ok(CompResult::Unchanged(found(key, value))),
                None => Ok(CompResult::StillNone(key)),
            },
            Op::Remove => {
                if is_there {
                    self.remove_computed(key, hash, now, clock)
                } else {
                    Ok(CompResult::StillNone(key))
                }
            }
        }
    }

    // Puts the value that was computed, with the key's hash.
    fn put_computed<C: Clock>(
        &mut self,
        put: Put<K, V>,
        is_there: bool,
        now: Instant,
        clock: &mut C,
    ) -> Result<CompResult<K, V>, ComputeRefused<K, V>>
    where
        K: Clone + Drop,
        V: Clone + Drop,
        P: Drop,
        requires own { put.hash ≡ key_hash S.BuildHasher S.Hasher.Hasher self.old.engine.hasher (K.hash_input put.key) }
        ensures made { (own : Result V (InsertRefused K V))
            × HandsOutComputedPut K.is_clone V.is_clone put.key is_there own result
            × Makes (meaning_of K.eq L.tells P.says W.weighs C.reads X.created X.read X.updated)
            (InsertsMade put.key (key_hash S.BuildHasher S.Hasher.Hasher self.old.engine.hasher (K.hash_input put.key))
            now put.value own)
            self.old.engine clock.old self.new.engine clock.new }
        ensures disabled { is_disabled self.old.engine.state.capacity ≡ true
            → IfErr result (IsOfComputedClone K.is_infallible V.is_infallible) }
        ensures counted { self.new.stats ≡ self.old.stats }
    {
        let entry = self.insert_entry(put, is_there, now, clock)?;
        if is_there {
            Ok(CompResult::ReplacedWith(entry))
        } else {
            Ok(CompResult::Inserted(entry))
        }
    }

    // Takes the key out, of which a value was seen, with its hash.
    fn remove_computed<C: Clock>(
        &mut self,
        key: K,
        hash: u64,
        now: Instant,
        clock: &mut C,
    ) -> Result<CompResult<K, V>, ComputeRefused<K, V>>
    where
        K: Clone + Drop,
        V: Clone + Drop,
        P: Drop,
        requires own { hash ≡ key_hash S.BuildHasher S.Hasher.Hasher self.old.engine.hasher (K.hash_input key) }
        ensures made { (taken : Option (V × Result (Unit {0}) OutOfMemory))
            × HandsOutTaken K.is_clone V.is_clone key taken result
            × Makes (meaning_of K.eq (hears_clones K.is_clone V.is_clone L.tells) P.says W.weighs C.reads
            X.created X.read X.updated)
            (RemovesEntry key
            (key_hash S.BuildHasher S.Hasher.Hasher self.old.engine.hasher (K.hash_input key)) now taken)
            self.old.engine clock.old self.new.engine clock.new
            × (option_map (λ t. t.0) taken
            ≡ option_map (λ r. r.value) (record_of_key K.eq self.old.engine.state.records key)) }
        ensures notified { CanNotifyOfAny K.is_infallible V.is_infallible self.old.engine.state.settings.listening
            → IfErr result IsNotOfNotice }
        ensures gone { record_of_key K.eq self.new.engine.state.records key ≡ None }
        ensures counted { self.new.stats ≡ self.old.stats }
    {
        // None is there if the run of maintenance that the look-up made had taken it already.
        let Some((value, told)) = self.take(&key, hash, now, clock) else {
            return Ok(CompResult::StillNone(key));
        };
        match told {
            Ok(()) => Ok(CompResult::Removed(found(key, value))),
            Err(error) => Err(ComputeRefused::NotTold(key, NotTold { error, value })),
        }
    }
}
