//! Entry calls: `cache.entry(key)` hands out a selector, each of whose methods is a look-up and what follows it, in one
//! call. moka: `sync::entry_selector`.
ghost use Rattle.std.specs.Prelude.{◌≡◌, false, true, IfErr, IsOk, Option, option_copied};
ghost use Rattle.moka_parts.specs.Calls.{ContainsStep};
ghost use Rattle.moka_parts.specs.State.{is_disabled};
ghost use Rattle.moka_calls.specs.Compute.{AndUpserts, AndComputes};
ghost use Rattle.moka_calls.specs.Entry.{OrInserts, OrInsertsMade, OrInsertsIfMade, OrInsertsIfNoError};
ghost use Rattle.moka_calls.specs.Given.{Sees};
ghost use Rattle.moka_records.specs.Hashing.{key_hash};
ghost use Rattle.moka_records.specs.Records.{record_of_key};
ghost use Rattle.moka_engine.specs.Looks.{CanHandOutValue};
ghost use Rattle.moka_cache.specs.Keyed.{CanNotifyOfAny, IsNotOfNotice, IsOfChange, IsOfClone, IsOfComputedClone, IsOfInsert, MayFail};
ghost use Rattle.moka_calls.specs.Synchronous.{meaning_of, hears_clones};

use crate::cache::{Cache, Put};
use crate::compute::{CompResult, ComputeRefused, Op};
use crate::entry::CacheEntry;
use moka_calls::answers::{always_made, found, if_made};
use moka_calls::error::GetWithRefused;
use moka_parts::closures::{PredicateFn, Weigher};
use moka_parts::error::{InsertError, InsertRefused};
use moka_parts::housekeeper::Clock;
use moka_parts::notification::Listener;
use moka_parts::policy::{Expiry, Instant};
use std::hash::{BuildHasher, Hash};

/// A key of a cache, of which one entry call is to be made. Nothing is hashed or looked up before. moka:
/// `OwnedKeyEntrySelector`.
#[derive(Drop)]
pub struct OwnedKeyEntrySelector<'a, K: Eq + Hash, V, X: Expiry<K, V>, L, P, W, S: BuildHasher> {
    cache: &'a mut Cache<K, V, X, L, P, W, S>,
    key: K,
}

impl<
    K: Eq + Hash,
    V,
    X: Expiry<K, V>,
    L: Listener<K, V>,
    P: PredicateFn<K, V>,
    W: Weigher<K, V>,
    S: BuildHasher,
> Cache<K, V, X, L, P, W, S> {
    /// Selects a key for one entry call. moka: `entry`.
    ///
    /// ```text
    /// let entry = cache.entry(key).or_insert(10, now, &mut clock)?;
    /// let is_put = entry.is_fresh; // else `entry.value` is what was there
    /// ```
    pub fn entry(&mut self, key: K) -> OwnedKeyEntrySelector<'_, K, V, X, L, P, W, S>
        ensures same_cache { result.cache.ghost_name ≡ self.entry.ghost_name }
        ensures unchanged { result.cache.now ≡ self.old }
        ensures key { result.key ≡ key }
    {
        OwnedKeyEntrySelector { cache: self, key }
    }
}

impl<
    'a,
    K: Eq + Hash,
    V,
    X: Expiry<K, V>,
    L: Listener<K, V>,
    P: PredicateFn<K, V>,
    W: Weigher<K, V>,
    S: BuildHasher,
> OwnedKeyEntrySelector<'a, K, V, X, L, P, W, S> {
    /// The key's entry, with a clone of its value, if the key is there and visible at the moment `now`; then `value` is
    /// dropped. Otherwise `value` is inserted. No load is counted. moka: `or_insert`.
    ///
    /// # Errors
    /// `OutOfMemory` if memory for a clone or for the insert is refused, `NumbersUsedUp` if too few tickets are left;
    /// key and value come back, and nothing was inserted.
    pub fn or_insert<C: Clock>(
        self,
        value: V,
        now: Instant,
        clock: &mut C,
    ) -> Result<CacheEntry<K, V>, InsertRefused<K, V>>
    where
        K: Clone + Drop,
        V: Clone + Drop,
        P: Drop,
        ensures step { OrInserts (meaning_of K.eq L.tells P.says W.weighs C.reads X.created X.read X.updated)
            K.is_clone V.is_clone self.entry.key (key_hash S.BuildHasher S.Hasher.Hasher
            self.entry.cache.now.engine.hasher (K.hash_input self.entry.key)) now
            self.entry.cache.now clock.old self.exit.0.now clock.new value result }
        ensures succeeds { ContainsStep P.says K.eq self.entry.cache.now.engine.state self.entry.key now.0 true
            → CanHandOutValue V.is_infallible
            (record_of_key K.eq self.entry.cache.now.engine.state.records self.entry.key) → IsOk result }
        ensures disabled { is_disabled self.entry.cache.now.engine.state.capacity ≡ true
            → IfErr result (MayFail K.is_infallible V.is_infallible) }
    {
        let OwnedKeyEntrySelector { cache, key } = self;
        let hash = cache.hash_of(&key);
        match cache.get_hashed(&key, hash, now, clock) {
            Ok(Some(value)) => return Ok(found(key, value)),
            Ok(None) => {}
            Err(_) => {
                let error = InsertError::OutOfMemory;
                return Err(InsertRefused { error, key, value });
            }
        }
        cache.insert_entry(Put { key, hash, value }, false, now, clock)
    }

    /// As `or_insert`, for the value that `init` returns, inserted at the moment `now` as by `Cache::get_with`. `init`
    /// is called only if no value is visible, and counted as a load. moka: `or_insert_with`.
    ///
    /// # Errors
    /// `Lookup`, with the key, if memory for the clone of a value that is there is refused; and `Insert`, with key and
    /// the value that was made, if memory for a clone of either or for the insert is refused, or tickets are used up.
    pub fn or_insert_with<F: FnOnce() -> V, C: Clock>(
        self,
        init: F,
        now: Instant,
        clock: &mut C,
    ) -> Result<CacheEntry<K, V>, GetWithRefused<K, V>>
    where
        K: Clone + Drop,
        V: Clone + Drop,
        P: Drop,
        requires callable { ContainsStep P.says K.eq self.cache.now.engine.state self.key now.0 false → F.pre init }
        ensures step { OrInsertsMade (meaning_of K.eq L.tells P.says W.weighs C.reads X.created X.read X.updated)
            K.is_clone V.is_clone self.entry.key (key_hash S.BuildHasher S.Hasher.Hasher
            self.entry.cache.now.engine.hasher (K.hash_input self.entry.key)) now
            self.entry.cache.now clock.old self.exit.0.now clock.new (F.post init) result }
        ensures looks_up { CanHandOutValue V.is_infallible
            (record_of_key K.eq self.entry.cache.now.engine.state.records self.entry.key) → IfErr result IsOfInsert }
        ensures disabled { is_disabled self.entry.cache.now.engine.state.capacity ≡ true
            → IfErr result (IsOfClone K.is_infallible V.is_infallible) }
    {
        always_made(self.or_try_insert_with(|| Ok(init()), now, clock))
    }

    /// As `or_insert_with`, for an `init` that may return `None`: then nothing is inserted, and `None` is returned.
    /// moka: `or_optionally_insert_with`.
    ///
    /// # Errors
    /// As `or_insert_with`.
    pub fn or_optionally_insert_with<F: FnOnce() -> Option<V>, C: Clock>(
        self,
        init: F,
        now: Instant,
        clock: &mut C,
    ) -> Result<Option<CacheEntry<K, V>>, GetWithRefused<K, V>>
    where
        K: Clone + Drop,
        V: Clone + Drop,
        P: Drop,
        requires callable { ContainsStep P.says K.eq self.cache.now.engine.state self.key now.0 false → F.pre init }
        ensures step { OrInsertsIfMade (meaning_of K.eq L.tells P.says W.weighs C.reads X.created X.read X.updated)
            K.is_clone V.is_clone self.entry.key (key_hash S.BuildHasher S.Hasher.Hasher
            self.entry.cache.now.engine.hasher (K.hash_input self.entry.key)) now
            self.entry.cache.now clock.old self.exit.0.now clock.new (F.post init) result }
        ensures looks_up { CanHandOutValue V.is_infallible
            (record_of_key K.eq self.entry.cache.now.engine.state.records self.entry.key) → IfErr result IsOfInsert }
        ensures disabled { is_disabled self.entry.cache.now.engine.state.capacity ≡ true
            → IfErr result (IsOfClone K.is_infallible V.is_infallible) }
    {
        if_made(self.or_try_insert_with(|| init().ok_or(()), now, clock))
    }

    /// As `or_insert_with`, for an `init` that may fail: then nothing is inserted, and its error is returned. moka:
    /// `or_try_insert_with`.
    ///
    /// # Errors
    /// The outer error as `or_insert_with`; the inner one is the maker's.
    #[inline(always)]
    pub fn or_try_insert_with<E, F: FnOnce() -> Result<V, E>, C: Clock>(
        self,
        init: F,
        now: Instant,
        clock: &mut C,
    ) -> Result<Result<CacheEntry<K, V>, E>, GetWithRefused<K, V>>
    where
        K: Clone + Drop,
        V: Clone + Drop,
        P: Drop,
        requires callable { ContainsStep P.says K.eq self.cache.now.engine.state self.key now.0 false → F.pre init }
        ensures step { OrInsertsIfNoError (meaning_of K.eq L.tells P.says W.weighs C.reads X.created X.read X.updated)
            K.is_clone V.is_clone self.entry.key (key_hash S.BuildHasher S.Hasher.Hasher
            self.entry.cache.now.engine.hasher (K.hash_input self.entry.key)) now
            self.entry.cache.now clock.old self.exit.0.now clock.new (F.post init) result }
        ensures looks_up { CanHandOutValue V.is_infallible
            (record_of_key K.eq self.entry.cache.now.engine.state.records self.entry.key) → IfErr result IsOfInsert }
        ensures disabled { is_disabled self.entry.cache.now.engine.state.capacity ≡ true
            → IfErr result (IsOfClone K.is_infallible V.is_infallible) }
    {
        let OwnedKeyEntrySelector { cache, key } = self;
        let hash = cache.hash_of(&key);
        match cache.get_hashed(&key, hash, now, clock) {
            Ok(Some(value)) => return Ok(Ok(found(key, value))),
            Ok(None) => {}
            Err(_) => return Err(GetWithRefused::Lookup(key)),
        }
        cache.count_load();
        let value = match init() {
            Ok(value) => value,
            Err(error) => return Ok(Err(error)),
        };
        let entry = match cache.insert_entry(Put { key, hash, value }, false, now, clock) {
            Ok(entry) => entry,
            Err(refused) => return Err(GetWithRefused::Insert(refused)),
        };
        Ok(Ok(entry))
    }

    /// Puts the value that `f` makes of a clone of the key's value, or of `None` if the key is not there or not visible
    /// at the moment `now`. No load is counted. moka: `and_upsert_with`.
    ///
    /// ```text
    /// let one_more = |seen: Option<u64>| seen.unwrap_or(0).saturating_add(1);
    /// let entry = cache.entry(page).and_upsert_with(one_more, now, &mut clock)?;
    /// ```
    ///
    /// # Errors
    /// `Lookup`, with the key, if memory for the clone of the value that is there is refused; `f` was not called. And
    /// `Insert`, with key and the value that was made, as `or_insert_with`; what is there was left.
    pub fn and_upsert_with<F: FnOnce(Option<V>) -> V, C: Clock>(
        self,
        f: F,
        now: Instant,
        clock: &mut C,
    ) -> Result<CacheEntry<K, V>, GetWithRefused<K, V>>
    where
        K: Clone + Drop,
        V: Clone + Drop,
        P: Drop,
        requires callable { (seen : Option V)
            → Sees K.eq P.says V.is_clone self.cache.now.engine.state self.key now.0 seen → F.pre f seen }
        ensures step { AndUpserts (meaning_of K.eq L.tells P.says W.weighs C.reads X.created X.read X.updated)
            K.is_clone V.is_clone self.entry.key (key_hash S.BuildHasher S.Hasher.Hasher
            self.entry.cache.now.engine.hasher (K.hash_input self.entry.key)) now
            self.entry.cache.now clock.old self.exit.0.now clock.new (F.post f) result }
        ensures looks_up { CanHandOutValue V.is_infallible
            (record_of_key K.eq self.entry.cache.now.engine.state.records self.entry.key) → IfErr result IsOfInsert }
        ensures disabled { is_disabled self.entry.cache.now.engine.state.capacity ≡ true
            → IfErr result (IsOfClone K.is_infallible V.is_infallible) }
    {
        let OwnedKeyEntrySelector { cache, key } = self;
        let hash = cache.hash_of(&key);
        let Ok(seen) = cache.get_hashed(&key, hash, now, clock) else {
            return Err(GetWithRefused::Lookup(key));
        };
        let is_there = seen.is_some();
        let value = f(seen);
        Ok(cache.insert_entry(Put { key, hash, value }, is_there, now, clock)?)
    }

    /// Puts a value, takes the key out, or does nothing, as `f` answers, which sees a clone of the key's value, or
    /// `None` if the key is not there or not visible at the moment `now`. A removal hands its value out, and the
    /// listener, if one is set, is notified. No load is counted. moka: `and_compute_with`.
    ///
    /// ```text
    /// let remove_full = |seen: Option<&u64>| match seen {
    ///     Some(count) if *count >= 100 => Op::Remove,
    ///     _ => Op::Nop,
    /// };
    /// let done = cache.entry(page).and_compute_with(remove_full, now, &mut clock)?;
    /// let is_removed = matches!(done, CompResult::Removed(_));
    /// ```
    ///
    /// # Errors
    /// `Lookup`, with the key, if memory for the clone of the value that is there is refused; `f` was not called.
    /// `Insert` as `and_upsert_with`. `NotTold`, with key and value, if the listener is not notified of the removal.
    pub fn and_compute_with<F: FnOnce(Option<&V>) -> Op<V>, C: Clock>(
        self,
        f: F,
        now: Instant,
        clock: &mut C,
    ) -> Result<CompResult<K, V>, ComputeRefused<K, V>>
    where
        K: Clone + Drop,
        V: Clone + Drop,
        P: Drop,
        requires callable { (seen : _)
            → Sees K.eq P.says V.is_clone self.cache.now.engine.state self.key now.0 (option_copied seen)
            → F.pre f seen }
        ensures step { AndComputes (meaning_of K.eq (hears_clones K.is_clone V.is_clone L.tells) P.says W.weighs C.reads
            X.created X.read X.updated)
            K.is_clone V.is_clone self.entry.key (key_hash S.BuildHasher S.Hasher.Hasher
            self.entry.cache.now.engine.hasher (K.hash_input self.entry.key)) now
            self.entry.cache.now clock.old self.exit.0.now clock.new (λ seen op. (x : _) × (option_copied x ≡ seen)
            × F.post f x op) result }
        ensures looks_up { CanHandOutValue V.is_infallible
            (record_of_key K.eq self.entry.cache.now.engine.state.records self.entry.key) → IfErr result IsOfChange }
        ensures disabled { is_disabled self.entry.cache.now.engine.state.capacity ≡ true
            → IfErr result (IsOfComputedClone K.is_infallible V.is_infallible) }
        ensures notified { CanNotifyOfAny K.is_infallible V.is_infallible
            self.entry.cache.now.engine.state.settings.listening → IfErr result IsNotOfNotice }
    {
        let OwnedKeyEntrySelector { cache, key } = self;
        cache.compute_with(key, f, now, clock)
    }
}
