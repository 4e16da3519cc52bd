//! The insert of entry calls, which hands out its entry. moka: `sync::entry_selector`.
ghost use Rattle.std.specs.Prelude.{◌≡◌, true, Result, IfOk, IfErr};
ghost use Rattle.moka_types.specs.declared.error.InsertRefused.{InsertRefused};
ghost use Rattle.moka_parts.specs.State.{is_disabled};
ghost use Rattle.moka_calls.specs.Entry.{entry_value, IsFresh};
ghost use Rattle.moka_records.specs.Hashing.{key_hash};
ghost use Rattle.moka_cache.specs.Keyed.{MayFail};
ghost use Rattle.moka_calls.specs.Synchronous.{Makes, meaning_of, InsertsMade, HandsOutOwn};

use crate::cache::{Cache, Put};
pub use moka_calls::entry::CacheEntry;
use moka_parts::closures::{PredicateFn, Weigher};
use moka_parts::error::{InsertError, InsertRefused};
use moka_parts::housekeeper::Clock;
use moka_parts::notification::Listener;
use moka_parts::policy::{Expiry, Instant};
use std::hash::{BuildHasher, Hash};

impl<
    K: Eq + Hash,
    V,
    X: Expiry<K, V>,
    L: Listener<K, V>,
    P: PredicateFn<K, V>,
    W: Weigher<K, V>,
    S: BuildHasher,
> Cache<K, V, X, L, P, W, S> {
    // Inserts a value for a key with its hash, and hands out its entry.
    pub(crate) fn insert_entry<C: Clock>(
        &mut self,
        put: Put<K, V>,
        is_old_value_replaced: bool,
        now: Instant,
        clock: &mut C,
    ) -> Result<CacheEntry<K, V>, InsertRefused<K, V>>
    where
        K: Clone + Drop,
        V: Clone + Drop,
        P: Drop,
        requires own { put.hash ≡ key_hash S.BuildHasher S.Hasher.Hasher self.old.engine.hasher (K.hash_input put.key) }
        ensures made { (own : Result V (InsertRefused K V)) × HandsOutOwn V.is_clone own (entry_value result)
            × Makes (meaning_of K.eq L.tells P.says W.weighs C.reads X.created X.read X.updated)
            (InsertsMade put.key (key_hash S.BuildHasher S.Hasher.Hasher self.old.engine.hasher (K.hash_input put.key))
            now put.value own)
            self.old.engine clock.old self.new.engine clock.new }
        ensures back { IfErr result (λ refused. (refused.key ≡ put.key) × (refused.value ≡ put.value)) }
        ensures disabled { is_disabled self.old.engine.state.capacity ≡ true
            → IfErr result (MayFail K.is_infallible V.is_infallible) }
        ensures entry { IfOk result (λ e. IsFresh K.is_clone put.key e
            × (e.is_old_value_replaced ≡ is_old_value_replaced)) }
        ensures counted { self.new.stats ≡ self.old.stats }
    {
        let Put { key, hash, value } = put;
        let Ok(own_key) = key.clone() else {
            let error = InsertError::OutOfMemory;
            return Err(InsertRefused { error, key, value });
        };
        let value = self.insert_made_hashed(Put { key, hash, value }, now, clock)?;
        Ok(CacheEntry {
            key: own_key,
            value,
            is_fresh: true,
            is_old_value_replaced,
        })
    }
}
