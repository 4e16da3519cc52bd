//! Calls for many keys at once, each at one moment of the clock.
ghost use Rattle.std.specs.Prelude.{◌≡◌, [], IfErr, IsOk};
ghost use Rattle.moka_records.specs.Hashing.{key_hash};
ghost use Rattle.moka_parts.specs.Counters.{after_look_ups};
ghost use Rattle.moka_calls.specs.Many.{GetsMany, InsertsMany, InvalidatesMany, found_by};
ghost use Rattle.moka_cache.specs.Keyed.{CanNotifyOfAny};
ghost use Rattle.moka_timed.specs.Moments.{AtItsMoment};
ghost use Rattle.moka_calls.specs.Synchronous.{Makes, hears_clones, meaning_of};

use crate::cache::TimedCache;
use moka_cache::many::{GetManyRefused, InsertManyRefused, InvalidateManyRefused};
use moka_parts::closures::{PredicateFn, Weigher};
use moka_parts::housekeeper::Clock;
use moka_parts::notification::Listener;
use moka_parts::policy::Expiry;
use std::alloc::Global;
use std::hash::{BuildHasher, Hash};

impl<
    K: Eq + Hash,
    V,
    C: Clock,
    X: Expiry<K, V>,
    L: Listener<K, V>,
    P: PredicateFn<K, V>,
    W: Weigher<K, V>,
    S: BuildHasher,
> TimedCache<K, V, C, X, L, P, W, S> {
    /// Looks up each key, in order, as `get` does; the answers are in the same order.
    ///
    /// # Errors
    /// As `Cache::get_many`.
    pub fn get_many(
        &mut self,
        alloc: Global,
        keys: &[K],
    ) -> Result<Vec<Option<V>>, GetManyRefused<V>>
    where
        K: Clone + Drop,
        V: Clone + Drop,
        P: Drop,
        ensures made { AtItsMoment C.reads self.old self.new (λ now old clock new clock_after.
            Makes (meaning_of K.eq L.tells P.says W.weighs C.reads X.created X.read X.updated)
            (GetsMany V.is_clone (λ key. key_hash S.BuildHasher S.Hasher.Hasher old.engine.hasher (K.hash_input key))
            now keys.now result) old.engine clock new.engine clock_after) }
        ensures looks_up { ((value : V) → V.is_infallible value) → IfErr result (λ refused. (refused.found.items ≡ [])
            × (self.new.cache.engine.state ≡ self.old.cache.engine.state)) }
        ensures counted { self.new.cache.stats ≡ after_look_ups (found_by result) self.old.cache.stats }
    {
        let now = self.clock.now();
        self.cache.get_many(alloc, keys, now, &mut self.clock)
    }

    /// Inserts each item, in order, as `insert`.
    ///
    /// # Errors
    /// As `Cache::insert_many`.
    pub fn insert_many(&mut self, items: Vec<(K, V)>) -> Result<(), InsertManyRefused<K, V>>
    where
        K: Drop,
        V: Drop,
        P: Drop,
        ensures made { AtItsMoment C.reads self.old self.new (λ now old clock new clock_after.
            Makes (meaning_of K.eq L.tells P.says W.weighs C.reads X.created X.read X.updated)
            (InsertsMany (λ key. key_hash S.BuildHasher S.Hasher.Hasher old.engine.hasher (K.hash_input key))
            now items.items result) old.engine clock new.engine clock_after) }
        ensures counted { self.new.cache.stats ≡ self.old.cache.stats }
    {
        let now = self.clock.now();
        self.cache.insert_many(items, now, &mut self.clock)
    }

    /// Takes each key out, in order, as `invalidate`.
    ///
    /// # Errors
    /// As `Cache::invalidate_many`.
    pub fn invalidate_many(&mut self, keys: &[K]) -> Result<(), InvalidateManyRefused<V>>
    where
        K: Clone + Drop,
        V: Clone + Drop,
        P: Drop,
        ensures made { AtItsMoment C.reads self.old self.new (λ now old clock new clock_after.
            Makes (meaning_of K.eq (hears_clones K.is_clone V.is_clone L.tells) P.says W.weighs C.reads
            X.created X.read X.updated)
            (InvalidatesMany (λ key. key_hash S.BuildHasher S.Hasher.Hasher old.engine.hasher (K.hash_input key))
            now keys.now result) old.engine clock new.engine clock_after) }
        ensures succeeds { CanNotifyOfAny K.is_infallible V.is_infallible
            self.old.cache.engine.state.settings.listening → IsOk result }
        ensures counted { self.new.cache.stats ≡ self.old.cache.stats }
    {
        let now = self.clock.now();
        self.cache.invalidate_many(keys, now, &mut self.clock)
    }
}
