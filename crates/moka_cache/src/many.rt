//! Calls for many keys at once. Each makes the call for one key after the other, in order, and stops at the first that
//! is refused.
ghost use Rattle.std.specs.Prelude.{◌≡◌, [], IfErr, IsOk};
ghost use Rattle.moka_parts.specs.Counters.{after_look_ups};
ghost use Rattle.moka_records.specs.Hashing.{key_hash};
ghost use Rattle.moka_calls.specs.Many.{GetsMany, InsertsMany, InvalidatesMany, found_by};
ghost use Rattle.moka_calls.specs.Synchronous.{Makes, hears_clones, meaning_of};
ghost use Rattle.moka_cache.specs.Keyed.{CanNotifyOfAny};

use crate::cache::Cache;
pub use moka_calls::many::{GetManyRefused, InsertManyRefused, InvalidateManyRefused};
use moka_parts::closures::{PredicateFn, Weigher};
use moka_parts::housekeeper::Clock;
use moka_parts::notification::Listener;
use moka_parts::policy::{Expiry, Instant};
use std::alloc::Global;
use std::hash::{BuildHasher, Hash};

impl<
    K: Eq + Hash,
    V,
    X: Expiry<K, V>,
    L: Listener<K, V>,
    P: PredicateFn<K, V>,
    W: Weigher<K, V>,
    S: BuildHasher,
> Cache<K, V, X, L, P, W, S> {
    /// Looks up each key at the moment `now`, in order, as `get` does; the answers are in the same order.
    ///
    /// # Errors
    /// As `get`, at the first key that is refused: what the keys before it found comes back. If there is no memory for
    /// the list of answers, no key is looked up.
    pub fn get_many<C: Clock>(
        &mut self,
        alloc: Global,
        keys: &[K],
        now: Instant,
        clock: &mut C,
    ) -> Result<Vec<Option<V>>, GetManyRefused<V>>
    where
        K: Clone + Drop,
        V: Clone + Drop,
        P: Drop,
        ensures made { Makes (meaning_of K.eq L.tells P.says W.weighs C.reads X.created X.read X.updated)
            (GetsMany V.is_clone (λ key.
            key_hash S.BuildHasher S.Hasher.Hasher self.old.engine.hasher (K.hash_input key)) now keys.now result)
            self.old.engine clock.old self.new.engine clock.new }
        ensures looks_up { ((value : V) → V.is_infallible value) → IfErr result (λ refused. (refused.found.items ≡ [])
            × (self.new.engine.state ≡ self.old.engine.state) × (clock.new ≡ clock.old)) }
        ensures counted { self.new.stats ≡ after_look_ups (found_by result) self.old.stats }
    {
        let Ok(mut found) = Vec::with_capacity(alloc, keys.len()) else {
            let found = Vec::new(alloc);
            return Err(GetManyRefused { found });
        };
        let mut rest = keys;
        while let Some((key, after)) = rest.split_first() {
            match self.get(key, now, clock) {
                Ok(value) => {
                    found.push_reserved(value);
                    rest = after;
                }
                Err(_) => return Err(GetManyRefused { found }),
            }
        }
        Ok(found)
    }

    /// Inserts each item at the moment `now`, in order, as `insert`.
    ///
    /// # Errors
    /// As `insert`, at the first item that is refused: it comes back with the items after it.
    pub fn insert_many<C: Clock>(
        &mut self,
        items: Vec<(K, V)>,
        now: Instant,
        clock: &mut C,
    ) -> Result<(), InsertManyRefused<K, V>>
    where
        K: Drop,
        V: Drop,
        P: Drop,
        ensures made { Makes (meaning_of K.eq L.tells P.says W.weighs C.reads X.created X.read X.updated)
            (InsertsMany (λ key. key_hash S.BuildHasher S.Hasher.Hasher self.old.engine.hasher (K.hash_input key)) now
            items.items result)
            self.old.engine clock.old self.new.engine clock.new }
        ensures counted { self.new.stats ≡ self.old.stats }
    {
        let total = items.len();
        let mut rest = items.into_iter();
        while let Some((key, value)) = rest.next() {
            match self.insert(key, value, now, clock) {
                Ok(()) => {}
                Err(refused) => {
                    let done = total - rest.len() - 1;
                    return Err(InsertManyRefused {
                        done,
                        refused,
                        rest,
                    });
                }
            }
        }
        Ok(())
    }

    /// Takes each key out at the moment `now`, in order, as `invalidate`.
    ///
    /// # Errors
    /// As `invalidate`, at the first key of whose removal the listener is not notified: the keys after it are left.
    pub fn invalidate_many<C: Clock>(
        &mut self,
        keys: &[K],
        now: Instant,
        clock: &mut C,
    ) -> Result<(), InvalidateManyRefused<V>>
    where
        K: Clone + Drop,
        V: Clone + Drop,
        P: Drop,
        ensures made { Makes (meaning_of K.eq (hears_clones K.is_clone V.is_clone L.tells) P.says W.weighs C.reads
            X.created X.read X.updated)
            (InvalidatesMany (λ key. key_hash S.BuildHasher S.Hasher.Hasher self.old.engine.hasher (K.hash_input key))
            now keys.now result)
            self.old.engine clock.old self.new.engine clock.new }
        ensures succeeds { CanNotifyOfAny K.is_infallible V.is_infallible self.old.engine.state.settings.listening
            → IsOk result }
        ensures counted { self.new.stats ≡ self.old.stats }
    {
        let mut rest = keys;
        while let Some((key, after)) = rest.split_first() {
            match self.invalidate(key, now, clock) {
                Ok(()) => rest = after,
                Err(refused) => {
                    let done = keys.len() - rest.len();
                    return Err(InvalidateManyRefused { done, refused });
                }
            }
        }
        Ok(())
    }
}
