//! The visible entries in the order of access, and a cache made again from them.
ghost use Rattle.std.specs.Prelude.{◌≡◌, ◌∷◌, ◌++◌, [], Bool, false, List, IfOk, IfErr, OnErr};
ghost use Rattle.std.specs.Vec.Iter.{into_iter_items};
ghost use Rattle.moka_parts.specs.State.{is_disabled};
ghost use Rattle.moka_types.specs.declared.calls.Reply.TheVariants as reply;
ghost use Rattle.moka_engine.specs.Snapshot.{scene_of};
ghost use Rattle.moka_engine.specs.parts.Restored.{Restored};
ghost use Rattle.moka_records.specs.Hashing.{key_hash};
ghost use Rattle.moka_cache.specs.Saves.{AddsOnly, HasOnlyMembers, AreSaved, AreThere, IsRestored, PutsBack, PutsManyBack, TakesOnlyExpired};
ghost use Rattle.moka_timed.specs.Moments.{AtItsMoment};
ghost use Rattle.moka_calls.specs.Synchronous.{Just, Makes, meaning_of, own_run};
ghost use Rattle.moka_cache.specs.Unsent.{HidesNoMore};

use crate::cache::TimedCache;
use moka_cache::cache::RestoreManyRefused;
use moka_engine::base_cache::{RestoreRefused, Restored};
use moka_parts::closures::{PredicateFn, Weigher};
use moka_parts::error::OutOfMemory;
use moka_parts::housekeeper::Clock;
use moka_parts::notification::Listener;
use moka_parts::policy::Expiry;
use std::alloc::Global;
use std::hash::{BuildHasher, Hash};

impl<
    K: Eq + Hash,
    V,
    C: Clock,
    X: Expiry<K, V>,
    L: Listener<K, V>,
    P: PredicateFn<K, V>,
    W: Weigher<K, V>,
    S: BuildHasher,
> TimedCache<K, V, C, X, L, P, W, S> {
    /// Runs maintenance, and then clones all visible entries, least recently used first.
    ///
    /// # Errors
    /// As `Cache::save`.
    pub fn save(&mut self, alloc: Global) -> Result<Vec<Restored<K, V>>, OutOfMemory>
    where
        K: Clone + Drop,
        V: Clone + Drop,
        P: Drop,
        ensures saved { AtItsMoment C.reads self.old self.new (λ now old clock new clock_after.
            IfOk result (λ items. AreSaved P.says K.is_clone V.is_clone
            (scene_of new.engine.state now.0) new.engine.state.access items.items)
            × ((more : Bool) × Makes (meaning_of K.eq L.tells P.says W.weighs C.reads X.created X.read X.updated)
            (Just (own_run now) (reply.Run more)) old.engine clock new.engine clock_after)) }
        ensures members { HasOnlyMembers self.new.cache.engine.state }
        ensures counted { self.new.cache.stats ≡ self.old.cache.stats }
    {
        let now = self.clock.now();
        self.cache.save(alloc, now, &mut self.clock)
    }

    /// Puts back an entry whose key has none, with the moments and the expiry that it had, and sends its operation as
    /// an insert at the clock's moment does. A cache of capacity 0 drops it.
    ///
    /// # Errors
    /// As `Cache::restore_entry`.
    pub fn restore_entry(&mut self, item: Restored<K, V>) -> Result<(), RestoreRefused<K, V>>
    where
        K: Drop,
        V: Drop,
        P: Drop,
        ensures made { AtItsMoment C.reads self.old self.new (λ now old clock new clock_after.
            PutsBack (meaning_of K.eq L.tells P.says W.weighs C.reads X.created X.read X.updated)
            (λ h k. key_hash S.BuildHasher S.Hasher.Hasher h (K.hash_input k)) now item result
            old.engine clock new.engine clock_after
            × TakesOnlyExpired W.weighs (item ∷ []) now.0 old.engine.state new.engine.state) }
        ensures kept { IfOk result (λ _. is_disabled self.old.cache.engine.state.capacity ≡ false
            → IsRestored K.eq self.new.cache.engine.state item) }
        ensures adds { AddsOnly (item ∷ []) self.old.cache.engine.state self.new.cache.engine.state }
        ensures hides { HidesNoMore self.old.cache.engine.state self.new.cache.engine.state }
        ensures back { IfErr result (λ refused. refused.item ≡ item) }
        ensures unchanged { OnErr result (self.new.cache.engine.state ≡ self.old.cache.engine.state) }
        ensures counted { self.new.cache.stats ≡ self.old.cache.stats }
    {
        let now = self.clock.now();
        self.cache.restore_entry(item, now, &mut self.clock)
    }

    /// Puts each entry back, in order, with the moments and the expiry that it had. Runs of maintenance that this
    /// starts are made at the clock's moment.
    ///
    /// # Errors
    /// As `Cache::restore`.
    pub fn restore(&mut self, items: Vec<Restored<K, V>>) -> Result<(), RestoreManyRefused<K, V>>
    where
        K: Drop,
        V: Drop,
        P: Drop,
        ensures made { AtItsMoment C.reads self.old self.new (λ now old clock new clock_after.
            PutsManyBack (meaning_of K.eq L.tells P.says W.weighs C.reads X.created X.read X.updated)
            (λ h k. key_hash S.BuildHasher S.Hasher.Hasher h (K.hash_input k)) now items.items result
            old.engine clock new.engine clock_after
            × IfOk result (λ _. AreThere W.weighs K.eq now.0 items.items old.engine.state new.engine.state)
            × TakesOnlyExpired W.weighs items.items now.0 old.engine.state new.engine.state) }
        ensures adds { AddsOnly items.items self.old.cache.engine.state self.new.cache.engine.state }
        ensures hides { HidesNoMore self.old.cache.engine.state self.new.cache.engine.state }
        ensures back { IfErr result (λ e. (done : List (Restored K V))
            × (items.items ≡ done ++ e.refused.item ∷ into_iter_items e.rest)) }
        ensures counted { self.new.cache.stats ≡ self.old.cache.stats }
    {
        let now = self.clock.now();
        self.cache.restore(items, now, &mut self.clock)
    }
}
