//! The visible entries in the order of access, and a cache made again from them.
ghost use Rattle.std.specs.Prelude.{◌≡◌, ◌∷◌, ◌++◌, [], Bool, false, List, IfOk, IfErr, OnErr, option_map};
ghost use Rattle.std.specs.Duration.{as_nanos};
ghost use Rattle.std.specs.Vec.Iter.{into_iter_items};
ghost use Rattle.moka_parts.specs.State.{is_disabled};
ghost use Rattle.moka_types.specs.declared.calls.Reply.TheVariants as reply;
ghost use Rattle.moka_records.specs.declared.instant.Instant.{Instant};
ghost use Rattle.moka_engine.specs.Snapshot.{scene_of};
ghost use Rattle.moka_engine.specs.parts.Restored.{Restored};
ghost use Rattle.moka_records.specs.Hashing.{key_hash};
ghost use Rattle.moka_cache.specs.Saves.{AddsOnly, HasOnlyMembers, AreSaved, AreThere, IsRestored, IsSaved, PutsBack, PutsManyBack, TakesOnlyExpired};
ghost use Rattle.moka_calls.specs.Synchronous.{Just, Makes, meaning_of, own_run};
ghost use Rattle.moka_cache.specs.Unsent.{HidesNoMore};

use super::Cache;
use moka_engine::base_cache::{RestoreRefused, Restored, Snapshot, SnapshotEntry};
use moka_parts::closures::{PredicateFn, Weigher};
use moka_parts::error::OutOfMemory;
use moka_parts::housekeeper::Clock;
use moka_parts::notification::Listener;
use moka_parts::policy::{Expiry, Instant};
use std::alloc::Global;
use std::error::Error;
use std::fmt;
use std::hash::{BuildHasher, Hash};
use std::vec::IntoIter;

/// Entries of which one was not put back.
#[derive(Debug, Drop)]
pub struct RestoreManyRefused<K, V> {
    /// The entry that was refused, and why.
    pub refused: RestoreRefused<K, V>,
    /// The entries after it, in order.
    pub rest: IntoIter<Restored<K, V>>,
}

impl<K, V> fmt::Display for RestoreManyRefused<K, V> {
    ghost use Rattle.std.specs.Prelude.{Some};
    ghost use Rattle.moka_engine.specs.Restores.{restore_text};

    ghost output = { λ e. Some (restore_text e.refused.error) };

    fn fmt<W: fmt::Write>(&self, f: &mut fmt::Formatter<W>) -> fmt::Result {
        write!(f, "{}", self.refused)
    }
}

impl<K: fmt::Debug + Drop, V: fmt::Debug + Drop> Error for RestoreManyRefused<K, V> {}

impl<
    K: Eq + Hash,
    V,
    X: Expiry<K, V>,
    L: Listener<K, V>,
    P: PredicateFn<K, V>,
    W: Weigher<K, V>,
    S: BuildHasher,
> Cache<K, V, X, L, P, W, S> {
    /// The entries that are visible at the moment `now`, least recently used first, with their moments and the time
    /// that each has left. It takes no memory and clones nothing. An entry whose first insert was not applied yet is
    /// left out; `run_pending_tasks` applies all.
    pub fn snapshot(&self, now: Instant) -> Snapshot<'_, K, V, S, X, P>
        ensures { result ≡ scene_of self.now.engine.state now.0 }
    {
        self.engine().snapshot(now)
    }

    /// Runs maintenance at the moment `now`, and then clones what `snapshot` lists: all visible entries, least recently
    /// used first.
    ///
    /// ```text
    /// let saved = cache.save(alloc, now, &mut clock)?;
    /// let mut again = Cache::build(config, alloc, now)?;
    /// again.restore(saved, now, &mut clock)?;
    /// ```
    ///
    /// # Errors
    /// `OutOfMemory` if memory for the list or for a clone is refused. The run was made.
    pub fn save<C: Clock>(
        &mut self,
        alloc: Global,
        now: Instant,
        clock: &mut C,
    ) -> Result<Vec<Restored<K, V>>, OutOfMemory>
    where
        K: Clone + Drop,
        V: Clone + Drop,
        P: Drop,
        ensures saved { IfOk result (λ items. AreSaved P.says K.is_clone V.is_clone
            (scene_of self.new.engine.state now.0) self.new.engine.state.access items.items) }
        ensures members { HasOnlyMembers self.new.engine.state }
        ensures run { (more : Bool) × Makes (meaning_of K.eq L.tells P.says W.weighs C.reads X.created X.read X.updated)
            (Just (own_run now) (reply.Run more)) self.old.engine clock.old self.new.engine clock.new }
        ensures counted { self.new.stats ≡ self.old.stats }
    {
        self.run_pending_tasks(now, clock);
        clones_of(alloc, self.snapshot(now))
    }

    /// Puts back an entry whose key has none, with the moments and the expiry that it had, and sends its operation as
    /// an insert at the moment `now` does. A cache of capacity 0 drops it.
    ///
    /// # Errors
    /// As `BaseCache::restore`: the entry comes back, and nothing has changed.
    pub fn restore_entry<C: Clock>(
        &mut self,
        item: Restored<K, V>,
        now: Instant,
        clock: &mut C,
    ) -> Result<(), RestoreRefused<K, V>>
    where
        K: Drop,
        V: Drop,
        P: Drop,
        ensures made { PutsBack (meaning_of K.eq L.tells P.says W.weighs C.reads X.created X.read X.updated)
            (λ h k. key_hash S.BuildHasher S.Hasher.Hasher h (K.hash_input k)) now item result
            self.old.engine clock.old self.new.engine clock.new }
        ensures kept { IfOk result (λ _. is_disabled self.old.engine.state.capacity ≡ false
            → IsRestored K.eq self.new.engine.state item) }
        ensures adds { AddsOnly (item ∷ []) self.old.engine.state self.new.engine.state }
        ensures lasts { TakesOnlyExpired W.weighs (item ∷ []) now.0 self.old.engine.state self.new.engine.state }
        ensures hides { HidesNoMore self.old.engine.state self.new.engine.state }
        ensures back { IfErr result (λ refused. refused.item ≡ item) }
        ensures unchanged { OnErr result ((self.new.engine.state ≡ self.old.engine.state) × (clock.new ≡ clock.old)) }
        ensures counted { self.new.stats ≡ self.old.stats }
    {
        self.engine.invariant_holds();
        if self.engine.is_map_disabled() {
            return Ok(());
        }
        let ticket = self.engine.restore(item)?;
        Self::post(&mut self.engine, ticket, now, clock);
        self.engine.invariant_holds();
        Ok(())
    }

    /// Puts each entry back, in order, as `restore_entry`.
    ///
    /// If there are no predicates and no invalidation of all: with the saved cache's times to live and to idle, an
    /// entry that was put back is visible exactly when the saved one is, until either is read or written
    /// (`moka_restore_laws`); and if the capacity, should one be set, has room for all (`IsRoomyFor`), each entry that
    /// has not expired at the moment `now` is there afterwards. Else runs that a later entry starts may evict it.
    /// Frequencies and the order of writing are not restored.
    ///
    /// # Errors
    /// As `restore_entry`, at the first entry that is refused: it comes back with the entries after it.
    pub fn restore<C: Clock>(
        &mut self,
        items: Vec<Restored<K, V>>,
        now: Instant,
        clock: &mut C,
    ) -> Result<(), RestoreManyRefused<K, V>>
    where
        K: Drop,
        V: Drop,
        P: Drop,
        ensures made { PutsManyBack (meaning_of K.eq L.tells P.says W.weighs C.reads X.created X.read X.updated)
            (λ h k. key_hash S.BuildHasher S.Hasher.Hasher h (K.hash_input k)) now items.items result
            self.old.engine clock.old self.new.engine clock.new }
        ensures there { IfOk result
            (λ _. AreThere W.weighs K.eq now.0 items.items self.old.engine.state self.new.engine.state) }
        ensures adds { AddsOnly items.items self.old.engine.state self.new.engine.state }
        ensures lasts { TakesOnlyExpired W.weighs items.items now.0 self.old.engine.state self.new.engine.state }
        ensures hides { HidesNoMore self.old.engine.state self.new.engine.state }
        ensures back { IfErr result (λ e. (done : List (Restored K V))
            × (items.items ≡ done ++ e.refused.item ∷ into_iter_items e.rest)) }
        ensures counted { self.new.stats ≡ self.old.stats }
    {
        let mut rest = items.into_iter();
        while let Some(item) = rest.next() {
            if let Err(refused) = self.restore_entry(item, now, clock) {
                return Err(RestoreManyRefused { refused, rest });
            }
        }
        self.engine.invariant_holds();
        Ok(())
    }
}

// Clones of what a snapshot lists.
fn clones_of<K: Eq + Hash + Clone + Drop, V: Clone + Drop, S: BuildHasher, X, P: PredicateFn<K, V>>(
    alloc: Global,
    snapshot: Snapshot<'_, K, V, S, X, P>,
) -> Result<Vec<Restored<K, V>>, OutOfMemory>
    ensures { IfOk result
        (λ items. AreSaved P.says K.is_clone V.is_clone snapshot.entry snapshot.entry.members items.items) }
{
    let mut items = Vec::new(alloc);
    for entry in snapshot {
        let item = clone_of(entry)?;
        let Ok(_) = items.push(item) else {
            return Err(OutOfMemory);
        };
    }
    Ok(items)
}

// A clone of an entry.
fn clone_of<K: Clone + Drop, V: Clone>(
    entry: SnapshotEntry<'_, K, V>,
) -> Result<Restored<K, V>, OutOfMemory>
    ensures { IfOk result (IsSaved K.is_clone V.is_clone (record {
      key = entry.entry.key.now;
      value = entry.entry.value.now;
      written = entry.entry.last_modified;
      read = entry.entry.last_accessed;
      expires = entry.entry.expires;
      left = option_map as_nanos entry.entry.remaining;
    })) }
{
    let (key, value) = (entry.key.clone()?, entry.value.clone()?);
    Ok(Restored {
        key,
        value,
        last_modified: entry.last_modified,
        last_accessed: entry.last_accessed,
        expires: entry.expires,
    })
}
