//! The cache. moka: `sync::base_cache`.
ghost use Rattle.std.specs.Prelude.{◌≡◌, ◌≤◌, ◌||◌, true, false, length, is_some, List, Option, Some, None, Ok, Err, IfOk, IfErr, IsOk, option_map, option_copied, unwrap_or};
ghost use Rattle.std.specs.List.{AllZip};
ghost use Rattle.std.specs.String.{string_bytes};
ghost use Rattle.moka_records.specs.Hashing.{key_hash};
ghost use Rattle.moka_parts.specs.Calls.{entry_of, no_events, only_notices, CapacityStep, InsertStep, SendStep, RemoveStep, ContainsStep, KeysStep};
ghost use Rattle.moka_parts.specs.Copies.{HandsOut, IsCopy, IsEntryCopy, NotifiesOfCopy};
ghost use Rattle.moka_parts.specs.Housekeeper.{new_keeper};
ghost use Rattle.moka_parts.specs.KeyTests.{ContainsByStep, RemoveByStep};
ghost use Rattle.moka_parts.specs.Order.{IsWriteList};
ghost use Rattle.moka_parts.specs.Notices.{Notice};
ghost use Rattle.moka_records.specs.Records.{record_of_key};
ghost use Rattle.moka_parts.specs.Runs.{Befalls};
ghost use Rattle.moka_parts.specs.Settling.{IsValid};
ghost use Rattle.moka_parts.specs.State.{Events, is_disabled, keeps_write_list, limits_of};
ghost use Rattle.moka_parts.specs.Surroundings.{Leads};
ghost use Rattle.moka_store.specs.Hashing.{IsIndexHash};
ghost use Rattle.moka_types.specs.declared.calls.Call.TheVariants as call;
ghost use Rattle.moka_types.specs.declared.calls.Reply.TheVariants as reply;
ghost use Rattle.moka_engine.specs.BaseCache.{IsServed, empty_engine, settings_of};
ghost use Rattle.moka_lookups.specs.Expirations.{expirations_of};
ghost use Rattle.moka_engine.specs.Looks.{CanHandOut};
ghost use Rattle.moka_engine.specs.Makes.{Makes, meaning};

use moka_inner::{Hashes, Inner, Layout};
use moka_lookups::causes;
use moka_lookups::gets::{self, Moments};
use moka_lookups::inserts::{self, Plan};
use moka_parts::calls::{Entry, KvEntry, Ticket};
use moka_parts::closures::{NoTest, PredicateFn, Weigher};
use moka_parts::error::{CapacityError, InsertRefused, OutOfMemory, SendError};
use moka_parts::housekeeper::{Clock, Housekeeper, HousekeeperConfig};
use moka_parts::invalidator::Invalidator;
use moka_parts::key_test::{KeyTest, SameKey};
use moka_parts::notification::{Listener, RemovalNotifier};
use moka_parts::policy::{EvictionPolicy, ExpirationPolicy, Expiry, Instant, Policy};
use moka_parts::records::Record;
use moka_store::{IndexHash, Update};
use std::alloc::Global;
use std::hash::{BuildHasher, Hash};
use std::marker::Model;

mod by_key_test;
mod hits;
mod invalidation;
mod looks;
mod reports;
mod restores;
mod runs;
mod sights;

pub use moka_lookups::sights::Sight;
pub use moka_lookups::snapshot::{Snapshot, SnapshotEntry};
pub use moka_parts::restores::{RestoreError, RestoreRefused, Restored};

// How many segments the map has.
const SEGMENTS: usize = 1;

/// The cache engine: each write returns a ticket, for the caller to send. moka: `sync::base_cache::BaseCache`.
pub struct BaseCache<K: Eq + Hash, V, S: BuildHasher, X: Expiry<K, V>, L, P, W> {
    alloc: Global,
    name: Option<String>,
    inner: Inner<K, V, S>,
    notifier: RemovalNotifier<L>,
    housekeeper: Housekeeper,
    max_capacity: Option<u64>,
    eviction_policy: EvictionPolicy,
    expiration_policy: ExpirationPolicy<X>,
    weigher: Option<W>,
    invalidator_enabled: bool,
    // Records written or read before this moment are invalid.
    valid_after: Option<Instant>,
    invalidator: Invalidator<P>,
    // The report of the last run.
    entry_count: u64,
    weighted_size: u64,
    // The passes of the last run.
    passes: u64,
}

// A cache that is dropped notifies nobody. This is written out so that a caller's drop is one call.
impl<
    K: Eq + Hash + Drop,
    V: Drop,
    S: BuildHasher + Drop,
    X: Expiry<K, V> + Drop,
    L: Drop,
    P: Drop,
    W: Drop,
> Drop for BaseCache<K, V, S, X, L, P, W> {
    fn drop(self) {
        let BaseCache {
            alloc: _,
            name: _,
            inner: _,
            notifier: _,
            housekeeper: _,
            max_capacity: _,
            eviction_policy: _,
            expiration_policy: _,
            weigher: _,
            invalidator_enabled: _,
            valid_after: _,
            invalidator: _,
            entry_count: _,
            weighted_size: _,
            passes: _,
        } = self;
    }
}

impl<K: Eq + Hash, V, S: BuildHasher, X: Expiry<K, V>, L, P, W> Model
    for BaseCache<K, V, S, X, L, P, W> {
    ghost use Rattle.std.specs.Prelude.{option_map};
    ghost use Rattle.std.specs.Coded.{codes, coded_ℕ};
    ghost use Rattle.std.specs.FinMap as finite;
    ghost use Rattle.std.specs.String.{string_bytes};
    ghost use Rattle.moka_parts.specs.Runs.{Engine};
    ghost use Rattle.moka_engine.specs.BaseCache.{IsEngine, settings_of, state_of};

    ghost Value = { Engine K V S X L P W };

    ghost coded = { Prim.hlevel (codes, finite.code, coded_ℕ, K.code, V.code, S.code, X.code, L.code, P.code, W.code) };

    ghost view = { λ c. record {
      name = option_map string_bytes c.name;
      hasher = c.inner.kept.hasher;
      state = state_of c.inner c.valid_after c.invalidator c.entry_count c.weighted_size c.housekeeper c.max_capacity
          (settings_of c.eviction_policy c.expiration_policy c.weigher c.invalidator_enabled c.housekeeper);
      listener = c.notifier;
      write_list = c.inner.kept.written;
      passes = c.passes;
      room = c.inner.kept.room;
    } };

    ghost invariant = { λ c. IsEngine K.eq X.read c.notifier c.inner.kept
        (state_of c.inner c.valid_after c.invalidator c.entry_count c.weighted_size c.housekeeper c.max_capacity
        (settings_of c.eviction_policy c.expiration_policy c.weigher c.invalidator_enabled c.housekeeper)) };
}

impl<
    K: Eq + Hash,
    V,
    S: BuildHasher,
    X: Expiry<K, V>,
    L: Listener<K, V>,
    P: PredicateFn<K, V>,
    W: Weigher<K, V>,
> BaseCache<K, V, S, X, L, P, W> {
    /// An empty cache. Gets start runs of maintenance; after `disable_auto_run` only if the housekeeper's last run left
    /// more. `CacheConfig` has a default for most of the arguments.
    ///
    /// - `alloc`: gives the memory that the cache takes.
    /// - `name`: for the caller alone.
    /// - `max_capacity`: the greatest sum of weights that runs of maintenance leave; `None` is no bound, and with 0 the
    ///   cache keeps nothing and takes no inserts.
    /// - `initial_capacity`: for how many records room is made at once at least, whatever they weigh; `None` asks for
    ///   none. It bounds nothing.
    /// - `build_hasher`: hashes keys, for `hash` and for the map.
    /// - `weigher`: weighs entries as they are inserted, from 0 to 2^32 - 1; without one each weighs 1.
    /// - `eviction_policy`: what leaves if the capacity is exceeded.
    /// - `eviction_listener`: is notified of key, value and cause of each removal but those by `remove_entry`,
    ///   `remove_entry_with_own_hash` and `remove_by`.
    /// - `expiration_policy`: the time to live, as a duration since the last insert; the time to idle, as one since the
    ///   last insert or read; and the expiry of single entries, which inserts and gets ask. Any duration is taken, to
    ///   the nanosecond: the sum of a moment and a duration saturates at 2^64 - 1 nanoseconds.
    /// - `housekeeper_config`: the time limit, repeats and batch of the runs that the housekeeper starts.
    /// - `invalidator_enabled`: whether predicates can be registered.
    /// - `now`: the moment at which it is made. The housekeeper starts no run in the 300 milliseconds after it, unless
    ///   64 writes or 64 reads are queued.
    /// - `first_ticket`: the ticket of the first operation, at least 1. The greater it is, the sooner inserts are
    ///   refused with `NumbersUsedUp`.
    ///
    /// # Errors
    /// `OutOfMemory` if memory for the tables is refused, or if `initial_capacity` is above the limit of records, just
    /// below 2^32.
    #[allow(clippy::too_many_arguments)]
    pub fn new(
        alloc: Global,
        name: Option<String>,
        max_capacity: Option<u64>,
        initial_capacity: Option<usize>,
        build_hasher: S,
        weigher: Option<W>,
        eviction_policy: EvictionPolicy,
        eviction_listener: Option<L>,
        expiration_policy: ExpirationPolicy<X>,
        housekeeper_config: HousekeeperConfig,
        invalidator_enabled: bool,
        now: Instant,
        first_ticket: u64,
    ) -> Result<Self, OutOfMemory>
    where
        K: Drop,
        V: Drop,
        S: Drop,
        X: Drop,
        L: Drop,
        P: Drop,
        W: Drop,
        requires first { 1 ≤ first_ticket }
        ensures empty { IfOk result (λ c. c ≡ empty_engine (option_map string_bytes name) build_hasher
            (settings_of eviction_policy expiration_policy weigher invalidator_enabled
            (new_keeper (is_some eviction_listener) housekeeper_config now.0))
            max_capacity now.0 first_ticket eviction_listener c.room) }
        ensures room { IfOk result (λ c. unwrap_or initial_capacity 0 ≤ c.room) }
    {
        let layout = layout_of(&expiration_policy, invalidator_enabled, initial_capacity);
        let Ok(inner) = Inner::new(alloc, build_hasher, first_ticket, layout) else {
            return Err(OutOfMemory);
        };
        let notifier = RemovalNotifier::new(eviction_listener);
        let housekeeper = Housekeeper::new(notifier.is_enabled(), housekeeper_config, now);
        Ok(BaseCache {
            alloc,
            name,
            inner,
            notifier,
            housekeeper,
            max_capacity,
            eviction_policy,
            expiration_policy,
            weigher,
            invalidator_enabled,
            valid_after: None,
            invalidator: Invalidator::new(alloc),
            entry_count: 0,
            weighted_size: 0,
            passes: 0,
        })
    }

    /// What always holds of a cache, for proofs about its callers. It does nothing when it runs.
    pub fn invariant_holds(&self)
        ensures valid { IsValid K.eq self.now.state }
        ensures listening { self.now.state.settings.listening ≡ is_some self.now.listener }
        ensures listed { keeps_write_list self.now.state.settings ≡ true
            → IsWriteList self.now.state self.now.write_list }
        ensures served { IsServed self.now.state }
    {
        self.inner.invariant_holds();
    }

    /// The cache's name, if it has one.
    pub fn name(&self) -> Option<&str>
        ensures { option_copied result ≡ self.now.name }
    {
        self.name.as_deref()
    }

    /// The cache's limits.
    pub fn policy(&self) -> Policy
        ensures { result ≡ limits_of self.now.state }
    {
        let times = &self.expiration_policy;
        let live = times.time_to_live();
        let idle = times.time_to_idle();
        Policy::new(self.max_capacity, live, idle)
    }

    /// The hash of a key by the cache's own hasher.
    #[inline(always)]
    pub fn hash(&self, key: &K) -> u64
        ensures { result ≡ key_hash S.BuildHasher S.Hasher.Hasher self.now.hasher (K.hash_input key.now) }
    {
        self.inner.store().hash(key)
    }

    /// Whether the capacity is 0, and so nothing is ever kept.
    pub fn is_map_disabled(&self) -> bool
        ensures { result ≡ is_disabled self.now.state.capacity }
    {
        self.max_capacity == Some(0)
    }

    /// Sets the greatest total weight that the cache keeps, `None` for no bound. No run starts: what exceeds a lower
    /// capacity is evicted by the runs that follow. A frequency sketch that is in use stays as it is.
    ///
    /// # Errors
    /// `ZeroCapacity` if the present capacity or the new one is 0: a disabled cache stays disabled, and no other
    /// becomes so. Nothing has changed.
    pub fn set_max_capacity(&mut self, capacity: Option<u64>) -> Result<(), CapacityError>
        ensures step { CapacityStep self.old.state capacity result self.new.state }
        ensures events { Befalls L.tells no_events self.old self.new }
    {
        if self.is_map_disabled() || capacity == Some(0) {
            return Err(CapacityError::ZeroCapacity);
        }
        self.max_capacity = capacity;
        Ok(())
    }

    /// How many members the last run counted, 0 before the first.
    pub fn entry_count(&self) -> u64
        ensures { result ≡ self.now.state.count }
    {
        self.entry_count
    }

    /// The weight that the last run counted, saturating, 0 before the first run.
    pub fn weighted_size(&self) -> u64
        ensures { result ≡ self.now.state.weight }
    {
        self.weighted_size
    }

    /// How many predicates are registered.
    pub fn invalidation_predicate_count(&self) -> u64
        ensures { result ≡ length self.now.state.predicates }
    {
        self.invalidator.len() as u64
    }

    /// Whether a listener is set.
    pub fn is_removal_notifier_enabled(&self) -> bool
        ensures { result ≡ is_some self.now.listener }
    {
        self.notifier.is_enabled()
    }

    /// The listener, if one is set.
    pub fn listener(&self) -> Option<&L>
        ensures { option_copied result ≡ self.now.listener }
    {
        self.notifier.listener()
    }

    /// Puts a value under a key at the moment `now`, and returns a ticket, under which to send the operation, and, as
    /// moka does, `now`. The capacity must not be 0. `hash` may be any number: the sketch counts by it. A record that
    /// is there keeps its first key and hash; the listener takes the key handed in and the old value.
    ///
    /// # Errors
    /// `NumbersUsedUp` if too few tickets are left, and `OutOfMemory` if memory for the operation or for a new record
    /// is refused, or a new record would be one too many: fewer than 2^32 are kept. Key and value come back, and
    /// nothing has changed.
    #[inline(always)]
    pub fn do_insert_with_hash(
        &mut self,
        key: K,
        hash: u64,
        value: V,
        now: Instant,
    ) -> Result<(Ticket, Instant), InsertRefused<K, V>>
    where
        K: Drop,
        V: Drop,
        requires enabled { is_disabled self.old.state.capacity ≡ false }
        ensures { Makes (meaning K.eq L.tells P.says W.weighs X.created X.read X.updated)
            (call.Insert key hash value now) (reply.Insert result) self.old self.new (λ e. e ≡ only_notices e.notices) }
    {
        let own = self.inner.index_hash(&key);
        self.insert_hashed(key, Hashes { hash, own }, value, now)
    }

    /// As `do_insert_with_hash`, given the key's hash by the cache's own hasher (`hash`), so the key is not hashed
    /// again.
    ///
    /// # Errors
    /// As those of `do_insert_with_hash`.
    #[inline(always)]
    pub fn do_insert_with_own_hash(
        &mut self,
        key: K,
        hash: u64,
        value: V,
        now: Instant,
    ) -> Result<(Ticket, Instant), InsertRefused<K, V>>
    where
        K: Drop,
        V: Drop,
        requires enabled { is_disabled self.old.state.capacity ≡ false }
        requires own { hash ≡ key_hash S.BuildHasher S.Hasher.Hasher self.old.hasher (K.hash_input key) }
        ensures { Makes (meaning K.eq L.tells P.says W.weighs X.created X.read X.updated)
            (call.Insert key hash value now) (reply.Insert result) self.old self.new (λ e. e ≡ only_notices e.notices) }
    {
        let own = IndexHash::of(hash);
        self.insert_hashed(key, Hashes { hash, own }, value, now)
    }

    // An insert of a key with both of its hashes.
    #[inline(always)]
    fn insert_hashed(
        &mut self,
        key: K,
        hashes: Hashes,
        value: V,
        now: Instant,
    ) -> Result<(Ticket, Instant), InsertRefused<K, V>>
    where
        K: Drop,
        V: Drop,
        requires enabled { is_disabled self.old.state.capacity ≡ false }
        requires own { IsIndexHash S.BuildHasher S.Hasher.Hasher self.old.hasher (K.hash_input key) hashes.own }
        ensures { (e : Events K V) × InsertStep X.created X.updated W.weighs K.eq self.old.state key hashes.hash value
            now result e self.new.state × Befalls L.tells e self.old self.new × (e ≡ only_notices e.notices) }
    {
        let weight = inserts::weigh(&self.weigher, &key, &value);
        let plan = {
            let moments = Moments {
                policy: &self.expiration_policy,
                valid_after: &self.valid_after,
                now,
            };
            inserts::plan_for(self.inner.store(), &moments, &key, hashes.own, &value)
        };
        match plan {
            Plan::New(expires) => {
                if let Err(error) = self.inner.reserve_record() {
                    return Err(InsertRefused { error, key, value });
                }
                let update = Update {
                    value,
                    now,
                    expires,
                    weight,
                };
                Ok((self.inner.insert(key, hashes, update), now))
            }
            Plan::Update(handle, cause, expires) => {
                if let Err(error) = self.inner.reserve_operation() {
                    return Err(InsertRefused { error, key, value });
                }
                let update = Update {
                    value,
                    now,
                    expires,
                    weight,
                };
                let (old, ticket) = self.inner.update(handle, hashes.hash, update);
                self.notifier.notify(key, old, cause);
                Ok((ticket, now))
            }
        }
    }

    /// Moves the operation of the ticket to the back of the queue of writes. No run starts.
    ///
    /// # Errors
    /// `UnknownTicket` if no operation waits under the ticket, and else `QueueFull` if 384 operations are queued;
    /// the operation is kept.
    #[inline(always)]
    pub fn send(&mut self, ticket: Ticket) -> Result<(), SendError>
        ensures step { SendStep self.old.state ticket.0 result self.new.state }
        ensures events { Befalls L.tells no_events self.old self.new }
    {
        self.inner.send(ticket)
    }

    /// Removes a key's record, expired or not, and returns its own key and value, its moments, and a ticket, under
    /// which the removal is to be sent. It takes no memory and ignores `_hash`, which moka takes. The listener is not
    /// notified: `notify_invalidate` does that.
    pub fn remove_entry(&mut self, key: &K, _hash: u64) -> Option<(KvEntry<K, V>, Ticket)>
    where
        K: Drop,
        ensures step { RemoveStep K.eq self.old.state key.now result self.new.state }
        ensures events { Befalls L.tells no_events self.old self.new }
    {
        let own = self.inner.index_hash(key);
        self.remove_hashed(&SameKey(key), own)
    }

    /// As `remove_entry`, given the key's hash by the cache's own hasher (`hash`), so the key is not hashed again.
    pub fn remove_entry_with_own_hash(
        &mut self,
        key: &K,
        hash: u64,
    ) -> Option<(KvEntry<K, V>, Ticket)>
    where
        K: Drop,
        requires own { hash ≡ key_hash S.BuildHasher S.Hasher.Hasher self.old.hasher (K.hash_input key.now) }
        ensures step { RemoveStep K.eq self.old.state key.now result self.new.state }
        ensures events { Befalls L.tells no_events self.old self.new }
    {
        self.remove_hashed(&SameKey(key), IndexHash::of(hash))
    }

    // A removal of the key that passes, with its hash in the map.
    fn remove_hashed<T: KeyTest<K>>(
        &mut self,
        test: &T,
        own: IndexHash,
    ) -> Option<(KvEntry<K, V>, Ticket)>
    where
        K: Drop,
        requires own { (k : K) → T.passes test.now k ≡ true
            → IsIndexHash S.BuildHasher S.Hasher.Hasher self.old.hasher (K.hash_input k) own }
        ensures step { RemoveByStep (T.passes test.now) self.old.state result self.new.state }
        ensures events { Befalls L.tells no_events self.old self.new }
    {
        let (handle, _) = self.inner.store().find_by(test, own)?;
        let (record, ticket) = self.inner.remove(handle, own);
        Some((entry_of_record(record), ticket))
    }

    /// Notifies the listener of an entry that was removed, with clones of key and value. The cause is `Expired` if its
    /// time to live or idle has passed at the moment `now`, else `Explicit`. Without a listener nothing is cloned.
    ///
    /// # Errors
    /// `OutOfMemory` if memory for a clone is refused. The listener is not notified.
    pub fn notify_invalidate(
        &mut self,
        entry: &KvEntry<K, V>,
        now: Instant,
    ) -> Result<(), OutOfMemory>
    where
        K: Clone + Drop,
        V: Clone + Drop,
        ensures step { (notices : List (Notice K V))
            × NotifiesOfCopy K.is_clone V.is_clone self.old.state.settings entry.now now result notices
            × (self.new.state ≡ self.old.state)
            × Befalls L.tells (only_notices notices) self.old self.new }
        ensures succeeds { (self.old.state.settings.listening ≡ true
            → K.is_infallible entry.now.key × V.is_infallible entry.now.value) → IsOk result }
    {
        if !self.is_removal_notifier_enabled() {
            return Ok(());
        }
        let Ok(key) = entry.key.clone() else {
            return Err(OutOfMemory);
        };
        let Ok(value) = entry.value.clone() else {
            return Err(OutOfMemory);
        };
        let policy = &self.expiration_policy;
        let cause = causes::cause_of_removal(policy, entry.last_modified, entry.last_accessed, now);
        self.notifier.notify(key, value, cause);
        Ok(())
    }

    /// Hides all records that were written or read before the moment `now`; runs of maintenance remove them. This
    /// moment replaces that of an earlier call.
    pub fn invalidate_all(&mut self, now: Instant)
        ensures step { self.new.state ≡ record self.old.state { invalid_before = Some now } }
        ensures events { Befalls L.tells no_events self.old self.new }
    {
        self.valid_after = Some(now);
    }

    /// Whether a key is there and visible at the moment `now`. Nothing is recorded, and `_hash` is ignored.
    pub fn contains_key_with_hash(&self, key: &K, _hash: u64, now: Instant) -> bool
        ensures { ContainsStep P.says K.eq self.now.state key.now now.0 result }
    {
        let own = self.inner.index_hash(key);
        self.contains_hashed(&SameKey(key), own, now)
    }

    /// As `contains_key_with_hash`, given the key's hash by the cache's own hasher (`hash`), so the key is not hashed
    /// again.
    pub fn contains_key_with_own_hash(&self, key: &K, hash: u64, now: Instant) -> bool
        requires own { hash ≡ key_hash S.BuildHasher S.Hasher.Hasher self.now.hasher (K.hash_input key.now) }
        ensures { ContainsStep P.says K.eq self.now.state key.now now.0 result }
    {
        self.contains_hashed(&SameKey(key), IndexHash::of(hash), now)
    }

    // The same of the key that passes, with its hash in the map.
    fn contains_hashed<T: KeyTest<K>>(&self, test: &T, own: IndexHash, now: Instant) -> bool
        requires own { (k : K) → T.passes test.now k ≡ true
            → IsIndexHash S.BuildHasher S.Hasher.Hasher self.now.hasher (K.hash_input k) own }
        ensures { ContainsByStep P.says (T.passes test.now) self.now.state now.0 result }
    {
        let moments = self.moments(now);
        gets::find_shown(self.inner.store(), &moments, &self.invalidator, (test, own)).is_some()
    }

    // What hides records at the moment `now`, but for predicates.
    #[inline(always)]
    fn moments(&self, now: Instant) -> Moments<'_, X>
        ensures policy { result.policy.now ≡ expirations_of self.now.state.settings }
        ensures valid_after { result.valid_after.now ≡ self.now.state.invalid_before }
        ensures now { result.now ≡ now }
    {
        Moments {
            policy: &self.expiration_policy,
            valid_after: &self.valid_after,
            now,
        }
    }

    /// The key that the cache keeps for an equal one, visible or not. Nothing is recorded, and `_hash` is ignored.
    pub fn get_key_with_hash(&self, key: &K, _hash: u64) -> Option<&K>
        ensures { option_copied result ≡ option_map (λ r. r.key) (record_of_key K.eq self.now.state.records key.now) }
    {
        let own = self.inner.index_hash(key);
        let (_, found) = self.inner.store().find_by_key(key, own)?;
        Some(found.key())
    }

    /// How many segments the map has: one. It is for moka's iterators, which go from one to the next.
    pub fn num_cht_segments(&self) -> usize
        ensures { result ≡ 1 }
    {
        SEGMENTS
    }

    /// Clones of all records' keys, in no particular order, if `segment` is 0, else `None`: moka has more segments.
    ///
    /// # Errors
    /// `OutOfMemory` if memory for the list or for a clone is refused.
    pub fn keys(&self, segment: usize) -> Result<Option<Vec<K>>, OutOfMemory>
    where
        K: Clone + Drop,
        ensures ok { IfOk result (λ keys. (own : Option (List K)) × KeysStep self.now.state segment (Ok own)
            × IsCopy (AllZip K.is_clone) own (option_map (λ v. v.items) keys)) }
        ensures err { IfErr result (λ e. KeysStep self.now.state segment (Err e)) }
    {
        if segment >= SEGMENTS {
            return Ok(None);
        }
        match self.inner.store().keys(self.alloc) {
            Ok(keys) => Ok(Some(keys)),
            Err(_) => Err(OutOfMemory),
        }
    }

    /// Looks up a key at the moment `now`, and queues the read. The answer has a clone of the record's value, and one
    /// of its key if `need_key` asks for it. If the capacity is 0, nothing is found and no read is queued. Before
    /// the read is queued a run of maintenance is made if the housekeeper says that one is due; the clock is for that
    /// run.
    ///
    /// # Errors
    /// `OutOfMemory` if memory for a clone is refused. Nothing has changed.
    #[inline(always)]
    pub fn get_with_hash<C: Clock>(
        &mut self,
        key: &K,
        hash: u64,
        need_key: bool,
        now: Instant,
        clock: &mut C,
    ) -> Result<Option<Entry<K, V>>, OutOfMemory>
    where
        K: Clone + Drop,
        V: Clone + Drop,
        P: Drop,
        ensures step { HandsOut (IsEntryCopy K.is_clone V.is_clone)
            (λ own. Makes (meaning K.eq L.tells P.says W.weighs X.created X.read X.updated)
            (call.Get key.now hash need_key now)
            (reply.Get own) self.old self.new (λ e. Leads C.reads clock.old e.readings clock.new)) result }
        ensures succeeds { CanHandOut K.is_infallible V.is_infallible need_key
            (record_of_key K.eq self.old.state.records key.now) → IsOk result }
    {
        let own = self.inner.index_hash(key);
        let sought = (&SameKey(key), Hashes { hash, own });
        self.get_hashed(sought, need_key, now, &mut NoTest, clock)
    }

    /// As `get_with_hash`, given the key's hash by the cache's own hasher (`hash`), so the key is not hashed again.
    ///
    /// # Errors
    /// As those of `get_with_hash`.
    #[inline(always)]
    pub fn get_with_own_hash<C: Clock>(
        &mut self,
        key: &K,
        hash: u64,
        need_key: bool,
        now: Instant,
        clock: &mut C,
    ) -> Result<Option<Entry<K, V>>, OutOfMemory>
    where
        K: Clone + Drop,
        V: Clone + Drop,
        P: Drop,
        requires own { hash ≡ key_hash S.BuildHasher S.Hasher.Hasher self.old.hasher (K.hash_input key.now) }
        ensures step { HandsOut (IsEntryCopy K.is_clone V.is_clone)
            (λ own. Makes (meaning K.eq L.tells P.says W.weighs X.created X.read X.updated)
            (call.Get key.now hash need_key now)
            (reply.Get own) self.old self.new (λ e. Leads C.reads clock.old e.readings clock.new)) result }
        ensures succeeds { CanHandOut K.is_infallible V.is_infallible need_key
            (record_of_key K.eq self.old.state.records key.now) → IsOk result }
    {
        self.get_by(&SameKey(key), hash, need_key, now, clock)
    }
}

// What a removal hands out of the record that it took.
#[inline]
fn entry_of_record<K, V>(taken: Record<K, V>) -> KvEntry<K, V>
    ensures { result ≡ entry_of taken }
{
    KvEntry {
        key: taken.key,
        value: taken.value,
        last_modified: taken.written,
        last_accessed: taken.read,
    }
}

// Records are also kept in the order of their writing if they have a time to live or predicates may cover them, and
// timers are kept if an expiry is set.
fn layout_of<X>(
    policy: &ExpirationPolicy<X>,
    invalidator_enabled: bool,
    initial_capacity: Option<usize>,
) -> Layout
    ensures { result ≡ record {
      initial_capacity = unwrap_or initial_capacity 0;
      ordered = is_some policy.now.time_to_live || invalidator_enabled;
      timed = is_some policy.now.expiry;
    } }
{
    Layout {
        initial_capacity: initial_capacity.unwrap_or(0),
        ordered: policy.time_to_live().is_some() | invalidator_enabled,
        timed: policy.expiry().is_some(),
    }
}
