//! Makes calls one after the other.
ghost use Rattle.std.specs.Prelude.{◌≡◌, length, List, IfOk, IfErr, IfSome, IsOk, OnErr};
ghost use Rattle.std.specs.List.{All};
ghost use Rattle.moka_parts.specs.State.{Events, meaning_of};
ghost use Rattle.moka_parts.specs.Surroundings.{Leads};
ghost use Rattle.moka_parts.specs.Calls.{only_notices, KeyStep};
ghost use Rattle.moka_parts.specs.Copies.{ClonesAreEqual};
ghost use Rattle.moka_parts.specs.Notices.{Notice};
ghost use Rattle.moka_parts.specs.Drives.{Drives};
ghost use Rattle.moka_parts.specs.Runs.{Befalls};
ghost use Rattle.moka_types.specs.declared.calls.Reply.TheVariants.{Report};
ghost use Rattle.moka_engine.specs.Makes.{Makes as MakesCall};
ghost use Rattle.moka_drive.specs.Replies.{AreInfallible, IsGranted, RemovesAndNotifies, NotifiesEntry, TellsPending};

use moka_engine::base_cache::BaseCache;
use moka_parts::calls::{Call, DriveRefused, KvEntry, Reply};
use moka_parts::closures::{NoTest, PredicateFn, Weigher};
use moka_parts::error::OutOfMemory;
use moka_parts::housekeeper::Clock;
use moka_parts::invalidator::IdSource;
use moka_parts::notification::Listener;
use moka_parts::policy::{Expiry, Instant};
use std::alloc::Global;
use std::hash::{BuildHasher, Hash};

/// Makes the calls one after the other, and answers each with the reply of the same name. A removal that carries a
/// moment and finds its key is followed by `notify_invalidate` at that moment.
///
/// Replies, records and notices are a run of the reference cache, in which each run of maintenance keeps all that is
/// promised of it: one with a batch of at least one that begins with every operation sent, and is not cut short, ends
/// with count and weight exactly the records', and the weight within the capacity. If a listener is set, it is notified
/// of each value that leaves the map in a call exactly once, in the order in which they leave; the value of a removal
/// is handed back, and it is notified of that only if the call carries a moment.
///
/// The calls are in the order of time if no insert is earlier than the last write of a record that is there, and each
/// send moves the oldest operation that waits. If the cache is empty at first and the calls are in the order of time,
/// such a run also leaves no record past its time to live, and none written before the last invalidation of all. This
/// applies to caches that have a time to live or support predicates.
///
/// If clones of keys and values cannot fail, as those of numbers cannot, no look-up or notice is refused memory.
///
/// # Errors
/// `OutOfMemory` if there is no room for the replies. The calls come back, and none was made. If a single call is
/// refused, that is its reply, and the next follows.
pub fn drive<
    K: Eq + Hash + Clone,
    V: Clone,
    S: BuildHasher,
    X: Expiry<K, V>,
    L: Listener<K, V>,
    P: PredicateFn<K, V> + Drop,
    W: Weigher<K, V>,
    I: IdSource,
    C: Clock,
>(
    alloc: Global,
    cache: &mut BaseCache<K, V, S, X, L, P, W>,
    calls: Vec<Call<K, V, P>>,
    ids: &mut I,
    clock: &mut C,
) -> Result<Vec<Reply<K, V, P>>, DriveRefused<K, V, P>>
    requires keys { ClonesAreEqual K.is_clone }
    requires values { ClonesAreEqual V.is_clone }
    ensures run { IfOk result (λ replies. Drives
        (meaning_of K.eq L.tells P.says W.weighs C.reads I.gives X.created X.read X.updated)
        calls.items replies.items cache.old clock.old ids.old cache.new clock.new ids.new) }
    ensures granted { AreInfallible K.is_infallible V.is_infallible
        → IfOk result (λ replies. All IsGranted replies.items) }
    ensures refused { IfErr result (λ e. e.calls ≡ calls) }
    ensures unchanged { OnErr result ((cache.new ≡ cache.old) × (clock.new ≡ clock.old) × (ids.new ≡ ids.old)) }
{
    cache.invariant_holds();
    let Ok(mut replies) = Vec::with_capacity(alloc, calls.len()) else {
        let error = OutOfMemory;
        return Err(DriveRefused { error, calls });
    };
    for call in calls {
        let reply = make(cache, call, ids, clock);
        replies.push_reserved(reply);
    }
    Ok(replies)
}

// Makes one call.
fn make<
    K: Eq + Hash + Clone,
    V: Clone,
    S: BuildHasher,
    X: Expiry<K, V>,
    L: Listener<K, V>,
    P: PredicateFn<K, V> + Drop,
    W: Weigher<K, V>,
    I: IdSource,
    C: Clock,
>(
    cache: &mut BaseCache<K, V, S, X, L, P, W>,
    call: Call<K, V, P>,
    ids: &mut I,
    clock: &mut C,
) -> Reply<K, V, P>
    requires keys { ClonesAreEqual K.is_clone }
    requires values { ClonesAreEqual V.is_clone }
    ensures step { MakesCall (meaning_of K.eq L.tells P.says W.weighs C.reads I.gives X.created X.read X.updated) call
        result cache.old cache.new
        (λ e. Leads C.reads clock.old e.readings clock.new × Leads I.gives ids.old e.ids ids.new) }
    ensures granted { AreInfallible K.is_infallible V.is_infallible → IsGranted result }
{
    match call {
        Call::Insert {
            key,
            hash,
            value,
            now,
        } => {
            if cache.is_map_disabled() {
                Reply::Disabled { key, value }
            } else {
                Reply::Insert(cache.do_insert_with_hash(key, hash, value, now))
            }
        }
        Call::Send { ticket } => Reply::Send(cache.send(ticket)),
        Call::Get {
            key,
            hash,
            need_key,
            now,
        } => Reply::Get(cache.get_with_hash(&key, hash, need_key, now, clock)),
        Call::GetUnrecorded { key, hash, now } => Reply::GetUnrecorded(
            cache.get_with_hash_without_recording(&key, hash, None::<&mut NoTest>, now),
        ),
        Call::Scan { key, now } => Reply::Scan(cache.scanning_get(&key, now)),
        Call::Contains { key, hash, now } => {
            Reply::Contains(cache.contains_key_with_hash(&key, hash, now))
        }
        Call::Key { key, hash } => Reply::Key(key_of(cache, &key, hash)),
        Call::Remove { key, hash, now } => remove(cache, &key, hash, now),
        Call::InvalidateAll { now } => {
            cache.invalidate_all(now);
            Reply::InvalidateAll
        }
        Call::InvalidateIf { predicate, now } => {
            Reply::InvalidateIf(cache.invalidate_entries_if(predicate, now, ids))
        }
        Call::Keys { segment } => Reply::Keys(cache.keys(segment)),
        Call::Run {
            now,
            limit,
            repeats,
            batch,
        } => Reply::Run(cache.run_pending_tasks(now, clock, limit, repeats, batch)),
        Call::RunIfDue { now } => {
            cache.apply_reads_writes_if_needed(now, clock);
            Reply::RunIfDue
        }
        Call::DisableAutoRun => {
            cache.disable_auto_run();
            Reply::DisableAutoRun
        }
        Call::Report => report(cache),
        Call::Pending => pending(cache),
        Call::SetCapacity { capacity } => Reply::SetCapacity(cache.set_max_capacity(capacity)),
    }
}

// A removal, and if it carries a moment and found its key, the notice of the entry.
fn remove<
    K: Eq + Hash + Clone,
    V: Clone,
    S: BuildHasher,
    X: Expiry<K, V>,
    L: Listener<K, V>,
    P: PredicateFn<K, V> + Drop,
    W: Weigher<K, V>,
>(
    cache: &mut BaseCache<K, V, S, X, L, P, W>,
    key: &K,
    hash: u64,
    now: Option<Instant>,
) -> Reply<K, V, P>
    requires keys { ClonesAreEqual K.is_clone }
    requires values { ClonesAreEqual V.is_clone }
    ensures step { (e : Events K V) × RemovesAndNotifies K.eq cache.old.state key.now now result e cache.new.state
        × Befalls L.tells e cache.old cache.new }
    ensures granted { AreInfallible K.is_infallible V.is_infallible → IsGranted result }
{
    let Some((entry, ticket)) = cache.remove_entry(key, hash) else {
        return Reply::Remove {
            removed: None,
            told: None,
        };
    };
    let told = notify(cache, &entry, now);
    let removed = Some((entry, ticket));
    Reply::Remove { removed, told }
}

// The notice of an entry that was removed, if the removal carries a moment.
fn notify<
    K: Eq + Hash + Clone,
    V: Clone,
    S: BuildHasher,
    X: Expiry<K, V>,
    L: Listener<K, V>,
    P: PredicateFn<K, V>,
    W: Weigher<K, V>,
>(
    cache: &mut BaseCache<K, V, S, X, L, P, W>,
    entry: &KvEntry<K, V>,
    now: Option<Instant>,
) -> Option<Result<(), OutOfMemory>>
    requires keys { ClonesAreEqual K.is_clone }
    requires values { ClonesAreEqual V.is_clone }
    ensures step { (notices : List (Notice K V))
        × NotifiesEntry cache.old.state.settings entry.now now result notices
        × (cache.new.state ≡ cache.old.state)
        × Befalls L.tells (only_notices notices) cache.old cache.new }
    ensures granted { AreInfallible K.is_infallible V.is_infallible → IfSome result IsOk }
{
    match now {
        Some(now) => Some(cache.notify_invalidate(entry, now)),
        None => None,
    }
}

// The report of the last run.
fn report<
    K: Eq + Hash,
    V,
    S: BuildHasher,
    X: Expiry<K, V>,
    L: Listener<K, V>,
    P: PredicateFn<K, V>,
    W: Weigher<K, V>,
>(cache: &BaseCache<K, V, S, X, L, P, W>) -> Reply<K, V, P>
    ensures { result ≡ Report cache.now.state.count cache.now.state.weight (length cache.now.state.predicates) }
{
    Reply::Report {
        count: cache.entry_count(),
        weight: cache.weighted_size(),
        predicates: cache.invalidation_predicate_count(),
    }
}

// What waits to be sent or applied.
fn pending<
    K: Eq + Hash,
    V,
    S: BuildHasher,
    X: Expiry<K, V>,
    L: Listener<K, V>,
    P: PredicateFn<K, V>,
    W: Weigher<K, V>,
>(cache: &BaseCache<K, V, S, X, L, P, W>) -> Reply<K, V, P>
    ensures { TellsPending cache.now.state result }
{
    Reply::Pending {
        handed: cache.outstanding(),
        oldest: cache.oldest_unsent(),
        writes: cache.queued_writes(),
        reads: cache.queued_reads(),
    }
}

// A clone of the key that the cache keeps.
fn key_of<
    K: Eq + Hash + Clone,
    V,
    S: BuildHasher,
    X: Expiry<K, V>,
    L: Listener<K, V>,
    P: PredicateFn<K, V>,
    W: Weigher<K, V>,
>(cache: &BaseCache<K, V, S, X, L, P, W>, key: &K, hash: u64) -> Result<Option<K>, OutOfMemory>
    requires keys { ClonesAreEqual K.is_clone }
    ensures step { KeyStep K.eq cache.now.state key.now result }
    ensures granted { ((k : K) → K.is_infallible k) → IsOk result }
{
    match cache.get_key_with_hash(key, hash) {
        Some(kept) => Ok(Some(kept.clone()?)),
        None => Ok(None),
    }
}
