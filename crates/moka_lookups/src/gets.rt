//! What look-ups find, and what a hit changes. moka: `sync::base_cache::BaseCache::do_get_with_hash`.
ghost use Rattle.std.specs.Prelude.{◌≡◌, ◌<◌, Bool, true, false, None, Some, MatchResult, option_map};
ghost use Rattle.std.specs.Duration.{as_nanos};
ghost use Rattle.moka_parts.specs.Copies.{IsEntryCopy};
ghost use Rattle.moka_parts.specs.Expiry.{time_left};
ghost use Rattle.moka_records.specs.KeyTests.{record_by};
ghost use Rattle.moka_parts.specs.Surroundings.{IsAskedOnce};
ghost use Rattle.moka_records.specs.Time.{moment_of};
ghost use Rattle.moka_parts.specs.Visibility.{has_lapsed as lapsed};
ghost use Rattle.moka_records.specs.declared.records.ReadOperation.TheVariants as read_operation;
ghost use Rattle.moka_store.specs.Hashing.{IsIndexHash};
ghost use Rattle.moka_lookups.specs.Expirations.{NoneExpires, expiring_by};
ghost use Rattle.moka_lookups.specs.Gets.{ClonesSucceed, Finds, HandsFound, Touches, entry_at, value_of};

use moka_parts::calls::Entry;
use moka_parts::closures::{NoTest, PredicateFn, ValueTest};
use moka_parts::error::OutOfMemory;
use moka_parts::expiry::{has_lapsed, remaining, renewed};
use moka_parts::housekeeper::Housekeeper;
use moka_parts::invalidator::Invalidator;
use moka_parts::key_test::KeyTest;
use moka_parts::policy::{ExpirationPolicy, Expiry, Instant};
use moka_parts::record_ref::RecordRef;
use moka_parts::records::ReadOperation;
use moka_store::{Handle, IndexHash, Store};
use std::hash::{BuildHasher, Hash};
use std::time::Duration;

/// What hides records by moments: times to live and to idle, their own expiry, and the invalidation of all.
#[derive(Drop)]
pub struct Moments<'a, X> {
    /// The times to live and to idle, and the expiry of single entries.
    pub policy: &'a ExpirationPolicy<X>,
    /// What was written or read before this moment is invalid.
    pub valid_after: &'a Option<Instant>,
    /// The moment of the look-up.
    pub now: Instant,
}

impl<'a, X> Moments<'a, X> {
    // Whether they hide a record, which has a moment of its own only if an expiry is set. The record is not read if
    // none can hide one.
    #[inline(always)]
    fn hide<K, V>(&self, found: &RecordRef<'_, K, V>) -> bool
        requires lasting { self.now.policy.now.expiry ≡ None → found.now.expires ≡ None }
        ensures { result ≡ lapsed (expiring_by self.entry.now.policy.now) self.entry.now.valid_after.now
            found.now self.entry.now.now.0 }
    {
        let policy = self.policy;
        let valid_after = *self.valid_after;
        let may_hide = policy.is_set() | valid_after.is_some();
        may_hide && has_lapsed(found, policy, valid_after, self.now)
    }
}

// The record of the key that passes, which comes with its hash in the map; none if the caller's test, which is asked of
// its value first, ignores it, a moment hides it or a predicate covers it.
#[inline(always)]
fn find_unless<'a, K: Eq + Hash, V, S: BuildHasher, X, P, T, I: ValueTest<V>>(
    store: &'a Store<K, V, S>,
    moments: &Moments<'_, X>,
    invalidator: &Invalidator<P>,
    sought: (&T, IndexHash),
    ignore_if: &mut I,
) -> Option<(Handle, RecordRef<'a, K, V>)>
where
    P: PredicateFn<K, V>,
    T: KeyTest<K>,
    requires own { (k : K) → T.passes sought.0.now k ≡ true
        → IsIndexHash S.BuildHasher S.Hasher.Hasher store.now.hasher (K.hash_input k) sought.1 }
    requires lasting { moments.now.policy.now.expiry ≡ None → NoneExpires store.now.records }
    requires askable { (v : V) → I.can_ask ignore_if.old v }
    ensures { (ignored : Bool)
        × IsAskedOnce I.asks (Some ignore_if.old)
        (value_of (record_by (T.passes sought.entry.0.now) store.now.records)) ignored (Some ignore_if.new)
        × Finds store.now moments.entry.now.policy.now moments.entry.now.valid_after.now P.says invalidator.now
        (record_by (T.passes sought.entry.0.now) store.now.records) ignored moments.entry.now.now.0 result }
{
    let (test, own) = sought;
    let (handle, found) = store.find_by(test, own)?;
    if ignore_if.ignores(found.value())
        || moments.hide(&found)
        || invalidator.apply_predicates(&found)
    {
        return None;
    }
    Some((handle, found))
}

/// What a look-up hands out of the record that it finds. It borrows nothing of the cache, which the caller may change.
pub enum Look<T> {
    /// No record is found.
    Missed,
    /// Memory for it is refused.
    Refused,
    /// It, and where the record is.
    Found(Handle, T),
}

/// Looks up the key that passes, which comes with its hash in the map, unless the caller's test, which is asked of the
/// value of the key's record first, ignores it. What is handed out: a clone of the value, with one of the key if
/// `need_key` asks for it; the record's first hash; and what the hit makes of the record.
#[inline(always)]
pub fn look_up<K: Eq + Hash + Clone, V: Clone, S: BuildHasher, X: Expiry<K, V>, P, T, I>(
    store: &Store<K, V, S>,
    moments: &Moments<'_, X>,
    invalidator: &Invalidator<P>,
    sought: (&T, IndexHash),
    ignore_if: &mut I,
    need_key: bool,
) -> Look<(Entry<K, V>, u64, Hit)>
where
    P: PredicateFn<K, V>,
    T: KeyTest<K>,
    I: ValueTest<V>,
    requires own { (k : K) → T.passes sought.0.now k ≡ true
        → IsIndexHash S.BuildHasher S.Hasher.Hasher store.now.hasher (K.hash_input k) sought.1 }
    requires lasting { moments.now.policy.now.expiry ≡ None → NoneExpires store.now.records }
    requires askable { (v : V) → I.can_ask ignore_if.old v }
    ensures { (ignored : Bool)
        × IsAskedOnce I.asks (Some ignore_if.old)
        (value_of (record_by (T.passes sought.entry.0.now) store.now.records)) ignored (Some ignore_if.new)
        × HandsFound store.now moments.entry.now.policy.now moments.entry.now.valid_after.now P.says
        invalidator.now (record_by (T.passes sought.entry.0.now) store.now.records)
        (λ r a. IsEntryCopy K.is_clone V.is_clone (entry_at need_key r) a.0 × (a.1 ≡ r.hash)
        × Touches X.read moments.entry.now.policy.now r moments.entry.now.now.0 a.2.read.0 a.2.expires a.2.is_renewed)
        (ClonesSucceed K.is_infallible V.is_infallible need_key) ignored moments.entry.now.now.0 result }
{
    let Some((handle, found)) = find_unless(store, moments, invalidator, sought, ignore_if) else {
        return Look::Missed;
    };
    match entry_and_hit(&found, need_key, moments) {
        Ok(handed_out) => Look::Found(handle, handed_out),
        Err(_) => Look::Refused,
    }
}

/// As `look_up`, for a clone of the value alone, and what the hit makes of the record.
#[inline(always)]
pub fn look_at<K: Eq + Hash, V: Clone, S: BuildHasher, X: Expiry<K, V>, P, T, I>(
    store: &Store<K, V, S>,
    moments: &Moments<'_, X>,
    invalidator: &Invalidator<P>,
    sought: (&T, IndexHash),
    ignore_if: &mut I,
) -> Look<(V, Hit)>
where
    P: PredicateFn<K, V>,
    T: KeyTest<K>,
    I: ValueTest<V>,
    requires own { (k : K) → T.passes sought.0.now k ≡ true
        → IsIndexHash S.BuildHasher S.Hasher.Hasher store.now.hasher (K.hash_input k) sought.1 }
    requires lasting { moments.now.policy.now.expiry ≡ None → NoneExpires store.now.records }
    requires askable { (v : V) → I.can_ask ignore_if.old v }
    ensures { (ignored : Bool)
        × IsAskedOnce I.asks (Some ignore_if.old)
        (value_of (record_by (T.passes sought.entry.0.now) store.now.records)) ignored (Some ignore_if.new)
        × HandsFound store.now moments.entry.now.policy.now moments.entry.now.valid_after.now P.says
        invalidator.now (record_by (T.passes sought.entry.0.now) store.now.records)
        (λ r a. V.is_clone r.value a.0
        × Touches X.read moments.entry.now.policy.now r moments.entry.now.now.0 a.1.read.0 a.1.expires a.1.is_renewed)
        (λ r. V.is_infallible r.value) ignored moments.entry.now.now.0 result }
{
    let Some((handle, found)) = find_unless(store, moments, invalidator, sought, ignore_if) else {
        return Look::Missed;
    };
    let Ok(value) = found.value().clone() else {
        return Look::Refused;
    };
    let hit = hit_of(&found, moments.policy, moments.now);
    Look::Found(handle, (value, hit))
}

/// The record of the key that passes, which comes with its hash in the map, unless a moment hides it or a predicate
/// covers it.
#[inline(always)]
pub fn find_shown<'a, K: Eq + Hash, V, S: BuildHasher, X, P, T: KeyTest<K>>(
    store: &'a Store<K, V, S>,
    moments: &Moments<'_, X>,
    invalidator: &Invalidator<P>,
    sought: (&T, IndexHash),
) -> Option<(Handle, RecordRef<'a, K, V>)>
where
    P: PredicateFn<K, V>,
    requires own { (k : K) → T.passes sought.0.now k ≡ true
        → IsIndexHash S.BuildHasher S.Hasher.Hasher store.now.hasher (K.hash_input k) sought.1 }
    requires lasting { moments.now.policy.now.expiry ≡ None → NoneExpires store.now.records }
    ensures { Finds store.now moments.entry.now.policy.now moments.entry.now.valid_after.now P.says
        invalidator.now (record_by (T.passes sought.entry.0.now) store.now.records) false
        moments.entry.now.now.0 result }
{
    find_unless(store, moments, invalidator, sought, &mut NoTest)
}

/// What a hit makes of a record.
#[derive(Clone, Copy)]
pub struct Hit {
    /// When the record was read.
    pub read: Instant,
    /// When it expires by itself, if it does.
    pub expires: Option<Instant>,
    /// Whether the expiry's answer changed when the record expires.
    pub is_renewed: bool,
}

// What a hit at the moment `now` makes of a record: if an expiry is set, it is asked, and the hit counts no earlier
// than the record was written.
#[inline(always)]
fn hit_of<K, V, X: Expiry<K, V>>(
    found: &RecordRef<'_, K, V>,
    policy: &ExpirationPolicy<X>,
    now: Instant,
) -> Hit
    ensures { Touches X.read policy.now found.now now.0 result.read.0 result.expires result.is_renewed }
{
    let Some(expiry) = policy.expiry() else {
        return Hit {
            read: now,
            expires: found.expires(),
            is_renewed: false,
        };
    };
    let written = found.written();
    let read = now.max(written);
    let left = left_at(found, policy, read);
    let answer = expiry.expire_after_read(found.key(), found.value(), read, left, written);
    let (expires, is_renewed) = renewed(found.expires(), left, answer, read);
    Hit {
        read,
        expires,
        is_renewed,
    }
}

// How long a record still lasts at a moment. Caches without an expiry ask nothing of it.
#[cold]
fn left_at<K, V, X>(
    found: &RecordRef<'_, K, V>,
    policy: &ExpirationPolicy<X>,
    read: Instant,
) -> Option<Duration>
    ensures { option_map as_nanos result
        ≡ time_left policy.now.time_to_live policy.now.time_to_idle
        (moment_of found.now.expires) found.now.written.0 found.now.read.0 read.0 }
{
    let live = policy.time_to_live();
    let idle = policy.time_to_idle();
    remaining(
        found.expires(),
        found.written(),
        found.read(),
        live,
        idle,
        read,
    )
}

// A clone of the record's value, with one of its key if that is asked for; the record's first hash; and what a hit
// makes of it.
#[inline(always)]
fn entry_and_hit<K: Clone, V: Clone, X: Expiry<K, V>>(
    found: &RecordRef<'_, K, V>,
    need_key: bool,
    moments: &Moments<'_, X>,
) -> Result<(Entry<K, V>, u64, Hit), OutOfMemory>
    ensures { MatchResult result
        (λ a. IsEntryCopy K.is_clone V.is_clone (entry_at need_key found.now) a.0 × (a.1 ≡ found.now.hash)
        × Touches X.read moments.entry.now.policy.now found.now moments.entry.now.now.0 a.2.read.0 a.2.expires
        a.2.is_renewed)
        (λ _. ¬ (ClonesSucceed K.is_infallible V.is_infallible need_key found.now)) }
{
    let Ok(value) = found.value().clone() else {
        return Err(OutOfMemory);
    };
    let key = if need_key {
        let Ok(key) = found.key().clone() else {
            return Err(OutOfMemory);
        };
        Some(key)
    } else {
        None
    };
    let hit = hit_of(found, moments.policy, moments.now);
    Ok((Entry { key, value }, found.hash(), hit))
}
