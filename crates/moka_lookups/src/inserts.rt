//! What an insert finds, what it weighs, and when its entry expires.
//! moka: `sync::base_cache::Inner::weigh`, `BaseCache::expire_after_create`, `expire_after_read_or_update`.
ghost use Rattle.std.specs.Prelude.{◌≡◌, is_some};
ghost use Rattle.moka_parts.specs.Calls.{Weighs};
ghost use Rattle.moka_parts.specs.Expiry.{expires_at_first, expires_updated};
ghost use Rattle.moka_records.specs.Records.{record_of_key};
ghost use Rattle.moka_store.specs.Hashing.{IsIndexHash};
ghost use Rattle.moka_lookups.specs.Expirations.{expiring_by};
ghost use Rattle.moka_lookups.specs.Inserts.{Plans};

use crate::causes::cause_of_replacement;
use crate::gets::Moments;
use moka_parts::closures::Weigher;
use moka_parts::expiry::{deadline_of, is_expired_by_per_entry_ttl, remaining, renewed};
use moka_parts::notification::RemovalCause;
use moka_parts::policy::{ExpirationPolicy, Expiry, Instant};
use moka_parts::record_ref::RecordRef;
use moka_store::{Handle, IndexHash, Store};
use std::hash::{BuildHasher, Hash};

// What an entry weighs if no weigher is set.
const DEFAULT_WEIGHT: u32 = 1;

/// What an insert is to make of its key, and when the entry expires then.
pub enum Plan {
    /// A new record.
    New(Option<Instant>),
    /// The record at this handle gets the value, and its old one leaves for this cause.
    Update(Handle, RemovalCause, Option<Instant>),
}

/// What is to be made of a key, which comes with its hash in the map, and of its value.
#[inline(always)]
pub fn plan_for<K: Eq + Hash, V, S: BuildHasher, X: Expiry<K, V>>(
    store: &Store<K, V, S>,
    moments: &Moments<'_, X>,
    key: &K,
    own: IndexHash,
    value: &V,
) -> Plan
    requires own { IsIndexHash S.BuildHasher S.Hasher.Hasher store.now.hasher (K.hash_input key.now) own }
    ensures { Plans X.created X.updated K.eq store.now moments.entry.now.policy.now
        moments.entry.now.valid_after.now key.now value.now moments.entry.now.now.0 result }
{
    let (policy, now) = (moments.policy, moments.now);
    let Some((handle, found)) = store.find_by_key(key, own) else {
        return Plan::New(expires_at_creation(policy, key, value, now));
    };
    let cause = cause_of_replacement(&found, policy, *moments.valid_after, now);
    let expires = expires_at_update(&found, policy, key, value, now);
    Plan::Update(handle, cause, expires)
}

/// Whether a key, which comes with its hash in the map, has a record.
#[inline(always)]
pub fn has_key<K: Eq + Hash, V, S: BuildHasher>(
    store: &Store<K, V, S>,
    key: &K,
    own: IndexHash,
) -> bool
    requires own { IsIndexHash S.BuildHasher S.Hasher.Hasher store.now.hasher (K.hash_input key.now) own }
    ensures { result ≡ is_some (record_of_key K.eq store.now.records key.now) }
{
    store.find_by_key(key, own).is_some()
}

/// The weight of an entry: the weigher's answer, or 1 if none is set.
#[inline(always)]
pub fn weigh<K, V, W: Weigher<K, V>>(weigher: &Option<W>, key: &K, value: &V) -> u32
    ensures { Weighs W.weighs weigher.now key.now value.now result }
{
    match weigher {
        Some(weigher) => weigher.weigh(key, value),
        None => DEFAULT_WEIGHT,
    }
}

// When a new entry expires: if an expiry is set, it is asked.
#[inline(always)]
fn expires_at_creation<K, V, X: Expiry<K, V>>(
    policy: &ExpirationPolicy<X>,
    key: &K,
    value: &V,
    now: Instant,
) -> Option<Instant>
    ensures { result ≡ expires_at_first X.created policy.now.expiry key.now value.now now.0 }
{
    let Some(expiry) = policy.expiry() else {
        return None;
    };
    deadline_of(expiry.expire_after_create(key, value, now), now)
}

// When an entry with a new value expires: if an expiry is set, it is asked, and as about a new entry if the old one
// has expired.
#[inline(always)]
fn expires_at_update<K, V, X: Expiry<K, V>>(
    found: &RecordRef<'_, K, V>,
    policy: &ExpirationPolicy<X>,
    key: &K,
    value: &V,
    now: Instant,
) -> Option<Instant>
    ensures { result ≡ expires_updated X.created X.updated (expiring_by policy.now) policy.now.expiry key.now value.now
        (record found.now { written = now; read = now }) now.0 }
{
    let expires = found.expires();
    let Some(expiry) = policy.expiry() else {
        return expires;
    };
    if is_expired_by_per_entry_ttl(expires, now) {
        return deadline_of(expiry.expire_after_create(key, value, now), now);
    }
    let live = policy.time_to_live();
    let idle = policy.time_to_idle();
    let left = remaining(expires, now, now, live, idle, now);
    let answer = expiry.expire_after_update(key, value, now, left);
    renewed(expires, left, answer, now).0
}
