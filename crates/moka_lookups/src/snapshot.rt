//! The visible entries in the order of access, least recently used first.
ghost use Rattle.std.specs.Prelude.{◌≡◌, IfSome, option_map};
ghost use Rattle.moka_lookups.specs.Snapshot.{scene_at, scene_from, FindsNext, StandsIn};

use crate::gets::Moments;
use moka_parts::closures::PredicateFn;
use moka_parts::expiry::{has_lapsed, remaining};
use moka_parts::invalidator::Invalidator;
use moka_parts::policy::Instant;
use moka_parts::record_ref::RecordRef;
use moka_store::{Handle, Store};
use std::hash::{BuildHasher, Hash};
use std::marker::Model;
use std::time::Duration;

/// The visible entries of a cache at one moment, in the order of access. It takes no memory, and clones nothing.
#[derive(Drop)]
pub struct Snapshot<'a, K: Eq + Hash, V, S: BuildHasher, X, P> {
    store: &'a Store<K, V, S>,
    moments: Moments<'a, X>,
    invalidator: &'a Invalidator<P>,
    // The member to look at next.
    at: Option<Handle>,
}

impl<'a, K: Eq + Hash, V, S: BuildHasher, X, P> Model for Snapshot<'a, K, V, S, X, P> {
    ghost use Rattle.std.specs.Prelude.{IfSome};
    ghost use Rattle.std.specs.Coded.{codes, coded_ℕ};
    ghost use Rattle.std.specs.FinMap as finite;
    ghost use Rattle.moka_lookups.specs.Snapshot.{Scene, scene_at, StandsIn};

    ghost Value = { Scene K V X P };

    ghost coded = { Prim.hlevel (codes, finite.code, coded_ℕ, K.code, V.code, X.code, P.code) };

    ghost view = { λ a. scene_at a.store.now a.moments.policy.now a.moments.valid_after.now
        a.invalidator.now a.moments.now.0 a.at };

    ghost invariant = { λ a. IfSome a.at (StandsIn a.store.now) };
}

/// An entry of a snapshot.
#[derive(Drop)]
pub struct SnapshotEntry<'a, K, V> {
    /// The key that the cache keeps.
    pub key: &'a K,
    /// The value that stands under it.
    pub value: &'a V,
    /// When it was last inserted.
    pub last_modified: Instant,
    /// When it was last inserted or read.
    pub last_accessed: Instant,
    /// When it expires by its own expiry, if it does.
    pub expires: Option<Instant>,
    /// How long it lasts from the moment of the snapshot, if it expires at all.
    pub remaining: Option<Duration>,
}

impl<'a, K: Eq + Hash, V, S: BuildHasher, X, P> Snapshot<'a, K, V, S, X, P> {
    /// The entries of a store that nothing hides, least recently used first. An entry whose write was not applied yet
    /// by a run of maintenance stands at the place that it had before, and is left out if it had none.
    pub fn new(
        store: &'a Store<K, V, S>,
        moments: Moments<'a, X>,
        invalidator: &'a Invalidator<P>,
    ) -> Self
        ensures { result ≡ scene_from store.now moments.entry.policy.now moments.entry.valid_after.now
            invalidator.now moments.entry.now.0 }
    {
        let at = handle_of(store.front());
        Snapshot {
            store,
            moments,
            invalidator,
            at,
        }
    }
}

impl<'a, K: Eq + Hash, V, S: BuildHasher, X, P: PredicateFn<K, V>> Iterator
    for Snapshot<'a, K, V, S, X, P> {
    ghost use Rattle.std.specs.Prelude.{length, option_map};
    ghost use Rattle.std.specs.Duration.{as_nanos};
    ghost use Rattle.std.specs.Iterator.{at_most};
    ghost use Rattle.moka_lookups.specs.Snapshot.{ListsNext};

    type Item = SnapshotEntry<'a, K, V>;

    ghost next_gives = { λ s r t. ListsNext P.says s (option_map (λ i. record {
      key = i.key.now;
      value = i.value.now;
      written = i.last_modified;
      read = i.last_accessed;
      expires = i.expires;
      left = option_map as_nanos i.remaining;
    }) r) t };

    ghost remaining = { λ s. at_most (length s.members) };

    fn next(&mut self) -> Option<SnapshotEntry<'a, K, V>> {
        let (found, at) = next_shown(self.store, self.at, &self.moments, self.invalidator);
        self.at = at;
        let found = found?;
        let policy = self.moments.policy;
        let written = found.written();
        let read = found.read();
        let live = policy.time_to_live();
        let idle = policy.time_to_idle();
        Some(SnapshotEntry {
            key: found.key(),
            value: found.value(),
            last_modified: written,
            last_accessed: read,
            expires: found.expires(),
            remaining: remaining(found.expires(), written, read, live, idle, self.moments.now),
        })
    }
}

// The first visible record of a member from this one on, and the member behind it.
fn next_shown<'a, K: Eq + Hash, V, S: BuildHasher, X, P: PredicateFn<K, V>>(
    store: &'a Store<K, V, S>,
    at: Option<Handle>,
    moments: &Moments<'_, X>,
    invalidator: &Invalidator<P>,
) -> (Option<RecordRef<'a, K, V>>, Option<Handle>)
    requires stands { IfSome at (StandsIn store.now) }
    ensures stands { IfSome result.1 (StandsIn store.now) }
    ensures listed { FindsNext P.says (scene_at store.now moments.entry.now.policy.now
        moments.entry.now.valid_after.now invalidator.now moments.entry.now.now.0 at) result.0
        (scene_at store.now moments.entry.now.policy.now moments.entry.now.valid_after.now invalidator.now
        moments.entry.now.now.0 result.1) }
{
    store.invariant_holds();
    let policy = moments.policy;
    let valid_after = *moments.valid_after;
    let now = moments.now;
    let mut at = at;
    while let Some(handle) = at {
        at = handle_of(store.next(handle));
        let Some(found) = store.find(handle) else {
            continue;
        };
        if !has_lapsed(&found, policy, valid_after, now) && !invalidator.apply_predicates(&found) {
            return (Some(found), at);
        }
    }
    (None, None)
}

// The handle of a member.
fn handle_of(member: Option<(Handle, u32)>) -> Option<Handle>
    ensures { result ≡ option_map (λ m. m.0) member }
{
    let (handle, _) = member?;
    Some(handle)
}
