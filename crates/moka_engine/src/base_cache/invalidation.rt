//! Invalidation by predicates.
ghost use Rattle.moka_parts.specs.Surroundings.{Leads};
ghost use Rattle.moka_types.specs.declared.calls.Call.TheVariants as call;
ghost use Rattle.moka_types.specs.declared.calls.Reply.TheVariants as reply;
ghost use Rattle.moka_engine.specs.Makes.{Makes, meaning};

use super::BaseCache;
use moka_parts::closures::{PredicateFn, Weigher};
use moka_parts::error::{PredicateError, PredicateRefused};
use moka_parts::invalidator::{IdSource, PredicateId};
use moka_parts::notification::Listener;
use moka_parts::policy::{Expiry, Instant};
use std::hash::{BuildHasher, Hash};

impl<
    K: Eq + Hash,
    V,
    S: BuildHasher,
    X: Expiry<K, V>,
    L: Listener<K, V>,
    P: PredicateFn<K, V>,
    W: Weigher<K, V>,
> BaseCache<K, V, S, X, L, P, W> {
    /// Registers a predicate at the moment `now`. It covers the records that were written at that moment or before and
    /// to whose key and value it says yes: they are hidden from now on, and runs of maintenance remove them. It leaves
    /// again in a run that finds it to cover no record any more. The answer names it: it is the first identifier of the
    /// source that no registered predicate has, of at most 1,000.
    /// moka: `sync::base_cache::BaseCache::invalidate_entries_if`.
    ///
    /// # Errors
    /// `InvalidationClosuresDisabled` if the cache does not support predicates, `OutOfMemory` if memory for one more
    /// is refused, and `NoFreeId` if all identifiers asked for are taken. The predicate comes back, and nothing has
    /// changed.
    pub fn invalidate_entries_if<I: IdSource>(
        &mut self,
        predicate: P,
        now: Instant,
        ids: &mut I,
    ) -> Result<PredicateId, PredicateRefused<P>>
        ensures { Makes (meaning K.eq L.tells P.says W.weighs X.created X.read X.updated)
            (call.InvalidateIf predicate now) (reply.InvalidateIf result) self.old self.new
            (λ e. Leads I.gives ids.old e.ids ids.new) }
    {
        if !self.invalidator_enabled {
            let error = PredicateError::InvalidationClosuresDisabled;
            return Err(PredicateRefused { error, predicate });
        }
        self.invalidator.register_predicate(predicate, now, ids)
    }
}
