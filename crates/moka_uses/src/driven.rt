//! A list of calls, and what the laws make of what `drive` promises of it.
ghost use Rattle.std.specs.Prelude.{◌≡◌, IfErr, IfOk, OnErr};
ghost use Rattle.moka_engine.specs.State.{meaning_of};
ghost use Rattle.moka_engine.specs.Copies.{ClonesAreEqual};
ghost use Rattle.moka_uses.specs.Driven.{Follows};

use moka_drive::drive;
use moka_engine::laws::{lists_are_of_reference, lists_keep_order, predicates_leave_idle};
use moka_engine::{
    BaseCache, Call, Clock, DriveRefused, Expiry, IdSource, Listener, PredicateFn, Reply, Weigher,
};
use std::alloc::Global;
use std::hash::{BuildHasher, Hash};

/// Makes the calls, one after the other, and answers each with its reply. Calls in the order of time keep a cache in
/// the order of writing (`lists_keep_order`), and a predicate that is gone at the end left in a run at some moment of
/// which it covered no record (`predicates_leave_idle`). The laws speak of steps of the reference cache, which the
/// calls are (`lists_are_of_reference`).
///
/// # Errors
/// The calls, if there is no memory for the replies; none was made.
pub fn make_calls<
    K: Eq + Hash + Clone,
    V: Clone,
    S: BuildHasher,
    X: Expiry<K, V>,
    L: Listener<K, V>,
    P: PredicateFn<K, V> + Drop,
    W: Weigher<K, V>,
    I: IdSource,
    C: Clock,
>(
    alloc: Global,
    cache: &mut BaseCache<K, V, S, X, L, P, W>,
    calls: Vec<Call<K, V, P>>,
    ids: &mut I,
    clock: &mut C,
) -> Result<Vec<Reply<K, V, P>>, DriveRefused<K, V, P>>
    requires keys { ClonesAreEqual K.is_clone }
    requires values { ClonesAreEqual V.is_clone }
    ensures made { IfOk result (λ replies. Follows
        (meaning_of K.eq L.tells P.says W.weighs C.reads I.gives X.created X.read X.updated)
        calls.items replies.items cache.old clock.old ids.old cache.new clock.new ids.new) }
    ensures refused { IfErr result (λ refused. refused.calls ≡ calls) }
    ensures unchanged { OnErr result ((cache.new ≡ cache.old) × (clock.new ≡ clock.old) × (ids.new ≡ ids.old)) }
{
    lists_are_of_reference::<K, V, X, L, P, W, C, I>();
    lists_keep_order::<K, V, X, L, P, W, C, I>();
    predicates_leave_idle::<K, V, X, L, P, W, C, I>();
    cache.invariant_holds();
    drive(alloc, cache, calls, ids, clock)
}
