//! Laws of caches that are made again of what was saved of others. The contract of each function is a law, and its body
//! does nothing.
ghost use Rattle.moka_calls.specs.Laws.{anytime};
ghost use Rattle.moka_calls.specs.Synchronous.{meaning_of};
ghost use Rattle.moka_records.specs.Hashing.{key_hash};
ghost use Rattle.moka_restore_laws.specs.Again.{AnswersAlike, EmptyHasRoom, MadeAgainAnswersAlike};
ghost use Rattle.moka_restore_laws.specs.Among.{RestoresAmongCalls};
ghost use Rattle.moka_restore_laws.specs.Looks.{LooksAnswerAlike, RunLeavesRoom};

use moka_parts::closures::{PredicateFn, Weigher};
use moka_parts::housekeeper::Clock;
use moka_parts::notification::Listener;
use moka_parts::policy::Expiry;
use std::hash::{BuildHasher, Hash};

/// What was put back as it was listed answers as before: whenever one of the two records is visible the other is, if
/// the times are the same, and the second cache has no predicates and no invalidation of all.
pub fn answers_as_before<K, V, X, P: PredicateFn<K, V>, W>()
    ensures { AnswersAlike {K = K} {V = V} X W P.says }
{}

/// A cache made again of what `save` lists of another, put back by `restore` into an empty one with the same times and
/// room for all, answers each look-up as the first does at the same moment, if neither saving nor putting back was
/// later, until an entry of either is read or written: what one finds the other finds, with a clone of the value.
/// Clones of keys have to be equal to them by `==`.
pub fn made_again_answers_alike<
    K: Eq + Clone,
    V: Clone,
    X,
    P: PredicateFn<K, V>,
    W: Weigher<K, V>,
>()
    ensures alike { MadeAgainAnswersAlike X W.weighs K.eq P.says K.is_clone V.is_clone }
    ensures room { EmptyHasRoom X P W.weighs }
{}

/// Both answer a list of look-ups alike, however long, though each read counts: reply by reply, if both are asked for
/// the same at the same moments (`get`, `contains_key` or a scan), none earlier than the one before it, and whatever
/// maintenance that starts in either.
///
/// Clones have to be equal, and none of the look-ups be refused memory. In the first too nothing but time may take an
/// entry out (`IsRoomyFor`): it has room for what it holds, as a run leaves it, such as `save` makes, no predicates and
/// no invalidation of all. Both have the same expiry, and if there is one, no entry was written after that of saving.
pub fn look_ups_answer_alike<
    K: Eq + Clone,
    V: Clone,
    S,
    X: Expiry<K, V>,
    L: Listener<K, V>,
    P: PredicateFn<K, V>,
    W: Weigher<K, V>,
    C: Clock,
>()
    ensures alike { LooksAnswerAlike S
        (meaning_of K.eq L.tells P.says W.weighs C.reads X.created X.read X.updated) K.is_clone V.is_clone }
    ensures at_any_time { LooksAnswerAlike S
        (anytime (meaning_of K.eq L.tells P.says W.weighs C.reads X.created X.read X.updated)) K.is_clone V.is_clone }
    ensures room { RunLeavesRoom S (meaning_of K.eq L.tells P.says W.weighs C.reads X.created X.read X.updated) }
{}

/// Calls with entries put back among them, by `restore` or `restore_entry`, in whatever order, are parts of one list,
/// however long: each list of calls between is a run of the reference cache, whose runs of maintenance keep their
/// promises, and which notifies a listener of each value that leaves the map once. What always holds of a cache does so
/// after each part, so all that `keeps_promises` promises of a list of calls but the order of writing, in which entries
/// that are put back do not stand.
pub fn restores_among_calls<
    K: Eq + Hash,
    V,
    S: BuildHasher,
    X: Expiry<K, V>,
    L: Listener<K, V>,
    P: PredicateFn<K, V>,
    W: Weigher<K, V>,
    C: Clock,
>()
    ensures { RestoresAmongCalls
        (meaning_of K.eq L.tells P.says W.weighs C.reads X.created X.read X.updated)
        (λ h k. key_hash S.BuildHasher S.Hasher.Hasher h (K.hash_input k)) }
{}
