//! Laws of a cache in segments. The contract of each function is a law, and its body does nothing.
ghost use Rattle.moka_records.specs.Hashing.{key_hash};
ghost use Rattle.moka_calls.specs.Laws.{KeepsPromises, MadeRunsAgeOut, RunsAgeOutInTime, anytime};
ghost use Rattle.moka_calls.specs.Limits.{KeepsLimits};
ghost use Rattle.moka_calls.specs.Synchronous.{meaning_of};
ghost use Rattle.moka_segments.specs.Built.{SharesSum};
ghost use Rattle.moka_segments.specs.Keys.{HoldNone, KeysBelong};
ghost use Rattle.moka_segments.specs.Laws.{CallsByKeyKeepKeys, CallsOfAllKeepKeys, EachMovesAlone, EachRuns, GetWithIfMadeKeepsKeys, GetWithIfNoErrorKeepsKeys, GetWithKeepsKeys, KeysStay, OneSegmentEach, RegisteringKeepsKeys};
ghost use Rattle.moka_segments.specs.Moves.{CallsByKeyAreMoves, CallsOfAllAreMoves, GetWithIfMadeIsMove, GetWithIfNoErrorIsMove, GetWithIsMove, LentCallsAreMoves, MovesGoOn, RegisteringIsMoves, for_all_calls};
ghost use Rattle.moka_segments.specs.Segmented.{Segmented};

use moka_parts::closures::{PredicateFn, Weigher};
use moka_parts::housekeeper::Clock;
use moka_parts::invalidator::IdSource;
use moka_parts::notification::Listener;
use moka_parts::policy::Expiry;
use std::hash::{BuildHasher, Hash};

/// Whatever calls were made in whichever segments, each segment is one run of the reference cache: of the calls that
/// were made in it, with their replies, as if it stood alone, at moments of any kind. Move by move it goes by the clock
/// that all segments share, which others read between two moves and never within one.
pub fn each_runs<
    K: Eq,
    V,
    S,
    X: Expiry<K, V>,
    L: Listener<K, V>,
    P: PredicateFn<K, V>,
    W: Weigher<K, V>,
    C: Clock,
>()
    ensures runs { EachRuns S (meaning_of K.eq L.tells P.says W.weighs C.reads X.created X.read X.updated) }
    ensures alone { EachMovesAlone S (meaning_of K.eq L.tells P.says W.weighs C.reads X.created X.read X.updated) }
{}

/// If each segment holds only keys that belong to it, and keys are inserted only where they belong, then it stays so
/// whatever else is called.
pub fn keys_stay<
    K: Eq + Hash,
    V,
    S: BuildHasher,
    X: Expiry<K, V>,
    L: Listener<K, V>,
    P: PredicateFn<K, V>,
    W: Weigher<K, V>,
    C: Clock,
>()
    ensures { KeysStay S (λ h k. key_hash S.BuildHasher S.Hasher.Hasher h (K.hash_input k))
        (meaning_of K.eq L.tells P.says W.weighs C.reads X.created X.read X.updated) }
{}

/// If each segment holds only keys that belong to it, then keys that are equal are in one segment at most.
pub fn one_segment_each<
    K: Eq + Hash,
    V,
    S: BuildHasher,
    X: Expiry<K, V>,
    L: Listener<K, V>,
    P: PredicateFn<K, V>,
    W: Weigher<K, V>,
>()
    ensures { OneSegmentEach V S X L P W
        (λ h k. key_hash S.BuildHasher S.Hasher.Hasher h (K.hash_input k)) K.eq }
{}

/// Each call by key leaves keys in the segments that they belong to; `get_with_keeps_keys` and `other_makers_keep_keys`
/// speak of those with a maker.
pub fn calls_by_key_keep_keys<
    K: Eq + Hash + Clone,
    V: Clone,
    S: BuildHasher,
    X: Expiry<K, V>,
    L: Listener<K, V>,
    P: PredicateFn<K, V>,
    W: Weigher<K, V>,
    C: Clock,
>()
    ensures { CallsByKeyKeepKeys (λ h k. key_hash S.BuildHasher S.Hasher.Hasher h (K.hash_input k))
        (meaning_of K.eq L.tells P.says W.weighs C.reads X.created X.read X.updated)
        K.is_clone V.is_clone }
{}

/// `get_with` leaves keys in the segments that they belong to, for a maker of type `F`.
pub fn get_with_keeps_keys<
    K: Eq + Hash,
    V: Clone,
    S: BuildHasher,
    X: Expiry<K, V>,
    L: Listener<K, V>,
    P: PredicateFn<K, V>,
    W: Weigher<K, V>,
    C: Clock,
    F: FnOnce() -> V,
>()
    ensures { GetWithKeepsKeys (λ h k. key_hash S.BuildHasher S.Hasher.Hasher h (K.hash_input k))
        (meaning_of K.eq L.tells P.says W.weighs C.reads X.created X.read X.updated)
        V.is_clone F.post }
{}

/// So do `optionally_get_with`, for a maker of type `O`, and `try_get_with`, for one of type `F`.
pub fn other_makers_keep_keys<
    K: Eq + Hash,
    V: Clone,
    S: BuildHasher,
    X: Expiry<K, V>,
    L: Listener<K, V>,
    P: PredicateFn<K, V>,
    W: Weigher<K, V>,
    C: Clock,
    E,
    O: FnOnce() -> Option<V>,
    F: FnOnce() -> Result<V, E>,
>()
    ensures optionally_get_with { GetWithIfMadeKeepsKeys
        (λ h k. key_hash S.BuildHasher S.Hasher.Hasher h (K.hash_input k))
        (meaning_of K.eq L.tells P.says W.weighs C.reads X.created X.read X.updated) V.is_clone O.post }
    ensures try_get_with { GetWithIfNoErrorKeepsKeys
        (λ h k. key_hash S.BuildHasher S.Hasher.Hasher h (K.hash_input k))
        (meaning_of K.eq L.tells P.says W.weighs C.reads X.created X.read X.updated) V.is_clone F.post }
{}

/// Each call that concerns all segments leaves keys in the segments that they belong to; `registering_keeps_keys`
/// speaks of predicates.
pub fn calls_of_all_keep_keys<
    K: Eq + Hash,
    V,
    S: BuildHasher,
    X: Expiry<K, V>,
    L: Listener<K, V>,
    P: PredicateFn<K, V>,
    W: Weigher<K, V>,
    C: Clock,
>()
    ensures { CallsOfAllKeepKeys (λ h k. key_hash S.BuildHasher S.Hasher.Hasher h (K.hash_input k))
        (meaning_of K.eq L.tells P.says W.weighs C.reads X.created X.read X.updated) }
{}

/// `invalidate_entries_if` leaves keys in the segments that they belong to, for a maker of type `F`.
pub fn registering_keeps_keys<
    K: Eq + Hash,
    V,
    S: BuildHasher,
    X: Expiry<K, V>,
    L: Listener<K, V>,
    P: PredicateFn<K, V>,
    W: Weigher<K, V>,
    I: IdSource,
    F: Fn() -> P,
>()
    ensures { RegisteringKeepsKeys S X W (λ h k. key_hash S.BuildHasher S.Hasher.Hasher h (K.hash_input k))
        L.tells I.gives F.post }
{}

/// A cache that holds no key, as a new one, holds each in the segment that it belongs to.
pub fn none_belong<
    K: Eq + Hash,
    V,
    S: BuildHasher,
    X: Expiry<K, V>,
    L: Listener<K, V>,
    P: PredicateFn<K, V>,
    W: Weigher<K, V>,
>()
    ensures { (c : Segmented K V S X L P W) → HoldNone c →
        KeysBelong (λ h k. key_hash S.BuildHasher S.Hasher.Hasher h (K.hash_input k)) c }
{}

/// What holds of moves (`each_runs`) holds of those that the cache's own calls are, in which identifiers are given, and
/// listeners may be notified of clones. Moves after moves are moves, so it holds of a list of calls, however long. The
/// run of each segment keeps all that is promised of a list of calls, as those of a cache alone do (`keeps_promises`,
/// `ages_out` and `keeps_limits` of `moka_calls`): so a segment's capacity stays if no call sets it.
pub fn own_calls_run<
    K: Eq + Clone,
    V: Clone,
    S,
    X: Expiry<K, V>,
    L: Listener<K, V>,
    P: PredicateFn<K, V>,
    W: Weigher<K, V>,
    C: Clock,
>()
    ensures runs { EachRuns S (for_all_calls K.is_clone V.is_clone
        (meaning_of K.eq L.tells P.says W.weighs C.reads X.created X.read X.updated)) }
    ensures alone { EachMovesAlone S (for_all_calls K.is_clone V.is_clone
        (meaning_of K.eq L.tells P.says W.weighs C.reads X.created X.read X.updated)) }
    ensures go_on { MovesGoOn S (for_all_calls K.is_clone V.is_clone
        (meaning_of K.eq L.tells P.says W.weighs C.reads X.created X.read X.updated)) }
    ensures promises { KeepsPromises S (anytime (for_all_calls K.is_clone V.is_clone
        (meaning_of K.eq L.tells P.says W.weighs C.reads X.created X.read X.updated))) }
    ensures ages_out { MadeRunsAgeOut S (anytime (for_all_calls K.is_clone V.is_clone
        (meaning_of K.eq L.tells P.says W.weighs C.reads X.created X.read X.updated))) }
    ensures ages_out_in_time { RunsAgeOutInTime S (anytime (for_all_calls K.is_clone V.is_clone
        (meaning_of K.eq L.tells P.says W.weighs C.reads X.created X.read X.updated))) }
    ensures limits { KeepsLimits S (anytime (for_all_calls K.is_clone V.is_clone
        (meaning_of K.eq L.tells P.says W.weighs C.reads X.created X.read X.updated))) }
{}

/// What each call by key ensures is a move of the key's own segment, of the calls that it stands for;
/// `get_with_is_move` and `other_makers_are_moves` speak of those with a maker.
pub fn calls_by_key_are_moves<
    K: Eq + Hash + Clone,
    V: Clone,
    S: BuildHasher,
    X: Expiry<K, V>,
    L: Listener<K, V>,
    P: PredicateFn<K, V>,
    W: Weigher<K, V>,
    C: Clock,
>()
    ensures { CallsByKeyAreMoves (λ h k. key_hash S.BuildHasher S.Hasher.Hasher h (K.hash_input k))
        (meaning_of K.eq L.tells P.says W.weighs C.reads X.created X.read X.updated) K.is_clone V.is_clone }
{}

/// So is what `get_with` ensures, by a maker of this type.
pub fn get_with_is_move<
    K: Eq + Hash + Clone,
    V: Clone,
    S: BuildHasher,
    X: Expiry<K, V>,
    L: Listener<K, V>,
    P: PredicateFn<K, V>,
    W: Weigher<K, V>,
    C: Clock,
    F: FnOnce() -> V,
>()
    ensures { GetWithIsMove (λ h k. key_hash S.BuildHasher S.Hasher.Hasher h (K.hash_input k))
        (meaning_of K.eq L.tells P.says W.weighs C.reads X.created X.read X.updated) K.is_clone V.is_clone F.post }
{}

/// And what `optionally_get_with` ensures, by a maker of type `O`, and `try_get_with`, by one of type `F`.
pub fn other_makers_are_moves<
    K: Eq + Hash + Clone,
    V: Clone,
    S: BuildHasher,
    X: Expiry<K, V>,
    L: Listener<K, V>,
    P: PredicateFn<K, V>,
    W: Weigher<K, V>,
    C: Clock,
    E,
    O: FnOnce() -> Option<V>,
    F: FnOnce() -> Result<V, E>,
>()
    ensures optionally_get_with { GetWithIfMadeIsMove
        (λ h k. key_hash S.BuildHasher S.Hasher.Hasher h (K.hash_input k))
        (meaning_of K.eq L.tells P.says W.weighs C.reads X.created X.read X.updated) K.is_clone V.is_clone O.post }
    ensures try_get_with { GetWithIfNoErrorIsMove
        (λ h k. key_hash S.BuildHasher S.Hasher.Hasher h (K.hash_input k))
        (meaning_of K.eq L.tells P.says W.weighs C.reads X.created X.read X.updated) K.is_clone V.is_clone F.post }
{}

/// Calls of the reference cache that are made of a segment that `segment_mut` lends are one move of that segment. So is
/// what each of its own calls ensures that takes a clock (`Made`), as those of entries, for many keys, or by a test of
/// the key; `restore` and `restore_entry` are none.
pub fn lent_calls_are_moves<
    K: Eq + Clone,
    V: Clone,
    S,
    X: Expiry<K, V>,
    L: Listener<K, V>,
    P: PredicateFn<K, V>,
    W: Weigher<K, V>,
    C: Clock,
>()
    ensures { LentCallsAreMoves S
        (meaning_of K.eq L.tells P.says W.weighs C.reads X.created X.read X.updated) K.is_clone V.is_clone }
{}

/// What each call that concerns all segments ensures is a move of each in turn; `registering_is_moves` speaks of
/// predicates.
pub fn calls_of_all_are_moves<
    K: Eq + Clone,
    V: Clone,
    S,
    X: Expiry<K, V>,
    L: Listener<K, V>,
    P: PredicateFn<K, V>,
    W: Weigher<K, V>,
    C: Clock,
>()
    ensures { CallsOfAllAreMoves S
        (meaning_of K.eq L.tells P.says W.weighs C.reads X.created X.read X.updated) K.is_clone V.is_clone }
{}

/// So is what `invalidate_entries_if` ensures, by a maker of this type. A segment that is not asked makes no call.
pub fn registering_is_moves<
    K: Eq + Clone,
    V: Clone,
    S,
    X: Expiry<K, V>,
    L: Listener<K, V>,
    P: PredicateFn<K, V>,
    W: Weigher<K, V>,
    C: Clock,
    I: IdSource,
    F: Fn() -> P,
>()
    ensures { RegisteringIsMoves S (meaning_of K.eq L.tells P.says W.weighs C.reads X.created X.read X.updated)
        K.is_clone V.is_clone I.gives F.post }
{}

/// Segments whose capacities are the parts of one (`Router::share`), each that of its index, have it in all, to the
/// unit.
pub fn shares_sum<K, V, S, X, L, P, W>()
    ensures { SharesSum K V S X L P W }
{}
