//! Laws of the reference cache, which says what an engine does. None of these functions does anything: the contract of
//! each is a law, and whoever calls it may rely on that.
ghost use Rattle.std.specs.Prelude.{ℕ, List};
ghost use Rattle.moka_records.specs.declared.records.Member.{Member};
ghost use Rattle.moka_parts.specs.State.{State, Contents, meaning_of};
ghost use Rattle.moka_parts.specs.Maintenance.{Freedom};
ghost use Rattle.moka_parts.specs.Runs.{PromisedRun};
ghost use Rattle.moka_parts.specs.Listed.{ListedRun};
ghost use Rattle.moka_parts.specs.Laws.{GetsWhatIsContained, StaysHidden, DropsOnlyIdle, RemovesJustOne, AdmitsWell, TellsEachOnce, PeeksQuietly, StartsValid, StaysValid, StaysInOrder, EndsExact, CountsNearly, RemovesEnough, RemovesFirst, IsOfReference, PredicatesLeaveIdle, RunsAreOfReference, StepsAreOfReference, ListsAreOfReference, RunsAgeOut, SendsAfterRun, CallsKeepOrder, ListsKeepOrder};

use moka_parts::closures::{PredicateFn, Weigher};
use moka_parts::housekeeper::Clock;
use moka_parts::invalidator::IdSource;
use moka_parts::notification::Listener;
use moka_parts::policy::Expiry;

/// A get finds a value exactly if the key is contained, unless memory for a clone is refused: a get of `drive`, and
/// one of `BaseCache` from one write list to another.
pub fn gets_what_is_contained<K: Eq, V, X: Expiry<K, V>, P: PredicateFn<K, V>, W>()
    ensures promised { GetsWhatIsContained {W = W} K.eq P.says X.read (PromisedRun P.says X.read) }
    ensures listed { (before after : List ℕ)
        → GetsWhatIsContained {W = W} K.eq P.says X.read (ListedRun P.says X.read before after) }
{}

/// A hidden key stays hidden until it is inserted again, if moments never go back, nor that of `invalidate_all`.
pub fn stays_hidden<
    K: Eq,
    V,
    X: Expiry<K, V>,
    L: Listener<K, V>,
    P: PredicateFn<K, V>,
    W: Weigher<K, V>,
    C: Clock,
    I: IdSource,
>()
    ensures { StaysHidden (meaning_of K.eq L.tells P.says W.weighs C.reads I.gives X.created X.read X.updated) }
{}

/// A run drops a predicate only when it covers no record of the map.
pub fn drops_only_idle<K, V, X, P: PredicateFn<K, V>, W>()
    ensures { (s : State K V X P W) (now : ℕ) (free : Freedom) → DropsOnlyIdle P.says s now free }
{}

/// A predicate that is registered before a list of calls and not after it left in a run at some moment of which it
/// covered no record of the map.
pub fn predicates_leave_idle<
    K: Eq,
    V,
    X: Expiry<K, V>,
    L: Listener<K, V>,
    P: PredicateFn<K, V>,
    W: Weigher<K, V>,
    C: Clock,
    I: IdSource,
>()
    ensures { PredicatesLeaveIdle (meaning_of K.eq L.tells P.says W.weighs C.reads I.gives X.created X.read X.updated) }
{}

/// A removal hands out the entry of its key, visible or hidden, and every other key's record stays.
pub fn removes_just_one<K: Eq, V, X, P, W>()
    ensures { (s : State K V X P W) → RemovesJustOne K.eq s }
{}

/// A candidate that is admitted by frequency was seen more often than its victims together, and they weigh enough.
pub fn admits_well<K, V>()
    ensures { (c : Contents K V) (weight hash : ℕ) (victims : List Member) → AdmitsWell c weight hash victims }
{}

/// A get that records nothing changes at most the last read and the expiry of the record that it finds.
pub fn peeks_quietly<K: Eq, V, X: Expiry<K, V>, P: PredicateFn<K, V>, W>()
    ensures { PeeksQuietly W K.eq P.says X.read }
{}

/// If a listener is set, it is notified exactly once of each value that leaves the map other than by a caller's
/// removal.
pub fn tells_each_once<
    K: Eq,
    V,
    X: Expiry<K, V>,
    L: Listener<K, V>,
    P: PredicateFn<K, V>,
    W: Weigher<K, V>,
    C: Clock,
    I: IdSource,
>()
    ensures { TellsEachOnce (meaning_of K.eq L.tells P.says W.weighs C.reads I.gives X.created X.read X.updated) }
{}

/// What holds of a state at every moment holds of a new cache.
pub fn starts_valid<K: Eq, V, X, P, W>()
    ensures { StartsValid K V X P W K.eq }
{}

/// What holds of a state at every moment is kept by every list of calls.
pub fn stays_valid<
    K: Eq,
    V,
    X: Expiry<K, V>,
    L: Listener<K, V>,
    P: PredicateFn<K, V>,
    W: Weigher<K, V>,
    C: Clock,
    I: IdSource,
>()
    ensures { StaysValid (meaning_of K.eq L.tells P.says W.weighs C.reads I.gives X.created X.read X.updated) }
{}

/// If the write list is kept, calls in the order of time keep a state in the order of writing.
pub fn stays_in_order<
    K: Eq,
    V,
    X: Expiry<K, V>,
    L: Listener<K, V>,
    P: PredicateFn<K, V>,
    W: Weigher<K, V>,
    C: Clock,
    I: IdSource,
>()
    ensures { StaysInOrder (meaning_of K.eq L.tells P.says W.weighs C.reads I.gives X.created X.read X.updated) }
{}

/// A run that begins with every operation sent ends with count and weight exactly the records'.
pub fn ends_exact<K: Eq, V, X, P: PredicateFn<K, V>, W>()
    ensures { EndsExact X W K.eq P.says }
{}

/// After each run the reported count is off by no more than the operations that were not sent.
pub fn counts_nearly<K: Eq, V, X, P: PredicateFn<K, V>, W>()
    ensures { CountsNearly X W K.eq P.says }
{}

/// If weight is the only ground for a removal, a run that ends within the capacity removes just enough from the
/// least recently used end.
pub fn removes_enough<K, V, X, P: PredicateFn<K, V>, W>()
    ensures { (s : State K V X P W) (now : ℕ) (free : Freedom) → RemovesEnough P.says s now free }
{}

/// If weight is the only ground for a removal, a run removes the least recently used first.
pub fn removes_first<K, V, X, P: PredicateFn<K, V>, W>()
    ensures { (s : State K V X P W) (now : ℕ) (free : Freedom) → RemovesFirst P.says s now free }
{}

/// Calls whose runs of maintenance keep their promises are a run of the reference cache, so every law holds of them.
pub fn is_of_reference<
    K: Eq,
    V,
    S,
    X: Expiry<K, V>,
    L: Listener<K, V>,
    P: PredicateFn<K, V>,
    W: Weigher<K, V>,
    C: Clock,
    I: IdSource,
>()
    ensures { IsOfReference S (meaning_of K.eq L.tells P.says W.weighs C.reads I.gives X.created X.read X.updated) }
{}

/// A run that `BaseCache` promises is one of the reference cache.
pub fn runs_are_of_reference<K, V, X: Expiry<K, V>, P: PredicateFn<K, V>, W>()
    ensures { RunsAreOfReference W P.says X.read }
{}

/// A call that `BaseCache` promises, from one write list to another, is one of the reference cache.
pub fn steps_are_of_reference<
    K: Eq,
    V,
    X: Expiry<K, V>,
    L: Listener<K, V>,
    P: PredicateFn<K, V>,
    W: Weigher<K, V>,
    C: Clock,
    I: IdSource,
>()
    ensures { StepsAreOfReference (meaning_of K.eq L.tells P.says W.weighs C.reads I.gives X.created X.read X.updated) }
{}

/// Calls that lead from one write list to the next are steps of the reference cache, so every law holds of them.
pub fn lists_are_of_reference<
    K: Eq,
    V,
    X: Expiry<K, V>,
    L: Listener<K, V>,
    P: PredicateFn<K, V>,
    W: Weigher<K, V>,
    C: Clock,
    I: IdSource,
>()
    ensures { ListsAreOfReference (meaning_of K.eq L.tells P.says W.weighs C.reads I.gives X.created X.read X.updated) }
{}

/// From a state in the order of writing, a whole run with every operation sent leaves no record past its time to live,
/// and none written before the invalidation of all.
pub fn runs_age_out<K: Eq, V, X: Expiry<K, V>, P: PredicateFn<K, V>, W>()
    ensures { RunsAgeOut W P.says X.read K.eq }
{}

/// After a run of a map that is not disabled each operation that waits can be sent: both queues are empty.
pub fn sends_after_run<K, V, X: Expiry<K, V>, P: PredicateFn<K, V>, W>()
    ensures { SendsAfterRun W P.says X.read }
{}

/// If the write list is kept, a call in the order of time keeps a state in the order of writing, with the write list
/// that the call leaves.
pub fn calls_keep_order<
    K: Eq,
    V,
    X: Expiry<K, V>,
    L: Listener<K, V>,
    P: PredicateFn<K, V>,
    W: Weigher<K, V>,
    C: Clock,
    I: IdSource,
>()
    ensures { CallsKeepOrder (meaning_of K.eq L.tells P.says W.weighs C.reads I.gives X.created X.read X.updated) }
{}

/// If the write list is kept, a list of calls in the order of time keeps a state in the order of writing, with the
/// write list that the last of them leaves.
pub fn lists_keep_order<
    K: Eq,
    V,
    X: Expiry<K, V>,
    L: Listener<K, V>,
    P: PredicateFn<K, V>,
    W: Weigher<K, V>,
    C: Clock,
    I: IdSource,
>()
    ensures { ListsKeepOrder (meaning_of K.eq L.tells P.says W.weighs C.reads I.gives X.created X.read X.updated) }
{}
