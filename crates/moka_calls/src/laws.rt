//! Laws of the calls that a synchronous cache made. None of these functions does anything: the contract of each is a
//! law.
ghost use Rattle.moka_calls.specs.Removed.{counting, CountsHeard, CountsRemovals, PassesOn};
ghost use Rattle.moka_calls.specs.Limits.{CallsSetNoCapacity, KeepsLimits, ManySetNoCapacity};
ghost use Rattle.moka_records.specs.declared.instant.Instant.{Instant};
ghost use Rattle.std.specs.Prelude.{ℕ};
ghost use Rattle.moka_calls.specs.Synchronous.{meaning_of, hears_clones};
ghost use Rattle.moka_calls.specs.Counted.{CountsCalls, AddsUp, SumsToLookUps};
ghost use Rattle.moka_parts.specs.State.{meaning_of as asking_meaning_of};
ghost use Rattle.moka_calls.specs.Registering.{JoinsRegistrations};
ghost use Rattle.moka_calls.specs.Laws.{GoesOn, KeepsPromises, MadeRunsAgeOut, RunsAgeOutInTime, HearsClones, HearsThemselves, InvalidateAllIsMade, MadeAnytime, SetMaxCapacityIsMade, anytime};

use moka_parts::closures::{PredicateFn, Weigher};
use moka_parts::housekeeper::Clock;
use moka_parts::invalidator::IdSource;
use moka_parts::notification::Listener;
use moka_parts::policy::Expiry;

/// Calls that are chains of steps (`Made`), one after the other, are one run of the reference cache, however many there
/// are, if each goes on with the clock that the one before it left (else `made_anytime`). `restore` and
/// `restore_entry` are none, since the reference cache has no such call (`moka_restore_laws`): what is called after one
/// is a list of its own, and all that `keeps_promises` asks of its start holds of every cache (`invariant_holds` of its
/// engine). Nor is `invalidate_entries_if`, which asks for identifiers (`joins_registrations`).
pub fn goes_on<
    K: Eq,
    V,
    S,
    X: Expiry<K, V>,
    L: Listener<K, V>,
    P: PredicateFn<K, V>,
    W: Weigher<K, V>,
    C: Clock,
>()
    ensures { GoesOn S (meaning_of K.eq L.tells P.says W.weighs C.reads X.created X.read X.updated) }
{}

/// What `invalidate_all` and `set_max_capacity` ensure is a chain of one step (`Made`), whatever the clock is: neither
/// reads it. So `goes_on` joins them with the calls before and after them.
pub fn makes_one_step<
    K: Eq,
    V,
    S,
    X: Expiry<K, V>,
    L: Listener<K, V>,
    P: PredicateFn<K, V>,
    W: Weigher<K, V>,
    C: Clock,
>()
    ensures invalidate_all { InvalidateAllIsMade S
        (meaning_of K.eq L.tells P.says W.weighs C.reads X.created X.read X.updated) }
    ensures set_max_capacity { SetMaxCapacityIsMade S
        (meaning_of K.eq L.tells P.says W.weighs C.reads X.created X.read X.updated) }
{}

/// Calls between which the clock moves are one run too: what was made by a clock was made by one that may tell any
/// moment (`anytime`), such calls join, and their run keeps all that is promised of a list of calls; whether the
/// listener is notified of keys and values or of clones. So the calls of a cache that owns its clock join, each of
/// which reads it first, and those of a cache that is handed a fresh clock at each.
pub fn made_anytime<
    K: Eq + Clone,
    V: Clone,
    S,
    X: Expiry<K, V>,
    L: Listener<K, V>,
    P: PredicateFn<K, V>,
    W: Weigher<K, V>,
    C: Clock,
>()
    ensures themselves { MadeAnytime S
        (meaning_of K.eq L.tells P.says W.weighs C.reads X.created X.read X.updated) }
    ensures clones { MadeAnytime S
        (meaning_of K.eq (hears_clones K.is_clone V.is_clone L.tells) P.says W.weighs C.reads
        X.created X.read X.updated) }
{}

/// Chains of steps (`Made`) and calls of `invalidate_entries_if` are one run, in which identifiers are asked for
/// (`MadeAsking`), and which keeps all that is promised of a list of calls; whether the listener is notified of keys
/// and values or of clones, and also if the clock moves between them (`made_anytime`).
pub fn joins_registrations<
    K: Eq + Clone,
    V: Clone,
    S,
    X: Expiry<K, V>,
    L: Listener<K, V>,
    P: PredicateFn<K, V>,
    W: Weigher<K, V>,
    C: Clock,
    I: IdSource,
>()
    ensures themselves { JoinsRegistrations S L.tells
        (meaning_of K.eq L.tells P.says W.weighs C.reads X.created X.read X.updated)
        (asking_meaning_of K.eq L.tells P.says W.weighs C.reads I.gives X.created X.read X.updated) }
    ensures clones { JoinsRegistrations S L.tells
        (meaning_of K.eq (hears_clones K.is_clone V.is_clone L.tells) P.says W.weighs C.reads
        X.created X.read X.updated)
        (asking_meaning_of K.eq (hears_clones K.is_clone V.is_clone L.tells) P.says W.weighs C.reads I.gives
        X.created X.read X.updated) }
    ensures at_any_time { JoinsRegistrations S L.tells
        (anytime (meaning_of K.eq (hears_clones K.is_clone V.is_clone L.tells) P.says W.weighs C.reads
        X.created X.read X.updated))
        (anytime (asking_meaning_of K.eq (hears_clones K.is_clone V.is_clone L.tells) P.says W.weighs C.reads I.gives
        X.created X.read X.updated)) }
{}

/// The run that `goes_on` joins keeps all that is promised of a list of calls.
pub fn keeps_promises<
    K: Eq,
    V,
    S,
    X: Expiry<K, V>,
    L: Listener<K, V>,
    P: PredicateFn<K, V>,
    W: Weigher<K, V>,
    C: Clock,
>()
    ensures { KeepsPromises S (meaning_of K.eq L.tells P.says W.weighs C.reads X.created X.read X.updated) }
{}

/// From an empty cache that keeps the order of writing, since it has a time to live or supports predicates: if no
/// insert is earlier than a write that is there, each whole run that begins with every operation sent leaves nothing
/// past its time to live, and nothing written before the invalidation of all. The same holds if inserts come in the
/// order of time, which the list of calls alone tells.
pub fn ages_out<
    K: Eq,
    V,
    S,
    X: Expiry<K, V>,
    L: Listener<K, V>,
    P: PredicateFn<K, V>,
    W: Weigher<K, V>,
    C: Clock,
>()
    ensures timely { MadeRunsAgeOut S
        (meaning_of K.eq L.tells P.says W.weighs C.reads X.created X.read X.updated) }
    ensures in_time { RunsAgeOutInTime S
        (meaning_of K.eq L.tells P.says W.weighs C.reads X.created X.read X.updated) }
{}

/// What a listener is notified of may be seen as clones, so calls that notify of clones join those that do not.
pub fn hears_clones<
    K: Eq + Clone,
    V: Clone,
    S,
    X: Expiry<K, V>,
    L: Listener<K, V>,
    P: PredicateFn<K, V>,
    W: Weigher<K, V>,
    C: Clock,
>()
    ensures { HearsClones S
        (meaning_of K.eq L.tells P.says W.weighs C.reads X.created X.read X.updated) K.is_clone V.is_clone }
{}

/// If clones equal what was cloned, the listener is notified of keys and values themselves.
pub fn hears_themselves<
    K: Eq + Clone,
    V: Clone,
    S,
    X: Expiry<K, V>,
    L: Listener<K, V>,
    P: PredicateFn<K, V>,
    W: Weigher<K, V>,
    C: Clock,
>()
    ensures { HearsThemselves S
        (meaning_of K.eq L.tells P.says W.weighs C.reads X.created X.read X.updated) K.is_clone V.is_clone }
{}

/// The counters after each call that is a chain of steps are those before, and the hits, misses and makers of what it
/// stands for. That adds up from call to call, so hits and misses sum to the look-ups that were answered, until a
/// counter is full.
pub fn counts_look_ups<K, V: Clone, P, E>()
    ensures calls { CountsCalls K V P E V.is_clone }
    ensures adds_up { AddsUp K V P }
    ensures look_ups { SumsToLookUps K V P }
{}

/// Over calls that are chains of steps (`Made`) of a cache with a `CountingListener`, each counter rises by the
/// removals of its cause in the run of the reference cache, saturating; and the listener within is notified of each.
/// The same holds of whatever such a listener heard (`heard`, `clones_heard`), so of each list of calls whose run says
/// what was heard (`is_run`), as `joins_registrations` and `made_anytime` give it.
pub fn counts_removals<
    K: Eq + Clone,
    V: Clone,
    S,
    X: Expiry<K, V>,
    L: Listener<K, V>,
    P: PredicateFn<K, V>,
    W: Weigher<K, V>,
    C: Clock,
>()
    ensures themselves { CountsRemovals S
        (meaning_of K.eq (counting L.tells) P.says W.weighs C.reads X.created X.read X.updated) }
    ensures clones { CountsRemovals S (meaning_of K.eq (hears_clones K.is_clone V.is_clone (counting L.tells)) P.says
        W.weighs C.reads X.created X.read X.updated) }
    ensures heard { CountsHeard (counting L.tells) }
    ensures clones_heard { CountsHeard (hears_clones K.is_clone V.is_clone (counting L.tells)) }
    ensures passed_on { PassesOn L.tells }
{}

/// Over calls that are chains of steps (`Made`), none of which sets the capacity, times, policy and the like stay as
/// they were built, and so does the capacity; and none of the calls that `insert`, `get`, `remove`, `get_with` and the
/// entry calls stand for sets it.
pub fn keeps_limits<
    K: Eq,
    V,
    S,
    X: Expiry<K, V>,
    L: Listener<K, V>,
    P: PredicateFn<K, V>,
    W: Weigher<K, V>,
    C: Clock,
    E,
>()
    ensures limits { KeepsLimits S (meaning_of K.eq L.tells P.says W.weighs C.reads X.created X.read X.updated) }
    ensures calls { (key : K) (hash : ℕ) (now : Instant) → CallsSetNoCapacity K V P E key hash now }
{}

/// Nor do those that `insert_many`, `get_many` and `invalidate_many` stand for.
pub fn calls_for_many_set_no_capacity<K, V: Clone, P>()
    ensures { (hash_of : K → ℕ) (now : Instant) → ManySetNoCapacity K V P V.is_clone hash_of now }
{}
