//! A caller that handles each refusal of the synchronous cache.
ghost use Rattle.std.specs.Prelude.{◌≡◌, ◌==◌, ◌⊎◌, ◌++◌, ◌∷◌, [], false, true, max, None, Some, IfErr, IfOk, IfSome, IsOk, OnErr, option_map};
ghost use Rattle.moka_engine.specs.Calls.{ContainsStep};
ghost use Rattle.moka_engine.specs.Looks.{CanHandOutValue};
ghost use Rattle.moka_engine.specs.Records.{record_of_key};
ghost use Rattle.moka_engine.specs.State.{is_disabled};
ghost use Rattle.moka_cache.specs.Given.{IsHandedOut};
ghost use Rattle.moka_cache.specs.Unsent.{IsThere};
ghost use Rattle.moka_uses.specs.Handled.{HidesOrInvalidates, InsertsOrRetries, ReadsThroughOrRetries, SetsCapacity, hiding_meaning};
ghost use Rattle.moka_uses.specs.Made.{TakesOut, engine_meaning, plain_meaning};

use moka_cache::{Cache, GetWithRefused};
use moka_engine::{
    CapacityError, Clock, IdSource, InsertError, InsertRefused, Instant, Listener, NoExpiry,
    NoListener, OutOfMemory, PredicateFn, PredicateId,
};

/// Puts a value under a key. If memory is refused, the insert is made once more, with what came back of the first. A
/// cache of capacity 0 drops both.
///
/// # Errors
/// The insert that was refused, with key and value; the cache is as it was.
pub fn put<C: Clock>(
    cache: &mut Cache<u64, u64>,
    key: u64,
    value: u64,
    now: Instant,
    clock: &mut C,
) -> Result<(), InsertRefused<u64, u64>>
    ensures put { IfOk result (λ _. is_disabled cache.old.engine.state.capacity ≡ false
        → IsThere (λ a b. a == b) cache.new.engine.state key value now) }
    ensures back { IfErr result (λ refused. (refused.key ≡ key) × (refused.value ≡ value)) }
    ensures unchanged { OnErr result (cache.new.engine.state ≡ cache.old.engine.state) }
    ensures made { InsertsOrRetries (plain_meaning (λ a b. a == b) C.reads) key value now cache.old.engine clock.old
        cache.new.engine clock.new result }
{
    let refused = match cache.insert(key, value, now, clock) {
        Ok(()) => return Ok(()),
        Err(refused) => refused,
    };
    match refused.error {
        InsertError::OutOfMemory => cache.insert(refused.key, refused.value, now, clock),
        // No later insert succeeds either.
        InsertError::NumbersUsedUp => Err(refused),
    }
}

/// Takes a value out, whether the listener could be notified of it or not. The key is not there then.
pub fn take<V: Clone + Drop, L: Listener<u64, V>, C: Clock>(
    cache: &mut Cache<u64, V, NoExpiry, L>,
    key: u64,
    now: Instant,
    clock: &mut C,
) -> Option<V>
    ensures value { result
        ≡ option_map (λ r. r.value) (record_of_key (λ a b. a == b) cache.old.engine.state.records key) }
    ensures gone { record_of_key (λ a b. a == b) cache.new.engine.state.records key ≡ None }
    ensures made { TakesOut (record (plain_meaning (λ a b. a == b) C.reads) { tells = L.tells }) key now
        cache.old.engine clock.old cache.new.engine clock.new (λ a b. b ≡ a) V.is_clone result }
{
    match cache.remove(&key, now, clock) {
        Ok(value) => value,
        Err(refused) => Some(refused.value),
    }
}

/// A clone of the value of a key, or else of the value that is made. A value that was made and could not be kept is
/// handed out all the same. If the look-up is refused, it is made once more, with the key that came back.
///
/// # Errors
/// `OutOfMemory` if the second look-up is refused too: never if no clone of the value that is there is refused.
pub fn value_or_made<V: Clone + Drop, F: FnOnce() -> V, C: Clock>(
    cache: &mut Cache<u64, V>,
    key: u64,
    make: F,
    now: Instant,
    clock: &mut C,
) -> Result<V, OutOfMemory>
    requires callable { ContainsStep (λ _ _ _ answer. answer ≡ false)
        (λ a b. a == b) cache.old.engine.state key now.0 false → F.pre make }
    ensures made { ReadsThroughOrRetries (plain_meaning (λ a b. a == b) C.reads) V.is_clone key now cache.old clock.old
        cache.new clock.new (F.post make) result }
    ensures given { IfOk result (λ value. F.post make value
        ⊎ IsHandedOut (λ a b. a == b) (λ _ _ _ answer. answer ≡ false) V.is_clone cache.old.engine.state key now.0
        (F.post make) value) }
    ensures succeeds { CanHandOutValue V.is_infallible
        (record_of_key (λ a b. a == b) cache.old.engine.state.records key) → IsOk result }
{
    match cache.get_with(key, make, now, clock) {
        Ok(value) => Ok(value),
        Err(GetWithRefused::Insert(refused)) => Ok(refused.value),
        Err(GetWithRefused::Lookup(key)) => match cache.get(&key, now, clock) {
            Ok(Some(value)) => Ok(value),
            Ok(None) => Err(OutOfMemory),
            Err(refused) => Err(refused),
        },
    }
}

/// Hides what a predicate covers. If the predicate is refused, all entries that were written or read before the moment
/// `now` are invalidated in its place, and the answer is `None`.
pub fn hide<P: PredicateFn<u64, u64> + Drop, I: IdSource>(
    cache: &mut Cache<u64, u64, NoExpiry, NoListener, P>,
    predicate: P,
    now: Instant,
    ids: &mut I,
) -> Option<PredicateId>
    ensures hidden { IfSome result (λ id. cache.new.engine.state.predicates ≡ cache.old.engine.state.predicates
        ++ record { id = id; predicate = predicate; registered = now } ∷ []) }
    ensures all { result ≡ None → cache.new.engine.state ≡ record cache.old.engine.state { invalid_before = Some now } }
    ensures made { HidesOrInvalidates (hiding_meaning P.says I.gives) predicate now
        cache.old.engine ids.old cache.new.engine ids.new result }
{
    match cache.invalidate_entries_if(predicate, now, ids) {
        Ok(id) => Some(id),
        Err(_) => {
            cache.invalidate_all(now);
            None
        }
    }
}

/// Lets the cache keep as much as `capacity`, and at least 1. The answer is the capacity that holds from now on: that
/// of a disabled cache stays 0.
pub fn resize(cache: &mut Cache<u64, u64>, capacity: u64) -> u64
    ensures resized { is_disabled cache.old.engine.state.capacity ≡ false → result ≡ max capacity 1 }
    ensures disabled { is_disabled cache.old.engine.state.capacity ≡ true → result ≡ 0 }
    ensures holds { cache.new.engine.state.capacity ≡ Some result }
    ensures made { SetsCapacity (engine_meaning (λ a b. a == b)) (max capacity 1) cache.old.engine
        cache.new.engine }
{
    let at_least_one = capacity.max(1);
    match cache.set_max_capacity(Some(at_least_one)) {
        Ok(()) => at_least_one,
        Err(CapacityError::ZeroCapacity) => 0,
    }
}
