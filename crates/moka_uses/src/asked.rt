//! A key that is asked for in two ways, which agree.
ghost use Rattle.std.specs.Prelude.{◌≡◌, ◌==◌, false};
ghost use Rattle.moka_engine.specs.Calls.{ContainsStep};
ghost use Rattle.moka_uses.specs.Asked.{Gets};
ghost use Rattle.moka_uses.specs.Made.{engine_meaning};

use moka_engine::laws::gets_what_is_contained;
use moka_engine::{Engine, FixedClock, Instant, NoExpiry, NoPredicate, NoWeigher};

/// Asks whether a key is contained, and then gets its value: whether the one said so and whether the other found a
/// value is the same (`gets_what_is_contained`). Cloning a number takes no memory, so the get is not refused.
pub fn ask_twice(cache: &mut Engine<u64, u64>, key: u64, now: Instant) -> (bool, bool)
    ensures alike { result.0 ≡ result.1 }
    ensures contained { ContainsStep (λ _ _ _ answer. answer ≡ false) (λ a b. a == b)
        cache.old.state key now.0 result.0 }
    ensures got { Gets (engine_meaning (λ a b. a == b)) key now cache.old cache.new result.1 }
{
    gets_what_is_contained::<u64, u64, NoExpiry, NoPredicate, NoWeigher>();
    cache.invariant_holds();
    let hash = cache.hash(&key);
    let is_contained = cache.contains_key_with_hash(&key, hash, now);
    match cache.get_with_hash(&key, hash, false, now, &mut FixedClock(now)) {
        Ok(found) => (is_contained, found.is_some()),
        Err(_) => unreachable!(),
    }
}
