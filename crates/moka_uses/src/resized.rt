//! A cache whose capacity changes.
ghost use Rattle.std.specs.Prelude.{◌≡◌, ◌==◌, ◌||◌, ◌≤◌, true, false, Some, IfOk, OnErr};
ghost use Rattle.std.specs.FinMap.{empty};
ghost use Rattle.moka_engine.specs.State.{is_disabled};
ghost use Rattle.moka_uses.specs.Made.{engine_meaning};
ghost use Rattle.moka_uses.specs.Resized.{ShrinksAndGrows};

use moka_engine::{CapacityError, Engine, FixedClock, Instant};

/// Lets the cache keep no more than `fewer`, evicts at once what exceeds that, and then lets it keep as much as `more`
/// again. The answer is the weight that is left: if every operation was sent, no more than `fewer`.
///
/// # Errors
/// `ZeroCapacity` if the cache's capacity or one of these is 0. Nothing has changed.
pub fn shrink_and_grow(
    cache: &mut Engine<u64, u64>,
    fewer: u64,
    more: u64,
    now: Instant,
) -> Result<u64, CapacityError>
    ensures within { cache.old.state.outstanding ≡ empty → IfOk result (λ weight. weight ≤ fewer) }
    ensures capacity { IfOk result (λ _. cache.new.state.capacity ≡ Some more) }
    ensures weight { IfOk result (λ weight. weight ≡ cache.new.state.weight) }
    ensures made { IfOk result (λ _. ShrinksAndGrows (engine_meaning (λ a b. a == b)) fewer more now
        cache.old cache.new) }
    ensures some { IfOk result (λ _. (is_disabled cache.old.state.capacity || fewer == 0 || more == 0) ≡ false) }
    ensures zero { OnErr result ((is_disabled cache.old.state.capacity || fewer == 0 || more == 0) ≡ true) }
    ensures unchanged { OnErr result (cache.new.state ≡ cache.old.state) }
{
    cache.invariant_holds();
    // The second change is refused for no other reason than the first, so an error has changed nothing.
    if fewer == 0 || more == 0 {
        return Err(CapacityError::ZeroCapacity);
    }
    cache.set_max_capacity(Some(fewer))?;
    cache.run_pending_tasks(now, &mut FixedClock(now), None, 1, 384);
    cache.set_max_capacity(Some(more))?;
    Ok(cache.weighted_size())
}
