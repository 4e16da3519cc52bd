//! A caller that hides values by a predicate of its own.
ghost use Rattle.std.specs.Prelude.{◌≡◌, ℕ, None, IfOk, IfErr, OnErr};
ghost use Rattle.moka_engine.specs.parts.Call.TheVariants as call;
ghost use Rattle.moka_engine.specs.parts.Reply.TheVariants as reply;
ghost use Rattle.moka_uses.specs.Hidden.{IsBelow, IsHiddenAt, IsHiddenFrom, IsNeverShown, meaning, run_meaning};
ghost use Rattle.moka_uses.specs.Made.{IsOneCall, Registers};

use moka_engine::laws::{stays_hidden, steps_are_of_reference};
use moka_engine::{
    Engine, FixedClock, IdSource, Instant, NoExpiry, NoListener, NoWeigher, PredicateFn,
    PredicateId, PredicateRefused,
};

/// Says yes to the values below a bound.
#[derive(Clone, Copy, Debug, PartialEq)]
pub struct Below(pub u64);

impl<K> PredicateFn<K, u64> for Below {
    ghost use Rattle.std.specs.Prelude.{◌≡◌, nat_lt};
    ghost use Rattle.std.proofs.Common.{sym, ◌∙◌};

    ghost says = { λ below _ value answer. answer ≡ nat_lt value below.0 };

    fn applies(&self, _: &K, value: &u64) -> bool {
        *value < self.0
    }

    ghost one_answer = { λ _ _ _ _ _ first second. first ∙ sym second };
}

/// Counts identifiers up. Behind the greatest there is no other, and a predicate may be refused for want of a free one.
#[derive(Clone, Copy)]
pub struct CountedIds(pub u128);

impl IdSource for CountedIds {
    ghost use Rattle.std.specs.Prelude.{◌≡◌, ◌+◌, ◌-◌, ◌^◌, min};
    ghost use Rattle.std.specs.Int.{w128, to_be_bytes};

    ghost gives = { λ before id after. (after.0 ≡ min (before.0 + 1) (2 ^ 128 - 1)) × (id ≡ to_be_bytes w128 after.0) };

    fn next_id(&mut self) -> PredicateId {
        self.0 = self.0.saturating_add(1);
        PredicateId::from_u128(self.0)
    }
}

/// Numbers by number, made by a configuration with `support_invalidation_closures`.
pub type Numbers = Engine<u64, u64, NoExpiry, NoListener, Below>;

/// Hides the values below a bound that were written at the moment `now` or before. From then on their keys are not
/// there, at whatever moment the cache is asked, until they are inserted again (`moka_engine::laws::stays_hidden`).
///
/// # Errors
/// The predicate that was refused; the cache is as it was.
pub fn hide_below<I: IdSource>(
    numbers: &mut Numbers,
    bound: u64,
    now: Instant,
    ids: &mut I,
) -> Result<PredicateId, PredicateRefused<Below>>
    ensures hidden { IfOk result (λ _. (key : ℕ) → IsBelow numbers.old.state key bound now.0
        → IsNeverShown numbers.new.state key) }
    ensures at_once { IfOk result (λ _. (key : ℕ) → IsBelow numbers.old.state key bound now.0
        → IsHiddenAt numbers.new.state key now.0) }
    ensures registered { Registers (meaning I.gives) (record { 0 = bound }) now numbers.old ids.old numbers.new ids.new
        result }
    ensures back { IfErr result (λ refused. refused.predicate ≡ record { 0 = bound }) }
    ensures unchanged { OnErr result (numbers.new.state ≡ numbers.old.state) }
{
    numbers.invalidate_entries_if(Below(bound), now, ids)
}

/// Makes a run of maintenance at the moment `now`, and tells whether more is left. A key that was hidden then, as by
/// `hide_below`, is not shown after it, at that moment or later. A call of the engine is a step of the reference cache
/// (`steps_are_of_reference`), where a key that is hidden stays so (`stays_hidden`).
pub fn run_after_hiding(numbers: &mut Numbers, now: Instant) -> bool
    ensures hidden { (key : ℕ) → IsHiddenAt numbers.old.state key now.0 → IsHiddenFrom numbers.new.state key now.0 }
    ensures ran { IsOneCall run_meaning numbers.old numbers.new
        (call.Run now None 1 384) (reply.Run result) }
{
    steps_are_of_reference::<
        u64,
        u64,
        NoExpiry,
        NoListener,
        Below,
        NoWeigher,
        FixedClock,
        CountedIds,
    >();
    stays_hidden::<u64, u64, NoExpiry, NoListener, Below, NoWeigher, FixedClock, CountedIds>();
    numbers.invariant_holds();
    numbers.run_pending_tasks(now, &mut FixedClock(now), None, 1, 384)
}
