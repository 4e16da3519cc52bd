//! A cache of which nothing is left past its time: its operations wait and are sent in the order of their writing.
ghost use Rattle.std.specs.Prelude.{◌≡◌, ◌==◌, ℕ, true, false, None, Some, IfErr, OnErr};
ghost use Rattle.std.specs.FinMap.{empty, get};
ghost use Rattle.moka_engine.specs.Order.{IsInOrder};
ghost use Rattle.moka_engine.specs.State.{is_disabled, keeps_write_list};
ghost use Rattle.moka_engine.specs.Visibility.{is_past_live};
ghost use Rattle.moka_engine.specs.parts.Call.TheVariants as call;
ghost use Rattle.moka_engine.specs.parts.Reply.TheVariants as reply;
ghost use Rattle.moka_uses.specs.Made.{IsOneCall, engine_meaning};
ghost use Rattle.moka_uses.specs.Ordered.{IsLatest};
ghost use Rattle.moka_engine.specs.parts.Record.{Record};

use crate::invalidated::CountedIds;
use moka_engine::laws::{calls_keep_order, runs_age_out};
use moka_engine::{
    Engine, FixedClock, InsertRefused, Instant, NoExpiry, NoListener, NoPredicate, NoWeigher,
    Ticket,
};

/// Puts a value under a key, and hands out a ticket. If no record was written later, a cache in the order of writing
/// stays so (`calls_keep_order`).
///
/// # Errors
/// The insert that was refused, with key and value; the cache is as it was.
pub fn put_last(
    cache: &mut Engine<u64, u64>,
    key: u64,
    value: u64,
    now: Instant,
) -> Result<(Ticket, Instant), InsertRefused<u64, u64>>
    requires { is_disabled cache.old.state.capacity ≡ false }
    ensures in_order { keeps_write_list cache.old.state.settings ≡ true → IsLatest cache.old.state now.0
        → IsInOrder cache.old.state cache.old.write_list → IsInOrder cache.new.state cache.new.write_list }
    ensures put { (hash : ℕ) × IsOneCall (engine_meaning (λ a b. a == b)) cache.old cache.new
        (call.Insert key hash value now) (reply.Insert result) }
    ensures back { IfErr result (λ refused. (refused.key ≡ key) × (refused.value ≡ value)) }
    ensures unchanged { OnErr result (cache.new.state ≡ cache.old.state) }
{
    calls_keep_order::<
        u64,
        u64,
        NoExpiry,
        NoListener,
        NoPredicate,
        NoWeigher,
        FixedClock,
        CountedIds,
    >();
    cache.invariant_holds();
    let hash = cache.hash(&key);
    cache.do_insert_with_hash(key, hash, value, now)
}

/// Makes a run at the moment `now`, and tells whether more is left. If every operation was sent, from a state in the
/// order of writing, no entry is left whose time to live has passed (`runs_age_out`).
pub fn age_out(cache: &mut Engine<u64, u64>, now: Instant) -> bool
    ensures aged { keeps_write_list cache.old.state.settings ≡ true → cache.old.state.outstanding ≡ empty
        → IsInOrder cache.old.state cache.old.write_list → (n : ℕ) (r : Record ℕ ℕ)
        → get cache.new.state.records n ≡ Some r → is_past_live cache.new.state.settings r now.0 ≡ false }
    ensures ran { IsOneCall (engine_meaning (λ a b. a == b)) cache.old cache.new
        (call.Run now None 1 384) (reply.Run result) }
{
    runs_age_out::<u64, u64, NoExpiry, NoPredicate, NoWeigher>();
    cache.invariant_holds();
    cache.run_pending_tasks(now, &mut FixedClock(now), None, 1, 384)
}
