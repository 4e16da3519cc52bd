//! A caller that handles each refusal.
ghost use Rattle.std.specs.Prelude.{◌≡◌, ◌==◌, ◌↔◌, false, None, IfErr, IfOk, IsTrue, OnErr};
ghost use Rattle.std.specs.FinMap.{get};
ghost use Rattle.moka_engine.specs.State.{is_disabled};
ghost use Rattle.moka_cache.specs.Unsent.{HoldsUnsent, IsThere};
ghost use Rattle.moka_uses.specs.Made.{engine_meaning};
ghost use Rattle.moka_uses.specs.Refused.{InsertsAndSends, IsSent, SendsAfterAll};

use moka_engine::laws::sends_after_run;
use moka_engine::{
    Engine, FixedClock, InsertError, InsertRefused, Instant, NoExpiry, NoPredicate, NoWeigher,
    SendError, Ticket,
};

/// Puts a value under a key, and sends the operation. A full queue is emptied by a run, and the operation sent again.
/// The value is there then, since no run removes an entry whose operation waits to be sent.
///
/// # Errors
/// The insert that was refused, with key and value; the cache is as it was.
pub fn put(
    cache: &mut Engine<u64, u64>,
    key: u64,
    value: u64,
    now: Instant,
) -> Result<(), InsertRefused<u64, u64>>
    requires { is_disabled cache.old.state.capacity ≡ false }
    ensures put { IfOk result (λ _. IsThere (λ a b. a == b) cache.new.state key value now) }
    ensures sent { cache.new.state.outstanding ≡ cache.old.state.outstanding }
    ensures back { IfErr result (λ refused. (refused.key ≡ key) × (refused.value ≡ value)) }
    ensures unchanged { OnErr result (cache.new.state ≡ cache.old.state) }
    ensures made { InsertsAndSends (engine_meaning (λ a b. a == b)) key value now cache.old cache.new
        result }
{
    cache.invariant_holds();
    let hash = cache.hash(&key);
    let (ticket, _) = cache.do_insert_with_hash(key, hash, value, now)?;
    // The ticket was handed out just now, so it is known, and its operation is sent.
    let _sent = send_after_all(cache, ticket, now);
    cache.invariant_holds();
    Ok(())
}

/// Sends the operation of a ticket. A full queue is emptied by a run, after which a send of what waits succeeds
/// (`sends_after_run`).
///
/// # Errors
/// `UnknownTicket` if no operation waits under the ticket, and nothing else; the cache is as it was.
pub fn send_after_all(
    cache: &mut Engine<u64, u64>,
    ticket: Ticket,
    now: Instant,
) -> Result<(), SendError>
    requires { is_disabled cache.old.state.capacity ≡ false }
    ensures refused { IfErr result (λ error. (error ≡ SendError.UnknownTicket)
        × (get cache.old.state.outstanding ticket.0 ≡ None)) }
    ensures unchanged { OnErr result (cache.new.state ≡ cache.old.state) }
    ensures sent { IfOk result (λ _. IsSent ticket.0 cache.old.state cache.new.state) }
    ensures held { HoldsUnsent cache.old.state cache.new.state }
    ensures made { SendsAfterAll (engine_meaning (λ a b. a == b)) ticket now cache.old cache.new result }
{
    sends_after_run::<u64, u64, NoExpiry, NoPredicate, NoWeigher>();
    match cache.send(ticket) {
        Err(SendError::QueueFull) => {
            cache.run_pending_tasks(now, &mut FixedClock(now), None, 1, 384);
            cache.send(ticket)
        }
        sent => sent,
    }
}

/// Whether it helps to put the value again later: memory may be given back, tickets are not.
pub fn may_put_again(refused: &InsertRefused<u64, u64>) -> bool
    ensures { IsTrue result ↔ (refused.now.error ≡ InsertError.OutOfMemory) }
{
    match refused.error {
        InsertError::OutOfMemory => true,
        InsertError::NumbersUsedUp => false,
    }
}
