//! Sessions that end when they are not used.
ghost use Rattle.std.specs.Prelude.{◌≡◌, ◌==◌, false, is_some, None, Some, IfErr, IfOk, IfSome, Ok, OnErr, option_map};
ghost use Rattle.std.specs.Duration.{as_nanos};
ghost use Rattle.moka_engine.specs.parts.Instant.{Instant};
ghost use Rattle.moka_engine.specs.Config.{default_config};
ghost use Rattle.moka_engine.specs.Records.{record_of_key};
ghost use Rattle.moka_engine.specs.State.{is_disabled};
ghost use Rattle.moka_cache.specs.Unsent.{IsThere};
ghost use Rattle.moka_uses.specs.Made.{HasValue, Inserts, IsNew, LooksUp, TakesOut, plain_meaning};
ghost use Rattle.moka_timed_uses.specs.Sessions.{IsFoundWithin};

use moka_engine::{CacheConfig, Clock, InsertRefused, OutOfMemory};
use moka_timed::TimedCache;
use std::alloc::Global;
use std::time::Duration;

/// Users' tokens.
pub type Sessions<C> = TimedCache<u64, u64, C>;

/// An empty cache of sessions. A session that is not used for the time `idle` ends.
///
/// # Errors
/// `OutOfMemory` if memory for the cache is refused.
pub fn start<C: Clock + Drop>(
    alloc: Global,
    idle: Duration,
    clock: C,
) -> Result<Sessions<C>, OutOfMemory>
    ensures { IfOk result (λ sessions. IsNew C.reads (record default_config { time_to_idle = Some (as_nanos idle) })
        clock sessions.cache sessions.clock) }
{
    TimedCache::build(CacheConfig::default().time_to_idle(idle), alloc, clock)
}

/// Begins a session of a user, used at the clock's moment. One that the user has ends. If the capacity is 0 none is
/// kept.
///
/// # Errors
/// The insert that was refused, with user and token; the sessions are as they were.
pub fn log_in<C: Clock>(
    sessions: &mut Sessions<C>,
    user: u64,
    token: u64,
) -> Result<(), InsertRefused<u64, u64>>
    ensures begun { (now : Instant) × (read : C) × C.reads sessions.old.clock now read
        × IfOk result (λ _. is_disabled sessions.old.cache.engine.state.capacity ≡ false
        → IsThere (λ a b. a == b) sessions.new.cache.engine.state user token now)
        × Inserts (plain_meaning (λ a b. a == b) C.reads) user now sessions.old.cache.engine read
        sessions.new.cache.engine sessions.new.clock token result }
    ensures back { IfErr result (λ refused. (refused.key ≡ user) × (refused.value ≡ token)) }
    ensures unchanged { OnErr result (sessions.new.cache.engine.state ≡ sessions.old.cache.engine.state) }
{
    sessions.insert(user, token)
}

/// Uses the session of a user: its token, if it was used within the idle time before the clock's moment, and else
/// `None`. Cloning a token takes no memory, so this is never refused.
pub fn touch<C: Clock>(sessions: &mut Sessions<C>, user: u64) -> Option<u64>
    ensures found { (now : Instant) × (read : C) × C.reads sessions.old.clock now read
        × IsFoundWithin sessions.old.cache.engine.state user now.0 (is_some result)
        × LooksUp (plain_meaning (λ a b. a == b) C.reads) user now sessions.old.cache.engine read
        sessions.new.cache.engine sessions.new.clock (Ok result) }
    ensures kept { IfSome result (HasValue (λ a b. a == b) sessions.old.cache.engine.state user) }
{
    match sessions.get(&user) {
        Ok(token) => token,
        Err(_) => unreachable!(),
    }
}

/// Ends the session of a user, and hands its token out, also if its time is over. The user has none then.
pub fn log_out<C: Clock>(sessions: &mut Sessions<C>, user: u64) -> Option<u64>
    ensures token { result ≡ option_map (λ r. r.value)
        (record_of_key (λ a b. a == b) sessions.old.cache.engine.state.records user) }
    ensures ended { record_of_key (λ a b. a == b) sessions.new.cache.engine.state.records user ≡ None }
    ensures made { (now : Instant) × (read : C) × C.reads sessions.old.clock now read
        × TakesOut (plain_meaning (λ a b. a == b) C.reads) user now sessions.old.cache.engine read
        sessions.new.cache.engine sessions.new.clock (λ a b. b ≡ a) (λ a b. b ≡ a) result }
{
    match sessions.remove(&user) {
        Ok(token) => token,
        Err(refused) => Some(refused.value),
    }
}
