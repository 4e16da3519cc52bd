//! Prices by names, looked up by a text that is no `String`: a look-up copies no name.
ghost use Rattle.std.specs.Prelude.{◌≡◌, String, false, IfErr, IfOk, IfSome, Ok, OnErr, Some, is_some};
ghost use Rattle.std.specs.Duration.{as_nanos};
ghost use Rattle.std.specs.String.{string_bytes, string_eq};
ghost use Rattle.moka_engine.specs.parts.Instant.{Instant};
ghost use Rattle.moka_engine.specs.Config.{default_config};
ghost use Rattle.moka_engine.specs.State.{is_disabled};
ghost use Rattle.moka_cache.specs.Unsent.{IsThere};
ghost use Rattle.moka_timed_uses.specs.Borrowed.{IsFoundAt, IsPriceOf};
ghost use Rattle.moka_uses.specs.Made.{Inserts, IsNew, LooksUp, plain_meaning};

use moka_engine::{CacheConfig, Clock, InsertRefused, OutOfMemory};
use moka_timed::TimedCache;
use std::alloc::Global;
use std::time::Duration;

/// Prices by names.
pub type Prices<C> = TimedCache<String, u64, C>;

/// An empty cache of prices. A price holds for the time `lasting`.
///
/// # Errors
/// `OutOfMemory` if memory for the cache is refused.
pub fn start<C: Clock + Drop>(
    alloc: Global,
    lasting: Duration,
    clock: C,
) -> Result<Prices<C>, OutOfMemory>
    ensures { IfOk result (λ prices. IsNew C.reads (record default_config { time_to_live = Some (as_nanos lasting) })
        clock prices.cache prices.clock) }
{
    TimedCache::build(CacheConfig::default().time_to_live(lasting), alloc, clock)
}

/// Sets the price of a name at the clock's moment.
///
/// # Errors
/// As `TimedCache::insert`: name and price come back, and the prices are as they were.
pub fn set<C: Clock>(
    prices: &mut Prices<C>,
    name: String,
    price: u64,
) -> Result<(), InsertRefused<String, u64>>
    ensures set { (now : Instant) × (read : C) × C.reads prices.old.clock now read
        × IfOk result (λ _. is_disabled prices.old.cache.engine.state.capacity ≡ false
        → IsThere string_eq prices.new.cache.engine.state name price now)
        × Inserts (plain_meaning string_eq C.reads) name now prices.old.cache.engine read
        prices.new.cache.engine prices.new.clock price result }
    ensures back { IfErr result (λ refused. (refused.key ≡ name) × (refused.value ≡ price)) }
    ensures unchanged { OnErr result (prices.new.cache.engine.state ≡ prices.old.cache.engine.state) }
{
    prices.insert(name, price)
}

/// The price of a name, if it is set and holds at the clock's moment. Cloning a price takes no memory, so this is never
/// refused.
pub fn price<C: Clock>(prices: &mut Prices<C>, name: &str) -> Option<u64>
    ensures value { IfSome result (IsPriceOf prices.old.cache.engine.state name.now) }
    ensures found { (now : Instant) × (read : C) × C.reads prices.old.clock now read
        × IsFoundAt prices.old.cache.engine.state name.now now.0 (is_some result)
        × ((key : String _) → string_bytes key ≡ name.now
        → LooksUp (plain_meaning string_eq C.reads) key now prices.old.cache.engine read
        prices.new.cache.engine prices.new.clock (Ok result)) }
{
    let hash = prices.hash_of(&name);
    match prices.get_by(&name, hash) {
        Ok(found) => found,
        Err(_) => unreachable!(),
    }
}
