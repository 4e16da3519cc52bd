//! A read-through cache of profiles, each of which lasts a while, with a listener that counts what leaves.
ghost use Rattle.std.specs.Prelude.{◌≡◌, ◌==◌, false, IfErr, IfOk, Some};
ghost use Rattle.std.specs.Duration.{as_nanos};
ghost use Rattle.moka_engine.specs.parts.Instant.{Instant};
ghost use Rattle.moka_engine.specs.Config.{default_config};
ghost use Rattle.moka_engine.specs.Looks.{CanHandOutValue};
ghost use Rattle.moka_engine.specs.Records.{record_of_key};
ghost use Rattle.moka_cache.specs.Given.{IsHandedOut};
ghost use Rattle.moka_cache.specs.Keyed.{IsOfInsert};
ghost use Rattle.moka_cache.specs.Removed.{no_removals};
ghost use Rattle.moka_uses.specs.Made.{IsNew};
ghost use Rattle.moka_uses.specs.ReadThrough.{ReadsThrough, counting_meaning};

use moka_cache::{CountingListener, GetWithRefused};
use moka_engine::{CacheConfig, Clock, NoExpiry, NoListener, OutOfMemory};
use moka_timed::TimedCache;
use std::alloc::Global;
use std::time::Duration;

/// Users' profiles.
pub type Profiles<V, C> = TimedCache<u64, V, C, NoExpiry, CountingListener<NoListener>>;

/// An empty cache of profiles. A profile that was read in stays for the time `lasting`.
///
/// # Errors
/// `OutOfMemory` if memory for the cache is refused.
pub fn start<V: Drop, C: Clock + Drop>(
    alloc: Global,
    lasting: Duration,
    clock: C,
) -> Result<Profiles<V, C>, OutOfMemory>
    ensures { IfOk result (λ profiles. IsNew C.reads
        (record default_config {
          time_to_live = Some (as_nanos lasting);
          listener = Some (record { listener = record {}; removals = no_removals });
        }) clock profiles.cache profiles.clock) }
{
    let config = CacheConfig::default()
        .time_to_live(lasting)
        .eviction_listener(CountingListener::new(NoListener));
    TimedCache::build(config, alloc, clock)
}

/// The profile of a user: a clone of the one that is kept and visible, or else of the one that `read` makes, which is
/// kept.
///
/// # Errors
/// As `TimedCache::get_with`: of the insert alone if no clone of the profile that is kept is refused.
pub fn profile<V: Clone + Drop, C: Clock, F: FnOnce() -> V>(
    profiles: &mut Profiles<V, C>,
    user: u64,
    read: F,
) -> Result<V, GetWithRefused<u64, V>>
    requires { F.pre read }
    ensures made { (now : Instant) × (read_clock : C) × C.reads profiles.old.clock now read_clock
        × IfOk result (λ profile. IsHandedOut (λ a b. a == b)
        (λ _ _ _ answer. answer ≡ false) V.is_clone profiles.old.cache.engine.state user
        now.0 (F.post read) profile)
        × ReadsThrough (counting_meaning (λ a b. a == b) C.reads) V.is_clone user now profiles.old.cache read_clock
        profiles.new.cache profiles.new.clock (F.post read) result }
    ensures looks_up { CanHandOutValue V.is_infallible
        (record_of_key (λ a b. a == b) profiles.old.cache.engine.state.records user) → IfErr result IsOfInsert }
{
    profiles.get_with(user, read)
}
