//! Makes the calls of a script on a cache.
ghost use Rattle.std.specs.Prelude.{◌≡◌, is_some, IfOk, None};
ghost use Rattle.std.specs.Duration.{as_nanos};
ghost use Rattle.moka_script.specs.Notices.{told_of, listener_for};
ghost use Rattle.moka_script.specs.Script.{text_of};
ghost use Rattle.moka_play.specs.Played.{AreReplies, chosen_terms, expirations_of, first_state, total_of};

use moka_drive::drive;
use moka_engine::base_cache::BaseCache;
use moka_parts::error::OutOfMemory;
use moka_parts::housekeeper::HousekeeperConfig;
use moka_parts::policy::{EvictionPolicy, ExpirationPolicy, Instant};
use moka_script::key_range::KeyRange;
use moka_script::notices::{Notices, room_for};
use moka_script::rules::{Rule, Rules};
use moka_script::script::{KeeperTerms, Script, ScriptCall, ScriptReply, Settings};
use moka_script::sources::{CountedIds, ListedClock};
use moka_script::weigher::NumberWeigher;
use moka_script::word::Word;
use std::alloc::Global;
use std::hash::{BuildHasherDefault, FoldHasher};
use std::time::Duration;

/// The first ticket if a script sets none.
const FIRST_TICKET: u64 = 1;

/// A cache that a script's calls are made on.
pub type ScriptCache = BaseCache<
    u32,
    Word,
    BuildHasherDefault<FoldHasher>,
    Rules,
    Notices,
    KeyRange,
    NumberWeigher,
>;

/// What came of the calls of a script; the cache has the notices and the report of the last run.
#[derive(Drop)]
pub struct Played {
    pub replies: Vec<ScriptReply>,
    pub cache: ScriptCache,
}

/// Makes the calls of a script, one after the other, on a new cache.
///
/// # Errors
/// `OutOfMemory` if memory for the cache, for its listener or for the replies is refused.
pub fn play(alloc: Global, script: Script) -> Result<Played, OutOfMemory>
    ensures { IfOk result (λ played. AreReplies (text_of script) played.replies.items (told_of played.cache.listener)
        (total_of played.cache.state)) }
{
    let Script {
        settings,
        rules,
        clock,
        calls,
    } = script;
    let listener = listener_for(alloc, settings.listener, &calls)?;
    let mut ids = CountedIds::new(settings.repeats_ids);
    let mut cache = new_cache(alloc, settings, rules, listener)?;
    match drive(
        alloc,
        &mut cache,
        calls,
        &mut ids,
        &mut ListedClock::new(clock),
    ) {
        Ok(replies) => Ok(Played { replies, cache }),
        Err(refused) => Err(refused.error),
    }
}

/// The listener of a script, if it asks for one, with room for every notice that its calls may cause.
///
/// # Errors
/// `OutOfMemory` if memory for that room is refused.
pub fn listener_for(
    alloc: Global,
    is_asked: bool,
    calls: &[ScriptCall],
) -> Result<Option<Notices>, OutOfMemory>
    ensures { IfOk result (λ listener. listener ≡ listener_for is_asked calls.now) }
{
    if is_asked {
        Ok(Some(Notices::with_room(alloc, room_for(calls))?))
    } else {
        Ok(None)
    }
}

/// The cache that a script begins with.
///
/// # Errors
/// `OutOfMemory` if memory for its tables is refused.
pub fn new_cache(
    alloc: Global,
    settings: Settings,
    rules: Vec<Rule>,
    listener: Option<Notices>,
) -> Result<ScriptCache, OutOfMemory>
    requires listens { is_some listener ≡ settings.listener }
    ensures state { IfOk result
        (λ cache. cache.state ≡ first_state (record { settings = settings; rules = rules.items })) }
    ensures listener { IfOk result (λ cache. cache.listener ≡ listener) }
    ensures name { IfOk result (λ cache. cache.name ≡ None) }
{
    let first = match settings.first {
        Some(ticket) => ticket.number(),
        None => FIRST_TICKET,
    };
    let mut cache = BaseCache::new(
        alloc,
        None,
        settings.capacity,
        None,
        BuildHasherDefault::default(),
        settings.weigher,
        settings.policy.unwrap_or(EvictionPolicy::tiny_lfu()),
        listener,
        expirations_of(settings.time_to_live, settings.time_to_idle, rules),
        config_of(settings.keeper),
        settings.invalidator,
        Instant(settings.start.unwrap_or(0)),
        first,
    )?;
    if settings.automatic {
        return Ok(cache);
    }
    cache.disable_auto_run();
    Ok(cache)
}

/// What the housekeeper of a script's cache gives to its runs.
fn config_of(keeper: Option<KeeperTerms>) -> HousekeeperConfig
    ensures limit { as_nanos result.maintenance_task_timeout ≡ (chosen_terms keeper).limit }
    ensures repeats { result.max_log_sync_repeats ≡ (chosen_terms keeper).repeats }
    ensures batch { result.eviction_batch_size ≡ (chosen_terms keeper).batch }
{
    match keeper {
        Some(keeper) => HousekeeperConfig {
            maintenance_task_timeout: Duration::from_nanos(keeper.limit),
            max_log_sync_repeats: keeper.repeats,
            eviction_batch_size: keeper.batch,
        },
        None => HousekeeperConfig::default(),
    }
}

/// When the entries of a script's cache expire.
fn expirations_of(
    time_to_live: Option<u64>,
    time_to_idle: Option<u64>,
    rules: Vec<Rule>,
) -> ExpirationPolicy<Rules>
    ensures { result ≡ expirations_of time_to_live time_to_idle rules.items }
{
    let mut expirations = ExpirationPolicy::default();
    if let Some(nanos) = time_to_live {
        expirations.set_time_to_live(Duration::from_nanos(nanos));
    }
    if let Some(nanos) = time_to_idle {
        expirations.set_time_to_idle(Duration::from_nanos(nanos));
    }
    if !rules.is_empty() {
        expirations.set_expiry(Rules::new(rules));
    }
    expirations
}
