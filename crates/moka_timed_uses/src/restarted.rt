//! Sessions that outlast a restart: they are saved when the program ends, and put back when it starts again.
ghost use Rattle.std.specs.Prelude.{◌≡◌, ◌≤◌, false, length, IfOk, List, None, Some};
ghost use Rattle.std.specs.Duration.{as_nanos};
ghost use Rattle.moka_engine.specs.parts.Instant.{Instant};
ghost use Rattle.moka_engine.specs.Snapshot.{scene_of};
ghost use Rattle.moka_engine.specs.parts.Restored.{Restored};
ghost use Rattle.moka_cache.specs.Saves.{HasOnlyMembers, AreSaved};
ghost use Rattle.moka_cache.specs.Laws.{anytime};
ghost use Rattle.moka_timed_uses.specs.Restarted.{AreAmong, AreBack, AreBegunAgain, AreHandedOver, ArePutBack, AreUsedAlike, AtSecond, Runs, idling, sessions_meaning};

use crate::sessions::Sessions;
use moka_engine::{
    CacheConfig, Clock, DefaultHasher, NoExpiry, NoListener, NoPredicate, NoWeigher, OutOfMemory,
    Restored,
};
use moka_restore_laws::laws::{look_ups_answer_alike, made_again_answers_alike};
use moka_timed::TimedCache;
use std::alloc::Global;
use std::time::Duration;

/// The sessions that have not ended, the one used least recently first. None of them is left out. A run of maintenance
/// is made before, and no other call.
///
/// # Errors
/// `OutOfMemory`
pub fn save<C: Clock>(
    alloc: Global,
    sessions: &mut Sessions<C>,
) -> Result<Vec<Restored<u64, u64>>, OutOfMemory>
    ensures members { HasOnlyMembers sessions.new.cache.engine.state }
    ensures saved { (now : Instant) × (read : C) × C.reads sessions.old.clock now read
        × IfOk result (λ saved. AreSaved (λ _ _ _ answer. answer ≡ false) (λ a b. b ≡ a) (λ a b. b ≡ a)
        (scene_of sessions.new.cache.engine.state now.0) sessions.new.cache.engine.state.access saved.items)
        × Runs (sessions_meaning C.reads) now sessions.old.cache.engine read
        sessions.new.cache.engine sessions.new.clock }
{
    sessions.save(alloc)
}

/// The sessions that were saved, but for those that have ended meanwhile. Each ends when it would have ended: if it
/// is not used for the time `idle`, counted from its last use before the restart.
///
/// # Errors
/// `OutOfMemory`, also if a user was saved twice or a session has an expiry of its own. Then the sessions are
/// dropped.
pub fn start_again<C: Clock + Drop>(
    alloc: Global,
    idle: Duration,
    clock: C,
    saved: Vec<Restored<u64, u64>>,
) -> Result<Sessions<C>, OutOfMemory>
    ensures idle { IfOk result (λ sessions. sessions.cache.engine.state.settings.time_to_idle ≡ Some (as_nanos idle)) }
    ensures back { IfOk result (λ sessions. AtSecond C.reads clock
        (λ now. AreBack sessions.cache.engine.state saved.items now.0
        × ArePutBack (λ _ _ _ weight. weight ≡ 1) saved.items now.0 (as_nanos idle) sessions.cache.engine.state)) }
    ensures among { IfOk result (λ sessions. AreAmong sessions.cache.engine.state saved.items) }
    ensures unbounded { IfOk result (λ sessions. sessions.cache.engine.state.capacity ≡ None) }
    ensures made { IfOk result (λ sessions. AreBegunAgain (sessions_meaning C.reads) (idling (as_nanos idle))
        clock saved.items sessions.cache sessions.clock) }
{
    let config = CacheConfig::default().time_to_idle(idle);
    let mut sessions = TimedCache::build(config, alloc, clock)?;
    match sessions.restore(saved) {
        Ok(()) => Ok(sessions),
        Err(_) => Err(OutOfMemory),
    }
}

/// As `start_again`, with at most so many sessions. If no more were saved, none is left out that has not ended.
///
/// # Errors
/// `OutOfMemory`, also if a user was saved twice or a session has an expiry of its own. Then the sessions are
/// dropped.
pub fn start_again_within<C: Clock + Drop>(
    alloc: Global,
    idle: Duration,
    capacity: u64,
    clock: C,
    saved: Vec<Restored<u64, u64>>,
) -> Result<Sessions<C>, OutOfMemory>
    ensures idle { IfOk result (λ sessions. sessions.cache.engine.state.settings.time_to_idle ≡ Some (as_nanos idle)) }
    ensures bound { IfOk result (λ sessions. sessions.cache.engine.state.capacity ≡ Some capacity) }
    ensures back { IfOk result (λ sessions. AtSecond C.reads clock (λ now. 1 ≤ capacity
        → length saved.items ≤ capacity → AreBack sessions.cache.engine.state saved.items now.0)) }
    ensures among { IfOk result (λ sessions. AreAmong sessions.cache.engine.state saved.items) }
    ensures made { IfOk result (λ sessions. AreBegunAgain (sessions_meaning C.reads)
        (record (idling (as_nanos idle)) { max_capacity = Some capacity })
        clock saved.items sessions.cache sessions.clock) }
{
    made_again_answers_alike::<u64, u64, NoExpiry, NoPredicate, NoWeigher>();
    let config = CacheConfig::default()
        .time_to_idle(idle)
        .max_capacity(capacity);
    let mut sessions = TimedCache::build(config, alloc, clock)?;
    match sessions.restore(saved) {
        Ok(()) => Ok(sessions),
        Err(_) => Err(OutOfMemory),
    }
}

/// New sessions in place of others. If those have the same idle time and no time to live, each user has the same
/// session in both, from the moments on at which they were saved and put back, until either is used or changed. If
/// nothing else ends them, both answer any list of look-ups alike, though each counts as a use.
///
/// # Errors
/// `OutOfMemory`
pub fn hand_over<C: Clock, D: Clock + Drop>(
    alloc: Global,
    sessions: &mut Sessions<C>,
    idle: Duration,
    clock: D,
) -> Result<Sessions<D>, OutOfMemory>
    ensures idle { IfOk result (λ again. again.cache.engine.state.settings.time_to_idle ≡ Some (as_nanos idle)) }
    ensures begun { (now : Instant) × (read : C) × C.reads sessions.old.clock now read
        × IfOk result (λ again. (saved : List (Restored _ _)) × AreSaved (λ _ _ _ answer. answer ≡ false)
        (λ a b. b ≡ a) (λ a b. b ≡ a) (scene_of sessions.new.cache.engine.state now.0)
        sessions.new.cache.engine.state.access saved × AreBegunAgain (sessions_meaning D.reads)
        (idling (as_nanos idle)) clock saved again.cache again.clock) }
    ensures handed_over { (saved : Instant) × (read : C) × C.reads sessions.old.clock saved read
        × Runs (sessions_meaning C.reads) saved sessions.old.cache.engine read
        sessions.new.cache.engine sessions.new.clock
        × IfOk result (λ again. AtSecond D.reads clock (λ put. AreHandedOver (λ _ _ _ answer. answer ≡ false)
        (as_nanos idle) saved.0 put.0 sessions.new.cache.engine.state again.cache.engine.state
        × AreUsedAlike (anytime (sessions_meaning C.reads))
        (as_nanos idle) saved.0 put.0 sessions.new.cache.engine again.cache.engine)) }
{
    made_again_answers_alike::<u64, u64, NoExpiry, NoPredicate, NoWeigher>();
    look_ups_answer_alike::<
        u64,
        u64,
        DefaultHasher,
        NoExpiry,
        NoListener,
        NoPredicate,
        NoWeigher,
        C,
    >();
    sessions.cache.invariant_holds();
    let saved = save(alloc, sessions)?;
    sessions.cache.engine().invariant_holds();
    let again = start_again(alloc, idle, clock, saved)?;
    again.cache.engine().invariant_holds();
    Ok(again)
}
