//! Sessions of users who may have several: each ends if it is not used, a log-out ends all that a user has, by a
//! predicate, and those that have not ended are saved when the program ends.
ghost use Rattle.std.specs.Prelude.{◌≡◌, ◌==◌, true, false, is_some, Some, IfErr, IfOk, IfSome, IsOk, OnErr};
ghost use Rattle.std.specs.Duration.{as_nanos};
ghost use Rattle.moka_engine.specs.parts.Instant.{Instant};
ghost use Rattle.moka_engine.specs.Calls.{ContainsStep};
ghost use Rattle.moka_engine.specs.Config.{default_config};
ghost use Rattle.moka_engine.specs.Snapshot.{scene_of};
ghost use Rattle.moka_engine.specs.State.{is_disabled};
ghost use Rattle.moka_cache.specs.Saves.{AreSaved, HasOnlyMembers};
ghost use Rattle.moka_cache.specs.Unsent.{IsThere};
ghost use Rattle.moka_timed_uses.specs.Logins.{LogsOut, is_of, meaning};
ghost use Rattle.moka_timed_uses.specs.Restarted.{Runs};
ghost use Rattle.moka_uses.specs.Made.{HasValue, Inserts, IsNew, LooksUp, Registers};

use moka_engine::laws::stays_hidden;
use moka_engine::{
    CacheConfig, Clock, IdSource, InsertRefused, NoExpiry, NoListener, NoWeigher, OutOfMemory,
    PredicateFn, PredicateId, PredicateRefused, Restored,
};
use moka_timed::TimedCache;
use std::alloc::Global;
use std::time::Duration;

/// A session.
#[derive(Clone, Copy, Debug, PartialEq)]
pub struct Session {
    /// Whose it is.
    pub user: u64,
    pub token: u64,
}

/// Says yes to the sessions of a user.
#[derive(Clone, Copy, Debug, PartialEq)]
pub struct OfUser(pub u64);

impl<K> PredicateFn<K, Session> for OfUser {
    ghost use Rattle.std.specs.Prelude.{◌≡◌, ◌==◌};
    ghost use Rattle.std.proofs.Common.{sym, ◌∙◌};

    ghost says = { λ of _ session answer. answer ≡ (session.user == of.0) };

    fn applies(&self, _: &K, session: &Session) -> bool {
        session.user == self.0
    }

    ghost one_answer = { λ _ _ _ _ _ first second. first ∙ sym second };
}

/// Sessions by their numbers.
pub type Logins<C> = TimedCache<u64, Session, C, NoExpiry, NoListener, OfUser>;

/// An empty cache of sessions. A session that is not used for the time `idle` ends.
///
/// # Errors
/// `OutOfMemory` if memory for the cache is refused.
pub fn start<C: Clock + Drop>(
    alloc: Global,
    idle: Duration,
    clock: C,
) -> Result<Logins<C>, OutOfMemory>
    ensures { IfOk result (λ logins. IsNew C.reads
        (record default_config { time_to_idle = Some (as_nanos idle); invalidator = true })
        clock logins.cache logins.clock) }
{
    let config = CacheConfig::default()
        .time_to_idle(idle)
        .support_invalidation_closures::<OfUser>();
    TimedCache::build(config, alloc, clock)
}

/// Begins a session under a number, used at the clock's moment. One that has the number ends. A session that is begun
/// at the very moment of a log-out of its user is hidden as well.
///
/// # Errors
/// The insert that was refused, with number and session; the sessions are as they were.
pub fn log_in<C: Clock>(
    logins: &mut Logins<C>,
    number: u64,
    session: Session,
) -> Result<(), InsertRefused<u64, Session>>
    ensures begun { (now : Instant) × (read : C) × C.reads logins.old.clock now read
        × IfOk result (λ _. is_disabled logins.old.cache.engine.state.capacity ≡ false
        → IsThere (λ a b. a == b) logins.new.cache.engine.state number session now)
        × Inserts (meaning C.reads (λ _ _ _. ⊥)) number now logins.old.cache.engine read
        logins.new.cache.engine logins.new.clock session result }
    ensures back { IfErr result (λ refused. (refused.key ≡ number) × (refused.value ≡ session)) }
    ensures unchanged { OnErr result (logins.new.cache.engine.state ≡ logins.old.cache.engine.state) }
{
    logins.insert(number, session)
}

/// Uses the session of a number: the session, if it is visible at the clock's moment, and else `None`.
///
/// # Errors
/// Never: cloning a session takes no memory.
pub fn find<C: Clock>(logins: &mut Logins<C>, number: u64) -> Result<Option<Session>, OutOfMemory>
    ensures shown { (now : Instant) × (read : C) × C.reads logins.old.clock now read
        × IfOk result
        (λ found. ContainsStep is_of (λ a b. a == b) logins.old.cache.engine.state number now.0 (is_some found))
        × LooksUp (meaning C.reads (λ _ _ _. ⊥)) number now logins.old.cache.engine read
        logins.new.cache.engine logins.new.clock result }
    ensures kept { IfOk result (λ found.
        IfSome found (HasValue (λ a b. a == b) logins.old.cache.engine.state number)) }
    ensures succeeds { IsOk result }
    ensures unchanged { OnErr result (logins.new.cache.engine.state ≡ logins.old.cache.engine.state) }
{
    logins.get(&number)
}

/// Ends all sessions of a user that were begun at the clock's moment or before: from then on none of them is shown,
/// also after further calls, until a session is begun under its number again (`stays_hidden`). The others are shown as
/// before.
///
/// # Errors
/// The predicate that was refused; no session has ended.
pub fn log_out<C: Clock, I: IdSource>(
    logins: &mut Logins<C>,
    user: u64,
    ids: &mut I,
) -> Result<PredicateId, PredicateRefused<OfUser>>
    ensures ended { (now : Instant) × C.reads logins.old.clock now logins.new.clock
        × IfOk result
        (λ _. LogsOut (meaning C.reads I.gives) logins.old.cache.engine logins.new.cache.engine user now.0)
        × Registers (meaning C.reads I.gives) (record { 0 = user }) now logins.old.cache.engine ids.old
        logins.new.cache.engine ids.new result }
    ensures back { IfErr result (λ refused. refused.predicate ≡ record { 0 = user }) }
    ensures unchanged { OnErr result (logins.new.cache.engine.state ≡ logins.old.cache.engine.state) }
{
    stays_hidden::<u64, Session, NoExpiry, NoListener, OfUser, NoWeigher, C, I>();
    let registered = logins.invalidate_entries_if(OfUser(user), ids);
    logins.cache.engine().invariant_holds();
    registered
}

/// The sessions that have not ended, the one used least recently first: no session is left out that is shown at the
/// clock's moment, and none is among them that a log-out has ended. A run of maintenance is made before, and no other
/// call. [`restarted`](crate::restarted) puts such a list back.
///
/// # Errors
/// `OutOfMemory`
pub fn save<C: Clock>(
    alloc: Global,
    logins: &mut Logins<C>,
) -> Result<Vec<Restored<u64, Session>>, OutOfMemory>
    ensures members { HasOnlyMembers logins.new.cache.engine.state }
    ensures saved { (now : Instant) × (read : C) × C.reads logins.old.clock now read
        × IfOk result (λ saved. AreSaved is_of (λ a b. b ≡ a) (λ a b. b ≡ a)
        (scene_of logins.new.cache.engine.state now.0) logins.new.cache.engine.state.access saved.items)
        × Runs (meaning C.reads (λ _ _ _. ⊥)) now logins.old.cache.engine read
        logins.new.cache.engine logins.new.clock }
{
    logins.save(alloc)
}
