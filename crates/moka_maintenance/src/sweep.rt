//! Sweeps along the orders of writing and of access: the front leaves if it has expired or is invalid, or the
//! capacity is exceeded.
//!
//! moka: `sync::base_cache::Inner::remove_expired_wo`, `Inner::remove_expired_ao`, `Inner::evict_lru_entries`.
ghost use Rattle.std.specs.Prelude.{◌≡◌, ℕ, true, false, if◌then◌else◌, [], None, Some, IfNone, MatchOption, List};
ghost use Rattle.std.specs.FinMap as finite;
ghost use Rattle.moka_parts.specs.declared.notification.RemovalCause.TheVariants.{Expired, Explicit};
ghost use Rattle.moka_records.specs.declared.records.Member.{Member};
ghost use Rattle.moka_parts.specs.Maintenance.{is_front, is_over};
ghost use Rattle.moka_records.specs.Records.{total_weight};
ghost use Rattle.moka_records.specs.Time.{is_before, moment_of};
ghost use Rattle.moka_maintenance.specs.Handles.{IsMemberAt};
ghost use Rattle.moka_maintenance.specs.Steps.{Stock, stock_in};
ghost use Rattle.moka_maintenance.specs.Sweep.{LeavesIn, IsNext, IsAtRest, TakesTurn, IsSwept};
ghost use Rattle.moka_maintenance.specs.Upkeep.{SetsNoTimer};

use crate::expel::expel;
use moka_parts::expiry::{is_expired_by_tti, is_expired_by_ttl, is_invalid_entry};
use moka_parts::notification::{Listener, RemovalCause, RemovalNotifier};
use moka_parts::policy::Instant;
use moka_parts::record_ref::RecordRef;
use moka_store::{Handle, Store};
use std::hash::{BuildHasher, Hash};
use std::time::Duration;

/// What a run tests records by.
#[derive(Clone, Copy)]
pub struct Tests {
    pub now: Instant,
    pub time_to_live: Option<Duration>,
    pub time_to_idle: Option<Duration>,
    /// Records written or read before this moment are invalid.
    pub valid_after: Option<Instant>,
    pub capacity: Option<u64>,
}

impl Tests {
    // Why a sweep removes a settled record that it has come to, if it does.
    fn cause_of<K, V>(self, sweep: Sweep, found: &RecordRef<'_, K, V>) -> Option<RemovalCause>
        ensures { MatchOption result
            ((c : Stock K V) (n : ℕ) → finite.get c.contents.records n ≡ Some found.now → IsNext self sweep c n
            → IsAtRest self sweep c)
            (λ cause. (c : Stock K V) (n : ℕ) → IsNext self sweep c n → LeavesIn self sweep c n found.now cause) }
    {
        match sweep {
            Sweep::Written => {
                let written = found.written();
                self.cause_at(
                    is_expired_by_ttl(self.time_to_live, written, self.now),
                    written,
                )
            }
            Sweep::Read => {
                let read = found.read();
                self.cause_at(is_expired_by_tti(self.time_to_idle, read, self.now), read)
            }
            Sweep::Surplus => Some(RemovalCause::Size),
        }
    }

    // Why a record leaves by the moment of its last write or read, if it does.
    fn cause_at(self, is_past: bool, moment: Instant) -> Option<RemovalCause>
        ensures cause { result ≡ (if is_past then Some Expired
            else (if is_before moment.0 (moment_of self.valid_after) then Some Explicit else None)) }
        ensures none { IfNone result ((is_past ≡ false) × (is_before moment.0 (moment_of self.valid_after) ≡ false)) }
    {
        if is_past {
            Some(RemovalCause::Expired)
        } else if is_invalid_entry(self.valid_after, moment) {
            Some(RemovalCause::Explicit)
        } else {
            None
        }
    }
}

/// By what a sweep removes.
#[derive(Clone, Copy)]
pub(crate) enum Sweep {
    /// By the last write.
    Written,
    /// By the last read.
    Read,
    /// While the capacity is exceeded.
    Surplus,
}

/// What one turn of a sweep did.
#[derive(Clone, Copy)]
pub(crate) enum Turn {
    /// The front left.
    Removed,
    /// The front, which is not settled, went to the back.
    Passed,
    /// There is no front, or it stays.
    Ended,
}

/// What a sweep came to.
#[derive(Clone, Copy)]
pub(crate) struct Swept {
    /// How many records it removed.
    pub removed: u32,
    /// Whether it made all its turns, and each removed a record.
    pub has_more: bool,
}

/// Makes `batch` turns, or as many as there are to make.
pub(crate) fn sweep_along<K: Eq + Hash + Drop, V: Drop, S: BuildHasher, L: Listener<K, V>>(
    store: &mut Store<K, V, S>,
    notifier: &mut RemovalNotifier<L>,
    tests: Tests,
    sweep: Sweep,
    batch: u32,
) -> Swept
    ensures swept { IsSwept L.tells tests sweep batch (stock_in store.old)
        (stock_in store.new) notifier.old notifier.new result.removed result.has_more }
    ensures left { result.removed ≡ batch → result.has_more ≡ true }
    ensures upkeep { SetsNoTimer store.old store.new }
{
    let mut turns = batch as usize;
    let mut removed = 0;
    let mut is_all_settled = true;
    // How many turns in a row removed nothing.
    let mut passed = 0;
    store.invariant_holds();
    while turns > 0 {
        turns -= 1;
        match take_turn(store, notifier, tests, sweep) {
            Turn::Ended => {
                let has_more = false;
                return Swept { removed, has_more };
            }
            Turn::Removed => {
                removed += 1;
                passed = 0;
            }
            Turn::Passed => {
                is_all_settled = false;
                passed += 1;
                if passed == store.member_count() {
                    // No member is settled, and each further round would leave the order as it is.
                    turns %= passed;
                }
            }
        }
    }
    let has_more = is_all_settled;
    Swept { removed, has_more }
}

// One turn: a settled front leaves if the sweep has a cause to remove it, and one that is not settled goes to the back.
fn take_turn<K: Eq + Hash + Drop, V: Drop, S: BuildHasher, L: Listener<K, V>>(
    store: &mut Store<K, V, S>,
    notifier: &mut RemovalNotifier<L>,
    tests: Tests,
    sweep: Sweep,
) -> Turn
    ensures turn { TakesTurn L.tells tests sweep (stock_in store.old)
        (stock_in store.new) notifier.old notifier.new result }
    ensures upkeep { SetsNoTimer store.old store.new }
{
    let Some(handle) = next_of(store, tests, sweep) else {
        return Turn::Ended;
    };
    let cause = match store.find(handle) {
        Some(found) if found.is_settled() => tests.cause_of(sweep, &found),
        _ => {
            store.move_to_back(handle);
            return Turn::Passed;
        }
    };
    let Some(cause) = cause else {
        return Turn::Ended;
    };
    expel(store, notifier, handle, cause);
    Turn::Removed
}

// The front of the sweep's order, if the sweep still has to go on.
fn next_of<K: Eq + Hash, V, S: BuildHasher>(
    store: &Store<K, V, S>,
    tests: Tests,
    sweep: Sweep,
) -> Option<Handle>
    ensures { MatchOption result (IsAtRest tests sweep (stock_in store.now)
        × ((n : ℕ) → IsNext tests sweep (stock_in store.now) n → ⊥))
        (λ h. IsMemberAt store.now h × IsNext tests sweep (stock_in store.now) h.number) }
{
    match sweep {
        Sweep::Written => store.front_written(),
        Sweep::Read => first_of(store),
        Sweep::Surplus => {
            if is_over(tests.capacity, store.total_weight()) {
                first_of(store)
            } else {
                None
            }
        }
    }
}

// The front of the access list.
fn first_of<K: Eq + Hash, V, S: BuildHasher>(store: &Store<K, V, S>) -> Option<Handle>
    ensures { MatchOption result (store.now.access ≡ [])
        (λ h. IsMemberAt store.now h × (is_front h.number store.now.access ≡ true)) }
{
    let (handle, _) = store.front()?;
    Some(handle)
}

/// Whether the capacity, if there is one, is exceeded by so much weight.
pub(crate) fn is_over(capacity: Option<u64>, weight: u128) -> bool
    ensures { (members : List Member) → weight ≡ total_weight members → result ≡ is_over capacity members }
{
    match capacity {
        Some(capacity) => weight > u128::from(capacity),
        None => false,
    }
}
