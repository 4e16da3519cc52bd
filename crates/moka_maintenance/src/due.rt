//! Timers that are due: records whose own expiry has come leave.
//!
//! moka: `sync::base_cache::Inner::evict_expired_entries_using_timers`.
ghost use Rattle.std.specs.Prelude.{◌≡◌, None, if◌then◌else◌};
ghost use Rattle.std.specs.FinMap as finite;
ghost use Rattle.moka_maintenance.specs.Handles.{IsMemberAt};
ghost use Rattle.moka_maintenance.specs.Steps.{stock_in};
ghost use Rattle.moka_maintenance.specs.Sweep.{ExpiresDue};
ghost use Rattle.moka_maintenance.specs.Upkeep.{IsReset, UpkeepAt};

use crate::expel::expel;
use crate::sweep::Tests;
use moka_parts::expiry::is_expired_by_per_entry_ttl;
use moka_parts::notification::{Listener, RemovalCause, RemovalNotifier};
use moka_store::{Handle, Store};
use std::hash::{BuildHasher, Hash};

/// Takes out timers until none is due. A settled member whose own expiry has come leaves. The answer is how many left.
pub(crate) fn expire_due<K: Eq + Hash + Drop, V: Drop, S: BuildHasher, L: Listener<K, V>>(
    store: &mut Store<K, V, S>,
    notifier: &mut RemovalNotifier<L>,
    tests: Tests,
) -> u32
    ensures expired { ExpiresDue L.tells tests (stock_in store.old)
        (stock_in store.new) notifier.old notifier.new result }
    ensures kept { UpkeepAt tests.now.0 store.old store.new }
{
    // No more leave than there are members.
    let _members = store.member_count();
    let mut removed = 0u32;
    while let Some(handle) = store.due(tests.now) {
        if expire(store, notifier, tests, handle) {
            removed += 1;
        }
    }
    removed
}

// A member whose timer was due and is taken out. If it is settled and has expired it leaves, and the answer is true. If
// it is settled and has not, its timer is set again. One that is not settled gets a timer again by the operation that
// waits.
fn expire<K: Eq + Hash + Drop, V: Drop, S: BuildHasher, L: Listener<K, V>>(
    store: &mut Store<K, V, S>,
    notifier: &mut RemovalNotifier<L>,
    tests: Tests,
    handle: Handle,
) -> bool
    requires member { IsMemberAt store.old handle }
    requires untimed { finite.get store.old.timers handle.number ≡ None }
    ensures expired { ExpiresDue L.tells tests (stock_in store.old)
        (stock_in store.new) notifier.old notifier.new (if result then 1 else 0) }
    ensures reset { IsReset tests.now.0 handle.number store.old store.new }
{
    let Some(found) = store.find(handle) else {
        return false;
    };
    if !found.is_settled() {
        return false;
    }
    if is_expired_by_per_entry_ttl(found.expires(), tests.now) {
        expel(store, notifier, handle, RemovalCause::Expired);
        return true;
    }
    store.set_timer(handle);
    false
}
