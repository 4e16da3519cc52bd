//! How a record leaves the cache: every removal by maintenance goes through here.
//!
//! moka: `sync::base_cache::Inner::handle_remove`, `notification::notifier::RemovalNotifier::notify`.
ghost use Rattle.moka_store.specs.Store.{IsHandle};
ghost use Rattle.moka_maintenance.specs.Expel.{Expels};

use moka_parts::notification::{Listener, RemovalCause, RemovalNotifier};
use moka_parts::records::Record;
use moka_store::{Handle, Store};
use std::hash::{BuildHasher, Hash};

/// The record leaves the map, both orders and the timers, its row is given back, and the listener is notified.
#[inline(always)]
pub(crate) fn expel<K: Eq + Hash + Drop, V: Drop, S: BuildHasher, L: Listener<K, V>>(
    store: &mut Store<K, V, S>,
    notifier: &mut RemovalNotifier<L>,
    handle: Handle,
    cause: RemovalCause,
)
    requires { IsHandle store.old handle }
    ensures { Expels L.tells handle.number cause store.old store.new notifier.old notifier.new }
{
    let Record { key, value, .. } = store.take_out(handle);
    store.forget(handle);
    notifier.notify(key, value, cause);
}
