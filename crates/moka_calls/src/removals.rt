//! Removals counted by their causes.
ghost use Rattle.std.specs.Prelude.{◌≡◌};
ghost use Rattle.moka_calls.specs.Removed.{after_removal, no_removals};

use moka_parts::notification::{Listener, RemovalCause};

/// Of how many values a listener was notified, by cause. Each counter saturates.
#[derive(Clone, Copy, Debug, PartialEq, Eq)]
pub struct Removals {
    /// Values whose entry's time was over.
    pub expired: u64,
    /// Values that callers removed or invalidated.
    pub explicit: u64,
    /// Values that callers replaced.
    pub replaced: u64,
    /// Values of entries for which there was no room.
    pub size: u64,
}

impl Removals {
    /// Counters that are all 0.
    pub fn new() -> Self
        ensures { result ≡ no_removals }
    {
        Removals {
            expired: 0,
            explicit: 0,
            replaced: 0,
            size: 0,
        }
    }

    /// Counts a removal.
    pub fn count(&mut self, cause: RemovalCause)
        ensures { self.new ≡ after_removal cause self.old }
    {
        match cause {
            RemovalCause::Expired => self.expired = self.expired.saturating_add(1),
            RemovalCause::Explicit => self.explicit = self.explicit.saturating_add(1),
            RemovalCause::Replaced => self.replaced = self.replaced.saturating_add(1),
            RemovalCause::Size => self.size = self.size.saturating_add(1),
        }
    }
}

/// A listener that counts removals by their causes, and passes each on to the listener within. If nobody else
/// listens, that is `NoListener`.
#[derive(Drop)]
pub struct CountingListener<L> {
    /// The listener within.
    pub listener: L,
    /// What was counted.
    pub removals: Removals,
}

impl<L> CountingListener<L> {
    /// A listener that has counted nothing.
    pub fn new(listener: L) -> Self
        ensures { result ≡ record { listener = listener; removals = no_removals } }
    {
        let removals = Removals::new();
        CountingListener { listener, removals }
    }
}

impl<K, V, L: Listener<K, V>> Listener<K, V> for CountingListener<L> {
    ghost use Rattle.moka_calls.specs.Removed.{counting};

    ghost tells = { counting L.tells };

    fn notify(&mut self, key: K, value: V, cause: RemovalCause) {
        self.removals.count(cause);
        self.listener.notify(key, value, cause);
    }
}
