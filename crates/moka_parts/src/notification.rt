//! Why values leave the cache, and who is notified. moka: `notification`.
ghost use Rattle.std.specs.Prelude.{◌≡◌};

use std::marker::Model;

/// Why a value left the cache. moka: `notification::RemovalCause`.
#[derive(Clone, Copy, Debug, PartialEq, Eq)]
pub enum RemovalCause {
    /// The entry's time was over.
    Expired,
    /// The entry was removed or invalidated by a caller.
    Explicit,
    /// The value was replaced by a caller; the entry itself stays.
    Replaced,
    /// There was no room for the entry.
    Size,
}

impl RemovalCause {
    ghost use Rattle.std.specs.Prelude.{◌≡◌};
    ghost use Rattle.moka_parts.specs.Notification.{was_evicted};

    /// Whether the cache itself took the value out.
    pub fn was_evicted(&self) -> bool
        ensures { result ≡ was_evicted self.now }
    {
        matches!(self, RemovalCause::Expired | RemovalCause::Size)
    }
}

/// Is notified of each value that leaves, and may keep key and value.
/// moka: `notification::EvictionListener`.
pub trait Listener<K, V> {
    ghost use Rattle.std.specs.Prelude.{◌≡◌};
    ghost use Rattle.moka_parts.specs.declared.notification.RemovalCause.{RemovalCause};

    /// One notice may lead from the first state to the second.
    ghost tells: { Self → K → V → RemovalCause → Self → Type 0 };

    /// Takes the key, the value and the cause of one removal.
    fn notify(&mut self, key: K, value: V, cause: RemovalCause)
        ensures { tells self.old key value cause self.new };
}

/// Ignores all notifications.
#[derive(Clone, Copy, Debug)]
pub struct NoListener;

impl<K: Drop, V: Drop> Listener<K, V> for NoListener {
    ghost tells = { λ before _ _ _ after. after ≡ before };

    fn notify(&mut self, _: K, _: V, _: RemovalCause) {}
}

/// A listener, if one is set; seen as that option. moka: `notification::notifier::RemovalNotifier`.
pub struct RemovalNotifier<L> {
    listener: Option<L>,
}

// Written out so that an owner's drop is one call.
impl<L: Drop> Drop for RemovalNotifier<L> {
    fn drop(self) {
        let RemovalNotifier { listener: _ } = self;
    }
}

impl<L> Model for RemovalNotifier<L> {
    ghost use Rattle.std.specs.Prelude.{Option};

    ghost Value = { Option L };

    ghost view = { λ n. n.listener };
}

impl<L> RemovalNotifier<L> {
    ghost use Rattle.std.specs.Prelude.{◌≡◌, is_some, option_copied};
    ghost use Rattle.moka_parts.specs.Notification.{HearsOnce};

    /// A notifier of the listener, if one is given.
    pub fn new(listener: Option<L>) -> Self
        ensures { result ≡ listener }
    {
        RemovalNotifier { listener }
    }

    /// Whether a listener is set.
    pub fn is_enabled(&self) -> bool
        ensures { result ≡ is_some self.now }
    {
        self.listener.is_some()
    }

    /// The listener, if one is set.
    pub fn listener(&self) -> Option<&L>
        ensures { option_copied result ≡ self.now }
    {
        self.listener.as_ref()
    }

    /// Notifies the listener of one removal; if none is set, key and value are dropped.
    pub fn notify<K: Drop, V: Drop>(&mut self, key: K, value: V, cause: RemovalCause)
    where
        L: Listener<K, V>,
        ensures { HearsOnce L.tells self.old key value cause self.new }
    {
        if let Some(listener) = &mut self.listener {
            listener.notify(key, value, cause);
        }
    }
}
