//! Sessions that end by themselves.
ghost use Rattle.std.specs.Prelude.{◌≡◌, nat_lt, IfOk};
ghost use Rattle.std.specs.Duration.{as_nanos};
ghost use Rattle.moka_engine.specs.Time.{plus};

use anyhow::Result;
use moka_engine::{CacheConfig, Engine, Expiry, Instant};
use std::alloc::Global;
use std::time::Duration;

/// A session lasts so long from when it was opened, and from when it was written again. Reads do not prolong it.
#[derive(Clone, Copy)]
pub struct Lasts(pub Duration);

impl<K, V> Expiry<K, V> for Lasts {
    ghost use Rattle.std.specs.Prelude.{Some};
    ghost use Rattle.std.specs.Duration.{as_nanos};

    ghost created = { λ lasts _ _ _. Some (as_nanos lasts.0) };

    ghost updated = { λ lasts _ _ _ _. Some (as_nanos lasts.0) };

    fn expire_after_create(&self, _: &K, _: &V, _: Instant) -> Option<Duration> {
        Some(self.0)
    }

    fn expire_after_read(
        &self,
        _: &K,
        _: &V,
        _: Instant,
        left: Option<Duration>,
        _: Instant,
    ) -> Option<Duration> {
        left
    }

    fn expire_after_update(
        &self,
        _: &K,
        _: &V,
        _: Instant,
        _: Option<Duration>,
    ) -> Option<Duration> {
        Some(self.0)
    }
}

/// Users' tokens.
pub type Sessions = Engine<u64, u64, Lasts>;

/// A session that is opened: whose it is, its token, and when.
#[derive(Clone, Copy)]
pub struct Opened {
    pub user: u64,
    pub token: u64,
    pub at: Instant,
}

/// Opens a session, and tells whether it is open at another moment: it is until its time is over, and not from then on.
pub fn is_open_at(alloc: Global, lasts: Duration, session: Opened, asked: Instant) -> Result<bool>
    ensures { IfOk result (λ is_open. is_open ≡ nat_lt asked.0 (plus session.at.0 (as_nanos lasts))) }
{
    let Opened {
        user,
        token,
        at: opened,
    } = session;
    let config = CacheConfig::default().expire_after(Lasts(lasts));
    let mut sessions: Sessions = config.build(alloc, opened)?;
    let hash = sessions.hash(&user);
    let (ticket, _) = sessions.do_insert_with_hash(user, hash, token, opened)?;
    sessions.send(ticket)?;
    Ok(sessions.contains_key_with_hash(&user, hash, asked))
}
