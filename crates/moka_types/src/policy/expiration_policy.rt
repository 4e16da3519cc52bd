//! The settings of expiry. moka: `policy`.
ghost use Rattle.std.specs.Prelude.{◌≡◌, ◌||◌, Some, None, is_some, option_map, option_copied};
ghost use Rattle.std.specs.Duration.{as_nanos};
ghost use Rattle.moka_records.specs.Time.{deadline, has_passed};

use super::Instant;
use super::span::Span;
use std::marker::Model;
use std::time::Duration;

/// When entries expire. moka: `policy::ExpirationPolicy`.
#[derive(Clone)]
pub struct ExpirationPolicy<X> {
    time_to_live: Option<Span>,
    time_to_idle: Option<Span>,
    expiry: Option<X>,
    // Whether one of them is set, which each look-up asks.
    is_set: bool,
}

// Written out so that an owner's drop is one call.
impl<X: Drop> Drop for ExpirationPolicy<X> {
    fn drop(self) {
        let ExpirationPolicy {
            time_to_live: _,
            time_to_idle: _,
            expiry: _,
            is_set: _,
        } = self;
    }
}

impl<X> Model for ExpirationPolicy<X> {
    ghost use Rattle.std.specs.Prelude.{◌≡◌, ◌||◌, is_some};
    ghost use Rattle.moka_types.specs.Policy.{Expirations};

    ghost Value = { Expirations X };

    ghost view = { λ p. record {
      time_to_live = p.time_to_live;
      time_to_idle = p.time_to_idle;
      expiry = p.expiry;
    } };

    ghost invariant = { λ p. p.is_set ≡ (is_some p.time_to_live || is_some p.time_to_idle || is_some p.expiry) };
}

impl<X> Default for ExpirationPolicy<X> {
    ghost use Rattle.std.specs.Prelude.{◌≡◌, None};

    ghost is_default = { λ p.
        p ≡ record { time_to_live = None; time_to_idle = None; expiry = None } };

    /// Nothing expires.
    fn default() -> Self {
        ExpirationPolicy {
            time_to_live: None,
            time_to_idle: None,
            expiry: None,
            is_set: false,
        }
    }
}

impl<X> ExpirationPolicy<X> {
    /// How long an entry stays after it was written.
    pub fn time_to_live(&self) -> Option<Duration>
        ensures { option_map as_nanos result ≡ self.now.time_to_live }
    {
        Some(self.time_to_live.as_ref()?.duration())
    }

    /// Sets how long an entry stays after it was written.
    pub fn set_time_to_live(&mut self, duration: Duration)
        ensures { self.new ≡ record self.old { time_to_live = Some (as_nanos duration) } }
    {
        self.time_to_live = Some(Span::new(duration));
        self.is_set = true;
    }

    /// How long an entry stays after it was written or read.
    pub fn time_to_idle(&self) -> Option<Duration>
        ensures { option_map as_nanos result ≡ self.now.time_to_idle }
    {
        Some(self.time_to_idle.as_ref()?.duration())
    }

    /// Sets how long an entry stays after it was written or read.
    pub fn set_time_to_idle(&mut self, duration: Duration)
        ensures { self.new ≡ record self.old { time_to_idle = Some (as_nanos duration) } }
    {
        self.time_to_idle = Some(Span::new(duration));
        self.is_set = true;
    }

    /// Whether anything expires: a time to live, a time to idle or an expiry is set.
    #[inline(always)]
    pub fn is_set(&self) -> bool
        ensures { result ≡ (is_some self.now.time_to_live || is_some self.now.time_to_idle || is_some self.now.expiry) }
    {
        self.is_set
    }

    /// Whether the time to live of an entry written then is over.
    #[inline(always)]
    pub fn is_past_time_to_live(&self, written: Instant, now: Instant) -> bool
        ensures { result ≡ has_passed (deadline self.now.time_to_live written.0) now.0 }
    {
        matches!(&self.time_to_live, Some(span) if span.has_passed(written, now))
    }

    /// Whether the time to idle of an entry read then is over.
    #[inline(always)]
    pub fn is_past_time_to_idle(&self, read: Instant, now: Instant) -> bool
        ensures { result ≡ has_passed (deadline self.now.time_to_idle read.0) now.0 }
    {
        matches!(&self.time_to_idle, Some(span) if span.has_passed(read, now))
    }

    /// What decides when each entry expires.
    pub fn expiry(&self) -> Option<&X>
        ensures { option_copied result ≡ self.now.expiry }
    {
        self.expiry.as_ref()
    }

    /// Sets what decides when each entry expires.
    pub fn set_expiry(&mut self, expiry: X)
    where
        X: Drop,
        ensures { self.new ≡ record self.old { expiry = Some expiry } }
    {
        self.expiry = Some(expiry);
        self.is_set = true;
    }
}
