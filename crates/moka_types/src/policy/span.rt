//! How long an entry lasts, as it is added to moments.
ghost use Rattle.std.specs.Prelude.{◌≡◌, Some};
ghost use Rattle.std.specs.Duration.{as_nanos};
ghost use Rattle.moka_records.specs.Time.{deadline, has_passed};

use super::Instant;
use std::marker::Model;
use std::time::Duration;

/// A duration with its nanoseconds, saturating in 64 bits, so that a look-up has nothing to convert.
#[derive(Clone, Drop)]
pub(crate) struct Span {
    duration: Duration,
    nanos: u64,
}

impl Model for Span {
    ghost use Rattle.std.specs.Prelude.{◌≡◌, ℕ, min};
    ghost use Rattle.std.specs.Duration.{as_nanos};
    ghost use Rattle.moka_records.specs.Time.{greatest};

    ghost Value = { ℕ };

    ghost view = { λ s. as_nanos s.duration };

    ghost invariant = { λ s. s.nanos ≡ min (as_nanos s.duration) greatest };
}

impl Span {
    /// The span of a duration.
    pub(crate) fn new(duration: Duration) -> Self
        ensures { result ≡ as_nanos duration }
    {
        let nanos = u64::try_from(duration.as_nanos()).unwrap_or(u64::MAX);
        Span { duration, nanos }
    }

    /// The duration.
    pub(crate) fn duration(&self) -> Duration
        ensures { as_nanos result ≡ self.now }
    {
        self.duration
    }

    /// Whether so long has passed since a moment.
    #[inline(always)]
    pub(crate) fn has_passed(&self, since: Instant, now: Instant) -> bool
        ensures { result ≡ has_passed (deadline (Some self.now) since.0) now.0 }
    {
        since.0.saturating_add(self.nanos) <= now.0
    }
}
