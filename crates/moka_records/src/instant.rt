//! Moments. moka: `common::time`.
ghost use Rattle.std.specs.Prelude.{◌≡◌, ◌-◌};
ghost use Rattle.std.specs.Duration.{as_nanos};

use std::time::Duration;

/// A point in time, in nanoseconds since an arbitrary fixed origin. moka: `common::time::Instant`.
#[derive(Clone, Copy, Debug, PartialEq, Eq, PartialOrd, Ord)]
pub struct Instant(pub u64);

impl Instant {
    ghost use Rattle.std.specs.Prelude.{◌≡◌, ◌-◌};
    ghost use Rattle.std.specs.Duration.{as_nanos};
    ghost use Rattle.moka_records.specs.Time.{plus};

    /// The moment that lies so much later, saturating at the greatest.
    pub fn saturating_add(self, duration: Duration) -> Instant
        ensures { result.0 ≡ plus self.0 (as_nanos duration) }
    {
        let nanos = u64::try_from(duration.as_nanos()).unwrap_or(u64::MAX);
        Instant(self.0.saturating_add(nanos))
    }

    /// The time since an earlier moment, zero if `earlier` is later.
    pub fn saturating_duration_since(self, earlier: Instant) -> Duration
        ensures { as_nanos result ≡ self.0 - earlier.0 }
    {
        Duration::from_nanos(self.0.saturating_sub(earlier.0))
    }
}
