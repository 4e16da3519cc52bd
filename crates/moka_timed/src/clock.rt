//! Clocks for a cache that owns one.
ghost use Rattle.std.specs.Prelude.{◌≡◌};
ghost use Rattle.std.specs.Duration.{as_nanos};
ghost use Rattle.moka_records.specs.Time.{plus};

use moka_parts::housekeeper::Clock;
use moka_parts::policy::Instant;
use std::time::Duration;

/// A source of monotonic time: it tells how long ago it started. Every `std::time::Clock` is one, such as a
/// `HostRuntime`.
pub trait Monotonic {
    ghost use Rattle.std.specs.Prelude.{ℕ, Option, option_map};
    ghost use Rattle.std.specs.Duration.{as_nanos};

    /// It may tell so many nanoseconds, or nothing if it cannot be read.
    ghost tells: { Self → Option ℕ → Type 0 };

    /// The time since it started, if it can be read.
    fn since_start(&self) -> Option<Duration>
        ensures { tells self.now (option_map as_nanos result) };
}

impl<R: std::time::Clock> Monotonic for R {
    ghost tells = { λ _ _. Unit {0} };

    fn since_start(&self) -> Option<Duration> {
        self.monotonic().ok()
    }
}

/// The system's monotonic time, in nanoseconds since its source started, saturating. Its moments never go back: if
/// the source does, or cannot be read, the last moment is given again.
#[derive(Drop)]
pub struct SystemClock<R> {
    source: R,
    last: Instant,
}

impl<R> SystemClock<R> {
    /// A clock that reads this source.
    pub fn new(source: R) -> Self
        ensures { result ≡ record { source = source; last = record { 0 = 0 } } }
    {
        let last = Instant(0);
        SystemClock { source, last }
    }
}

impl<R: Monotonic> Clock for SystemClock<R> {
    ghost use Rattle.std.specs.Prelude.{◌≡◌, ℕ, Option, max, min, unwrap_or};
    ghost use Rattle.moka_records.specs.Time.{greatest};

    // what the source tells, but no moment before the last
    ghost reads = { λ before moment after. (since : Option ℕ) × R.tells before.source since
        × (moment.0 ≡ max before.last.0 (min (unwrap_or since 0) greatest))
        × (after ≡ record before { last = moment }) };

    fn now(&mut self) -> Instant {
        if let Some(since) = self.source.since_start() {
            let nanos = u64::try_from(since.as_nanos()).unwrap_or(u64::MAX);
            self.last = Instant(self.last.0.max(nanos));
        }
        self.last
    }
}

/// A clock that stands until it is moved by hand, as a test does.
#[derive(Clone, Copy, Debug, PartialEq, Eq)]
pub struct ManualClock {
    /// The moment that it tells.
    pub now: Instant,
}

impl ManualClock {
    /// Moves the clock on; the moment saturates at 2^64 - 1 nanoseconds.
    pub fn advance(&mut self, by: Duration)
        ensures { self.new.now.0 ≡ plus self.old.now.0 (as_nanos by) }
    {
        self.now = self.now.saturating_add(by);
    }
}

impl Clock for ManualClock {
    ghost use Rattle.std.specs.Prelude.{◌≡◌};

    ghost reads = { λ before moment after. (moment ≡ before.now) × (after ≡ before) };

    fn now(&mut self) -> Instant {
        self.now
    }
}
