//! When maintenance is due. moka: `common::concurrent::housekeeper`.
ghost use Rattle.std.specs.Prelude.{◌≡◌};

use crate::policy::Instant;
use std::marker::Model;
use std::time::Duration;

/// How many reads wait before maintenance is due.
const READ_LOG_FLUSH_POINT: usize = 64;

/// How many writes wait before maintenance is due.
const WRITE_LOG_FLUSH_POINT: usize = 64;

/// How long maintenance waits after a run, in milliseconds.
const LOG_SYNC_INTERVAL_MILLIS: u64 = 300;

/// How often a run may go back to its queues, unless a caller sets another number.
/// moka: `common::concurrent::constants::MAX_LOG_SYNC_REPEATS`.
pub const MAX_LOG_SYNC_REPEATS: u32 = 4;

/// How many entries each step of a pass looks at, unless a caller sets another number.
/// moka: `common::concurrent::constants::EVICTION_BATCH_SIZE`.
pub const EVICTION_BATCH_SIZE: u32 = 384;

/// Tells moments, which may go back.
pub trait Clock {
    ghost use Rattle.moka_records.specs.declared.instant.Instant.{Instant};

    /// One reading may answer the moment and lead from the first state to the second.
    ghost reads: { Self → Instant → Self → Type 0 };

    /// Reads the clock.
    fn now(&mut self) -> Instant
        ensures { reads self.old result self.new };
}

/// A clock that always tells the same moment.
#[derive(Clone, Copy, Debug)]
pub struct FixedClock(pub Instant);

impl Clock for FixedClock {
    ghost use Rattle.std.specs.Prelude.{◌≡◌};

    ghost reads = { λ before moment after. (moment ≡ before.0) × (after ≡ before) };

    fn now(&mut self) -> Instant {
        self.0
    }
}

/// What runs maintenance. moka: `common::concurrent::housekeeper::InnerSync`.
pub trait InnerSync {
    ghost use Rattle.std.specs.Prelude.{ℕ, Bool, List, Option, option_map};
    ghost use Rattle.std.specs.Duration.{as_nanos};
    ghost use Rattle.moka_records.specs.declared.instant.Instant.{Instant};
    ghost use Rattle.moka_parts.specs.Surroundings.{Leads};

    /// A run at the moment, with this limit in nanoseconds, these repeats and this batch, may
    /// read the clock so, answer so, and lead from the first state to the second.
    ghost runs: { Self → ℕ → Option ℕ → ℕ → ℕ → List Instant → Bool → Self → Type 0 };

    /// Makes one run of maintenance, and tells whether more is left.
    fn run_pending_tasks<C: Clock>(
        &mut self,
        now: Instant,
        clock: &mut C,
        timeout: Option<Duration>,
        max_log_sync_repeats: u32,
        eviction_batch_size: u32,
    ) -> bool
        ensures { (readings : List Instant)
            × Leads C.reads clock.old readings clock.new
            × runs self.old now.0 (option_map as_nanos timeout) max_log_sync_repeats
            eviction_batch_size readings result self.new };
}

/// What the housekeeper gives to each run. moka: `common::HousekeeperConfig`.
#[derive(Clone, Copy, Debug)]
pub struct HousekeeperConfig {
    /// After this time a run makes no further pass. It applies only if a listener is set.
    pub maintenance_task_timeout: Duration,
    /// How often a run may go back to its queues. With one owner it has no effect.
    pub max_log_sync_repeats: u32,
    /// How many entries each step of a pass looks at, except the step by entries' own expiries.
    pub eviction_batch_size: u32,
}

impl Default for HousekeeperConfig {
    ghost use Rattle.std.specs.Prelude.{◌≡◌};
    ghost use Rattle.std.specs.Duration.{as_nanos};

    ghost is_default = { λ c.
        (as_nanos c.maintenance_task_timeout ≡ 100_000_000)
        × (c.max_log_sync_repeats ≡ 4)
        × (c.eviction_batch_size ≡ 384) };

    /// A limit of 100 milliseconds, 4 repeats, and a batch of 384.
    fn default() -> Self {
        HousekeeperConfig {
            maintenance_task_timeout: Duration::from_millis(100),
            max_log_sync_repeats: MAX_LOG_SYNC_REPEATS,
            eviction_batch_size: EVICTION_BATCH_SIZE,
        }
    }
}

/// Knows when maintenance is due, and makes its runs.
/// moka: `common::concurrent::housekeeper::Housekeeper`.
#[derive(Drop)]
pub struct Housekeeper {
    run_after: Instant,
    more_entries_to_evict: bool,
    auto_run_enabled: bool,
    is_eviction_listener_enabled: bool,
    // Below this length of a queue no run is due before `run_after`: 0 while more is left, else 64.
    due_length: usize,
    config: HousekeeperConfig,
}

impl Model for Housekeeper {
    ghost use Rattle.std.specs.Prelude.{◌≡◌};
    ghost use Rattle.std.specs.Duration.{as_nanos};
    ghost use Rattle.moka_parts.specs.Housekeeper.{Keeper};
    ghost use Rattle.moka_parts.specs.Housekeeping.{shortest_due};

    ghost Value = { Keeper };

    ghost view = { λ h. record {
      housekeeping = record {
        run_after = h.run_after;
        more = h.more_entries_to_evict;
        automatic = h.auto_run_enabled;
      };
      listening = h.is_eviction_listener_enabled;
      run_limit = as_nanos h.config.maintenance_task_timeout;
      run_repeats = h.config.max_log_sync_repeats;
      run_batch = h.config.eviction_batch_size;
    } };

    ghost invariant = { λ h. h.due_length ≡ shortest_due h.more_entries_to_evict };
}

impl Housekeeper {
    ghost use Rattle.std.specs.Prelude.{◌≡◌, true, nat_le, ◌&&◌, ◌||◌};
    ghost use Rattle.moka_parts.specs.Housekeeping.{is_due, next_run, without_automatic};
    ghost use Rattle.moka_parts.specs.Housekeeper.{new_keeper, MakesRun};

    /// A housekeeper that waits 300 milliseconds before the first run.
    pub fn new(is_eviction_listener_enabled: bool, config: HousekeeperConfig, now: Instant) -> Self
        ensures { result ≡ new_keeper is_eviction_listener_enabled config now.0 }
    {
        Housekeeper {
            run_after: Self::sync_after(now),
            more_entries_to_evict: false,
            auto_run_enabled: true,
            is_eviction_listener_enabled,
            due_length: READ_LOG_FLUSH_POINT,
            config,
        }
    }

    /// A housekeeper that remembers the same and gives the same to its runs.
    pub fn copied(&self) -> Self
        ensures { result ≡ self.now }
    {
        Housekeeper {
            run_after: self.run_after,
            more_entries_to_evict: self.more_entries_to_evict,
            auto_run_enabled: self.auto_run_enabled,
            is_eviction_listener_enabled: self.is_eviction_listener_enabled,
            due_length: self.due_length,
            config: self.config,
        }
    }

    /// Whether a run is due before another read is queued, while `len` wait.
    #[inline(always)]
    pub fn should_apply_reads(&self, len: usize, now: Instant) -> bool
        ensures { result ≡ is_due self.now.housekeeping len now.0 }
    {
        if len < self.due_length && now < self.run_after {
            return false;
        }
        self.more_entries_to_evict || self.should_apply(len, READ_LOG_FLUSH_POINT, now)
    }

    /// Whether a run is due while `len` writes wait.
    pub fn should_apply_writes(&self, len: usize, now: Instant) -> bool
        ensures { result ≡ is_due self.now.housekeeping len now.0 }
    {
        self.more_entries_to_evict || self.should_apply(len, WRITE_LOG_FLUSH_POINT, now)
    }

    /// Whether automatic runs are on and the queue is so long or the time has come.
    fn should_apply(&self, len: usize, flush_point: usize, now: Instant) -> bool
        ensures { result ≡ (self.now.housekeeping.automatic
            && (nat_le flush_point len || nat_le self.now.housekeeping.run_after.0 now.0)) }
    {
        self.auto_run_enabled && (len >= flush_point || now >= self.run_after)
    }

    /// Makes a run at a moment, and keeps its answer if a listener is set.
    pub fn run_pending_tasks<T: InnerSync, C: Clock>(
        &mut self,
        cache: &mut T,
        now: Instant,
        clock: &mut C,
    )
        ensures { MakesRun T.runs C.reads self.old cache.old now.0 clock.old
            self.new cache.new clock.new }
    {
        self.run_after = Self::sync_after(now);
        let timeout = self
            .is_eviction_listener_enabled
            .then_some(self.config.maintenance_task_timeout);
        let more_to_evict = cache.run_pending_tasks(
            now,
            clock,
            timeout,
            self.config.max_log_sync_repeats,
            self.config.eviction_batch_size,
        );
        if self.is_eviction_listener_enabled {
            self.more_entries_to_evict = more_to_evict;
            self.due_length = if more_to_evict {
                0
            } else {
                READ_LOG_FLUSH_POINT
            };
        }
    }

    /// Makes a run at a moment, and returns true: moka returns false if another thread makes one, and here none can.
    pub fn try_run_pending_tasks<T: InnerSync, C: Clock>(
        &mut self,
        cache: &mut T,
        now: Instant,
        clock: &mut C,
    ) -> bool
        ensures answer { result ≡ true }
        ensures run { MakesRun T.runs C.reads self.old cache.old now.0 clock.old
            self.new cache.new clock.new }
    {
        self.run_pending_tasks(cache, now, clock);
        true
    }

    /// From now on runs start by themselves only if more is left.
    pub fn disable_auto_run(&mut self)
        ensures { self.new
            ≡ record self.old { housekeeping = without_automatic self.old.housekeeping } }
    {
        self.auto_run_enabled = false;
    }

    /// The moment from which the next run may start after one now.
    fn sync_after(now: Instant) -> Instant
        ensures { result ≡ next_run now.0 }
    {
        now.saturating_add(Duration::from_millis(LOG_SYNC_INTERVAL_MILLIS))
    }
}
