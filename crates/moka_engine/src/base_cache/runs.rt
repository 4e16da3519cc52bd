//! Runs of maintenance. moka: `sync::base_cache::Inner::do_run_pending_tasks`.
ghost use Rattle.std.specs.Prelude.{◌≡◌, length, min, option_map, None, true, false, if◌then◌else◌};
ghost use Rattle.std.specs.Duration.{as_nanos};
ghost use Rattle.std.specs.FinMap as finite;
ghost use Rattle.moka_parts.specs.Calls.{KeeperRun, RecordsRead, RunsIfDue, no_events};
ghost use Rattle.moka_parts.specs.Exact.{IsExact};
ghost use Rattle.moka_parts.specs.Housekeeping.{without_automatic};
ghost use Rattle.moka_parts.specs.Runs.{Befalls};
ghost use Rattle.moka_parts.specs.Settling.{IsValid, leaves_more_idle};
ghost use Rattle.moka_parts.specs.State.{is_disabled};
ghost use Rattle.moka_parts.specs.Surroundings.{Leads};
ghost use Rattle.moka_records.specs.Records.{total_weight};
ghost use Rattle.moka_records.specs.Time.{greatest};
ghost use Rattle.moka_types.specs.declared.calls.Call.TheVariants as call;
ghost use Rattle.moka_types.specs.declared.calls.Reply.TheVariants as reply;
ghost use Rattle.moka_records.specs.declared.records.ReadOperation.TheVariants.{Miss};
ghost use Rattle.moka_engine.specs.Makes.{Makes, Takes, meaning};

use super::BaseCache;
use moka_maintenance::bounds::Bounds;
use moka_maintenance::passes::Terms;
use moka_maintenance::sweep::Tests;
use moka_parts::closures::{PredicateFn, Weigher};
use moka_parts::housekeeper::{Clock, InnerSync};
use moka_parts::notification::Listener;
use moka_parts::policy::{Expiry, Instant};
use moka_parts::records::ReadOperation;
use moka_store::Store;
use std::hash::{BuildHasher, Hash};
use std::time::Duration;

impl<
    K: Eq + Hash,
    V,
    S: BuildHasher,
    X: Expiry<K, V>,
    L: Listener<K, V>,
    P: PredicateFn<K, V>,
    W: Weigher<K, V>,
> BaseCache<K, V, S, X, L, P, W> {
    /// Runs maintenance: applies the queued reads and then the queued writes, and makes passes. Each pass removes, in
    /// this order, what is past its own expiry, what has expired or was invalidated by its last write and then by its
    /// last read, what a predicate covers, and what exceeds the capacity. At the end the report is made. The answer
    /// tells whether more is left. A capacity of 0 leaves nothing to do. The housekeeper is not touched.
    ///
    /// - `now`: the moment by which all is tested.
    /// - `clock`: tells how long the run goes on. It is read only if a listener is set and there is a limit.
    /// - `limit`: once so much time has passed, no further pass is made, and the answer is that more is left.
    /// - `repeats`: how often a run may go back to its queues. With one owner nothing is queued meanwhile, so it has no
    ///   effect.
    /// - `batch`: how many records each step of a pass looks at, but for the first. With 0 the passes remove only what
    ///   is past its own expiry, and more is left if a time to live, a time to idle or an invalidation of all is set,
    ///   or the capacity is exceeded.
    ///
    /// Once every operation was sent, a run leaves count and weight exactly the records', and one that was not cut
    /// short, with a `batch` of at least 1, also the weight within the capacity.
    ///
    /// If the cache is in the order of writing, such a run also leaves no record past its time to live, and none
    /// written before the last invalidation of all (`laws::runs_age_out`). This applies to caches with a time to live
    /// or with support of predicates: an empty one is in that order, and calls in the order of time keep it so
    /// (`laws::calls_keep_order`), which `drive` promises of a list of calls.
    pub fn run_pending_tasks<C: Clock>(
        &mut self,
        now: Instant,
        clock: &mut C,
        limit: Option<Duration>,
        repeats: u32,
        batch: u32,
    ) -> bool
    where
        K: Drop,
        V: Drop,
        P: Drop,
        ensures step { Makes (meaning K.eq L.tells P.says W.weighs X.created X.read X.updated)
            (call.Run now limit repeats batch) (reply.Run result) self.old self.new
            (λ e. Leads C.reads clock.old e.readings clock.new) }
        ensures exact { self.old.state.outstanding ≡ finite.empty → IsExact self.new.state }
        ensures idle { is_disabled self.old.state.capacity ≡ false → batch ≡ 0
            → result ≡ leaves_more_idle self.new.state }
    {
        if self.is_map_disabled() {
            self.passes = 0;
            return false;
        }
        let limit = limit_of_run(self.notifier.is_enabled(), limit);
        let tests = Tests {
            now,
            time_to_live: self.expiration_policy.time_to_live(),
            time_to_idle: self.expiration_policy.time_to_idle(),
            valid_after: self.valid_after,
            capacity: self.max_capacity,
        };
        let bounds = Bounds {
            capacity: self.max_capacity,
            policy: self.eviction_policy,
            has_weigher: self.weigher.is_some(),
        };
        let terms = Terms {
            tests,
            limit,
            batch,
        };
        self.inner.apply_queues(&mut self.notifier, bounds);
        let ran = self
            .inner
            .make_passes(&mut self.notifier, &mut self.invalidator, clock, terms);
        let (count, weight) = report_of(self.inner.store());
        self.entry_count = count;
        self.weighted_size = weight;
        self.passes = ran.passes;
        ran.has_more
    }

    /// Makes a run of maintenance at the moment `now` if the housekeeper says that one is due: its last run left more,
    /// or runs start by themselves and either 64 writes are queued or 300 milliseconds have passed since its last run.
    /// The housekeeper gives its limit, repeats and batch to the run, and remembers the moment and, if a listener is
    /// set, whether more is left.
    /// moka: `sync::base_cache::BaseCache::apply_reads_writes_if_needed`.
    pub fn apply_reads_writes_if_needed<C: Clock>(&mut self, now: Instant, clock: &mut C)
    where
        K: Drop,
        V: Drop,
        P: Drop,
        ensures { Makes (meaning K.eq L.tells P.says W.weighs X.created X.read X.updated)
            (call.RunIfDue now) reply.RunIfDue self.old self.new (λ e. Leads C.reads clock.old e.readings clock.new) }
    {
        let queued = self.inner.write_count();
        if self.housekeeper.should_apply_writes(queued, now) {
            self.run_by_housekeeper(now, clock);
        }
    }

    // Makes a run at the moment `now` if the housekeeper says that one is due with so many reads queued.
    #[inline(always)]
    fn apply_reads_if_needed<C: Clock>(&mut self, now: Instant, clock: &mut C)
    where
        K: Drop,
        V: Drop,
        P: Drop,
        ensures { Takes P.says X.read L.tells (λ Runs s. RunsIfDue Runs s (length s.reads) now.0) self.old self.new
            (λ e. Leads C.reads clock.old e.readings clock.new) }
    {
        let queued = self.inner.read_count();
        if self.housekeeper.should_apply_reads(queued, now) {
            self.run_by_housekeeper(now, clock);
        }
    }

    // Makes the run that is due, if one is, and queues a read that found nothing. A disabled map queues no reads; it
    // holds nothing, so only a miss has to ask.
    // moka: `sync::base_cache::BaseCache::record_read_op`.
    #[inline(always)]
    pub(super) fn record_miss<C: Clock>(&mut self, hash: u64, now: Instant, clock: &mut C)
    where
        K: Drop,
        V: Drop,
        P: Drop,
        ensures disabled { is_disabled self.old.state.capacity ≡ true
            → (self.new ≡ self.old) × (clock.new ≡ clock.old) }
        ensures enabled { is_disabled self.old.state.capacity ≡ false
            → Takes P.says X.read L.tells (λ Runs s. RecordsRead Runs s now.0 (Miss hash)) self.old self.new
            (λ e. Leads C.reads clock.old e.readings clock.new) }
    {
        if self.is_map_disabled() {
            return;
        }
        self.apply_reads_if_needed(now, clock);
        self.inner.queue_read(0, ReadOperation::Miss { hash });
    }

    // A run that the housekeeper makes.
    #[cold]
    pub(super) fn run_by_housekeeper<C: Clock>(&mut self, now: Instant, clock: &mut C)
    where
        K: Drop,
        V: Drop,
        P: Drop,
        ensures step { Takes P.says X.read L.tells (λ Runs s. KeeperRun Runs s now.0) self.old self.new
            (λ e. Leads C.reads clock.old e.readings clock.new) }
        ensures valid { IsValid K.eq self.old.state }
    {
        let mut housekeeper = self.housekeeper.copied();
        housekeeper.run_pending_tasks(self, now, clock);
        self.housekeeper = housekeeper;
    }

    /// From now on the housekeeper starts a run only if its last one left more.
    /// moka: `common::concurrent::housekeeper::Housekeeper::disable_auto_run`.
    pub fn disable_auto_run(&mut self)
        ensures step { self.new.state
            ≡ record self.old.state { housekeeping = without_automatic self.old.state.housekeeping } }
        ensures events { Befalls L.tells no_events self.old self.new }
    {
        self.housekeeper.disable_auto_run();
    }
}

impl<
    K: Eq + Hash + Drop,
    V: Drop,
    S: BuildHasher,
    X: Expiry<K, V>,
    L: Listener<K, V>,
    P: PredicateFn<K, V> + Drop,
    W: Weigher<K, V>,
> InnerSync for BaseCache<K, V, S, X, L, P, W> {
    ghost use Rattle.moka_engine.specs.Makes.{EngineRuns};

    ghost runs = { EngineRuns P.says X.read L.tells };

    fn run_pending_tasks<C: Clock>(
        &mut self,
        now: Instant,
        clock: &mut C,
        timeout: Option<Duration>,
        max_log_sync_repeats: u32,
        eviction_batch_size: u32,
    ) -> bool {
        BaseCache::run_pending_tasks(
            self,
            now,
            clock,
            timeout,
            max_log_sync_repeats,
            eviction_batch_size,
        )
    }
}

// The time limit of a run: without a listener it has none.
fn limit_of_run(is_listening: bool, limit: Option<Duration>) -> Option<Duration>
    ensures { option_map as_nanos result ≡ (if is_listening then option_map as_nanos limit else None) }
{
    if is_listening { limit } else { None }
}

// What a run reports: how many members there are, and their weight, saturating.
fn report_of<K: Eq + Hash, V, S: BuildHasher>(store: &Store<K, V, S>) -> (u64, u64)
    ensures count { result.0 ≡ length store.now.access }
    ensures weight { result.1 ≡ min (total_weight store.now.access) greatest }
{
    let count = store.member_count() as u64;
    let weight = u64::try_from(store.total_weight()).unwrap_or(u64::MAX);
    (count, weight)
}
