//! Calls that concern all segments, and the sums of what each tells.
ghost use Rattle.std.specs.Prelude.{◌≡◌, option_copied};
ghost use Rattle.std.specs.List.{AllZip};
ghost use Rattle.moka_parts.specs.State.{limits_of};
ghost use Rattle.moka_calls.specs.Synchronous.{meaning_of};
ghost use Rattle.moka_segments.specs.Segmented.{Holds};
ghost use Rattle.moka_segments.specs.Whole.{AllRan, Hides, IsWithinWhole, both_stats, saturated, total, total_stats, whole_capacity};

use crate::segmented::SegmentedCache;
use moka_cache::Stats;
use moka_cache::each::{invalidate_each, run_each};
use moka_parts::closures::{PredicateFn, Weigher};
use moka_parts::housekeeper::Clock;
use moka_parts::notification::Listener;
use moka_parts::policy::{Expiry, Instant, Policy};
use moka_router::capacity::both;
use std::hash::{BuildHasher, Hash};

impl<
    K: Eq + Hash,
    V,
    X: Expiry<K, V>,
    L: Listener<K, V>,
    P: PredicateFn<K, V>,
    W: Weigher<K, V>,
    S: BuildHasher,
> SegmentedCache<K, V, X, L, P, W, S> {
    /// How many entries the last runs of maintenance counted, saturating.
    pub fn entry_count(&self) -> u64
        ensures { result ≡ total (λ s. s.engine.state.count) self.now.segments }
    {
        let mut sum: u64 = 0;
        for segment in &self.segments {
            sum = sum.saturating_add(segment.entry_count());
        }
        sum
    }

    /// The weight that the last runs of maintenance counted, saturating.
    pub fn weighted_size(&self) -> u64
        ensures { result ≡ total (λ s. s.engine.state.weight) self.now.segments }
    {
        let mut sum: u64 = 0;
        for segment in &self.segments {
            sum = sum.saturating_add(segment.weighted_size());
        }
        sum
    }

    /// Hits, misses and loads of all segments since they were made, each saturating.
    pub fn stats(&self) -> Stats
        ensures { result ≡ total_stats self.now.segments }
    {
        let mut sum = Stats::new();
        for segment in &self.segments {
            sum = both_stats(sum, segment.stats());
        }
        sum
    }

    /// The sum of the segments' capacities, saturating; `None` if one of them has no bound.
    pub fn max_capacity(&self) -> Option<u64>
        ensures { result ≡ saturated (whole_capacity self.now.segments) }
    {
        let mut sum = Some(0);
        for segment in &self.segments {
            sum = both(sum, segment.policy().max_capacity());
        }
        sum
    }

    /// The first segment's name, if it has one.
    pub fn name(&self) -> Option<&str>
        ensures { Holds 0 (λ s. option_copied result ≡ s.engine.name) self.now.segments }
    {
        self.first().name()
    }

    /// The capacity of all, as `max_capacity` tells it, and the first segment's times, as they are set. Its
    /// `num_segments` is 1, as a segment's is: `router().count()` tells how many there are.
    pub fn policy(&self) -> Policy
        ensures { Holds 0 (λ s. result ≡ record (limits_of s.engine.state) {
          max_capacity = saturated (whole_capacity self.now.segments);
        }) self.now.segments }
    {
        let first = self.first().policy();
        Policy::new(
            self.max_capacity(),
            first.time_to_live(),
            first.time_to_idle(),
        )
    }

    /// Hides all entries that were written or read before the moment `now`; runs of maintenance remove them. This
    /// moment replaces that of an earlier call.
    pub fn invalidate_all(&mut self, now: Instant)
        ensures routing { self.new.routing ≡ self.old.routing }
        ensures each { AllZip (Hides L.tells now) self.old.segments self.new.segments }
    {
        invalidate_each(&mut self.segments, now);
    }

    /// Runs maintenance of each segment in turn, without a time limit. The answer tells whether more is left of any.
    ///
    /// Afterwards count and weight of each segment are exact, the weight of all is within the capacity of all, and a
    /// snapshot of a segment leaves no visible entry out.
    pub fn run_pending_tasks<C: Clock>(&mut self, now: Instant, clock: &mut C) -> bool
    where
        K: Drop,
        V: Drop,
        P: Drop,
        ensures routing { self.new.routing ≡ self.old.routing }
        ensures each { AllRan (meaning_of K.eq L.tells P.says W.weighs C.reads X.created X.read X.updated) now clock.old
            result clock.new self.old.segments self.new.segments }
        ensures within { IsWithinWhole (whole_capacity self.new.segments) self.new.segments }
    {
        run_each(&mut self.segments, now, clock)
    }
}

// Hits, misses and loads of both, each saturating.
fn both_stats(one: Stats, other: Stats) -> Stats
    ensures { result ≡ both_stats one other }
{
    Stats {
        hits: one.hits.saturating_add(other.hits),
        misses: one.misses.saturating_add(other.misses),
        loads: one.loads.saturating_add(other.loads),
    }
}
