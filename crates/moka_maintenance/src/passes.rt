//! A run of maintenance: passes of the steps that remove, and the clock between them.
//!
//! moka: `sync::base_cache::Inner::do_run_pending_tasks`.
ghost use Rattle.std.specs.Prelude.{◌≡◌, ◌+◌, ◌&&◌, ◌||◌, Some, nat_lt, option_map};
ghost use Rattle.std.specs.Duration.{as_nanos};
ghost use Rattle.moka_maintenance.specs.Steps.{stock_in};
ghost use Rattle.moka_maintenance.specs.Sweep.{is_taken, IsSwept};
ghost use Rattle.moka_maintenance.specs.Passes.{Starts, Checks, IsPass, IsRan};
ghost use Rattle.moka_maintenance.specs.Timers.{AreOnTime};
ghost use Rattle.moka_maintenance.specs.Upkeep.{SetsNoTimer, UpkeepAt};

use crate::due::expire_due;
use crate::scan::scan;
use crate::sweep::{Sweep, Swept, Tests, is_over, sweep_along};
use moka_parts::closures::PredicateFn;
use moka_parts::housekeeper::Clock;
use moka_parts::invalidator::Invalidator;
use moka_parts::notification::{Listener, RemovalNotifier};
use moka_parts::policy::Instant;
use moka_store::Store;
use std::hash::{BuildHasher, Hash};
use std::time::Duration;

// How many rows are read ahead at most: as many as a run removes if one is made at each 64th operation.
const MAX_AHEAD: u128 = 64;

/// What a run goes by.
#[derive(Clone, Copy)]
pub struct Terms {
    pub tests: Tests,
    /// After this time no further pass is made.
    pub limit: Option<Duration>,
    /// How many turns each sweep of a pass makes at most, and at how many records its scan looks.
    pub batch: u32,
}

/// What a run came to.
#[derive(Clone, Copy)]
pub struct Ran {
    /// How many passes were made.
    pub passes: u64,
    /// Whether the last pass left more.
    pub has_more: bool,
}

// What a pass came to.
#[derive(Clone, Copy)]
struct Pass {
    // How many records left, but for those that the scan removed.
    removed: u64,
    // Whether a sweep left more.
    has_more: bool,
    // Whether the scan did.
    scan_has_more: bool,
}

impl Pass {
    // Sums up the steps of a pass. The one by timers never leaves work over.
    fn joined(
        due: u32,
        by_write: Swept,
        by_read: Swept,
        scan_has_more: bool,
        surplus: Swept,
    ) -> Self
        ensures { result ≡ record {
          removed = due + by_write.removed + by_read.removed + surplus.removed;
          has_more = by_write.has_more || by_read.has_more || surplus.has_more;
          scan_has_more = scan_has_more;
        } }
    {
        let by_moment = u64::from(due) + u64::from(by_write.removed) + u64::from(by_read.removed);
        Pass {
            removed: by_moment + u64::from(surplus.removed),
            has_more: by_write.has_more || by_read.has_more || surplus.has_more,
            scan_has_more,
        }
    }

    // Whether it left more.
    fn leaves_more(self) -> bool
        ensures { result ≡ (self.has_more || self.scan_has_more) }
    {
        self.has_more || self.scan_has_more
    }

    // Whether another pass is due.
    fn goes_on(self) -> bool
        ensures { result ≡ ((self.has_more || self.scan_has_more) && nat_lt 0 self.removed) }
    {
        self.leaves_more() && self.removed > 0
    }
}

/// Makes passes until one leaves nothing or removes nothing beside its scan, or the limit has passed since the start.
pub fn make_passes<
    K: Eq + Hash + Drop,
    V: Drop,
    S: BuildHasher,
    L: Listener<K, V>,
    P: PredicateFn<K, V> + Drop,
    C: Clock,
>(
    store: &mut Store<K, V, S>,
    notifier: &mut RemovalNotifier<L>,
    invalidator: &mut Invalidator<P>,
    clock: &mut C,
    terms: Terms,
) -> Ran
    ensures ran { IsRan L.tells P.says terms.tests C.reads (option_map as_nanos terms.limit) terms.batch
        store.old.ordered (AreOnTime store.old) invalidator.old invalidator.new (stock_in store.old)
        (stock_in store.new) notifier.old notifier.new clock.old clock.new
        result.passes result.has_more }
    ensures kept { UpkeepAt terms.tests.now.0 store.old store.new }
{
    // There are no more passes than members, and one.
    let _members = store.member_count();
    let started = start(terms.limit, clock);
    let mut passes = 0u64;
    loop {
        passes += 1;
        let pass = make_pass(store, notifier, invalidator, terms);
        if !pass.goes_on() {
            let has_more = pass.leaves_more();
            return Ran { passes, has_more };
        }
        if is_late(started, terms.limit, clock) {
            let has_more = true;
            return Ran { passes, has_more };
        }
    }
}

// One pass.
fn make_pass<K: Eq + Hash + Drop, V: Drop, S: BuildHasher, L: Listener<K, V>, P: Drop>(
    store: &mut Store<K, V, S>,
    notifier: &mut RemovalNotifier<L>,
    invalidator: &mut Invalidator<P>,
    terms: Terms,
) -> Pass
where
    P: PredicateFn<K, V>,
    ensures pass { IsPass L.tells P.says terms.tests terms.batch store.old.ordered (AreOnTime store.old)
        invalidator.old invalidator.new (stock_in store.old) (stock_in store.new) notifier.old notifier.new
        result.removed result.has_more result.scan_has_more }
    ensures kept { UpkeepAt terms.tests.now.0 store.old store.new }
{
    store.invariant_holds();
    let due = expire_due(store, notifier, terms.tests);
    let by_write = take_step(store, notifier, terms, Sweep::Written);
    let by_read = take_step(store, notifier, terms, Sweep::Read);
    let scan_has_more = scan(store, notifier, invalidator, terms.batch);
    let surplus = take_step(store, notifier, terms, Sweep::Surplus);
    Pass::joined(due, by_write, by_read, scan_has_more, surplus)
}

// A step of a pass, if it is to be taken.
fn take_step<K: Eq + Hash + Drop, V: Drop, S: BuildHasher, L: Listener<K, V>>(
    store: &mut Store<K, V, S>,
    notifier: &mut RemovalNotifier<L>,
    terms: Terms,
    sweep: Sweep,
) -> Swept
    ensures swept { IsSwept L.tells terms.tests sweep terms.batch (stock_in store.old)
        (stock_in store.new) notifier.old notifier.new
        result.removed result.has_more }
    ensures idle { terms.batch ≡ 0 → result.has_more ≡ is_taken terms.tests sweep store.old.access }
    ensures upkeep { SetsNoTimer store.old store.new }
{
    if !is_taken(store, terms.tests, sweep) {
        return Swept {
            removed: 0,
            has_more: false,
        };
    }
    read_ahead(store, terms, sweep);
    sweep_along(store, notifier, terms.tests, sweep, terms.batch)
}

// Reads the rows of the members that are about to be evicted. If entries weigh more than 1 these are fewer, and some
// rows are read in vain.
fn read_ahead<K: Eq + Hash, V, S: BuildHasher>(
    store: &mut Store<K, V, S>,
    terms: Terms,
    sweep: Sweep,
)
    ensures { store.new ≡ store.old }
{
    if let (Sweep::Surplus, Some(limit)) = (sweep, terms.tests.capacity) {
        let surplus = store.total_weight().saturating_sub(u128::from(limit));
        let rows = surplus.min(MAX_AHEAD).min(u128::from(terms.batch));
        store.read_ahead(rows as usize);
    }
}

// Whether a step is to be taken.
fn is_taken<K: Eq + Hash, V, S: BuildHasher>(
    store: &Store<K, V, S>,
    tests: Tests,
    sweep: Sweep,
) -> bool
    ensures { result ≡ is_taken tests sweep store.now.access }
{
    match sweep {
        Sweep::Written => {
            tests.time_to_live.is_some()
                || tests.time_to_idle.is_some()
                || tests.valid_after.is_some()
        }
        Sweep::Read => tests.time_to_idle.is_some() || tests.valid_after.is_some(),
        Sweep::Surplus => is_over(tests.capacity, store.total_weight()),
    }
}

// Reads the clock if a limit is given.
fn start<C: Clock>(limit: Option<Duration>, clock: &mut C) -> Option<Instant>
    ensures { Starts C.reads (option_map as_nanos limit) clock.old result clock.new }
{
    match limit {
        Some(_) => Some(clock.now()),
        None => None,
    }
}

// Reads the clock again if it was read at the start. Whether the limit has passed since then.
fn is_late<C: Clock>(started: Option<Instant>, limit: Option<Duration>, clock: &mut C) -> bool
    ensures { Checks C.reads started (option_map as_nanos limit) clock.old result clock.new }
{
    let (Some(first), Some(limit)) = (started, limit) else {
        return false;
    };
    clock.now().saturating_duration_since(first).as_nanos() >= limit.as_nanos()
}
