//! The scan: along the order of writing, from where it stopped last, it removes what registered predicates cover. Once
//! it has come to the end, the predicates that cover no record leave.
//!
//! moka: `sync::invalidator::Invalidator::scan_and_invalidate`, `Invalidator::remove_predicates_registered_before`.
ghost use Rattle.std.specs.Prelude.{◌≡◌, ◌<◌, ℕ, ◌++◌, ◌==◌, List, Some, IfSome, MatchBool, length, option_map, slice_get};
ghost use Rattle.std.specs.List.{IsDistinct};
ghost use Rattle.moka_parts.specs.declared.records.Registered.{Registered};
ghost use Rattle.moka_parts.specs.Maintenance.{CoversNothing};
ghost use Rattle.moka_store.specs.Store.{IsOrdered};
ghost use Rattle.moka_maintenance.specs.Handles.{IsMemberAt};
ghost use Rattle.moka_maintenance.specs.Scan.{from_cursor, CoversSome, LooksAt, IsWalked, IsStretch, IsRound, AllDropped, IsScanned};
ghost use Rattle.moka_maintenance.specs.Steps.{contents_in};

use crate::expel::expel;
use moka_parts::closures::PredicateFn;
use moka_parts::invalidator::Invalidator;
use moka_parts::notification::{Listener, RemovalCause, RemovalNotifier};
use moka_store::{Handle, Store};
use std::hash::{BuildHasher, Hash};

// Where a walk along the order of writing begins, and how far it goes.
#[derive(Clone, Copy)]
struct Reach {
    start: Option<Handle>,
    // How many members it passes at most.
    most: usize,
    // How many settled members it looks at at most.
    batch: u32,
}

// What a walk along the order of writing came to.
#[derive(Clone, Copy)]
struct Stretch {
    // How many settled members it looked at.
    looked: u32,
    // How many members it passed, those that left among them.
    passed: usize,
    // Whether it came to the end of the order.
    is_end: bool,
}

/// Goes round the order of writing from its cursor, once at most, until it has looked at `batch` settled members, and
/// removes those that a registered predicate covers. The cursor comes to stand behind the last that was passed. If
/// the end of the order was reached, predicates that cover no record leave. Whether more is left: a member was looked
/// at, and a predicate is left.
pub(crate) fn scan<K: Eq + Hash + Drop, V: Drop, S: BuildHasher, L: Listener<K, V>, P: Drop>(
    store: &mut Store<K, V, S>,
    notifier: &mut RemovalNotifier<L>,
    invalidator: &mut Invalidator<P>,
    batch: u32,
) -> bool
where
    P: PredicateFn<K, V>,
    ensures { IsScanned L.tells P.says invalidator.old batch store.old store.new invalidator.new
        notifier.old notifier.new result }
{
    store.invariant_holds();
    if invalidator.is_empty() {
        return false;
    }
    let round = go_round(store, notifier, invalidator, batch);
    if round.is_end {
        drop_idle(store, invalidator);
    }
    (round.looked > 0) & !invalidator.is_empty()
}

// Walks from the cursor to the end, and then from the front on, past no more members than there are.
fn go_round<K: Eq + Hash + Drop, V: Drop, S: BuildHasher, L: Listener<K, V>, P>(
    store: &mut Store<K, V, S>,
    notifier: &mut RemovalNotifier<L>,
    invalidator: &Invalidator<P>,
    batch: u32,
) -> Stretch
where
    P: PredicateFn<K, V>,
    ensures { IsRound L.tells P.says invalidator.now batch store.old store.new notifier.old notifier.new
        result.looked result.is_end }
{
    store.invariant_holds();
    let members = store.member_count();
    let reach = Reach {
        start: start_of(store),
        most: members,
        batch,
    };
    let first = scan_along(store, notifier, invalidator, reach);
    if !first.is_end {
        return first;
    }
    let reach = Reach {
        start: store.front_written(),
        most: members - first.passed,
        batch: batch - first.looked,
    };
    let second = scan_along(store, notifier, invalidator, reach);
    Stretch {
        looked: first.looked + second.looked,
        passed: first.passed + second.passed,
        is_end: true,
    }
}

// The member at the cursor, or else the first.
fn start_of<K: Eq + Hash, V, S: BuildHasher>(store: &Store<K, V, S>) -> Option<Handle>
    ensures ordered { IfSome result (IsOrdered store.now) }
    ensures first { option_map (λ h. h.number) result ≡ slice_get (from_cursor store.now.cursor store.now.written) 0 }
{
    match store.cursor() {
        Some(handle) => Some(handle),
        None => store.front_written(),
    }
}

// Walks to the end, or until it has looked at as many settled members or passed as many members as it may. The cursor
// is put at the next one.
fn scan_along<K: Eq + Hash + Drop, V: Drop, S: BuildHasher, L: Listener<K, V>, P>(
    store: &mut Store<K, V, S>,
    notifier: &mut RemovalNotifier<L>,
    invalidator: &Invalidator<P>,
    reach: Reach,
) -> Stretch
where
    P: PredicateFn<K, V>,
    requires ordered { IfSome reach.start (IsOrdered store.old) }
    requires once { IsDistinct (◌==◌) store.old.written }
    ensures walked { (before rest : List ℕ) → store.old.written ≡ before ++ rest
        → option_map (λ h. h.number) reach.start ≡ slice_get rest 0
        → IsWalked L.tells P.says invalidator.now store.old store.new notifier.old notifier.new before rest
        store.new.cursor result.looked result.passed }
    ensures stretch { IsStretch reach.most reach.batch store.old store.new result.looked result.passed result.is_end }
{
    let mut next = reach.start;
    let mut looked = 0;
    let mut passed = 0;
    while passed < reach.most && looked < reach.batch {
        let Some(handle) = next else {
            break;
        };
        next = store.next_written(handle);
        passed += 1;
        looked += u32::from(look_at(store, notifier, invalidator, handle));
    }
    store.set_cursor(next);
    let is_end = next.is_none();
    Stretch {
        looked,
        passed,
        is_end,
    }
}

// Looks at a member, and lets it leave if it is settled and a predicate covers it. Whether it is settled.
fn look_at<K: Eq + Hash + Drop, V: Drop, S: BuildHasher, L: Listener<K, V>, P>(
    store: &mut Store<K, V, S>,
    notifier: &mut RemovalNotifier<L>,
    invalidator: &Invalidator<P>,
    handle: Handle,
) -> bool
where
    P: PredicateFn<K, V>,
    requires { IsMemberAt store.old handle }
    ensures { LooksAt L.tells P.says invalidator.now store.old store.new notifier.old
        notifier.new handle.number result }
{
    let Some(found) = store.find(handle) else {
        return false;
    };
    if !found.is_settled() {
        return false;
    }
    if invalidator.apply_predicates(&found) {
        expel(store, notifier, handle, RemovalCause::Explicit);
    }
    true
}

// The predicates that cover no record leave.
fn drop_idle<K: Eq + Hash, V, S: BuildHasher, P: Drop>(
    store: &Store<K, V, S>,
    invalidator: &mut Invalidator<P>,
)
where
    P: PredicateFn<K, V>,
    ensures { AllDropped P.says (contents_in store.now) invalidator.old invalidator.new }
{
    let mut left = invalidator.len();
    while left > 0 {
        left -= 1;
        if !covers_some(store, invalidator, left) {
            let _dropped = invalidator.remove(left);
        }
    }
}

// Whether the predicate at this place covers a record. It is asked no more once it covers one.
fn covers_some<K: Eq + Hash, V, S: BuildHasher, P>(
    store: &Store<K, V, S>,
    invalidator: &Invalidator<P>,
    index: usize,
) -> bool
where
    P: PredicateFn<K, V>,
    requires { index < length invalidator.now }
    ensures { (p : Registered P) → slice_get invalidator.now index ≡ Some p →
        MatchBool result (CoversSome P.says (contents_in store.now) p)
        (CoversNothing P.says (contents_in store.now) p) }
{
    for place in 0..store.place_count() {
        if let Some(found) = store.record_at(place) {
            if invalidator.covers_at(index, &found) {
                return true;
            }
        }
    }
    false
}
