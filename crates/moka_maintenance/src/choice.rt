//! TinyLFU's choice between a candidate and the members that would make room for it.
//!
//! moka: `sync::base_cache::Inner::admit`.
ghost use Rattle.std.specs.Prelude.{◌≡◌, ◌+◌, ◌<◌, ◌^◌, ℕ, true, false, None, MatchOption, take};
ghost use Rattle.std.specs.FinMap as finite;
ghost use Rattle.moka_parts.specs.Frequency.{frequency};
ghost use Rattle.moka_parts.specs.Candidates.{hash_of};
ghost use Rattle.moka_records.specs.Records.{counted_of, is_settled, member, without_numbers};
ghost use Rattle.moka_parts.specs.Writes.{left_with, without_victims};
ghost use Rattle.moka_store.specs.Store.{IsPlaced};
ghost use Rattle.moka_maintenance.specs.Choice.{AreSettled, Chooses};
ghost use Rattle.moka_maintenance.specs.Steps.{contents_in, contents_with, Told};
ghost use Rattle.moka_maintenance.specs.Upkeep.{SetsNoTimer};

use crate::expel::expel;
use moka_parts::notification::{Listener, RemovalCause, RemovalNotifier};
use moka_sketch::frequency_sketch::FrequencySketch;
use moka_store::{Handle, Store};
use std::hash::{BuildHasher, Hash};

/// So many unsettled members in a row end the search for victims.
const MAX_UNSETTLED: u32 = 6;

/// What a choice came to.
#[derive(Clone, Copy)]
pub(crate) struct Chosen {
    /// How many members, from the front, are the victims.
    pub victims: usize,
    /// Whether the candidate was seen more often than all of them, and they make room for it.
    pub is_preferred: bool,
}

/// Compares a candidate of this weight and hash with the settled members that would make room for it, from the front
/// on. A member that is not settled goes to the back of the access list alone, so that the victims stand in front
/// afterwards.
pub(crate) fn choose<K: Eq + Hash, V, S: BuildHasher>(
    store: &mut Store<K, V, S>,
    sketch: &FrequencySketch,
    weight: u32,
    hash: u64,
) -> Chosen
    ensures chosen { Chooses (contents_with sketch.now store.old) weight hash store.new.access
        result.victims result.is_preferred }
    ensures rest { store.new ≡ record store.old { access = store.new.access } }
{
    let weight = u64::from(weight);
    let frequency = u32::from(sketch.frequency(hash));
    let mut victims = 0usize;
    let mut weights = 0u64;
    let mut frequencies = 0u32;
    store.invariant_holds();
    let mut next = store.front();
    // How many members were not looked at yet: only the proof that the walk ends reads it.
    let mut ahead = store.member_count();
    // How many in a row were not settled.
    let mut unsettled = 0;
    while weights < weight && frequencies <= frequency && unsettled < MAX_UNSETTLED {
        let Some((handle, counted)) = next else {
            break;
        };
        next = store.next(handle);
        ahead = ahead.saturating_sub(1);
        match frequency_of(store, sketch, handle) {
            Some(seen) => {
                victims += 1;
                weights = with_weight(weights, counted);
                frequencies += u32::from(seen);
                unsettled = 0;
            }
            None => {
                store.move_in_access(handle);
                unsettled += 1;
            }
        }
    }
    Chosen {
        victims,
        is_preferred: weights >= weight && frequencies < frequency,
    }
}

// The weight of the victims with one more.
fn with_weight(weights: u64, counted: u32) -> u64
    requires { weights < 2 ^ 32 }
    ensures { result ≡ weights + counted }
{
    weights + u64::from(counted)
}

// How often the record of a settled member was seen.
fn frequency_of<K: Eq + Hash, V, S: BuildHasher>(
    store: &Store<K, V, S>,
    sketch: &FrequencySketch,
    handle: Handle,
) -> Option<u8>
    requires { IsPlaced store.now handle }
    ensures { MatchOption result (is_settled store.now.records handle.number ≡ false)
        (λ f. (is_settled store.now.records handle.number ≡ true) × ((counted : ℕ) →
        f ≡ frequency sketch.now (hash_of (contents_with sketch.now store.now) (member handle.number counted)))) }
{
    let Some(found) = store.find(handle) else {
        return None;
    };
    if !found.is_settled() {
        return None;
    }
    Some(sketch.frequency(found.hash()))
}

/// Evicts the first members, so many of them, to make room.
pub(crate) fn expel_front<K: Eq + Hash + Drop, V: Drop, S: BuildHasher, L: Listener<K, V>>(
    store: &mut Store<K, V, S>,
    notifier: &mut RemovalNotifier<L>,
    how_many: usize,
)
    requires { AreSettled (contents_in store.old) (take how_many store.old.access) }
    ensures step { contents_in store.new ≡ without_victims (take how_many store.old.access) (contents_in store.old) }
    ensures written { store.new.written ≡ without_numbers (take how_many store.old.access) store.old.written }
    ensures told { Told L.tells notifier.old
        (left_with (take how_many store.old.access) store.old.records) notifier.new }
    ensures others { (n : ℕ) → counted_of n store.old.access ≡ None → (counted_of n store.new.access ≡ None)
        × (finite.get store.new.records n ≡ finite.get store.old.records n)
        × (finite.get store.new.places n ≡ finite.get store.old.places n) }
    ensures upkeep { SetsNoTimer store.old store.new }
{
    store.invariant_holds();
    let mut left = how_many;
    while left > 0 {
        let Some((handle, _)) = store.front() else {
            return;
        };
        expel(store, notifier, handle, RemovalCause::Size);
        left -= 1;
    }
}
