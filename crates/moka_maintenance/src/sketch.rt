//! When the frequency sketch comes on, and how long its table is.
//!
//! moka: `sync::base_cache::Inner::should_enable_frequency_sketch`, `Inner::enable_frequency_sketch`.
ghost use Rattle.std.specs.Prelude.{◌≡◌, ◌<◌, Bool, Some};
ghost use Rattle.moka_parts.specs.Frequency.{size_asked};
ghost use Rattle.moka_parts.specs.Maintenance.{is_sketch_due, with_sketch};
ghost use Rattle.moka_maintenance.specs.Steps.{contents_with};

use crate::bounds::Bounds;
use moka_parts::policy::EvictionPolicy;
use moka_sketch::frequency_sketch::{FrequencySketch, sketch_capacity};
use moka_store::Store;
use std::hash::{BuildHasher, Hash};

/// Makes the sketch's table under TinyLFU, once half of a capacity other than 0 is used. Its length is about the
/// capacity in words; with a weigher, the number of members times the part of the capacity that they use. If memory for
/// so long a table is refused, it has 128 words.
pub fn enable_frequency_sketch<K: Eq + Hash, V, S: BuildHasher>(
    store: &Store<K, V, S>,
    sketch: &mut FrequencySketch,
    bounds: Bounds,
)
    ensures { (is_short : Bool)
        × (contents_with sketch.new store.now ≡ with_sketch bounds.capacity bounds.policy bounds.has_weigher is_short
        (contents_with sketch.old store.now)) }
{
    let Some(capacity) = bounds.capacity else {
        return;
    };
    let weight = store.total_weight();
    if !is_due(sketch, capacity, bounds.policy, weight) {
        return;
    }
    let size = size_asked(bounds.has_weigher, capacity, store.member_count(), weight);
    let _refused = sketch.ensure_capacity(u64::from(sketch_capacity(size)));
}

// Whether the sketch is to come on.
fn is_due(sketch: &FrequencySketch, capacity: u64, policy: EvictionPolicy, weight: u128) -> bool
    ensures { result ≡ is_sketch_due (Some capacity) policy sketch.now weight }
{
    matches!(policy, EvictionPolicy::TinyLfu)
        && sketch.table_len() == 0
        && capacity != 0
        && u128::from(capacity / 2) <= weight
}

// The size that is asked for: the capacity; with a weigher the members times the part of the capacity that they take.
fn size_asked(has_weigher: bool, capacity: u64, members: usize, weight: u128) -> u64
    requires { 0 < capacity }
    ensures { result ≡ size_asked has_weigher capacity members weight }
{
    if !has_weigher {
        return capacity;
    }
    let held = (members as u128).saturating_mul(weight) / u128::from(capacity);
    held.min(u128::from(u64::MAX)) as u64
}
