//! What bounds a cache.
ghost use Rattle.std.specs.Prelude.{◌≡◌};
ghost use Rattle.moka_records.specs.Records.{has_room};

use moka_parts::policy::EvictionPolicy;

/// What bounds a cache, and how it chooses what to keep.
#[derive(Clone, Copy)]
pub struct Bounds {
    /// The greatest weight of all entries together, if there is one.
    pub capacity: Option<u64>,
    pub policy: EvictionPolicy,
    /// Whether entries weigh what a weigher says. Without one each weighs 1.
    pub has_weigher: bool,
}

impl Bounds {
    /// Whether so much more weight stays within the capacity, if there is one.
    pub(crate) fn has_room(self, total: u128, weight: u32) -> bool
        ensures { result ≡ has_room self.capacity total weight }
    {
        match self.capacity {
            Some(capacity) => {
                let capacity = u128::from(capacity);
                total <= capacity && u128::from(weight) <= capacity - total
            }
            None => true,
        }
    }
}
