//! Records by the places of their rows.
ghost use Rattle.std.specs.Prelude.{◌≡◌, ◌<◌, ℕ, Some, IfSome, IsSome};
ghost use Rattle.std.specs.FinMap as finite;

use super::Store;
use moka_records::record_ref::RecordRef;
use std::hash::{BuildHasher, Hash};

impl<K: Eq + Hash, V, S: BuildHasher> Store<K, V, S> {
    /// Each row's place is less than this, and each record has a row.
    pub fn place_count(&self) -> usize
        ensures places { (n place : ℕ) → finite.get self.now.places n ≡ Some place → place < result }
        ensures rowed { (n : ℕ) → IsSome (finite.get self.now.records n) → IsSome (finite.get self.now.places n) }
    {
        self.table.place_count()
    }

    /// The record at this place, if there is one.
    pub fn record_at(&self, place: usize) -> Option<RecordRef<'_, K, V>>
        ensures found { (n : ℕ) → finite.get self.now.places n ≡ Some place → result ≡ finite.get self.now.records n }
        ensures stored { IfSome result (λ r. finite.get self.now.records r.number ≡ Some r) }
    {
        self.table.record(place)
    }
}
