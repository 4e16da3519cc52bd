//! Records by tests of their keys, and hashes of what is not a key.
ghost use Rattle.std.specs.Prelude.{◌≡◌, IfSome, Some, true, option_map};
ghost use Rattle.std.specs.FinMap as finite;
ghost use Rattle.moka_records.specs.Hashing.{key_hash};
ghost use Rattle.moka_records.specs.KeyTests.{record_by};
ghost use Rattle.moka_store.specs.Hashing.{IsIndexHash};
ghost use Rattle.moka_store.specs.Store.{IsHandle, IsOneEach};
ghost use Rattle.moka_store.specs.Rows.{passes_at};

use super::{Handle, IndexHash, Store, changes};
use moka_records::key_test::KeyTest;
use moka_records::record_ref::RecordRef;
use moka_table::RecordTable;
use std::hash::{BuildHasher, Hash};

// Whether the key of the record at this place passes.
#[inline(always)]
fn is_key_at<K: Eq + Hash, V, T: KeyTest<K>>(
    table: &RecordTable<K, V>,
    place: usize,
    test: &T,
) -> bool
    ensures { result ≡ passes_at (T.passes test.now) table.now.rows place }
{
    matches!(table.key(place), Some(own) if test.is_key(own))
}

impl<K: Eq + Hash, V, S: BuildHasher> Store<K, V, S> {
    /// The hash of a form of a key by the store's hasher.
    #[inline(always)]
    pub fn hash_of<Q: Hash>(&self, form: &Q) -> u64
        ensures { result ≡ key_hash S.BuildHasher S.Hasher.Hasher self.now.hasher (Q.hash_input form.now) }
    {
        self.hasher.hash_one(form)
    }

    /// The record whose key passes, with its handle, under the hash of the keys that do.
    #[inline(always)]
    pub fn find_by<T: KeyTest<K>>(
        &self,
        test: &T,
        hash: IndexHash,
    ) -> Option<(Handle, RecordRef<'_, K, V>)>
        requires hashed { (k : K) → T.passes test.now k ≡ true
            → IsIndexHash S.BuildHasher S.Hasher.Hasher self.now.hasher (K.hash_input k) hash }
        ensures handle { IfSome result (λ f. IsHandle self.now f.0) }
        ensures found { IfSome result (λ f. finite.get self.now.records f.0.number ≡ Some f.1) }
        ensures passes { IfSome result (λ f. T.passes test.now f.1.key ≡ true) }
        ensures value { option_map (λ f. f.1) result ≡ record_by (T.passes test.now) self.now.records }
        ensures one_each { IsOneEach K.eq self.now.records }
    {
        let table = &self.table;
        let is_match = |place| is_key_at(table, place, test);
        let place = self.index.find(hash.0, is_match)?;
        Some(changes::live_at(table, place))
    }
}
