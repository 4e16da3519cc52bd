//! Reads of records that are found by a test of their keys.
ghost use Rattle.std.specs.Prelude.{◌≡◌, ◌++◌, ◌∷◌, [], Some, true, if◌then◌else◌, length, nat_lt};
ghost use Rattle.moka_parts.specs.Calls.{queue_length};
ghost use Rattle.moka_records.specs.declared.records.ReadOperation.TheVariants.{Hit};
ghost use Rattle.moka_store.specs.Hashing.{IsIndexHash};
ghost use Rattle.moka_inner.specs.ReadNumber.{IsReadNumber};

use super::Inner;
use moka_parts::key_test::KeyTest;
use moka_parts::records::ReadOperation;
use moka_store::IndexHash;
use std::hash::{BuildHasher, Hash};

impl<K: Eq + Hash, V, S: BuildHasher> Inner<K, V, S> {
    /// Queues a hit of the record of this number, whose key passes and which may have left the map since. Its place is
    /// looked up by the test, which comes with the hash of the keys that pass.
    // Inlined although it is rare: a call would have every hit store its test in memory.
    #[inline(always)]
    pub fn queue_hit_by<T: KeyTest<K>>(
        &mut self,
        sought: (&T, IndexHash),
        number: u64,
        hash: u64,
        renewed: bool,
    )
        requires hashed { (k : K) → T.passes sought.0.now k ≡ true
            → IsIndexHash S.BuildHasher S.Hasher.Hasher self.old.kept.hasher (K.hash_input k) sought.1 }
        requires known { (key : K) × (T.passes sought.0.now key ≡ true)
            × IsReadNumber K.eq self.old.kept.records self.old.outstanding self.old.writes
            self.old.next_number key number }
        ensures { self.new ≡ record self.old {
          reads = if nat_lt (length self.old.reads) queue_length
              then self.old.reads ++ Hit number hash renewed ∷ [] else self.old.reads;
        } }
    {
        let (test, own) = sought;
        let place = match self.store.find_by(test, own) {
            Some((handle, _)) => handle.place,
            None => 0,
        };
        let read = ReadOperation::Hit {
            number,
            hash,
            renewed,
        };
        self.queue_read(place, read);
    }
}
