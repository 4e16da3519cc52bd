//! Records that are put back.
ghost use Rattle.std.specs.Prelude.{◌≡◌, ◌+◌, ◌^◌, ◌<◌, ◌≤◌, None};
ghost use Rattle.std.specs.FinMap as finite;
ghost use Rattle.moka_records.specs.Records.{record_of_key, with_record};
ghost use Rattle.moka_records.specs.declared.records.Operation.TheVariants.{Upsert};
ghost use Rattle.moka_store.specs.Hashing.{IsIndexHash};
ghost use Rattle.moka_inner.specs.Interior.{first_record, handing_out_inside};

use super::{Hashes, Inner, first_record};
use moka_maintenance::queued::PlacedWrite;
use moka_parts::calls::Ticket;
use moka_parts::policy::Instant;
use moka_parts::records::Operation;
use moka_store::Update;
use std::hash::{BuildHasher, Hash};

impl<K: Eq + Hash, V, S: BuildHasher> Inner<K, V, S> {
    /// Puts a new record into the map as `insert` does, which was last read at the moment `read` and may have been so
    /// at another moment than it was written. It takes no memory.
    #[inline(always)]
    pub fn restore(&mut self, key: K, hashes: Hashes, update: Update<V>, read: Instant) -> Ticket
        requires rows { 0 < self.old.kept.room }
        requires operations { 1 < self.old.operation_room }
        requires tickets { self.old.next_ticket + finite.len self.old.kept.records + 1 < 2 ^ 64 }
        requires fresh { record_of_key K.eq self.old.kept.records key ≡ None }
        requires hashed { IsIndexHash S.BuildHasher S.Hasher.Hasher self.old.kept.hasher (K.hash_input key) hashes.own }
        ensures ticket { result.0 ≡ self.old.next_ticket }
        ensures step { self.new ≡ record (handing_out_inside self.old
            (with_record self.old.kept.records
            (record (first_record self.old.next_number key hashes.hash update) { read = read }))
            (Upsert self.old.next_number 1 update.weight hashes.hash) self.new) {
              next_number = self.old.next_number + 1;
            } }
        ensures room { self.old.kept.room ≤ self.new.kept.room + 1 }
    {
        let Hashes { hash, own } = hashes;
        let number = self.next_number;
        let ticket = self.last_ticket + 1;
        let weight = update.weight;
        let mut stored = first_record(number, key, hash, update);
        stored.read = read;
        let handle = self.store.insert_new(stored, own);
        let place = handle.place;
        let operation = Operation::Upsert {
            number,
            generation: 1,
            weight,
            hash,
        };
        self.outstanding
            .hand_out(ticket, PlacedWrite { place, operation });
        self.next_number = number + 1;
        self.last_ticket = ticket;
        Ticket(ticket)
    }
}
