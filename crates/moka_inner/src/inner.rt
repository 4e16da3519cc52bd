//! The map, the operations that wait, and both queues.
ghost use Rattle.std.specs.Prelude.{◌≡◌, ◌+◌, ◌^◌, ◌<◌, ◌≤◌, ◌↔◌, true, [], ◌∷◌, ◌++◌, None, Some, Ok, Err, OnOk, OnErr, IfOk, IsOk, if◌then◌else◌, length, nat_lt, option_map, slice_get};
ghost use Rattle.std.specs.Duration.{as_nanos};
ghost use Rattle.std.specs.FinMap as finite;
ghost use Rattle.moka_parts.specs.Calls.{queue_length};
ghost use Rattle.moka_records.specs.Records.{IsListOf, record_of_key, with_record};
ghost use Rattle.moka_parts.specs.Reads.{after_reads};
ghost use Rattle.moka_types.specs.declared.error.InsertError.TheVariants.{NumbersUsedUp};
ghost use Rattle.moka_records.specs.declared.records.Operation.{Operation};
ghost use Rattle.moka_records.specs.declared.records.Operation.TheVariants.{Upsert, Removal};
ghost use Rattle.moka_records.specs.declared.records.Record.{Record};
ghost use Rattle.moka_store.specs.Hashing.{IsIndexHash};
ghost use Rattle.moka_store.specs.Store.{ChangesRecord, ExpiresAsBefore, IsHandle};
ghost use Rattle.moka_table.specs.Updates.{updated};
ghost use Rattle.moka_maintenance.specs.Passes.{IsRan};
ghost use Rattle.moka_maintenance.specs.Admission.{ArePrepared};
ghost use Rattle.moka_maintenance.specs.Steps.{contents_with, stock_in};
ghost use Rattle.moka_maintenance.specs.Timers.{AreOnTime, HasNoneDue, KeepsTimers};
ghost use Rattle.moka_inner.specs.Interior.{IsReadLocated, first_record, handing_out_inside, nothing_inside};

use circular_buffer::HeapCircularBuffer;
use moka_maintenance::admission::{apply_reads, apply_writes};
use moka_maintenance::bounds::Bounds;
use moka_maintenance::passes::{Ran, Terms, make_passes};
use moka_maintenance::queued::{PlacedWrite, QueuedRead, QueuedWrite};
use moka_maintenance::sketch::enable_frequency_sketch;
use moka_parts::calls::Ticket;
use moka_parts::closures::PredicateFn;
use moka_parts::error::{InsertError, SendError};
use moka_parts::housekeeper::Clock;
use moka_parts::invalidator::Invalidator;
use moka_parts::notification::{Listener, RemovalNotifier};
use moka_parts::policy::Instant;
use moka_parts::records::{Operation, ReadOperation, Record};
use moka_sketch::frequency_sketch::FrequencySketch;
use moka_store::{Handle, IndexHash, MAX_PLACES, Store, Update};
use moka_structures::outstanding::Outstanding;
use std::alloc::{AllocError, Global};
use std::hash::{BuildHasher, Hash};
use std::marker::Model;

mod by_key_test;
mod restores;

// How many operations and how many reads can be queued. moka: `WRITE_LOG_SIZE`, `READ_LOG_SIZE`.
const QUEUE_SIZE: usize = 384;

/// What an inner part keeps beside its records, and for how many of them it has room at first.
#[derive(Clone, Copy)]
pub struct Layout {
    pub initial_capacity: usize,
    /// Whether it keeps the order of writing.
    pub ordered: bool,
    /// Whether it keeps timers.
    pub timed: bool,
}

/// The hash of a key that a caller hands in, and that under which the map has the key.
#[derive(Clone, Copy)]
pub struct Hashes {
    pub hash: u64,
    pub own: IndexHash,
}

/// The inner part of the cache. moka: `sync::base_cache::Inner`.
pub struct Inner<K: Eq + Hash, V, S: BuildHasher> {
    store: Store<K, V, S>,
    // How often hashes were seen lately, once it is on.
    sketch: FrequencySketch,
    outstanding: Outstanding<PlacedWrite>,
    writes: HeapCircularBuffer<QueuedWrite>,
    reads: HeapCircularBuffer<QueuedRead>,
    // The ticket that was handed out last: the next one may be above the greatest number.
    last_ticket: u64,
    next_number: u64,
}

// Written out so that a caller's drop is one call.
impl<K: Eq + Hash + Drop, V: Drop, S: BuildHasher + Drop> Drop for Inner<K, V, S> {
    fn drop(self) {
        let Inner {
            store: _,
            sketch: _,
            outstanding: _,
            writes: _,
            reads: _,
            last_ticket: _,
            next_number: _,
        } = self;
    }
}

impl<K: Eq + Hash, V, S: BuildHasher> Model for Inner<K, V, S> {
    ghost use Rattle.std.specs.Prelude.{◌+◌, ◌-◌};
    ghost use Rattle.std.specs.Coded.{codes, coded_ℕ};
    ghost use Rattle.std.specs.FinMap as finite;
    ghost use Rattle.moka_maintenance.specs.Queued.{writes_of, reads_of};
    ghost use Rattle.moka_inner.specs.Interior.{Interior, operations_of};

    ghost Value = { Interior K V S };

    ghost coded = { Prim.hlevel (codes, finite.code, coded_ℕ, K.code, V.code, S.code) };

    ghost use Rattle.moka_inner.specs.Inner.{IsInner};

    ghost view = { λ a. record {
      kept = a.store;
      sketch = a.sketch;
      outstanding = operations_of a.outstanding.items;
      writes = writes_of a.writes.items;
      reads = reads_of a.reads.items;
      next_ticket = a.last_ticket + 1;
      next_number = a.next_number;
      operation_room = a.outstanding.room - finite.len a.store.records;
    } };

    ghost invariant = { λ a. IsInner a.store a.outstanding a.writes a.reads (a.last_ticket + 1) a.next_number };
}

impl<K: Eq + Hash, V, S: BuildHasher> Inner<K, V, S> {
    /// An inner part with no records, laid out like this, whose first ticket is `first_ticket`.
    pub fn new(
        alloc: Global,
        hasher: S,
        first_ticket: u64,
        layout: Layout,
    ) -> Result<Self, AllocError>
    where
        K: Drop,
        V: Drop,
        S: Drop,
        requires { 1 ≤ first_ticket }
        ensures hasher { IfOk result (λ i. i.kept.hasher ≡ hasher) }
        ensures empty { IfOk result (λ i. i ≡ nothing_inside layout.ordered layout.timed first_ticket i) }
        ensures room { IfOk result (λ i. layout.initial_capacity ≤ i.kept.room) }
    {
        let mut store = Store::new(alloc, hasher, layout.ordered, layout.timed)?;
        store.reserve(layout.initial_capacity)?;
        let sketch = FrequencySketch::new(alloc)?;
        let outstanding = Outstanding::new(alloc)?;
        let writes = HeapCircularBuffer::with_capacity(alloc, QUEUE_SIZE)?;
        let reads = HeapCircularBuffer::with_capacity(alloc, QUEUE_SIZE)?;
        Ok(Inner {
            store,
            sketch,
            outstanding,
            writes,
            reads,
            last_ticket: first_ticket - 1,
            next_number: 1,
        })
    }

    /// What always holds of the order of writing, if that is kept. It does nothing when it runs.
    pub fn invariant_holds(&self)
        ensures { self.now.kept.ordered ≡ true → IsListOf self.now.kept.access self.now.kept.written }
    {
        self.store.invariant_holds();
    }

    /// The store, for look-ups.
    #[inline(always)]
    pub fn store(&self) -> &Store<K, V, S>
        ensures { result.now ≡ self.now.kept }
    {
        &self.store
    }

    /// The hash under which the store has a key, or would have it.
    #[inline(always)]
    pub fn index_hash(&self, key: &K) -> IndexHash
        ensures { IsIndexHash S.BuildHasher S.Hasher.Hasher self.now.kept.hasher (K.hash_input key.now) result }
    {
        IndexHash::of(self.store.hash(key))
    }

    /// Makes room for one more record with its operation and its removal, and changes nothing if there is room.
    #[inline(always)]
    pub fn reserve_record(&mut self) -> Result<(), InsertError>
        ensures used_up { (result ≡ Err NumbersUsedUp) ↔
            (2 ^ 64 ≤ self.old.next_ticket + finite.len self.old.kept.records + 1) }
        ensures rows { OnOk result (0 < self.new.kept.room) }
        ensures operations { OnOk result (1 < self.new.operation_room) }
        ensures succeeds { 0 < self.old.kept.room → 1 < self.old.operation_room
            → self.old.next_ticket + finite.len self.old.kept.records + 1 < 2 ^ 64 → IsOk result }
        ensures enough { 0 < self.old.kept.room → 1 < self.old.operation_room → self.new ≡ self.old }
        ensures rest { self.new ≡ record self.old {
          kept = record self.old.kept { room = self.new.kept.room };
          operation_room = self.new.operation_room;
        } }
    {
        if !self.has_tickets(1) {
            return Err(InsertError::NumbersUsedUp);
        }
        if self.store.reserve(1).is_err() {
            return Err(InsertError::OutOfMemory);
        }
        self.reserve_operations(2)
    }

    /// Makes room for one more operation, and changes nothing if there is room.
    #[inline(always)]
    pub fn reserve_operation(&mut self) -> Result<(), InsertError>
        ensures used_up { (result ≡ Err NumbersUsedUp) ↔
            (2 ^ 64 ≤ self.old.next_ticket + finite.len self.old.kept.records) }
        ensures operations { OnOk result (0 < self.new.operation_room) }
        ensures succeeds { 0 < self.old.operation_room
            → self.old.next_ticket + finite.len self.old.kept.records < 2 ^ 64 → IsOk result }
        ensures enough { 0 < self.old.operation_room → self.new ≡ self.old }
        ensures rest { self.new ≡ record self.old { operation_room = self.new.operation_room } }
    {
        if !self.has_tickets(0) {
            return Err(InsertError::NumbersUsedUp);
        }
        self.reserve_operations(1)
    }

    // Makes room for so many more operations, if the tickets last for them.
    #[inline(always)]
    fn reserve_operations(&mut self, additional: usize) -> Result<(), InsertError>
        requires tickets { self.old.next_ticket + finite.len self.old.kept.records + additional ≤ 2 ^ 64 }
        ensures room { OnOk result (additional ≤ self.new.operation_room) }
        ensures succeeds { additional ≤ self.old.operation_room → IsOk result }
        ensures enough { additional ≤ self.old.operation_room → self.new ≡ self.old }
        ensures tickets_last { result ≡ Err NumbersUsedUp → ⊥ }
        ensures rest { self.new ≡ record self.old { operation_room = self.new.operation_room } }
    {
        let records = self.store.record_count();
        if self.outstanding.reserve(records + additional).is_err() {
            return Err(InsertError::OutOfMemory);
        }
        Ok(())
    }

    // Whether one more ticket and a ticket for the removal of each record are left, with so many more records.
    #[inline(always)]
    fn has_tickets(&self, more: u64) -> bool
        ensures { result ≡ nat_lt (self.now.next_ticket + finite.len self.now.kept.records + more) (2 ^ 64) }
    {
        u64::MAX - self.last_ticket - self.store.record_count() as u64 > more
    }

    /// Puts a new record into the map under its key's hash there, and hands its upsert, with the hash of the call, out
    /// under the next ticket. It takes no memory.
    #[inline(always)]
    pub fn insert(&mut self, key: K, hashes: Hashes, update: Update<V>) -> Ticket
        requires rows { 0 < self.old.kept.room }
        requires operations { 1 < self.old.operation_room }
        requires tickets { self.old.next_ticket + finite.len self.old.kept.records + 1 < 2 ^ 64 }
        requires fresh { record_of_key K.eq self.old.kept.records key ≡ None }
        requires hashed { IsIndexHash S.BuildHasher S.Hasher.Hasher self.old.kept.hasher (K.hash_input key) hashes.own }
        ensures ticket { result.0 ≡ self.old.next_ticket }
        ensures step { self.new ≡ record (handing_out_inside self.old
            (with_record self.old.kept.records (first_record self.old.next_number key hashes.hash update))
            (Upsert self.old.next_number 1 update.weight hashes.hash) self.new) {
              next_number = self.old.next_number + 1;
            } }
        ensures room { self.old.kept.room ≤ self.new.kept.room + 1 }
    {
        let read = update.now;
        self.restore(key, hashes, update, read)
    }

    /// Gives the record at this handle a new value, and hands its upsert out under the next ticket. The answer is the
    /// old value with the ticket. It takes no memory.
    #[inline(always)]
    pub fn update(&mut self, handle: Handle, hash: u64, update: Update<V>) -> (V, Ticket)
        requires operations { 0 < self.old.operation_room }
        requires tickets { self.old.next_ticket + finite.len self.old.kept.records < 2 ^ 64 }
        requires handle { IsHandle self.old.kept handle }
        ensures ticket { result.1.0 ≡ self.old.next_ticket }
        ensures value { (r : Record K V) → finite.get self.old.kept.records handle.number ≡ Some r
            → result.0 ≡ r.value }
        ensures step { (r : Record K V) → finite.get self.old.kept.records handle.number ≡ Some r
            → self.new ≡ handing_out_inside self.old
            (finite.insert self.old.kept.records handle.number (updated update r))
            (Upsert handle.number (r.generation + 1) update.weight hash) self.new }
    {
        let ticket = self.last_ticket + 1;
        let Some(found) = self.store.find(handle) else {
            unreachable!()
        };
        let Handle { number, place } = handle;
        let operation = Operation::Upsert {
            number,
            generation: found.generation() + 1,
            weight: update.weight,
            hash,
        };
        let old = self.store.update(handle, update);
        self.outstanding
            .hand_out(ticket, PlacedWrite { place, operation });
        self.last_ticket = ticket;
        (old, Ticket(ticket))
    }

    /// Takes the record at this handle out of the map, where it is under the hash of its key, and hands its removal out
    /// under the next ticket. It takes no memory. The member stays until the removal is applied.
    pub fn remove(&mut self, handle: Handle, hash: IndexHash) -> (Record<K, V>, Ticket)
    where
        K: Drop,
        requires handle { IsHandle self.old.kept handle }
        requires hashed { (r : Record K V) → finite.get self.old.kept.records handle.number ≡ Some r
            → IsIndexHash S.BuildHasher S.Hasher.Hasher self.old.kept.hasher (K.hash_input r.key) hash }
        ensures ticket { result.1.0 ≡ self.old.next_ticket }
        ensures taken { finite.get self.old.kept.records handle.number ≡ Some result.0 }
        ensures step { self.new ≡ handing_out_inside self.old
            (finite.remove self.old.kept.records handle.number)
            (Removal handle.number (result.0.generation + 1)) self.new }
    {
        let ticket = self.last_ticket + 1;
        let record = self.store.take_record(handle, hash);
        let Handle { number, place } = handle;
        let operation = Operation::Removal {
            number,
            generation: record.generation + 1,
        };
        self.outstanding
            .hand_out(ticket, PlacedWrite { place, operation });
        self.last_ticket = ticket;
        (record, Ticket(ticket))
    }

    /// Moves the operation of this ticket to the back of the queue of writes.
    #[inline(always)]
    pub fn send(&mut self, ticket: Ticket) -> Result<(), SendError>
        ensures unknown { (result ≡ Err SendError.UnknownTicket) ↔ (finite.get self.old.outstanding ticket.0 ≡ None) }
        ensures full { result ≡ Err SendError.QueueFull → queue_length ≤ length self.old.writes }
        ensures room { OnOk result (length self.old.writes < queue_length) }
        ensures ok { OnOk result ((o : Operation) × (finite.get self.old.outstanding ticket.0 ≡ Some o)
            × (self.new ≡ record self.old {
              outstanding = finite.remove self.old.outstanding ticket.0;
              writes = self.old.writes ++ record { ticket = ticket.0; operation = o } ∷ [];
              operation_room = self.new.operation_room;
            })) }
        ensures err { OnErr result (self.new ≡ record self.old { operation_room = self.new.operation_room }) }
    {
        let ticket = ticket.0;
        if self.writes.is_full() {
            if self.outstanding.contains(ticket) {
                return Err(SendError::QueueFull);
            }
            return Err(SendError::UnknownTicket);
        }
        let Some(write) = self.outstanding.take(ticket) else {
            return Err(SendError::UnknownTicket);
        };
        match self.writes.try_push_back(QueuedWrite { ticket, write }) {
            Ok(()) => Ok(()),
            Err(_) => unreachable!(),
        }
    }

    /// Notes that the record at this handle was read at this moment, and when it expires since then: as before, unless
    /// the read renewed it.
    #[inline(always)]
    pub fn touch(
        &mut self,
        handle: Handle,
        read: Instant,
        expires: Option<Instant>,
        is_renewed: bool,
    )
        requires handle { IsHandle self.old.kept handle }
        requires kept { ExpiresAsBefore self.old.kept handle.number expires is_renewed }
        ensures step { ChangesRecord handle.number (λ r. record r { read = read; expires = expires })
            self.old.kept self.new.kept }
        ensures rest { self.new ≡ record self.old { kept = self.new.kept } }
    {
        self.store.touch(handle, read, expires, is_renewed);
    }

    /// Queues a read, or drops it if the queue is full.
    #[inline(always)]
    pub fn queue_read(&mut self, place: usize, read: ReadOperation)
        requires { IsReadLocated self.old.kept.places self.old.next_number place read }
        ensures { self.new ≡ record self.old {
          reads = if nat_lt (length self.old.reads) queue_length
              then self.old.reads ++ read ∷ [] else self.old.reads;
        } }
    {
        self.store.invariant_holds();
        // A row's place has 32 bits.
        let place = (place % MAX_PLACES) as u32;
        let _full = self.reads.try_push_back(QueuedRead::new(read, place));
    }

    /// Applies all queued reads, and then all queued writes in order. Then the sketch comes on if it is due.
    #[inline(always)]
    pub fn apply_queues<L: Listener<K, V>>(
        &mut self,
        notifier: &mut RemovalNotifier<L>,
        bounds: Bounds,
    )
    where
        K: Drop,
        V: Drop,
        ensures prepared { ArePrepared L.tells bounds.capacity bounds.policy self.old.kept.ordered bounds.has_weigher
            (after_reads (contents_with self.old.sketch self.old.kept) self.old.reads)
            (contents_with self.new.sketch self.new.kept)
            self.old.kept.written self.new.kept.written self.old.writes notifier.old notifier.new }
        ensures timers { KeepsTimers self.old.kept self.new.kept }
        ensures rest { self.new ≡ record self.old {
          kept = self.new.kept;
          sketch = self.new.sketch;
          writes = [];
          reads = [];
          operation_room = self.new.operation_room;
        } }
    {
        let (store, sketch) = (&mut self.store, &mut self.sketch);
        apply_reads(store, sketch, &mut self.reads);
        apply_writes(store, sketch, notifier, bounds, &mut self.writes);
        enable_frequency_sketch(store, sketch, bounds);
    }

    /// Removes what the tests find and what registered predicates cover, in passes of at most a batch of turns a step,
    /// until the limit is up.
    #[inline(always)]
    pub fn make_passes<L: Listener<K, V>, P: PredicateFn<K, V>, C: Clock>(
        &mut self,
        notifier: &mut RemovalNotifier<L>,
        invalidator: &mut Invalidator<P>,
        clock: &mut C,
        terms: Terms,
    ) -> Ran
    where
        K: Drop,
        V: Drop,
        P: Drop,
        ensures ran { IsRan L.tells P.says terms.tests C.reads (option_map as_nanos terms.limit)
            terms.batch self.old.kept.ordered (AreOnTime self.old.kept)
            invalidator.old invalidator.new (stock_in self.old.kept) (stock_in self.new.kept) notifier.old notifier.new
            clock.old clock.new result.passes result.has_more }
        ensures none { HasNoneDue terms.tests.now.0 self.new.kept }
        ensures timers { KeepsTimers self.old.kept self.new.kept }
        ensures rest { self.new ≡ record self.old { kept = self.new.kept; operation_room = self.new.operation_room } }
    {
        make_passes(&mut self.store, notifier, invalidator, clock, terms)
    }

    /// How many operations were handed out and not sent.
    pub fn outstanding_count(&self) -> usize
        ensures { result ≡ finite.len self.now.outstanding }
    {
        self.outstanding.len()
    }

    /// The least ticket of these.
    pub fn oldest_outstanding(&self) -> Option<Ticket>
        ensures { option_map (λ t. t.0) result ≡ slice_get (finite.keys self.now.outstanding) 0 }
    {
        let ticket = self.outstanding.oldest()?;
        Some(Ticket(ticket))
    }

    /// How many operations are queued.
    pub fn write_count(&self) -> usize
        ensures { result ≡ length self.now.writes }
    {
        self.writes.len()
    }

    /// How many reads are queued.
    pub fn read_count(&self) -> usize
        ensures { result ≡ length self.now.reads }
    {
        self.reads.len()
    }
}

// The first record of a key.
fn first_record<K, V>(number: u64, key: K, hash: u64, update: Update<V>) -> Record<K, V>
    ensures { result ≡ first_record number key hash update }
{
    Record {
        number,
        key,
        hash,
        value: update.value,
        written: update.now,
        read: update.now,
        expires: update.expires,
        weight: update.weight,
        generation: 1,
        applied: 0,
    }
}
