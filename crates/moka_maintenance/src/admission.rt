//! What queued reads and writes make of the records and their order.
//!
//! moka: `sync::base_cache::Inner::apply_reads`, `Inner::apply_writes`, `Inner::handle_upsert`.
ghost use Rattle.std.specs.Prelude.{◌≡◌, ◌<◌, ℕ, true, [], Some, Contains};
ghost use Rattle.std.specs.FinMap as finite;
ghost use Rattle.circular_buffer.specs.Buffer.{buffer};
ghost use Rattle.moka_records.specs.declared.records.Operation.TheVariants.{Removal};
ghost use Rattle.moka_records.specs.declared.records.Record.{Record};
ghost use Rattle.moka_records.specs.Records.{entered_by, to_back, without_member, number_to_back, without_number};
ghost use Rattle.moka_parts.specs.Reads.{after_read, after_reads};
ghost use Rattle.moka_parts.specs.Settling.{number_of};
ghost use Rattle.moka_parts.specs.Writes.{entered, rejected, left_by_rejection};
ghost use Rattle.moka_store.specs.Store.{IsPlaced, IsHandle, cursor_past};
ghost use Rattle.moka_maintenance.specs.declared.queued.QueuedRead.{QueuedRead};
ghost use Rattle.moka_maintenance.specs.declared.queued.QueuedWrite.{QueuedWrite};
ghost use Rattle.moka_maintenance.specs.Queued.{IsAt, IsReadAt, IsRenewed, IsRenewedBy, counted_all, read_of, reads_of, writes_of};
ghost use Rattle.moka_maintenance.specs.Handles.{IsOutside};
ghost use Rattle.moka_maintenance.specs.Admission.{AppliesReads, AppliesUpsert, AppliesWrite, AppliesWrites, IsCompared, LeavesNoRowAfter};
ghost use Rattle.moka_maintenance.specs.Steps.{contents_in, contents_with, Told};
ghost use Rattle.moka_maintenance.specs.Timers.{StandsAtExpiry, Serves};
ghost use Rattle.moka_maintenance.specs.Upkeep.{Upkeep};

use crate::bounds::Bounds;
use crate::choice::{choose, expel_front};
use crate::expel::expel;
use crate::queued::{Outcome, PlacedWrite, QueuedRead, QueuedWrite};
use circular_buffer::HeapCircularBuffer;
use moka_parts::notification::{Listener, RemovalCause, RemovalNotifier};
use moka_parts::policy::EvictionPolicy;
use moka_parts::records::Operation;
use moka_sketch::frequency_sketch::FrequencySketch;
use moka_store::{Handle, Store};
use std::hash::{BuildHasher, Hash};

// How many reads have their nodes read before they are applied.
const READS_AHEAD: usize = 16;

// An upsert, with the row of its record.
#[derive(Clone, Copy)]
struct PlacedUpsert {
    handle: Handle,
    generation: u64,
    weight: u32,
    hash: u64,
}

/// Applies all queued reads, in order. moka: `sync::base_cache::Inner::apply_reads`.
pub fn apply_reads<K: Eq + Hash, V, S: BuildHasher>(
    store: &mut Store<K, V, S>,
    sketch: &mut FrequencySketch,
    reads: &mut HeapCircularBuffer<QueuedRead>,
)
    requires located { (q : QueuedRead) → Contains reads.old.items q →
        IsReadAt store.old.places q.place (read_of q) }
    ensures applied { contents_with sketch.new store.new ≡ after_reads (contents_with sketch.old store.old)
        (reads_of reads.old.items) }
    ensures served { Serves (IsRenewedBy reads.old.items) store.old store.new }
    ensures reads { reads.new ≡ buffer [] reads.old.capacity }
{
    // The queue is gone through where it lies and emptied at once, so that the next reads lie there again.
    let (first, second) = reads.as_slices();
    count_reads(sketch, first);
    count_reads(sketch, second);
    apply_all_reads(store, first);
    apply_all_reads(store, second);
    reads.clear();
}

// Counts the hash of each of these reads, if the sketch is on.
fn count_reads(sketch: &mut FrequencySketch, reads: &[QueuedRead])
    ensures { sketch.new ≡ counted_all sketch.old reads.now }
{
    if sketch.table_len() == 0 {
        return;
    }
    for read in reads {
        sketch.increment(read.hash);
    }
}

// Makes of the store what these reads do, in order: all at once or, where nodes lie far away, a few at a time.
fn apply_all_reads<K: Eq + Hash, V, S: BuildHasher>(
    store: &mut Store<K, V, S>,
    reads: &[QueuedRead],
)
    requires located { (q : QueuedRead) → Contains reads.now q → IsReadAt store.old.places q.place (read_of q) }
    ensures { AppliesReads reads.now store.old store.new }
{
    let few = if store.is_far() {
        READS_AHEAD
    } else {
        usize::MAX
    };
    let mut rest = reads;
    while !rest.is_empty() {
        let (some, behind) = rest.split_at(few.min(rest.len()));
        read_nodes(store, some);
        apply_each_read(store, some);
        rest = behind;
    }
}

// Reads the nodes that these reads move, where they lie far away, so that their lines of memory are fetched side by
// side.
fn read_nodes<K: Eq + Hash, V, S: BuildHasher>(store: &mut Store<K, V, S>, reads: &[QueuedRead])
    ensures { store.new ≡ store.old }
{
    if !store.is_far() {
        return;
    }
    for read in reads {
        store.read_node(read.place as usize);
    }
}

// Makes of the store what these reads do, in order.
#[inline(never)]
fn apply_each_read<K: Eq + Hash, V, S: BuildHasher>(
    store: &mut Store<K, V, S>,
    reads: &[QueuedRead],
)
    requires located { (q : QueuedRead) → Contains reads.now q → IsReadAt store.old.places q.place (read_of q) }
    ensures { AppliesReads reads.now store.old store.new }
{
    for read in reads {
        apply_read(store, *read);
    }
}

// Makes of the store what a read does: the member of a record in the map comes to the back. If the read renewed the
// expiry, the timer is set again.
fn apply_read<K: Eq + Hash, V, S: BuildHasher>(store: &mut Store<K, V, S>, queued: QueuedRead)
    requires { IsReadAt store.old.places queued.place (read_of queued) }
    ensures applied { contents_in store.new ≡ after_read (contents_in store.old) (read_of queued) }
    ensures served { Serves (IsRenewed (read_of queued)) store.old store.new }
{
    let is_renewed = match queued.outcome {
        Outcome::Hit => false,
        Outcome::Renewal => true,
        Outcome::Miss => return,
    };
    let (number, place) = (queued.number, queued.place as usize);
    let handle = Handle { number, place };
    store.invariant_holds();
    if store.find(handle).is_some() {
        move_after_read(store, handle, is_renewed);
    }
}

/// Applies all queued writes, in order. moka: `sync::base_cache::Inner::apply_writes`.
pub fn apply_writes<K: Eq + Hash + Drop, V: Drop, S: BuildHasher, L: Listener<K, V>>(
    store: &mut Store<K, V, S>,
    sketch: &FrequencySketch,
    notifier: &mut RemovalNotifier<L>,
    bounds: Bounds,
    writes: &mut HeapCircularBuffer<QueuedWrite>,
)
    requires located { (q : QueuedWrite) → Contains writes.old.items q →
        IsAt store.old.places (number_of q.write.operation) q.write.place }
    ensures applied { AppliesWrites L.tells bounds sketch.now store.old store.new (writes_of writes.old.items)
        notifier.old notifier.new }
    ensures writes { writes.new ≡ buffer [] writes.old.capacity }
{
    let (first, second) = writes.as_slices();
    apply_each_write(store, sketch, notifier, bounds, first);
    apply_each_write(store, sketch, notifier, bounds, second);
    writes.clear();
}

// Applies these writes, in order.
fn apply_each_write<K: Eq + Hash + Drop, V: Drop, S: BuildHasher, L: Listener<K, V>>(
    store: &mut Store<K, V, S>,
    sketch: &FrequencySketch,
    notifier: &mut RemovalNotifier<L>,
    bounds: Bounds,
    writes: &[QueuedWrite],
)
    requires located { (q : QueuedWrite) → Contains writes.now q →
        IsAt store.old.places (number_of q.write.operation) q.write.place }
    ensures { AppliesWrites L.tells bounds sketch.now store.old store.new (writes_of writes.now)
        notifier.old notifier.new }
{
    for sent in writes {
        apply_write(store, sketch, notifier, bounds, sent.write);
    }
}

// Applies a queued write.
fn apply_write<K: Eq + Hash + Drop, V: Drop, S: BuildHasher, L: Listener<K, V>>(
    store: &mut Store<K, V, S>,
    sketch: &FrequencySketch,
    notifier: &mut RemovalNotifier<L>,
    bounds: Bounds,
    write: PlacedWrite,
)
    requires { IsAt store.old.places (number_of write.operation) write.place }
    ensures { AppliesWrite L.tells bounds sketch.now store.old store.new write.operation notifier.old notifier.new }
{
    let place = write.place;
    match write.operation {
        Operation::Upsert {
            number,
            generation,
            weight,
            hash,
        } => {
            let upsert = PlacedUpsert {
                handle: Handle { number, place },
                generation,
                weight,
                hash,
            };
            apply_upsert(store, sketch, notifier, bounds, upsert);
        }
        Operation::Removal { number, .. } => apply_removal(store, Handle { number, place }),
    }
}

// Applies an upsert. What is newer than all that its record has seen is admitted or rejected; else the member comes to
// the back of both orders.
fn apply_upsert<K: Eq + Hash + Drop, V: Drop, S: BuildHasher, L: Listener<K, V>>(
    store: &mut Store<K, V, S>,
    sketch: &FrequencySketch,
    notifier: &mut RemovalNotifier<L>,
    bounds: Bounds,
    upsert: PlacedUpsert,
)
    requires { IsAt store.old.places upsert.handle.number upsert.handle.place }
    ensures { AppliesUpsert L.tells bounds sketch.now store.old store.new upsert notifier.old notifier.new }
{
    let handle = upsert.handle;
    store.invariant_holds();
    let Some(found) = store.find(handle) else {
        return;
    };
    if found.applied() >= upsert.generation {
        move_to_back(store, handle);
    } else if store.is_member(handle) {
        store.set_applied(handle, upsert.generation);
        store.recount(handle, upsert.weight);
        store.set_timer(handle);
    } else {
        admit_or_reject(store, sketch, notifier, bounds, upsert);
    }
}

// A record outside the access list enters it or is rejected. Without room for it the policy decides, unless it alone is
// heavier than the capacity.
fn admit_or_reject<K: Eq + Hash + Drop, V: Drop, S: BuildHasher, L: Listener<K, V>>(
    store: &mut Store<K, V, S>,
    sketch: &FrequencySketch,
    notifier: &mut RemovalNotifier<L>,
    bounds: Bounds,
    upsert: PlacedUpsert,
)
    requires outside { IsOutside store.old upsert.handle }
    requires newer { (r : Record K V) → finite.get store.old.records upsert.handle.number ≡ Some r
        → r.applied < upsert.generation }
    ensures { AppliesUpsert L.tells bounds sketch.now store.old store.new upsert notifier.old notifier.new }
{
    if bounds.has_room(store.total_weight(), upsert.weight) {
        enter(store, upsert);
    } else if !bounds.has_room(0, upsert.weight) {
        reject(store, notifier, upsert.handle, upsert.generation);
    } else {
        match bounds.policy {
            // The least recently used will leave for it.
            EvictionPolicy::Lru => enter(store, upsert),
            EvictionPolicy::TinyLfu => compare(store, sketch, notifier, upsert),
        }
    }
}

// TinyLFU admits a candidate that was seen more often than its victims, which leave, and rejects another.
fn compare<K: Eq + Hash + Drop, V: Drop, S: BuildHasher, L: Listener<K, V>>(
    store: &mut Store<K, V, S>,
    sketch: &FrequencySketch,
    notifier: &mut RemovalNotifier<L>,
    candidate: PlacedUpsert,
)
    requires { IsOutside store.old candidate.handle }
    ensures compared { (r : Record K V) → finite.get store.old.records candidate.handle.number ≡ Some r →
        IsCompared L.tells store.old.ordered (contents_with sketch.now store.old) (contents_with sketch.now store.new)
        store.old.written store.new.written candidate.handle.number candidate.generation
        candidate.weight candidate.hash r
        notifier.old notifier.new }
    ensures upkeep { Upkeep store.old store.new }
{
    let chosen = choose(store, sketch, candidate.weight, candidate.hash);
    if chosen.is_preferred {
        expel_front(store, notifier, chosen.victims);
        enter(store, candidate);
    } else {
        reject(store, notifier, candidate.handle, candidate.generation);
    }
}

// The record has seen the operation, and enters both orders with its timer.
#[inline(always)]
fn enter<K: Eq + Hash, V, S: BuildHasher>(store: &mut Store<K, V, S>, upsert: PlacedUpsert)
    requires outside { IsOutside store.old upsert.handle }
    ensures step { (r : Record K V) → finite.get store.old.records upsert.handle.number ≡ Some r →
        contents_in store.new ≡ entered upsert.handle.number upsert.generation upsert.weight r (contents_in store.old) }
    ensures written { store.new.written ≡ entered_by store.old.ordered upsert.handle.number store.old.written }
    ensures upkeep { Upkeep store.old store.new }
    ensures places { store.new.places ≡ store.old.places }
{
    store.set_applied(upsert.handle, upsert.generation);
    store.admit(upsert.handle, upsert.weight);
    store.set_timer(upsert.handle);
}

// The record is not kept: it leaves the map, unless it was updated since.
fn reject<K: Eq + Hash + Drop, V: Drop, S: BuildHasher, L: Listener<K, V>>(
    store: &mut Store<K, V, S>,
    notifier: &mut RemovalNotifier<L>,
    handle: Handle,
    generation: u64,
)
    requires outside { IsOutside store.old handle }
    ensures step { (r : Record K V) → finite.get store.old.records handle.number ≡ Some r
        → contents_in store.new ≡ rejected handle.number generation r (contents_in store.old) }
    ensures told { (r : Record K V) → finite.get store.old.records handle.number ≡ Some r
        → Told L.tells notifier.old (left_by_rejection generation r) notifier.new }
    ensures written { store.old.ordered ≡ true → store.new.written ≡ store.old.written }
    ensures upkeep { Upkeep store.old store.new }
{
    store.invariant_holds();
    let Some(present) = store.find(handle) else {
        unreachable!()
    };
    if present.generation() == generation {
        expel(store, notifier, handle, RemovalCause::Size);
    } else {
        store.set_applied(handle, generation);
    }
}

// The member of this number, if there is one, comes to the back of both orders, and its timer is set again.
fn move_to_back<K: Eq + Hash, V, S: BuildHasher>(store: &mut Store<K, V, S>, handle: Handle)
    requires { IsHandle store.old handle }
    ensures step { store.new ≡ record store.old {
      access = to_back handle.number store.old.access;
      written = number_to_back handle.number store.old.written;
      timers = store.new.timers;
      cursor = cursor_past handle.number store.old.written store.old.cursor;
    } }
    ensures timer { StandsAtExpiry handle.number store.new }
    ensures upkeep { Upkeep store.old store.new }
{
    if store.is_member(handle) {
        store.move_to_back(handle);
        store.set_timer(handle);
    }
}

// The member of this number, if there is one, comes to the back of the access list alone. Its timer is set again if
// the read renewed its expiry.
fn move_after_read<K: Eq + Hash, V, S: BuildHasher>(
    store: &mut Store<K, V, S>,
    handle: Handle,
    renewed: bool,
)
    requires handle { IsHandle store.old handle }
    ensures access { store.new.access ≡ to_back handle.number store.old.access }
    ensures served { Serves (λ n. (n ≡ handle.number) × (renewed ≡ true)) store.old store.new }
{
    if store.is_member(handle) {
        store.move_in_access(handle);
        if renewed {
            store.set_timer(handle);
        }
    }
}

// Applies a removal: the number leaves the access list, and its row is given back.
fn apply_removal<K: Eq + Hash + Drop, V: Drop, S: BuildHasher>(
    store: &mut Store<K, V, S>,
    handle: Handle,
)
    requires { IsAt store.old.places handle.number handle.place }
    ensures step { contents_in store.new ≡ record (contents_in store.old)
        { access = without_member handle.number store.old.access } }
    ensures written { store.old.ordered ≡ true → store.new.written ≡ without_number handle.number store.old.written }
    ensures upkeep { Upkeep store.old store.new }
    ensures rows { (generation : ℕ) → LeavesNoRowAfter (Removal handle.number generation) store.old store.new }
{
    store.invariant_holds();
    if !store.has_row(handle) {
        return;
    }
    leave(store, handle);
    if store.find(handle).is_none() {
        store.forget(handle);
    }
}

// The member of this number, if there is one, leaves both orders and the timers.
fn leave<K: Eq + Hash, V, S: BuildHasher>(store: &mut Store<K, V, S>, handle: Handle)
    requires { IsPlaced store.old handle }
    ensures { store.new ≡ record store.old {
      access = without_member handle.number store.old.access;
      written = without_number handle.number store.old.written;
      timers = finite.remove store.old.timers handle.number;
      cursor = cursor_past handle.number store.old.written store.old.cursor;
    } }
{
    if store.is_member(handle) {
        store.leave(handle);
    }
}
