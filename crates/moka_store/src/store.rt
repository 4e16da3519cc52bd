//! Records, their orders and timers and the index of their keys, in one.
//!
//! moka: `sync::base_cache::Inner`, whose maps and deques these are.
ghost use Rattle.std.specs.Prelude.{◌==◌, if◌then◌else◌, ◌≡◌, ◌≢◌, ◌+◌, ◌^◌, ◌<◌, ◌≤◌, ℕ, [], ◌∷◌, ◌++◌, length, OnOk, IfOk, IfSome, IfNone, true, false, IsOk, IsSome, IsNone, None, Some, slice_get, nat_lt, option_map, IsTrue, ◌↔◌};
ghost use Rattle.std.specs.FinMap as finite;
ghost use Rattle.std.specs.List.{IsDistinct};
ghost use Rattle.moka_records.specs.Hashing.{key_hash};
ghost use Rattle.moka_store.specs.Store.{member_after, number_after, cursor_past, with_timer, AreKeysOf, ChangesRecord, ExpiresAsBefore, IsOff, IsPlaced, IsHandle, IsOneEach, IsOrdered};
ghost use Rattle.moka_store.specs.declared.store.Handle.{Handle};
ghost use Rattle.moka_records.specs.declared.records.Record.{Record};
ghost use Rattle.moka_store.specs.Hashing.{IsIndexHash};
ghost use Rattle.moka_table.specs.Updates.{updated};
ghost use Rattle.moka_records.specs.Records.{IsListOf, member, counted_of, record_of_key, with_record, without_member, is_member, numbers_of, to_back, total_weight, is_listed, without_number, number_to_back, entered_by};
ghost use Rattle.moka_records.specs.Time.{moment_of};

use crate::timers::Timers;
use crate::write_list::WriteList;
pub use changes::MAX_PLACES;
pub use hashing::IndexHash;
use moka_index::PlaceIndex;
use moka_records::instant::Instant;
use moka_records::key_test::SameKey;
use moka_records::record_ref::RecordRef;
use moka_records::records::Record;
use moka_structures::OrderList;
pub use moka_table::Update;
use moka_table::{Membership, RecordTable};
use std::alloc::{AllocError, Global};
use std::hash::{BuildHasher, Hash};
use std::marker::Model;

mod by_key_test;
mod changes;
mod hashing;
mod rows;

// With more members than this, nodes are read ahead.
const FAR: usize = 1 << 18;

/// A number that has a row, with the row's place.
#[derive(Clone, Copy)]
pub struct Handle {
    pub number: u64,
    pub place: usize,
}

/// The records of a cache, found by key or by handle, with their orders of access and of writing, their timers and the
/// sum of the members' weights.
pub struct Store<K: Eq + Hash, V, S: BuildHasher> {
    hasher: S,
    // The place of each record, under the hash of its key.
    index: PlaceIndex,
    table: RecordTable<K, V>,
    access: OrderList<u32>,
    written: WriteList,
    timers: Timers,
    // The sum of the weights that are counted for the members.
    weight: u128,
    // What was read ahead, kept so that the compiler does not drop the loads.
    ahead: u64,
}

// Written out so that a caller's drop is one call.
impl<K: Eq + Hash + Drop, V: Drop, S: BuildHasher + Drop> Drop for Store<K, V, S> {
    fn drop(self) {
        let Store {
            hasher: _,
            index: _,
            table: _,
            access: _,
            written: _,
            timers: _,
            weight: _,
            ahead: _,
        } = self;
    }
}

impl<K: Eq + Hash, V, S: BuildHasher> Model for Store<K, V, S> {
    ghost use Rattle.std.specs.FinMap as finite;
    ghost use Rattle.moka_records.specs.Hashing.{key_hash};
    ghost use Rattle.moka_store.specs.Hashing.{index_hash};
    ghost use Rattle.moka_store.specs.Store.{Kept, kept_code};

    ghost Value = { Kept K V S };

    ghost coded = { kept_code K.code V.code S.code };

    ghost use Rattle.moka_store.specs.StoreTies.{IsStore, kept_of, most_of};

    ghost view = { λ a. kept_of a.hasher a.table.rows a.access.members a.written a.timers a.index.room a.table.room
        (most_of a.access a.written a.timers) };

    ghost invariant = { λ a. IsStore K.eq a.table.rows
        (record {
          hash_of = λ k. index_hash (key_hash S.BuildHasher S.Hasher.Hasher a.hasher (K.hash_input k));
          entries = a.index.entries;
        })
        (finite.len a.index.entries) a.access.members a.written a.timers
        (most_of a.access a.written a.timers) a.weight };
}

impl<K: Eq + Hash, V, S: BuildHasher> Store<K, V, S> {
    /// An empty store, which keeps the order of writing if it is to be `ordered`, and timers if it is to be `timed`.
    pub fn new(alloc: Global, hasher: S, ordered: bool, timed: bool) -> Result<Self, AllocError>
    where
        S: Drop,
        ensures records { IfOk result (λ s. s.records ≡ finite.empty) }
        ensures access { IfOk result (λ s. s.access ≡ []) }
        ensures places { IfOk result (λ s. s.places ≡ finite.empty) }
        ensures empty { IfOk result (λ s. s ≡ record {
          records = finite.empty;
          access = [];
          written = [];
          timers = finite.empty;
          cursor = None;
          places = finite.empty;
          room = s.room;
          ordered = ordered;
          timed = timed;
          hasher = hasher;
        }) }
    {
        let access = OrderList::new(alloc, 0)?;
        let written = WriteList::new(alloc, ordered)?;
        let timers = Timers::new(alloc, timed)?;
        Ok(Store {
            hasher,
            index: PlaceIndex::new(alloc),
            table: RecordTable::new(alloc),
            access,
            written,
            timers,
            weight: 0,
            ahead: 0,
        })
    }

    /// Makes room for `additional` more records: in the index, for their rows, their places in the orders and their
    /// timers. If there is room, nothing changes. An error leaves all but the room as it was: there is no memory, or
    /// a place would need more than 32 bits.
    #[inline(always)]
    pub fn reserve(&mut self, additional: usize) -> Result<(), AllocError>
        ensures room { OnOk result (additional ≤ self.new.room) }
        ensures succeeds { additional ≤ self.old.room → IsOk result }
        ensures enough { additional ≤ self.old.room → self.new ≡ self.old }
        ensures rest { self.new ≡ record self.old { room = self.new.room } }
        ensures kept { OnOk result (self.old.room ≤ self.new.room) }
    {
        changes::reserve_rows(&mut self.table, additional)?;
        self.index.reserve(additional)?;
        let rows = self.table.len() + additional;
        self.access.reserve(rows - self.access.len())?;
        self.written.reserve(rows)?;
        self.timers.reserve(rows)
    }

    /// The hash of a key by the store's hasher.
    #[inline(always)]
    pub fn hash(&self, key: &K) -> u64
        ensures { result ≡ key_hash S.BuildHasher S.Hasher.Hasher self.now.hasher (K.hash_input key.now) }
    {
        self.hasher.hash_one(key)
    }

    /// The record whose key is equal, with its handle, under the key's hash.
    #[inline(always)]
    pub fn find_by_key(&self, key: &K, hash: IndexHash) -> Option<(Handle, RecordRef<'_, K, V>)>
        requires hashed { IsIndexHash S.BuildHasher S.Hasher.Hasher self.now.hasher (K.hash_input key.now) hash }
        ensures handle { IfSome result (λ f. IsHandle self.now f.0) }
        ensures found { IfSome result (λ f. finite.get self.now.records f.0.number ≡ Some f.1) }
        ensures value { option_map (λ f. f.1) result ≡ record_of_key K.eq self.now.records key.now }
        ensures hashed { IfSome result
            (λ f. IsIndexHash S.BuildHasher S.Hasher.Hasher self.now.hasher (K.hash_input f.1.key) hash) }
        ensures one_each { IsOneEach K.eq self.now.records }
    {
        self.find_by(&SameKey(key), hash)
    }

    /// The record at this handle, if it is still there.
    #[inline(always)]
    pub fn find(&self, handle: Handle) -> Option<RecordRef<'_, K, V>>
        ensures found { IsPlaced self.now handle → result ≡ finite.get self.now.records handle.number }
        ensures elsewhere { (IsPlaced self.now handle → ⊥) → result ≡ None }
        ensures handle { IsSome result → IsHandle self.now handle }
        ensures one_each { IsOneEach K.eq self.now.records }
    {
        self.table.find(handle.place, handle.number)
    }

    /// Whether the number at this handle has its row there.
    #[inline(always)]
    pub fn has_row(&self, handle: Handle) -> bool
        ensures placed { IsTrue result ↔ IsPlaced self.now handle }
        ensures records { (n : ℕ) → IsSome (finite.get self.now.records n) → IsSome (finite.get self.now.places n) }
        ensures members { (n : ℕ) → IsSome (counted_of n self.now.access) → IsSome (finite.get self.now.places n) }
    {
        self.table.number(handle.place) == Some(handle.number)
    }

    /// Puts in a new record of a key that has none, under the key's hash. It takes no memory.
    #[inline(always)]
    pub fn insert_new(&mut self, stored: Record<K, V>, hash: IndexHash) -> Handle
        requires room { 0 < self.old.room }
        requires fresh { finite.get self.old.places stored.number ≡ None }
        requires unknown { record_of_key K.eq self.old.records stored.key ≡ None }
        requires hashed { IsIndexHash S.BuildHasher S.Hasher.Hasher self.old.hasher (K.hash_input stored.key) hash }
        ensures number { result.number ≡ stored.number }
        ensures step { self.new ≡ record self.old {
          records = with_record self.old.records stored;
          places = finite.insert self.old.places stored.number result.place;
          room = self.new.room;
        } }
        ensures room { self.old.room ≡ self.new.room + 1 }
        ensures apart { counted_of stored.number self.new.access ≡ None }
        ensures handle { IsHandle self.new result }
        ensures kept { (other : Handle) → IsPlaced self.old other → IsPlaced self.new other }
        ensures access { self.new.access ≡ self.old.access }
    {
        let number = stored.number;
        let place = self.table.insert(stored);
        // A place is below the table's capacity, so it has 32 bits.
        let _capacity = self.table.capacity();
        self.index.insert(hash.0, place);
        Handle { number, place }
    }

    /// Gives the record at this handle a new value, with what comes with it, as its next generation, and returns the
    /// old value.
    #[inline(always)]
    pub fn update(&mut self, handle: Handle, update: Update<V>) -> V
        requires handle { IsHandle self.old handle }
        requires generation { (r : Record K V) → finite.get self.old.records handle.number ≡ Some r
            → r.generation + 1 < 2 ^ 64 }
        ensures value { (r : Record K V) → finite.get self.old.records handle.number ≡ Some r → result ≡ r.value }
        ensures step { ChangesRecord handle.number (updated update) self.old self.new }
        ensures handle { IsHandle self.new handle }
        ensures places { self.new.places ≡ self.old.places }
        ensures access { self.new.access ≡ self.old.access }
    {
        self.table.update(handle.place, update)
    }

    /// Notes when the record at this handle was read and, if the read renewed its expiry, when it expires now.
    #[inline(always)]
    pub fn touch(
        &mut self,
        handle: Handle,
        read: Instant,
        expires: Option<Instant>,
        is_renewed: bool,
    )
        requires handle { IsHandle self.old handle }
        requires kept { ExpiresAsBefore self.old handle.number expires is_renewed }
        ensures step { ChangesRecord handle.number
            (λ r. record r { read = read; expires = expires }) self.old self.new }
        ensures handle { IsHandle self.new handle }
        ensures places { self.new.places ≡ self.old.places }
        ensures access { self.new.access ≡ self.old.access }
    {
        self.table.touch(handle.place, read, expires, is_renewed);
    }

    /// Notes that the operation of this generation was applied to the record at this handle.
    #[inline(always)]
    pub fn set_applied(&mut self, handle: Handle, generation: u64)
        requires { IsHandle self.old handle }
        ensures step { ChangesRecord handle.number (λ r. record r { applied = generation }) self.old self.new }
        ensures handle { IsHandle self.new handle }
        ensures places { self.new.places ≡ self.old.places }
        ensures access { self.new.access ≡ self.old.access }
    {
        self.table.set_applied(handle.place, generation);
    }

    // The hash under which the store has the record at this handle.
    #[inline(always)]
    fn hash_at(&self, handle: Handle) -> IndexHash
        requires { IsHandle self.now handle }
        ensures { (r : Record K V) → finite.get self.now.records handle.number ≡ Some r
            → IsIndexHash S.BuildHasher S.Hasher.Hasher self.now.hasher (K.hash_input r.key) result }
    {
        let Some(found) = self.find(handle) else {
            unreachable!()
        };
        IndexHash::of(self.hash(found.key()))
    }

    /// Takes the record at this handle out of the map, where it is under the hash of its key; its number stays.
    #[inline(always)]
    pub fn take_record(&mut self, handle: Handle, hash: IndexHash) -> Record<K, V>
        requires handle { IsHandle self.old handle }
        requires hashed { (r : Record K V) → finite.get self.old.records handle.number ≡ Some r
            → IsIndexHash S.BuildHasher S.Hasher.Hasher self.old.hasher (K.hash_input r.key) hash }
        ensures taken { finite.get self.old.records handle.number ≡ Some result }
        ensures step { self.new
            ≡ record self.old { records = finite.remove self.old.records handle.number; room = self.new.room } }
        ensures room { self.old.room ≤ self.new.room }
        ensures gone { finite.get self.new.records handle.number ≡ None }
        ensures places { self.new.places ≡ self.old.places }
        ensures access { self.new.access ≡ self.old.access }
    {
        let taken = self.table.take(handle.place);
        self.index.remove(hash.0, handle.place);
        taken
    }

    /// The weight that is counted for the number at this handle, if it is in the access list.
    #[inline(always)]
    pub fn counted(&self, handle: Handle) -> Option<u32>
        requires { IsPlaced self.now handle }
        ensures counted { result ≡ counted_of handle.number self.now.access }
        ensures off { IsNone result → IsOff self.now handle.number }
    {
        self.table.counted(handle.place)
    }

    /// Whether the number at this handle is in the access list.
    #[inline(always)]
    pub fn is_member(&self, handle: Handle) -> bool
        requires { IsPlaced self.now handle }
        ensures member { result ≡ is_member handle.number self.now.access }
        ensures off { result ≡ false → IsOff self.now handle.number }
    {
        self.counted(handle).is_some()
    }

    /// Admits the number at this handle, with this weight, at the back of both orders. It takes no memory.
    #[inline(always)]
    pub fn admit(&mut self, handle: Handle, weight: u32)
        requires placed { IsPlaced self.old handle }
        requires apart { counted_of handle.number self.old.access ≡ None }
        ensures step { self.new ≡ record self.old {
          access = self.old.access ++ member handle.number weight ∷ [];
          written = entered_by self.old.ordered handle.number self.old.written;
        } }
        ensures counted { (n : ℕ) → counted_of n self.new.access
            ≡ (if n == handle.number then Some weight else counted_of n self.old.access) }
        ensures places { self.new.places ≡ self.old.places }
        ensures records { self.new.records ≡ self.old.records }
    {
        let access = self.access.push_back(handle.place as u32);
        let written = self.written.push_back(handle.place as u32);
        self.weight += weight as u128;
        let _none = self.table.set_membership(
            handle.place,
            Membership {
                counted: weight,
                access,
                written,
            },
        );
    }

    /// The number at this handle moves to the back of the access list alone.
    #[inline(always)]
    pub fn move_in_access(&mut self, handle: Handle)
        requires placed { IsPlaced self.old handle }
        requires member { IsSome (counted_of handle.number self.old.access) }
        ensures step { self.new ≡ record self.old { access = to_back handle.number self.old.access } }
        ensures counted { (n : ℕ) → counted_of n self.new.access ≡ counted_of n self.old.access }
        ensures places { self.new.places ≡ self.old.places }
        ensures records { self.new.records ≡ self.old.records }
    {
        let Some(found) = self.table.membership(handle.place) else {
            unreachable!()
        };
        self.access.move_to_back(found.access);
    }

    /// The number at this handle moves to the back of both orders. A cursor there goes on.
    #[inline(always)]
    pub fn move_to_back(&mut self, handle: Handle)
        requires placed { IsPlaced self.old handle }
        requires member { IsSome (counted_of handle.number self.old.access) }
        ensures step { self.new ≡ record self.old {
          access = to_back handle.number self.old.access;
          written = number_to_back handle.number self.old.written;
          cursor = cursor_past handle.number self.old.written self.old.cursor;
        } }
        ensures counted { (n : ℕ) → counted_of n self.new.access ≡ counted_of n self.old.access }
        ensures places { self.new.places ≡ self.old.places }
        ensures records { self.new.records ≡ self.old.records }
    {
        let Some(membership) = self.table.membership(handle.place) else {
            unreachable!()
        };
        self.access.move_to_back(membership.access);
        self.written.move_to_back(membership.written);
    }

    /// The number at this handle moves to the back of both orders, with this weight. A cursor there goes on.
    #[inline(always)]
    pub fn recount(&mut self, handle: Handle, weight: u32)
        requires placed { IsPlaced self.old handle }
        requires member { IsSome (counted_of handle.number self.old.access) }
        ensures step { self.new ≡ record self.old {
          access = without_member handle.number self.old.access ++ member handle.number weight ∷ [];
          written = number_to_back handle.number self.old.written;
          cursor = cursor_past handle.number self.old.written self.old.cursor;
        } }
        ensures counted { (n : ℕ) → counted_of n self.new.access
            ≡ (if n == handle.number then Some weight else counted_of n self.old.access) }
        ensures places { self.new.places ≡ self.old.places }
        ensures records { self.new.records ≡ self.old.records }
    {
        let Some(before) = self.table.membership(handle.place) else {
            unreachable!()
        };
        self.table.set_counted(handle.place, weight);
        self.access.move_to_back(before.access);
        self.written.move_to_back(before.written);
        self.weight = self.weight - before.counted as u128 + weight as u128;
    }

    /// Takes the number at this handle out of both orders, with its timer. A cursor there goes on.
    #[inline(always)]
    pub fn leave(&mut self, handle: Handle)
        requires placed { IsPlaced self.old handle }
        requires member { IsSome (counted_of handle.number self.old.access) }
        ensures step { self.new ≡ record self.old {
          access = without_member handle.number self.old.access;
          written = without_number handle.number self.old.written;
          timers = finite.remove self.old.timers handle.number;
          cursor = cursor_past handle.number self.old.written self.old.cursor;
        } }
        ensures counted { (n : ℕ)
            → counted_of n self.new.access ≡ (if n == handle.number then None else counted_of n self.old.access) }
        ensures places { self.new.places ≡ self.old.places }
        ensures records { self.new.records ≡ self.old.records }
    {
        self.clear_timer(handle);
        let Some(membership) = self.table.clear_membership(handle.place) else {
            unreachable!()
        };
        let _place = self.access.unlink(membership.access);
        self.written.unlink(membership.written);
        self.weight -= membership.counted as u128;
    }

    // The number at this handle has no timer any more.
    #[inline(always)]
    fn clear_timer(&mut self, handle: Handle)
        requires { IsPlaced self.old handle }
        ensures { self.new ≡ record self.old { timers = finite.remove self.old.timers handle.number } }
    {
        if self.timers.are_kept() {
            self.clear_kept_timer(handle);
        }
    }

    // The same where timers are kept.
    #[inline(always)]
    fn clear_kept_timer(&mut self, handle: Handle)
        requires { IsPlaced self.old handle }
        ensures { self.new ≡ record self.old { timers = finite.remove self.old.timers handle.number } }
    {
        let timer = self.table.set_timer(handle.place, None);
        let _none = self.timers.set(timer, handle.place as u64, None);
    }

    /// Sets the timer of the number at this handle, if timers are kept, to its record's expiry, or takes it out if the
    /// record has none. It takes no memory.
    #[inline(always)]
    pub fn set_timer(&mut self, handle: Handle)
        requires handle { IsHandle self.old handle }
        requires member { IsSome (counted_of handle.number self.old.access) }
        ensures step { (r : Record K V) → finite.get self.old.records handle.number ≡ Some r →
            self.new ≡ record self.old {
              timers = if self.old.timed
                  then with_timer self.old.timers handle.number (moment_of r.expires) else self.old.timers;
            } }
        ensures rest { self.new ≡ record self.old { timers = self.new.timers } }
    {
        if self.timers.are_kept() {
            self.set_kept_timer(handle);
        }
    }

    // The same where timers are kept. It stands out of line, so that a store without timers has less code.
    #[inline(never)]
    fn set_kept_timer(&mut self, handle: Handle)
        requires handle { IsHandle self.old handle }
        requires member { IsSome (counted_of handle.number self.old.access) }
        ensures step { (r : Record K V) → finite.get self.old.records handle.number ≡ Some r →
            self.new ≡ record self.old {
              timers = if self.old.timed
                  then with_timer self.old.timers handle.number (moment_of r.expires) else self.old.timers;
            } }
        ensures rest { self.new ≡ record self.old { timers = self.new.timers } }
    {
        let (before, expires) = changes::timing_at(&self.table, handle.place);
        let timer = self.timers.set(before, handle.place as u64, expires);
        let _before = self.table.set_timer(handle.place, timer);
    }

    /// Takes out a timer whose moment is at or before `now`, and returns the handle that it was for; `None` exactly if
    /// there is no such timer.
    pub fn due(&mut self, now: Instant) -> Option<Handle>
        ensures due { IfSome result (λ h. (t : ℕ) × (finite.get self.old.timers h.number ≡ Some t) × (t ≤ now.0)) }
        ensures placed { IfSome result (λ h. IsPlaced self.new h) }
        ensures member { IfSome result (λ h. IsSome (counted_of h.number self.new.access)) }
        ensures step { IfSome result
            (λ h. self.new ≡ record self.old { timers = finite.remove self.old.timers h.number }) }
        ensures none { IfNone result ((n t : ℕ) → finite.get self.old.timers n ≡ Some t → now.0 < t) }
        ensures unchanged { IfNone result (self.new ≡ self.old) }
    {
        let due = self.timers.due(now)?;
        let place = due.number as usize;
        let _slot = self.table.set_timer(place, None);
        Some(changes::handle_at(&self.table, place))
    }

    /// The first member in the order of writing, if that is kept.
    pub fn front_written(&self) -> Option<Handle>
        ensures ordered { IfSome result (IsOrdered self.now) }
        ensures front { option_map (λ h. h.number) result ≡ slice_get self.now.written 0 }
    {
        let (_, place) = self.written.front()?;
        Some(changes::handle_at(&self.table, place as usize))
    }

    /// The member behind the one at this handle in the order of writing.
    pub fn next_written(&self, handle: Handle) -> Option<Handle>
        requires placed { IsPlaced self.now handle }
        requires member { IsSome (counted_of handle.number self.now.access) }
        ensures ordered { IfSome result (IsOrdered self.now) }
        ensures next { option_map (λ h. h.number) result ≡ number_after handle.number self.now.written }
    {
        let slot = changes::written_slot(&self.table, handle.place);
        let (_, place) = self.written.next(slot)?;
        Some(changes::handle_at(&self.table, place as usize))
    }

    /// The member at which a scan of the order of writing goes on; `None` stands for the front.
    pub fn cursor(&self) -> Option<Handle>
        ensures ordered { IfSome result (IsOrdered self.now) }
        ensures cursor { option_map (λ h. h.number) result ≡ self.now.cursor }
    {
        let (_, place) = self.written.cursor()?;
        Some(changes::handle_at(&self.table, place as usize))
    }

    /// A scan of the order of writing goes on at this member, which stands in that order, or at the front.
    pub fn set_cursor(&mut self, handle: Option<Handle>)
        requires placed { IfSome handle (λ h. IsPlaced self.old h) }
        requires listed { IfSome handle (λ h. is_listed h.number self.old.written ≡ true) }
        ensures { self.new ≡ record self.old { cursor = option_map (λ h. h.number) handle } }
    {
        let Some(handle) = handle else {
            self.written.set_cursor(None);
            return;
        };
        let node = changes::written_node(&self.table, handle.place);
        self.written.set_cursor(node);
    }

    /// How many records there are.
    #[inline(always)]
    pub fn record_count(&self) -> usize
        ensures { result ≡ finite.len self.now.records }
    {
        self.index.len()
    }

    /// Clones of the keys of all records, in no particular order.
    pub fn keys(&self, alloc: Global) -> Result<Vec<K>, AllocError>
    where
        K: Clone + Drop,
        ensures { IfOk result (λ keys. AreKeysOf K.is_clone self.now.records keys.items) }
    {
        let mut keys = Vec::with_capacity(alloc, self.record_count())?;
        for place in 0..self.table.place_count() {
            if let Some(stored) = self.table.record(place) {
                keys.push(stored.key().clone()?)?;
            }
        }
        Ok(keys)
    }

    /// How many members the access list has.
    #[inline(always)]
    pub fn member_count(&self) -> usize
        ensures value { result ≡ length self.now.access }
        ensures few { result < 2 ^ 32 }
    {
        self.access.len()
    }

    /// The sum of the weights that are counted for the members.
    #[inline(always)]
    pub fn total_weight(&self) -> u128
        ensures { result ≡ total_weight self.now.access }
    {
        self.weight
    }

    /// What always holds of a store. It does nothing when it runs.
    pub fn invariant_holds(&self)
        ensures one_each { IsOneEach K.eq self.now.records }
        ensures records { (n : ℕ) → IsSome (finite.get self.now.records n) → IsSome (finite.get self.now.places n) }
        ensures members { (n : ℕ) → IsSome (counted_of n self.now.access) → IsSome (finite.get self.now.places n) }
        ensures narrow { (n place : ℕ) → finite.get self.now.places n ≡ Some place → place < 2 ^ 32 }
        ensures distinct { IsDistinct (◌==◌) (numbers_of self.now.access) }
        ensures once { IsDistinct (◌==◌) self.now.written }
        ensures listed { self.now.ordered ≡ true → IsListOf self.now.access self.now.written }
        ensures unlisted { self.now.ordered ≡ false → self.now.written ≡ [] }
    {
        let _weight = self.weight;
        self.written.invariant_holds();
    }

    /// The first of the access list, with its weight.
    #[inline(always)]
    pub fn front(&self) -> Option<(Handle, u32)>
        ensures placed { IfSome result (λ f. IsPlaced self.now f.0) }
        ensures member { IfSome result (λ f. IsSome (counted_of f.0.number self.now.access)) }
        ensures front { option_map (λ f. member f.0.number f.1) result ≡ slice_get self.now.access 0 }
    {
        let (_, place) = self.access.front()?;
        Some(changes::member_at(&self.table, place as usize))
    }

    /// The member behind the one at this handle in the access list, with its weight.
    #[inline(always)]
    pub fn next(&self, handle: Handle) -> Option<(Handle, u32)>
        requires placed { IsPlaced self.now handle }
        requires member { IsSome (counted_of handle.number self.now.access) }
        ensures placed { IfSome result (λ f. IsPlaced self.now f.0) }
        ensures member { IfSome result (λ f. IsSome (counted_of f.0.number self.now.access)) }
        ensures next { option_map (λ f. member f.0.number f.1) result ≡ member_after handle.number self.now.access }
    {
        let Some(membership) = self.table.membership(handle.place) else {
            unreachable!()
        };
        let (_, place) = self.access.next(membership.access)?;
        Some(changes::member_at(&self.table, place as usize))
    }

    /// Whether there are so many members that their nodes lie in no near cache of the processor.
    #[inline(always)]
    pub fn is_far(&self) -> bool
        ensures { result ≡ nat_lt 262144 (length self.now.access) }
    {
        self.access.len() > FAR
    }

    /// Reads the node of the member at this place, and the one behind it, so that they are at hand when it moves.
    /// Nothing changes.
    #[inline(always)]
    pub fn read_node(&mut self, place: usize)
        ensures { self.new ≡ self.old }
    {
        self.ahead ^= u64::from(self.slot_behind(place));
    }

    // The slot behind that of the member at this place.
    #[inline(always)]
    fn slot_behind(&self, place: usize) -> u32 {
        let Some(membership) = self.table.membership(place) else {
            return 0;
        };
        match self.access.next(membership.access) {
            Some((slot, _)) => slot,
            None => 0,
        }
    }

    /// Reads the rows of the first members, so that they are at hand when these are removed: their lines of memory are
    /// fetched side by side, and not one after the other. Nothing changes.
    pub fn read_ahead(&mut self, count: usize)
        ensures { self.new ≡ self.old }
    {
        self.ahead = self.first_rows(count);
    }

    // Something of the rows of the first members.
    #[inline(never)]
    fn first_rows(&self, count: usize) -> u64 {
        let mut next = self.access.front();
        let mut read = 0;
        for _ in 0..count {
            let Some((slot, place)) = next else {
                break;
            };
            if let Some(number) = self.table.number(place as usize) {
                read ^= number;
            }
            next = self.access.next(slot);
        }
        read
    }

    /// The record at this handle leaves the map and, if it is a member, both orders and the timers. Its number stays.
    #[inline(always)]
    pub fn take_out(&mut self, handle: Handle) -> Record<K, V>
        requires { IsHandle self.old handle }
        ensures taken { finite.get self.old.records handle.number ≡ Some result }
        ensures step { self.new ≡ record self.old {
          records = finite.remove self.old.records handle.number;
          access = without_member handle.number self.old.access;
          written = without_number handle.number self.old.written;
          timers = finite.remove self.old.timers handle.number;
          cursor = cursor_past handle.number self.old.written self.old.cursor;
          room = self.new.room;
        } }
        ensures room { self.old.room ≤ self.new.room }
        ensures gone { finite.get self.new.records handle.number ≡ None }
        ensures counted { (n : ℕ)
            → counted_of n self.new.access ≡ (if n == handle.number then None else counted_of n self.old.access) }
        ensures places { self.new.places ≡ self.old.places }
    {
        let hash = self.hash_at(handle);
        if self.is_member(handle) {
            self.leave(handle);
        }
        self.take_record(handle, hash)
    }

    /// The number at this handle goes. Its record left the map, and it is no member.
    #[inline(always)]
    pub fn forget(&mut self, handle: Handle)
    where
        K: Drop,
        V: Drop,
        requires placed { IsPlaced self.old handle }
        requires gone { finite.get self.old.records handle.number ≡ None }
        requires apart { counted_of handle.number self.old.access ≡ None }
        ensures step { self.new
            ≡ record self.old { places = finite.remove self.old.places handle.number; room = self.new.room } }
        ensures room { self.old.room ≤ self.new.room }
        ensures kept { (other : Handle) → other.number ≢ handle.number → IsPlaced self.old other
            → IsPlaced self.new other }
        ensures records { self.new.records ≡ self.old.records }
        ensures access { self.new.access ≡ self.old.access }
    {
        self.table.forget(handle.place);
    }
}
