//! The rows of the table, by place. Of their numbers nothing is known, and their memberships have no weight.
ghost use Rattle.std.specs.Prelude.{◌≡◌, ◌≢◌, ◌+◌, ◌<◌, ◌≤◌, [], false, length, count_by, is_some, IfSome, IsOk, IsSome, OnOk, None, Some, option_copied};
ghost use Rattle.std.specs.Option.{option_and_then, option_map};
ghost use Rattle.slab.specs.Entry.{value_of};
ghost use Rattle.moka_records.specs.declared.record_ref.Front.{Front};
ghost use Rattle.moka_table.specs.RecordTable.{row_at, number_at, stored_at, membership_at, ChangesAt, ChangesRow, with_stored};
ghost use Rattle.moka_table.specs.Slots.{counted_as, IsSlot, HasSlots};
ghost use Rattle.moka_table.specs.States.{touched, rewritten};

use super::Update;
use super::membership::Membership;
use super::slot::Slot;
use moka_records::instant::Instant;
use moka_records::record_ref::Front;
use std::alloc::{AllocError, Global};
use std::marker::Model;
use std::mem;

/// Rows by place. Vacant places are linked; the code takes the one that was given back last first, which no contract
/// says.
#[derive(Drop)]
pub(crate) struct Rows<K, V> {
    slots: Vec<Slot<K, V>>,
    // How many rows there are.
    len: usize,
    // The first vacant place, or `slots.len()` if there is none.
    vacant: usize,
}

impl<K, V> Model for Rows<K, V> {
    ghost use Rattle.std.specs.Prelude.{◌-◌, map, vec_capacity};
    ghost use Rattle.slab.specs.Entry.{value_of, IsSound};
    ghost use Rattle.moka_records.specs.RecordParts.{front_code};
    ghost use Rattle.moka_records.specs.declared.record_ref.Front.{Front};
    ghost use Rattle.moka_table.specs.RecordTable.{Table, table_code};

    ghost Value = { Table (Front K V) };

    ghost coded = { table_code (front_code K.code V.code) };

    ghost view = { λ a. record { rows = map value_of a.slots.items; room = vec_capacity a.slots - a.len } };

    ghost invariant = { λ a. IsSound a.slots.items a.len a.vacant };
}

impl<K, V> Rows<K, V> {
    /// No rows, which take no memory.
    pub(crate) fn new(alloc: Global) -> Self
        ensures { result ≡ record { rows = []; room = 0 } }
    {
        Rows {
            slots: Vec::new(alloc),
            len: 0,
            vacant: 0,
        }
    }

    /// How many rows there are.
    pub(crate) fn len(&self) -> usize
        ensures value { result ≡ count_by is_some self.now.rows }
        ensures fits { result + self.now.room ≤ usize.MAX }
    {
        let _capacity = self.slots.capacity();
        self.len
    }

    /// How many rows fit with no memory, those that there are among them. Every place is less.
    pub(crate) fn capacity(&self) -> usize
        ensures value { result ≡ count_by is_some self.now.rows + self.now.room }
        ensures places { length self.now.rows ≤ result }
    {
        self.slots.capacity()
    }

    /// Makes room for `additional` more rows, and changes nothing if there is room.
    pub(crate) fn reserve(&mut self, additional: usize) -> Result<(), AllocError>
        ensures room { OnOk result (additional ≤ self.new.room) }
        ensures succeeds { additional ≤ self.old.room → IsOk result }
        ensures enough { additional ≤ self.old.room → self.new ≡ self.old }
        ensures rows { self.new.rows ≡ self.old.rows }
        ensures kept { self.old.room ≤ self.new.room }
    {
        if self.slots.capacity() - self.len >= additional {
            return Ok(());
        }
        let more = additional - (self.slots.len() - self.len);
        self.slots.reserve(more)
    }

    /// A new row. The answer is its place.
    #[inline(always)]
    pub(crate) fn insert(&mut self, number: u64, front: Front<K, V>) -> usize
        requires { 0 < self.old.room }
        ensures vacant { row_at self.old.rows result ≡ None }
        ensures pushed { result ≡ length self.old.rows → (length self.new.rows ≡ length self.old.rows + 1)
            × (count_by is_some self.old.rows ≡ length self.old.rows) }
        ensures filled { result ≢ length self.old.rows → (length self.new.rows ≡ length self.old.rows)
            × (result < length self.old.rows) }
        ensures changes { ChangesAt (row_at self.old.rows)
            (row_at self.new.rows) result
            (Some (record { number = number; stored = Some front; membership = None; timer = None })) }
        ensures len { count_by is_some self.new.rows ≡ count_by is_some self.old.rows + 1 }
        ensures room { self.old.room ≡ self.new.room + 1 }
    {
        let (place, slot) = (self.vacant, Slot::full(number, front));
        self.len += 1;
        if place == self.slots.len() {
            self.slots.push_reserved(slot);
            self.vacant = place + 1;
            return place;
        }
        self.vacant = mem::replace(&mut self.slots[place], slot).into_next();
        place
    }

    /// What stands at this place, if it is one.
    #[inline(always)]
    pub(crate) fn at(&self, place: usize) -> Option<&Slot<K, V>>
        ensures { option_and_then value_of (option_copied result) ≡ row_at self.now.rows place }
    {
        self.slots.get(place)
    }

    /// The record at this place was read at this moment, and now expires by itself or does not: as before, unless that
    /// is renewed.
    #[inline(always)]
    pub(crate) fn touch(
        &mut self,
        place: usize,
        moment: Instant,
        is_expiring: bool,
        is_renewed: bool,
    )
        requires stored { IsSome (stored_at self.old.rows place) }
        requires kept { is_renewed ≡ false → (f : Front K V) → stored_at self.old.rows place ≡ Some f
            → is_expiring ≡ f.expiring }
        ensures rows { (f : Front K V) → stored_at self.old.rows place ≡ Some f
            → self.new.rows ≡ with_stored self.old.rows place (touched moment is_expiring f) }
        ensures room { self.new.room ≡ self.old.room }
    {
        self.slots[place].touch(moment, is_expiring, is_renewed);
    }

    /// Another value, with what comes with it, for the record at this place. The answer is the old value.
    #[inline(always)]
    pub(crate) fn replace_value(&mut self, place: usize, update: Update<V>) -> V
        requires { IsSome (stored_at self.old.rows place) }
        ensures value { (f : Front K V) → stored_at self.old.rows place ≡ Some f → result ≡ f.hot.value }
        ensures rows { (f : Front K V) → stored_at self.old.rows place ≡ Some f
            → self.new.rows ≡ with_stored self.old.rows place (rewritten update f) }
        ensures room { self.new.room ≡ self.old.room }
    {
        self.slots[place].replace_value(update)
    }

    /// The record of the row at this place leaves.
    #[inline(always)]
    pub(crate) fn take_stored(&mut self, place: usize) -> (u64, Front<K, V>)
        requires { IsSome (stored_at self.old.rows place) }
        ensures number { result.0 ≡ number_at self.old.rows place }
        ensures taken { stored_at self.old.rows place ≡ Some result.1 }
        ensures changes { ChangesRow self.old.rows self.new.rows place (λ row. record row { stored = None }) }
        ensures length { length self.new.rows ≡ length self.old.rows }
        ensures len { count_by is_some self.new.rows ≡ count_by is_some self.old.rows }
        ensures room { self.new.room ≡ self.old.room }
    {
        self.slots[place].take()
    }

    /// Another membership but for its weight, or none, for the row at this place. The answer is the old one.
    #[inline(always)]
    pub(crate) fn replace_membership(
        &mut self,
        place: usize,
        membership: Option<Membership>,
    ) -> Option<Membership>
        requires row { IsSome (row_at self.old.rows place) }
        requires slots { IfSome membership HasSlots }
        ensures old { result ≡ membership_at self.old.rows place }
        ensures changes { ChangesRow self.old.rows self.new.rows place
            (λ row. record row { membership = option_map (counted_as 0) membership }) }
        ensures length { length self.new.rows ≡ length self.old.rows }
        ensures len { count_by is_some self.new.rows ≡ count_by is_some self.old.rows }
        ensures room { self.new.room ≡ self.old.room }
    {
        let slot = &mut self.slots[place];
        let old = slot.membership();
        slot.set_membership(membership);
        old
    }

    /// Another timer, or none, for the row at this place. The answer is the old one.
    #[inline(always)]
    pub(crate) fn replace_timer(&mut self, place: usize, timer: Option<u32>) -> Option<u32>
        requires row { IsSome (row_at self.old.rows place) }
        requires slot { IsSlot timer }
        ensures old { result ≡ option_and_then (λ row. row.timer) (row_at self.old.rows place) }
        ensures slot { IsSlot result }
        ensures changes { ChangesRow self.old.rows self.new.rows place (λ row. record row { timer = timer }) }
        ensures length { length self.new.rows ≡ length self.old.rows }
        ensures len { count_by is_some self.new.rows ≡ count_by is_some self.old.rows }
        ensures room { self.new.room ≡ self.old.room }
    {
        let slot = &mut self.slots[place];
        let old = slot.timer();
        slot.set_timer(timer);
        old
    }

    /// The row at this place goes.
    #[inline(always)]
    pub(crate) fn remove(&mut self, place: usize)
    where
        K: Drop,
        V: Drop,
        requires { IsSome (row_at self.old.rows place) }
        ensures changes { ChangesAt (row_at self.old.rows) (row_at self.new.rows) place None }
        ensures length { length self.new.rows ≡ length self.old.rows }
        ensures len { count_by is_some self.new.rows + 1 ≡ count_by is_some self.old.rows }
        ensures room { self.new.room ≡ self.old.room + 1 }
    {
        let _row = mem::replace(&mut self.slots[place], Slot::vacant(self.vacant));
        self.vacant = place;
        self.len -= 1;
    }
}
