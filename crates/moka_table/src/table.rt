//! Rows for the cache's entries, each at a place that the table picks.
ghost use Rattle.std.specs.Prelude.{◌≡◌, ◌≢◌, ◌+◌, ◌*◌, ◌^◌, ◌<◌, ◌≤◌, min, [], false, length, OnOk, IsOk, IfSome, IsSome, None, Some, is_some, count_by, option_copied};
ghost use Rattle.std.specs.FinMap as map;
ghost use Rattle.std.specs.Option.{option_map, option_and_then};
ghost use Rattle.moka_records.specs.declared.records.Record.{Record};
ghost use Rattle.moka_table.specs.declared.table.membership.Membership.{Membership};
ghost use Rattle.moka_table.specs.RecordTable.{IsNumbered, row_at, number_at, stored_at, membership_at, find_at, ChangesAt, ChangesRow, RecountsRow, with_stored, records_of, counts_of, places_of};
ghost use Rattle.moka_table.specs.Slots.{IsSlot, HasSlots};
ghost use Rattle.moka_table.specs.Updates.{updated};

use moka_records::instant::Instant;
use moka_records::record_ref::{self, Cold, RecordRef};
use moka_records::records::Record;
use rows::Rows;
use std::alloc::{AllocError, Global};
use std::marker::Model;

mod membership;
mod rows;
mod slot;

pub use membership::Membership;

/// What an insert writes into the record of its key.
#[derive(Drop)]
pub struct Update<V> {
    pub value: V,
    /// When it is inserted, which counts as a read too.
    pub now: Instant,
    pub expires: Option<Instant>,
    pub weight: u32,
}

/// Rows of records by place.
///
/// A number is never used twice, so a place and a number tell whether a record is still there, although the place of a
/// row that was forgotten is given to a later one.
pub struct RecordTable<K, V> {
    rows: Rows<K, V>,
    // The cold part of the record at each place, with the weight of the membership there; anything if there is none.
    cold: Vec<Cold>,
    // How many rows fit with no memory, with their cold parts.
    fit: usize,
}

// Written out so that an owner's drop is one call.
impl<K: Drop, V: Drop> Drop for RecordTable<K, V> {
    fn drop(self) {
        let RecordTable {
            rows: _,
            cold: _,
            fit: _,
        } = self;
    }
}

impl<K, V> Model for RecordTable<K, V> {
    ghost use Rattle.std.specs.Prelude.{vec_capacity};
    ghost use Rattle.moka_records.specs.RecordParts.{record_code};
    ghost use Rattle.moka_records.specs.declared.records.Record.{Record};
    ghost use Rattle.moka_table.specs.RecordTable.{Table, table_code};
    ghost use Rattle.moka_table.specs.Rows.{IsBeside, table_of};

    ghost Value = { Table (Record K V) };

    ghost coded = { table_code (record_code K.code V.code) };

    ghost view = { λ a. table_of a.rows a.cold.items a.fit };

    ghost invariant = { λ a. IsBeside a.rows a.cold.items a.fit (vec_capacity a.cold) };
}

impl<K, V> RecordTable<K, V> {
    /// An empty table, which takes no memory.
    pub fn new(alloc: Global) -> Self
        ensures rows { result.rows ≡ [] }
        ensures records { records_of result.rows ≡ map.empty }
        ensures counted { counts_of result.rows ≡ map.empty }
        ensures places { places_of result.rows ≡ map.empty }
        ensures room { result.room ≡ 0 }
    {
        RecordTable {
            rows: Rows::new(alloc),
            cold: Vec::new(alloc),
            fit: 0,
        }
    }

    /// How many rows there are.
    pub fn len(&self) -> usize
        ensures value { result ≡ count_by is_some self.now.rows }
        ensures fits { result + self.now.room ≤ usize.MAX }
    {
        self.rows.len()
    }

    /// How many rows fit without asking for memory, present ones included. Every place is less than this.
    pub fn capacity(&self) -> usize
        ensures value { result ≡ count_by is_some self.now.rows + self.now.room }
        ensures places { length self.now.rows ≤ result }
    {
        self.fit
    }

    /// How many places have been given out: every place is less.
    pub fn place_count(&self) -> usize
        ensures { result ≡ length self.now.rows }
    {
        self.cold.len()
    }

    /// Makes room for `additional` more rows, and changes nothing if there is room. If there is too little, the rows
    /// that fit are afterwards at least twice as many as before, or `usize::MAX`, so a table grows seldom as it fills.
    pub fn reserve(&mut self, additional: usize) -> Result<(), AllocError>
        ensures room { OnOk result (additional ≤ self.new.room) }
        ensures succeeds { additional ≤ self.old.room → IsOk result }
        ensures enough { additional ≤ self.old.room → self.new ≡ self.old }
        ensures rows { self.new.rows ≡ self.old.rows }
        ensures kept { self.old.room ≤ self.new.room }
        ensures doubles { OnOk result (self.old.room < additional
            → min (2 * (count_by is_some self.old.rows + self.old.room)) usize.MAX
            ≤ count_by is_some self.new.rows + self.new.room) }
    {
        let rows = self.rows.len();
        if self.fit - rows >= additional {
            return Ok(());
        }
        // A vector promises no more than it is asked for.
        let wanted = additional.max(self.fit.saturating_mul(2) - rows);
        let more = wanted - (self.cold.len() - rows);
        self.cold.reserve(more)?;
        self.rows.reserve(wanted)?;
        self.fit = self.rows.capacity().min(self.cold.capacity());
        Ok(())
    }

    /// A new row for a number that has none. The answer is its place.
    #[inline(always)]
    pub fn insert(&mut self, stored: Record<K, V>) -> usize
        requires room { 0 < self.old.room }
        requires fresh { map.get (places_of self.old.rows) stored.number ≡ None }
        ensures vacant { row_at self.old.rows result ≡ None }
        ensures changes { ChangesAt (row_at self.old.rows)
            (row_at self.new.rows) result
            (Some (record { number = stored.number; stored = Some stored; membership = None; timer = None })) }
        ensures records { records_of self.new.rows ≡ map.insert (records_of self.old.rows) stored.number stored }
        ensures counted { counts_of self.new.rows ≡ counts_of self.old.rows }
        ensures places { places_of self.new.rows ≡ map.insert (places_of self.old.rows) stored.number result }
        ensures len { count_by is_some self.new.rows ≡ count_by is_some self.old.rows + 1 }
        ensures room { self.old.room ≡ self.new.room + 1 }
    {
        let number = stored.number;
        let (front, cold) = record_ref::split(stored);
        let place = self.rows.insert(number, front);
        if place == self.cold.len() {
            self.cold.push_reserved(cold);
        } else {
            self.cold[place] = cold;
        }
        place
    }

    /// The number of the row at this place.
    #[inline(always)]
    pub fn number(&self, place: usize) -> Option<u64>
        ensures { result ≡ option_map (λ row. row.number) (row_at self.now.rows place) }
    {
        self.rows.at(place)?.number()
    }

    /// The number and the record at this place, if the record is in the map.
    #[inline(always)]
    pub fn live(&self, place: usize) -> Option<(u64, RecordRef<'_, K, V>)>
        ensures number { IfSome result (λ f. f.0 ≡ number_at self.now.rows place) }
        ensures stored { option_map (λ f. f.1) result ≡ stored_at self.now.rows place }
        ensures apart { IsNumbered (row_at self.now.rows) }
    {
        let (number, front) = self.rows.at(place)?.live()?;
        let (hot, cold) = (front.hot, &self.cold[place]);
        let found = RecordRef::new(number, hot, front.expiring, cold);
        Some((number, found))
    }

    /// The key of the record at this place, if the record is in the map.
    #[inline(always)]
    pub fn key(&self, place: usize) -> Option<&K>
        ensures { option_copied result ≡ option_map (λ r. r.key) (stored_at self.now.rows place) }
    {
        self.rows.at(place)?.key()
    }

    /// The record at this place.
    #[inline(always)]
    pub fn record(&self, place: usize) -> Option<RecordRef<'_, K, V>>
        ensures { result ≡ stored_at self.now.rows place }
    {
        let (_, found) = self.live(place)?;
        Some(found)
    }

    /// The record at this place, if it is the one of this number.
    #[inline(always)]
    pub fn find(&self, place: usize, number: u64) -> Option<RecordRef<'_, K, V>>
        ensures value { result ≡ find_at self.now.rows place number }
        ensures found { map.get (places_of self.now.rows) number ≡ Some place
            → result ≡ map.get (records_of self.now.rows) number }
        ensures elsewhere { map.get (places_of self.now.rows) number ≢ Some place → result ≡ None }
        ensures placed { IsSome result → map.get (places_of self.now.rows) number ≡ Some place }
    {
        let (own, found) = self.live(place)?;
        if own == number { Some(found) } else { None }
    }

    /// Notes when the record at this place was read and, if the read renewed its expiry, when it expires now.
    #[inline(always)]
    pub fn touch(&mut self, place: usize, read: Instant, expires: Option<Instant>, is_renewed: bool)
        requires stored { IsSome (stored_at self.old.rows place) }
        requires kept { is_renewed ≡ false → (r : Record K V) → stored_at self.old.rows place ≡ Some r
            → expires ≡ r.expires }
        ensures { (r : Record K V) → stored_at self.old.rows place ≡ Some r
            → self.new ≡ record self.old
            { rows = with_stored self.old.rows place (record r { read = read; expires = expires }) } }
    {
        self.rows.touch(place, read, expires.is_some(), is_renewed);
        if is_renewed {
            self.cold[place].expires = record_ref::moment_of(expires);
        }
    }

    /// Gives the record at this place a new value, with what comes with it, and returns the old value.
    pub fn update(&mut self, place: usize, update: Update<V>) -> V
        requires stored { IsSome (stored_at self.old.rows place) }
        requires generation { (r : Record K V) → stored_at self.old.rows place ≡ Some r → r.generation + 1 < 2 ^ 64 }
        ensures value { (r : Record K V) → stored_at self.old.rows place ≡ Some r → result ≡ r.value }
        ensures table { (r : Record K V) → stored_at self.old.rows place ≡ Some r
            → self.new ≡ record self.old { rows = with_stored self.old.rows place (updated update r) } }
    {
        let cold = &mut self.cold[place];
        cold.weight = update.weight;
        cold.expires = record_ref::moment_of(update.expires);
        cold.generation += 1;
        self.rows.replace_value(place, update)
    }

    /// Notes the generation that was applied to the record at this place.
    #[inline(always)]
    pub fn set_applied(&mut self, place: usize, generation: u64)
        requires { IsSome (stored_at self.old.rows place) }
        ensures { (r : Record K V) → stored_at self.old.rows place ≡ Some r
            → self.new ≡ record self.old
            { rows = with_stored self.old.rows place (record r { applied = generation }) } }
    {
        self.cold[place].applied = generation;
    }

    /// The record at this place leaves the map, and its row stays.
    #[inline(always)]
    pub fn take(&mut self, place: usize) -> Record<K, V>
        requires { IsSome (stored_at self.old.rows place) }
        ensures taken { stored_at self.old.rows place ≡ Some result }
        ensures changes { ChangesRow self.old.rows self.new.rows place (λ row. record row { stored = None }) }
        ensures records { records_of self.new.rows ≡ map.remove (records_of self.old.rows)
            (number_at self.old.rows place) }
        ensures counted { counts_of self.new.rows ≡ counts_of self.old.rows }
        ensures places { places_of self.new.rows ≡ places_of self.old.rows }
        ensures len { count_by is_some self.new.rows ≡ count_by is_some self.old.rows }
        ensures room { self.new.room ≡ self.old.room }
    {
        let (number, front) = self.rows.take_stored(place);
        record_ref::join(number, front, self.cold[place])
    }

    /// The membership of the row at this place.
    #[inline(always)]
    pub fn membership(&self, place: usize) -> Option<Membership>
        ensures membership { result ≡ membership_at self.now.rows place }
        ensures slots { IfSome result HasSlots }
    {
        let found = self.rows.at(place)?.membership()?;
        membership::counted_as(self.cold[place].counted, Some(found))
    }

    /// The slot among the timers of the row at this place.
    #[inline(always)]
    pub fn timer(&self, place: usize) -> Option<u32>
        ensures timer { result ≡ option_and_then (λ row. row.timer) (row_at self.now.rows place) }
        ensures slot { IsSlot result }
    {
        self.rows.at(place)?.timer()
    }

    /// The weight that is counted for the member at this place.
    #[inline(always)]
    pub fn counted(&self, place: usize) -> Option<u32>
        ensures { result ≡ option_map (λ m. m.counted) (membership_at self.now.rows place) }
    {
        Some(self.membership(place)?.counted)
    }

    /// Gives the member at this place another weight.
    #[inline(always)]
    pub fn set_counted(&mut self, place: usize, weight: u32)
        requires { IsSome (membership_at self.old.rows place) }
        ensures changes { RecountsRow self.old.rows self.new.rows place weight }
        ensures records { records_of self.new.rows ≡ records_of self.old.rows }
        ensures counted { counts_of self.new.rows ≡ map.insert (counts_of self.old.rows)
            (number_at self.old.rows place) weight }
        ensures places { places_of self.new.rows ≡ places_of self.old.rows }
        ensures len { count_by is_some self.new.rows ≡ count_by is_some self.old.rows }
        ensures room { self.new.room ≡ self.old.room }
    {
        self.cold[place].counted = weight;
    }

    /// Makes the row at this place a member, or gives it another membership, and returns the one that it had.
    #[inline(always)]
    pub fn set_membership(&mut self, place: usize, membership: Membership) -> Option<Membership>
        requires row { IsSome (row_at self.old.rows place) }
        requires slots { HasSlots membership }
        ensures old { result ≡ membership_at self.old.rows place }
        ensures changes { ChangesRow self.old.rows self.new.rows place
            (λ row. record row { membership = Some membership }) }
        ensures records { records_of self.new.rows ≡ records_of self.old.rows }
        ensures counted { counts_of self.new.rows ≡ map.insert (counts_of self.old.rows)
            (number_at self.old.rows place) membership.counted }
        ensures places { places_of self.new.rows ≡ places_of self.old.rows }
        ensures len { count_by is_some self.new.rows ≡ count_by is_some self.old.rows }
        ensures room { self.new.room ≡ self.old.room }
    {
        let cold = &mut self.cold[place];
        let counted = cold.counted;
        cold.counted = membership.counted;
        let old = self.rows.replace_membership(place, Some(membership));
        membership::counted_as(counted, old)
    }

    /// The row at this place is a member no longer. The answer is the membership that it had.
    #[inline(always)]
    pub fn clear_membership(&mut self, place: usize) -> Option<Membership>
        requires { IsSome (row_at self.old.rows place) }
        ensures old { result ≡ membership_at self.old.rows place }
        ensures changes { ChangesRow self.old.rows self.new.rows place (λ row. record row { membership = None }) }
        ensures records { records_of self.new.rows ≡ records_of self.old.rows }
        ensures counted { counts_of self.new.rows ≡ map.remove (counts_of self.old.rows)
            (number_at self.old.rows place) }
        ensures places { places_of self.new.rows ≡ places_of self.old.rows }
        ensures len { count_by is_some self.new.rows ≡ count_by is_some self.old.rows }
        ensures room { self.new.room ≡ self.old.room }
    {
        let counted = self.cold[place].counted;
        let old = self.rows.replace_membership(place, None);
        membership::counted_as(counted, old)
    }

    /// Gives the row at this place another timer, or none, and returns the one that it had.
    #[inline(always)]
    pub fn set_timer(&mut self, place: usize, timer: Option<u32>) -> Option<u32>
        requires row { IsSome (row_at self.old.rows place) }
        requires slot { IsSlot timer }
        ensures old { result ≡ option_and_then (λ row. row.timer) (row_at self.old.rows place) }
        ensures slot { IsSlot result }
        ensures changes { ChangesRow self.old.rows self.new.rows place (λ row. record row { timer = timer }) }
        ensures records { records_of self.new.rows ≡ records_of self.old.rows }
        ensures counted { counts_of self.new.rows ≡ counts_of self.old.rows }
        ensures places { places_of self.new.rows ≡ places_of self.old.rows }
        ensures len { count_by is_some self.new.rows ≡ count_by is_some self.old.rows }
        ensures room { self.new.room ≡ self.old.room }
    {
        self.rows.replace_timer(place, timer)
    }

    /// The row at this place goes. It has no record, no membership and no timer any more.
    #[inline(always)]
    pub fn forget(&mut self, place: usize)
    where
        K: Drop,
        V: Drop,
        requires { row_at self.old.rows place
            ≡ Some (record { number = number_at self.old.rows place; stored = None; membership = None; timer = None }) }
        ensures changes { ChangesAt (row_at self.old.rows) (row_at self.new.rows) place None }
        ensures records { records_of self.new.rows ≡ records_of self.old.rows }
        ensures counted { counts_of self.new.rows ≡ counts_of self.old.rows }
        ensures places { places_of self.new.rows ≡ map.remove (places_of self.old.rows)
            (number_at self.old.rows place) }
        ensures len { count_by is_some self.new.rows + 1 ≡ count_by is_some self.old.rows }
        ensures room { self.new.room ≡ self.old.room + 1 }
    {
        self.rows.remove(place);
    }
}
