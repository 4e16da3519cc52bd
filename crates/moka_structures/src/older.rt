//! Items under rising tickets, in a table that grows with them, and in a list if it cannot grow.
ghost use Rattle.std.specs.Prelude.{◌≡◌, ◌==◌, ◌+◌, ◌*◌, ◌<◌, ◌≤◌, ◌↔◌, ℕ, min, not, filter, find, fold, OnOk, IfOk, IfSome, IsOk, IsSome, IsNone, None, Some, option_map, vec_len, vec_capacity};
ghost use Rattle.std.specs.FinMap as map;
ghost use Rattle.moka_structures.specs.Older.{lesser};

use crate::ticket_table::TicketTable;
use std::alloc::{AllocError, Global};
use std::marker::Model;

// An item with its ticket.
#[derive(Clone, Copy)]
struct Kept<T: Copy> {
    ticket: u64,
    item: T,
}

/// Items under rising tickets, which are taken by their ticket, in any order.
///
/// `reserve` makes room in a list alone, and the table grows as items are handed out. If it is refused memory, an item
/// goes into the list, where it is searched for. So no call is refused for want of memory but `new` and `reserve`, and
/// as long as nothing is written to the list its room takes addresses and no memory.
pub struct Older<T: Copy> {
    table: TicketTable<T>,
    // The items for which the table was refused room, oldest first.
    kept: Vec<Kept<T>>,
}

// Written out so that an owner's drop is one call.
impl<T: Copy> Drop for Older<T> {
    fn drop(self) {
        let Older { table: _, kept: _ } = self;
    }
}

impl<T: Copy> Model for Older<T> {
    ghost use Rattle.std.specs.Prelude.{◌-◌, vec_capacity, vec_len};
    ghost use Rattle.moka_structures.specs.Outstanding.{Pending, pending_code};

    ghost Value = { Pending T };

    ghost coded = { pending_code T.code };

    ghost use Rattle.moka_structures.specs.Older.{with_kept, AreApart};

    ghost view = { λ a.
        record { items = with_kept a.kept.items a.table.items; room = vec_capacity a.kept - vec_len a.kept } };

    ghost invariant = { λ a. AreApart a.kept.items a.table.items };
}

impl<T: Copy> Older<T> {
    /// Nothing is out, or an error if there is no memory.
    pub fn new(alloc: Global) -> Result<Self, AllocError>
        ensures items { IfOk result (λ o. o.items ≡ map.empty) }
    {
        Ok(Older {
            table: TicketTable::new(alloc)?,
            kept: Vec::new(alloc),
        })
    }

    /// How many items are out.
    pub fn len(&self) -> usize
        ensures value { result ≡ map.len self.now.items }
        ensures small { result < usize.MAX }
    {
        self.table.len() + self.kept.len()
    }

    /// Keeps room for `additional` more items, and changes nothing if there is room. If there is too little, the room
    /// is afterwards at least twice what it was, or `usize::MAX`, so it grows seldom. An error takes neither items nor
    /// room away.
    #[inline(always)]
    pub fn reserve(&mut self, additional: usize) -> Result<(), AllocError>
        ensures room { OnOk result (additional ≤ self.new.room) }
        ensures succeeds { additional ≤ self.old.room → IsOk result }
        ensures enough { additional ≤ self.old.room → self.new ≡ self.old }
        ensures items { self.new.items ≡ self.old.items }
        ensures kept { self.old.room ≤ self.new.room }
        ensures doubles { OnOk result (self.old.room < additional → min (2 * self.old.room) usize.MAX ≤ self.new.room) }
    {
        let room = self.kept.capacity() - self.kept.len();
        if additional <= room {
            return Ok(());
        }
        // A vector promises no more than it is asked for.
        self.kept.reserve(additional.max(room.saturating_mul(2)))
    }

    /// Hands an item out under a ticket above all that are out, if there is room.
    pub fn hand_out(&mut self, ticket: u64, item: T)
        requires room { 0 < self.old.room }
        requires newest { (q : ℕ) → IsSome (map.get self.old.items q) → q < ticket }
        ensures items { self.new.items ≡ map.insert self.old.items ticket item }
        ensures room { self.old.room ≤ self.new.room + 1 }
    {
        if self.table.reserve(1).is_ok() {
            self.table.hand_out(ticket, item);
            return;
        }
        self.kept.push_reserved(Kept { ticket, item });
    }

    /// The item that is out under a ticket.
    pub fn get(&self, ticket: u64) -> Option<T>
        ensures { result ≡ map.get self.now.items ticket }
    {
        match self.table.get(ticket) {
            Some(item) => Some(item),
            None => find_kept(self.kept.as_slice(), ticket),
        }
    }

    /// Takes the item under a ticket back, if it is out. The room that this makes is not promised.
    pub fn take(&mut self, ticket: u64) -> Option<T>
        ensures item { result ≡ map.get self.old.items ticket }
        ensures items { self.new.items ≡ map.remove self.old.items ticket }
        ensures room { self.old.room ≤ self.new.room }
    {
        match self.table.take(ticket) {
            Some(item) => Some(item),
            None => take_kept(&mut self.kept, ticket),
        }
    }

    /// The least ticket that is out.
    pub fn oldest(&self) -> Option<u64>
        ensures least { IfSome result (λ t. IsSome (map.get self.now.items t)
            × ((q : ℕ) → IsSome (map.get self.now.items q) → t ≤ q)) }
        ensures none { IsNone result ↔ (self.now.items ≡ map.empty) }
    {
        oldest_with(self.table.oldest(), self.kept.as_slice())
    }
}

// The lesser of the two tickets.
fn lesser(oldest: Option<u64>, ticket: u64) -> Option<u64>
    ensures { result ≡ lesser oldest ticket }
{
    match oldest {
        Some(other) => Some(other.min(ticket)),
        None => Some(ticket),
    }
}

// The least of a ticket, if there is one, and those that are kept.
fn oldest_with<T: Copy>(oldest: Option<u64>, kept: &[Kept<T>]) -> Option<u64>
    ensures { result ≡ fold (λ o k. lesser o k.ticket) oldest kept.now }
{
    kept.iter()
        .fold(oldest, |oldest, kept| lesser(oldest, kept.ticket))
}

// The item under a ticket, if it is kept.
fn find_kept<T: Copy>(kept: &[Kept<T>], ticket: u64) -> Option<T>
    ensures { result ≡ option_map (λ k. k.item) (find (λ k. k.ticket == ticket) kept.now) }
{
    let found = kept.iter().find(|kept| kept.ticket == ticket)?;
    Some(found.item)
}

// Takes the item under a ticket out, if it is kept.
#[cold]
fn take_kept<T: Copy>(kept: &mut Vec<Kept<T>>, ticket: u64) -> Option<T>
    ensures item { result ≡ option_map (λ k. k.item) (find (λ k. k.ticket == ticket) kept.old.items) }
    ensures items { kept.new.items ≡ filter (λ k. not (k.ticket == ticket)) kept.old.items }
    ensures capacity { vec_capacity kept.new ≡ vec_capacity kept.old }
    ensures len { vec_len kept.new ≤ vec_len kept.old }
{
    let found = find_kept(kept.as_slice(), ticket);
    kept.retain(|kept| kept.ticket != ticket);
    found
}
