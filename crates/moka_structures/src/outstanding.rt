//! Operations that were handed out and have not come back.
ghost use Rattle.std.specs.Prelude.{◌≡◌, ◌+◌, ◌*◌, ◌<◌, ◌≤◌, ◌↔◌, ℕ, min, OnOk, IfOk, IfSome, IsOk, IsSome, IsNone, None, Some, is_some, nat_eq, slice_get, if◌then◌else◌};
ghost use Rattle.std.specs.FinMap as map;

use crate::older::Older;
use std::alloc::{AllocError, Global};
use std::marker::Model;

// The item that was handed out last.
#[derive(Clone, Copy)]
struct Newest<T: Copy> {
    ticket: u64,
    item: T,
}

/// Items that were handed out under rising tickets and not taken back. They are taken by their ticket, in any
/// order. Only `new` and `reserve` are refused if memory is.
///
/// The newest stands beside the others, so whoever takes each item before the next is handed out never reaches them.
pub struct Outstanding<T: Copy> {
    newest: Option<Newest<T>>,
    older: Older<T>,
}

// Written out so that an owner's drop is one call.
impl<T: Copy> Drop for Outstanding<T> {
    fn drop(self) {
        let Outstanding {
            newest: _,
            older: _,
        } = self;
    }
}

impl<T: Copy> Model for Outstanding<T> {
    ghost use Rattle.moka_structures.specs.Outstanding.{Pending, pending_code};

    ghost Value = { Pending T };

    ghost coded = { pending_code T.code };

    ghost use Rattle.moka_structures.specs.Newest.{with_newest, AreOlder};

    ghost view = { λ a. record a.older { items = with_newest a.newest a.older.items } };

    ghost invariant = { λ a. AreOlder a.newest a.older.items };
}

impl<T: Copy> Outstanding<T> {
    /// Nothing is out, or an error if there is no memory.
    pub fn new(alloc: Global) -> Result<Self, AllocError>
        ensures items { IfOk result (λ o. o.items ≡ map.empty) }
        ensures gets { IfOk result (λ o. (q : ℕ) → map.get o.items q ≡ None) }
        ensures len { IfOk result (λ o. map.len o.items ≡ 0) }
    {
        Ok(Outstanding {
            newest: None,
            older: Older::new(alloc)?,
        })
    }

    /// How many items are out.
    pub fn len(&self) -> usize
        ensures { result ≡ map.len self.now.items }
    {
        match self.newest {
            Some(_) => self.older.len() + 1,
            None => self.older.len(),
        }
    }

    /// Whether no item is out.
    pub fn is_empty(&self) -> bool
        ensures { result ≡ nat_eq (map.len self.now.items) 0 }
    {
        self.len() == 0
    }

    /// Keeps room for `additional` more items, and changes nothing if there is room. If there is too little, the room
    /// is afterwards at least twice what it was, or `usize::MAX`, so it grows seldom. An error takes neither items nor
    /// room away.
    pub fn reserve(&mut self, additional: usize) -> Result<(), AllocError>
        ensures room { OnOk result (additional ≤ self.new.room) }
        ensures succeeds { additional ≤ self.old.room → IsOk result }
        ensures enough { additional ≤ self.old.room → self.new ≡ self.old }
        ensures items { self.new.items ≡ self.old.items }
        ensures kept { self.old.room ≤ self.new.room }
        ensures doubles { OnOk result (self.old.room < additional → min (2 * self.old.room) usize.MAX ≤ self.new.room) }
    {
        self.older.reserve(additional)
    }

    /// Hands an item out under a ticket above all that are out, if there is room.
    #[inline(always)]
    pub fn hand_out(&mut self, ticket: u64, item: T)
        requires room { 0 < self.old.room }
        requires newest { (q : ℕ) → IsSome (map.get self.old.items q) → q < ticket }
        ensures items { self.new.items ≡ map.insert self.old.items ticket item }
        ensures gets { (q : ℕ)
            → map.get self.new.items q ≡ (if nat_eq ticket q then Some item else map.get self.old.items q) }
        ensures newest { (q : ℕ) → IsSome (map.get self.new.items q) → q ≤ ticket }
        ensures len { map.len self.new.items ≡ map.len self.old.items + 1 }
        ensures room { self.old.room ≤ self.new.room + 1 }
    {
        let Some(before) = self.newest.replace(Newest { ticket, item }) else {
            return;
        };
        self.older.hand_out(before.ticket, before.item);
    }

    /// The item that is out under a ticket.
    #[inline(always)]
    pub fn get(&self, ticket: u64) -> Option<T>
        ensures { result ≡ map.get self.now.items ticket }
    {
        match self.newest {
            Some(newest) if newest.ticket == ticket => Some(newest.item),
            _ => self.older.get(ticket),
        }
    }

    /// Whether an item is out under a ticket.
    #[inline(always)]
    pub fn contains(&self, ticket: u64) -> bool
        ensures { result ≡ is_some (map.get self.now.items ticket) }
    {
        self.get(ticket).is_some()
    }

    /// Takes the item under a ticket back, if it is out. The room that this makes is not promised.
    #[inline(always)]
    pub fn take(&mut self, ticket: u64) -> Option<T>
        ensures item { result ≡ map.get self.old.items ticket }
        ensures items { self.new.items ≡ map.remove self.old.items ticket }
        ensures gets { (q : ℕ)
            → map.get self.new.items q ≡ (if nat_eq ticket q then None else map.get self.old.items q) }
        ensures left { (q : ℕ) → IsSome (map.get self.new.items q) → IsSome (map.get self.old.items q) }
        ensures len { map.len self.new.items + (if is_some result then 1 else 0) ≡ map.len self.old.items }
        ensures room { self.old.room ≤ self.new.room }
    {
        match self.newest {
            Some(newest) if newest.ticket == ticket => {
                self.newest = None;
                Some(newest.item)
            }
            _ => self.older.take(ticket),
        }
    }

    /// The least ticket that is out.
    pub fn oldest(&self) -> Option<u64>
        ensures first { result ≡ slice_get (map.keys self.now.items) 0 }
        ensures least { IfSome result (λ t. IsSome (map.get self.now.items t)
            × ((q : ℕ) → IsSome (map.get self.now.items q) → t ≤ q)) }
        ensures none { IsNone result ↔ (self.now.items ≡ map.empty) }
    {
        if let Some(ticket) = self.older.oldest() {
            return Some(ticket);
        }
        match self.newest {
            Some(newest) => Some(newest.ticket),
            None => None,
        }
    }
}
