//! Items under rising tickets, in a table with the order of their tickets.
ghost use Rattle.std.specs.Prelude.{◌≡◌, ◌+◌, ◌^◌, ◌<◌, ◌≤◌, ◌↔◌, ℕ, OnOk, IfOk, IfSome, IsOk, IsSome, IsNone, None, Some};
ghost use Rattle.std.specs.FinMap as map;

use crate::OrderList;
use std::alloc::{AllocError, Global};
use std::collections::HashMap;
use std::marker::Model;

// An item, and where its ticket stands in the order.
#[derive(Clone, Copy)]
struct Waiting<T: Copy> {
    slot: u32,
    item: T,
}

/// Items under rising tickets, which are taken by their ticket, in any order. Only `new` and `reserve` ask for memory.
pub struct TicketTable<T: Copy> {
    order: OrderList<u64>,
    waiting: HashMap<u64, Waiting<T>>,
}

// Written out so that an owner's drop is one call.
impl<T: Copy> Drop for TicketTable<T> {
    fn drop(self) {
        let TicketTable {
            order: _,
            waiting: _,
        } = self;
    }
}

impl<T: Copy> Model for TicketTable<T> {
    ghost use Rattle.std.specs.Prelude.{min};
    ghost use Rattle.std.specs.HashMap.{spare};
    ghost use Rattle.moka_structures.specs.Outstanding.{Pending, pending_code};

    ghost Value = { Pending T };

    ghost coded = { pending_code T.code };

    ghost use Rattle.moka_structures.specs.TicketTable.{items_of, IsTicketTable};

    ghost view = { λ a. record { items = items_of a.waiting; room = min a.order.room (spare a.waiting) } };

    ghost invariant = { λ a. IsTicketTable a.order.members a.waiting };
}

impl<T: Copy> TicketTable<T> {
    /// Nothing is out, or an error if there is no memory.
    pub fn new(alloc: Global) -> Result<Self, AllocError>
        ensures items { IfOk result (λ o. o.items ≡ map.empty) }
    {
        Ok(TicketTable {
            order: OrderList::new(alloc, 0)?,
            waiting: HashMap::new(alloc),
        })
    }

    /// How many items are out.
    pub fn len(&self) -> usize
        ensures value { result ≡ map.len self.now.items }
        ensures small { result < 2 ^ 63 }
    {
        self.waiting.len()
    }

    /// Makes room for `additional` more items, and changes nothing if there is room. An error takes neither items
    /// nor room away.
    pub fn reserve(&mut self, additional: usize) -> Result<(), AllocError>
        ensures room { OnOk result (additional ≤ self.new.room) }
        ensures succeeds { additional ≤ self.old.room → IsOk result }
        ensures enough { additional ≤ self.old.room → self.new ≡ self.old }
        ensures items { self.new.items ≡ self.old.items }
        ensures kept { self.old.room ≤ self.new.room }
    {
        self.order.reserve(additional)?;
        if additional <= self.waiting.capacity() - self.waiting.len() {
            return Ok(());
        }
        self.waiting.reserve(additional)
    }

    /// Hands an item out under a ticket above all that are out, if there is room.
    pub fn hand_out(&mut self, ticket: u64, item: T)
        requires room { 0 < self.old.room }
        requires newest { (q : ℕ) → IsSome (map.get self.old.items q) → q < ticket }
        ensures items { self.new.items ≡ map.insert self.old.items ticket item }
        ensures room { self.old.room ≤ self.new.room + 1 }
    {
        let slot = self.order.push_back(ticket);
        let waiting = Waiting { slot, item };
        match self.waiting.insert(ticket, waiting) {
            Ok(_) => {}
            Err(_) => unreachable!(),
        }
    }

    /// The item that is out under a ticket.
    pub fn get(&self, ticket: u64) -> Option<T>
        ensures { result ≡ map.get self.now.items ticket }
    {
        match self.waiting.get(&ticket) {
            Some(waiting) => Some(waiting.item),
            None => None,
        }
    }

    /// Takes the item under a ticket back, if it is out. The room that this makes is not promised.
    pub fn take(&mut self, ticket: u64) -> Option<T>
        ensures item { result ≡ map.get self.old.items ticket }
        ensures items { self.new.items ≡ map.remove self.old.items ticket }
        ensures room { self.old.room ≤ self.new.room }
    {
        match self.waiting.remove(&ticket) {
            Some(waiting) => {
                let _ticket = self.order.unlink(waiting.slot);
                Some(waiting.item)
            }
            None => None,
        }
    }

    /// The least ticket that is out.
    pub fn oldest(&self) -> Option<u64>
        ensures least { IfSome result (λ t. IsSome (map.get self.now.items t)
            × ((q : ℕ) → IsSome (map.get self.now.items q) → t ≤ q)) }
        ensures none { IsNone result ↔ (self.now.items ≡ map.empty) }
    {
        match self.order.front() {
            Some((_, ticket)) => Some(ticket),
            None => None,
        }
    }
}
