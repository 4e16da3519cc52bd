//! The order of writing, if it is kept, with the cursor of a scan.
ghost use Rattle.std.specs.Prelude.{◌≡◌, ◌<◌, ◌≤◌, ◌⊎◌, ℕ, false, [], ◌∷◌, ◌++◌, length, OnOk, IfOk, IsOk, IfSome, IfNone, IsSome, is_some, None, Some, nat_eq, slice_get, if◌then◌else◌};
ghost use Rattle.std.specs.Map.{lookup, remove_entry};
ghost use Rattle.moka_store.specs.WriteList.{node_past, IsCursor};
ghost use Rattle.moka_structures.specs.OrderList.{next_after};
ghost use Rattle.moka_table.specs.Slots.{IsSlot};

use moka_structures::OrderList;
use std::alloc::{AllocError, Global};
use std::marker::Model;

/// The places of rows in the order of writing, if that order is kept, and a cursor at one of them.
///
/// If it is not kept, each call does nothing.
///
/// moka: `common::concurrent::deques::Deques::write_order`, with the cursor that `common::deque::Deque` has.
pub(crate) struct WriteList {
    list: Option<OrderList<u32>>,
    // The slot and the place where the cursor stands; none is the front.
    cursor: Option<(u32, u32)>,
}

// Written out so that an owner's drop is one call.
impl Drop for WriteList {
    fn drop(self) {
        let WriteList { list: _, cursor: _ } = self;
    }
}

impl Model for WriteList {
    ghost use Rattle.moka_store.specs.WriteList.{Listing};

    ghost Value = { Listing };

    ghost use Rattle.moka_store.specs.WriteList.{listing_of, IsCursor};

    ghost view = { λ a. listing_of a.list a.cursor };

    ghost invariant = { λ a. IsCursor (listing_of a.list a.cursor).nodes a.cursor };
}

impl WriteList {
    /// An empty list; no place is ever kept unless `ordered` is set.
    pub fn new(alloc: Global, ordered: bool) -> Result<Self, AllocError>
        ensures { IfOk result (λ w. w ≡ record { nodes = []; cursor = None; most = w.most; ordered = ordered }) }
    {
        let list = if ordered {
            Some(OrderList::new(alloc, 0)?)
        } else {
            None
        };
        Ok(WriteList { list, cursor: None })
    }

    /// Makes room for so many places in all, and changes nothing if there is room.
    #[inline(always)]
    pub fn reserve(&mut self, places: usize) -> Result<(), AllocError>
        ensures room { OnOk result (places ≤ self.new.most) }
        ensures succeeds { places ≤ self.old.most → IsOk result }
        ensures enough { places ≤ self.old.most → self.new ≡ self.old }
        ensures rest { self.new ≡ record self.old { most = self.new.most } }
        ensures kept { self.old.most ≤ self.new.most }
    {
        let Some(list) = &mut self.list else {
            return Ok(());
        };
        list.reserve(places.saturating_sub(list.len()))
    }

    /// Puts a place behind all others. The answer is its slot.
    #[inline(always)]
    pub fn push_back(&mut self, place: u32) -> Option<u32>
        requires { length self.old.nodes < self.old.most }
        ensures kept { is_some result ≡ self.old.ordered }
        ensures fresh { IfSome result (λ slot. lookup (nat_eq slot) self.old.nodes ≡ None) }
        ensures slot { IsSlot result }
        ensures nodes { IfSome result (λ slot. self.new.nodes ≡ self.old.nodes ++ (slot, place) ∷ []) }
        ensures lookups { IfSome result (λ slot. (s : ℕ)
            → lookup (nat_eq s) self.new.nodes
            ≡ (if nat_eq s slot then Some place else lookup (nat_eq s) self.old.nodes)) }
        ensures rest { self.new ≡ record self.old { nodes = self.new.nodes } }
        ensures unkept { IfNone result (self.new ≡ self.old) }
        ensures cursor { IsCursor self.new.nodes self.new.cursor }
    {
        let list = self.list.as_mut()?;
        Some(list.push_back(place))
    }

    /// Moves the place in `slot` behind all others. A cursor there goes to the one that stood behind it.
    #[inline(always)]
    pub fn move_to_back(&mut self, slot: Option<u32>)
        requires { IfSome slot (λ s. IsSome (lookup (nat_eq s) self.old.nodes)) }
        ensures nodes { IfSome slot (λ s. (place : ℕ) → lookup (nat_eq s) self.old.nodes ≡ Some place
            → self.new.nodes ≡ remove_entry (nat_eq s) self.old.nodes ++ (s, place) ∷ []) }
        ensures lookups { (s : ℕ) → lookup (nat_eq s) self.new.nodes ≡ lookup (nat_eq s) self.old.nodes }
        ensures rest { self.new
            ≡ record self.old { nodes = self.new.nodes; cursor = node_past slot self.old.nodes self.old.cursor } }
        ensures absent { IfNone slot (self.new ≡ self.old) }
        ensures cursor { IsCursor self.new.nodes self.new.cursor }
    {
        if let Some(slot) = slot {
            if let Some(list) = &mut self.list {
                self.cursor = past(list, slot, self.cursor);
                list.move_to_back(slot);
            }
        }
    }

    /// Takes the place in `slot` out. A cursor there goes to the one that stood behind it.
    #[inline(always)]
    pub fn unlink(&mut self, slot: Option<u32>)
        requires { IfSome slot (λ s. IsSome (lookup (nat_eq s) self.old.nodes)) }
        ensures nodes { IfSome slot (λ s. self.new.nodes ≡ remove_entry (nat_eq s) self.old.nodes) }
        ensures lookups { IfSome slot (λ s. (other : ℕ)
            → lookup (nat_eq other) self.new.nodes
            ≡ (if nat_eq s other then None else lookup (nat_eq other) self.old.nodes)) }
        ensures rest { self.new
            ≡ record self.old { nodes = self.new.nodes; cursor = node_past slot self.old.nodes self.old.cursor } }
        ensures absent { IfNone slot (self.new ≡ self.old) }
        ensures cursor { IsCursor self.new.nodes self.new.cursor }
    {
        if let Some(slot) = slot {
            if let Some(list) = &mut self.list {
                self.cursor = past(list, slot, self.cursor);
                let _place = list.unlink(slot);
            }
        }
    }

    /// What always holds of the list: one that is not kept is empty. It does nothing when it runs.
    pub fn invariant_holds(&self)
        ensures { self.now.ordered ≡ false → self.now.nodes ≡ [] }
    {
        match &self.list {
            Some(_) => {}
            None => {}
        }
    }

    /// The slot of the first place, and that place.
    #[inline(always)]
    pub fn front(&self) -> Option<(u32, u32)>
        ensures front { result ≡ slice_get self.now.nodes 0 }
        ensures found { IfSome result (λ m. lookup (nat_eq m.0) self.now.nodes ≡ Some m.1) }
    {
        self.list.as_ref()?.front()
    }

    /// The slot of the place behind the one in `slot`, and that place.
    #[inline(always)]
    pub fn next(&self, slot: Option<u32>) -> Option<(u32, u32)>
        requires { IfSome slot (λ s. IsSome (lookup (nat_eq s) self.now.nodes)) }
        ensures next { IfSome slot (λ s. result ≡ next_after s self.now.nodes) }
        ensures found { IfSome result (λ m. lookup (nat_eq m.0) self.now.nodes ≡ Some m.1) }
        ensures absent { IfNone slot (result ≡ None) }
    {
        let slot = slot?;
        self.list.as_ref()?.next(slot)
    }

    /// The slot and the place where the cursor stands.
    pub fn cursor(&self) -> Option<(u32, u32)>
        ensures cursor { result ≡ self.now.cursor }
        ensures found { IfSome result (λ m. lookup (nat_eq m.0) self.now.nodes ≡ Some m.1) }
    {
        self.cursor
    }

    /// Puts the cursor at the place in a slot, or at the front.
    pub fn set_cursor(&mut self, node: Option<(u32, u32)>)
        requires { IfSome node (λ m. lookup (nat_eq m.0) self.old.nodes ≡ Some m.1) }
        ensures step { self.new ≡ record self.old { cursor = node } }
        ensures cursor { IsCursor self.new.nodes self.new.cursor }
    {
        self.cursor = node;
    }
}

// Where the cursor stands once the place in `slot` has moved or left.
fn past(list: &OrderList<u32>, slot: u32, cursor: Option<(u32, u32)>) -> Option<(u32, u32)>
    requires { IsSome (lookup (nat_eq slot) list.now.members) }
    ensures past { result ≡ node_past (Some slot) list.now.members cursor }
    ensures found { IfSome result (λ m. (cursor ≡ Some m) ⊎ (lookup (nat_eq m.0) list.now.members ≡ Some m.1)) }
    ensures other { IfSome result (λ m. nat_eq slot m.0 ≡ false) }
{
    match cursor {
        Some((at, _)) if slot == at => list.next(slot),
        _ => cursor,
    }
}
