//! An order of values as linked nodes in one table.
ghost use Rattle.std.specs.Prelude.{◌≡◌, ◌≢◌, ◌+◌, ◌-◌, ◌*◌, ◌^◌, ◌<◌, ◌≤◌, ℕ, min, [], ◌∷◌, ◌++◌, length, ◌↔◌, OnErr, OnOk, IfOk, IsOk, IfSome, IsSome, IsNone, None, Some, nat_eq, slice_get, vec_len, if◌then◌else◌};
ghost use Rattle.std.specs.Map.{lookup, remove_entry, keys_of};
ghost use Rattle.std.specs.List.{IsDistinct};
ghost use Rattle.moka_links.specs.Links.{KeepsCapacity};
ghost use Rattle.moka_structures.specs.Links.{at, detached, attached, with_behind, with_value};
ghost use Rattle.moka_structures.specs.OrderList.{moved_to_back, next_after};

use moka_links::{Node, attach, detach};
use std::alloc::{AllocError, Global};
use std::marker::Model;

// A slot is a `u32`.
const MAX_NODES: usize = 1 << 32;

// The slot where the ring begins and ends.
const SENTINEL: u32 = 0;

// In the contracts `past` is the value that is read past the last node; they hold whichever it is.

// Takes the node at `slot` out of the ring, and puts it before the free ones.
#[inline(always)]
fn release<T>(nodes: &mut Vec<Node<T>>, slot: u32, free: u32)
    requires slot { slot < vec_len nodes.old }
    requires before { (past : T) → (at past nodes.old.items slot).before < vec_len nodes.old }
    requires behind { (past : T) → (at past nodes.old.items slot).behind < vec_len nodes.old }
    ensures nodes { (past : T) → nodes.new.items ≡ with_behind past (detached past nodes.old.items slot) slot free }
    ensures capacity { KeepsCapacity nodes.old nodes.new }
{
    let nodes = nodes.as_mut_slice();
    detach(nodes, slot);
    nodes[slot as usize].behind = free;
}

// Puts the node at `slot` behind all others.
#[inline(always)]
fn append<T>(nodes: &mut Vec<Node<T>>, slot: u32)
    requires slot { slot < vec_len nodes.old }
    requires last { (past : T) → (at past nodes.old.items 0).before < vec_len nodes.old }
    ensures nodes { (past : T) → nodes.new.items ≡ attached past nodes.old.items slot }
    ensures capacity { KeepsCapacity nodes.old nodes.new }
{
    attach(nodes.as_mut_slice(), slot, SENTINEL);
}

// Takes the node at `slot` out of the ring, and puts it behind all others.
#[inline(always)]
fn relink<T>(nodes: &mut Vec<Node<T>>, slot: u32)
    requires slot { slot < vec_len nodes.old }
    requires before { (past : T) → (at past nodes.old.items slot).before < vec_len nodes.old }
    requires behind { (past : T) → (at past nodes.old.items slot).behind < vec_len nodes.old }
    requires last { (past : T) → (at past (detached past nodes.old.items slot) 0).before < vec_len nodes.old }
    ensures nodes { (past : T) → nodes.new.items ≡ attached past (detached past nodes.old.items slot) slot }
    ensures capacity { KeepsCapacity nodes.old nodes.new }
{
    let table = nodes.as_mut_slice();
    detach(table, slot);
    attach(table, slot, SENTINEL);
}

// Gives the free node at `slot` a value and attaches it. The answer is the slot that was free behind it.
#[inline(always)]
fn reuse<T: Copy>(nodes: &mut Vec<Node<T>>, slot: u32, value: T) -> u32
    requires slot { slot < vec_len nodes.old }
    requires last { (past : T) → (at past nodes.old.items 0).before < vec_len nodes.old }
    ensures next { (past : T) → result ≡ (at past nodes.old.items slot).behind }
    ensures nodes { (past : T) → nodes.new.items ≡ attached past (with_value past nodes.old.items slot value) slot }
    ensures capacity { KeepsCapacity nodes.old nodes.new }
{
    let nodes = nodes.as_mut_slice();
    let next = nodes[slot as usize].behind;
    nodes[slot as usize].value = value;
    attach(nodes, slot, SENTINEL);
    next
}

/// Values in an order, each in a slot of its own by which it is found again. At most 2^32 - 1 values are in.
/// No call takes longer in a longer list, and only `new` and `reserve` ask for memory.
///
/// moka: `common::deque::Deque`, whose nodes are reached by raw pointers; here a slot stands for the pointer.
pub struct OrderList<T: Copy> {
    // The ring, and the free nodes, each of which leads to the next.
    nodes: Vec<Node<T>>,
    len: usize,
    free: u32,
    // What the sentinel holds. Nobody asks for it.
    blank: T,
}

// Written out so that an owner's drop is one call.
impl<T: Copy> Drop for OrderList<T> {
    fn drop(self) {
        let OrderList {
            nodes: _,
            len: _,
            free: _,
            blank: _,
        } = self;
    }
}

impl<T: Copy> Model for OrderList<T> {
    ghost use Rattle.std.specs.Prelude.{◌-◌, ◌^◌, min, vec_capacity};
    ghost use Rattle.moka_structures.specs.OrderList.{Order, order_code};

    ghost Value = { Order T };

    ghost coded = { order_code T.code };

    ghost use Rattle.moka_structures.specs.Links.{members_of, IsOrder};

    ghost view = { λ a. record {
      members = members_of a.blank a.nodes.items a.len;
      room = min (vec_capacity a.nodes) (2 ^ 32) - 1 - a.len;
    } };

    ghost invariant = { λ a. IsOrder a.blank a.nodes.items a.len a.free };
}

impl<T: Copy> OrderList<T> {
    /// An empty list, or an error if there is no memory for the sentinel, which holds `blank`.
    ///
    /// moka: `Deque::new`.
    pub fn new(alloc: Global, blank: T) -> Result<Self, AllocError>
        ensures { IfOk result (λ o. o.members ≡ []) }
    {
        let mut nodes = Vec::with_capacity(alloc, 1)?;
        nodes.push_reserved(Node {
            value: blank,
            before: SENTINEL,
            behind: SENTINEL,
        });
        Ok(OrderList {
            nodes,
            len: 0,
            free: 0,
            blank,
        })
    }

    /// How many values are in.
    ///
    /// moka: `Deque::len`.
    pub fn len(&self) -> usize
        ensures value { result ≡ length self.now.members }
        ensures few { result < 2 ^ 32 }
    {
        self.len
    }

    /// Whether no value is in.
    pub fn is_empty(&self) -> bool
        ensures { result ≡ nat_eq (length self.now.members) 0 }
    {
        self.len == 0
    }

    /// Makes room for `additional` more values, and changes nothing if there is room. If there is too little, the
    /// values that fit are afterwards at least twice as many as before, or 2^32 - 1, so a list grows seldom as it
    /// fills. An error leaves the list as it was: there is no memory, or the list would be longer than its slots can
    /// tell.
    #[inline(always)]
    pub fn reserve(&mut self, additional: usize) -> Result<(), AllocError>
        ensures room { OnOk result (additional ≤ self.new.room) }
        ensures succeeds { additional ≤ self.old.room → IsOk result }
        ensures enough { additional ≤ self.old.room → self.new ≡ self.old }
        ensures err { OnErr result (self.new ≡ self.old) }
        ensures members { self.new.members ≡ self.old.members }
        ensures kept { self.old.room ≤ self.new.room }
        ensures doubles { OnOk result (self.old.room < additional
            → min (2 * (length self.old.members + self.old.room)) (2 ^ 32 - 1)
            ≤ length self.new.members + self.new.room) }
    {
        let room = self.nodes.capacity().min(MAX_NODES) - 1 - self.len;
        if additional <= room {
            return Ok(());
        }
        if additional > MAX_NODES - 1 - self.len {
            return Err(AllocError);
        }
        let missing = additional - (self.nodes.len() - 1 - self.len);
        // A vector promises no more than it is asked for.
        let twice = 2 * self.nodes.capacity() - self.nodes.len();
        self.nodes.reserve(missing.max(twice))
    }

    /// Puts a value behind all others, if there is room. The answer is its slot, which is not 0, and which no
    /// other value has while it is in.
    ///
    /// moka: `Deque::push_back`.
    #[inline(always)]
    pub fn push_back(&mut self, value: T) -> u32
        requires { 0 < self.old.room }
        ensures fresh { lookup (nat_eq result) self.old.members ≡ None }
        ensures positive { 0 < result }
        ensures members { self.new.members ≡ self.old.members ++ (result, value) ∷ [] }
        ensures len { length self.new.members ≡ length self.old.members + 1 }
        ensures few { length self.new.members < 2 ^ 32 }
        ensures lookups { (s : ℕ) → lookup (nat_eq s) self.new.members
            ≡ (if nat_eq s result then Some value else lookup (nat_eq s) self.old.members) }
        ensures distinct { IsDistinct nat_eq (keys_of self.old.members) }
        ensures room { self.new.room + 1 ≡ self.old.room }
    {
        if self.len + 1 < self.nodes.len() {
            let slot = self.free;
            self.free = reuse(&mut self.nodes, slot, value);
            self.len += 1;
            return slot;
        }
        let slot = self.nodes.len() as u32;
        self.nodes.push_reserved(Node {
            value,
            before: SENTINEL,
            behind: SENTINEL,
        });
        append(&mut self.nodes, slot);
        self.len += 1;
        slot
    }

    /// Moves the value in `slot` behind all others. It stays in its slot.
    ///
    /// moka: `Deque::move_to_back`.
    #[inline(always)]
    pub fn move_to_back(&mut self, slot: u32)
        requires { IsSome (lookup (nat_eq slot) self.old.members) }
        ensures members { (value : T) → lookup (nat_eq slot) self.old.members ≡ Some value
            → self.new.members ≡ moved_to_back slot value self.old.members }
        ensures len { length self.new.members ≡ length self.old.members }
        ensures lookups { (s : ℕ) → lookup (nat_eq s) self.new.members ≡ lookup (nat_eq s) self.old.members }
        ensures distinct { IsDistinct nat_eq (keys_of self.old.members) }
        ensures room { self.new.room ≡ self.old.room }
    {
        relink(&mut self.nodes, slot);
    }

    /// Takes the value in `slot` out and gives it back. The slot may be given to a later value.
    ///
    /// moka: `Deque::unlink_and_drop`.
    #[inline(always)]
    pub fn unlink(&mut self, slot: u32) -> T
        requires { IsSome (lookup (nat_eq slot) self.old.members) }
        ensures value { lookup (nat_eq slot) self.old.members ≡ Some result }
        ensures members { self.new.members ≡ remove_entry (nat_eq slot) self.old.members }
        ensures len { length self.new.members + 1 ≡ length self.old.members }
        ensures lookups { (s : ℕ) → lookup (nat_eq s) self.new.members
            ≡ (if nat_eq slot s then None else lookup (nat_eq s) self.old.members) }
        ensures distinct { IsDistinct nat_eq (keys_of self.old.members) }
        ensures room { self.new.room ≡ self.old.room + 1 }
    {
        let value = self.nodes[slot as usize].value;
        release(&mut self.nodes, slot, self.free);
        self.free = slot;
        self.len -= 1;
        value
    }

    /// The slot of the first value, and that value.
    ///
    /// moka: `Deque::peek_front`.
    #[inline(always)]
    pub fn front(&self) -> Option<(u32, T)>
        ensures front { result ≡ slice_get self.now.members 0 }
        ensures found { IfSome result (λ m. lookup (nat_eq m.0) self.now.members ≡ Some m.1) }
        ensures none { IsNone result ↔ (length self.now.members ≡ 0) }
        ensures distinct { IsDistinct nat_eq (keys_of self.now.members) }
    {
        let slot = self.nodes[0].behind;
        if slot == 0 {
            return None;
        }
        Some((slot, self.nodes[slot as usize].value))
    }

    /// The slot of the value behind the one in `slot`, and that value.
    ///
    /// moka: `DeqNode::next_node_ptr`.
    #[inline(always)]
    pub fn next(&self, slot: u32) -> Option<(u32, T)>
        requires { IsSome (lookup (nat_eq slot) self.now.members) }
        ensures next { result ≡ next_after slot self.now.members }
        ensures found { IfSome result (λ m. lookup (nat_eq m.0) self.now.members ≡ Some m.1) }
        ensures other { IfSome result (λ m. m.0 ≢ slot) }
        ensures distinct { IsDistinct nat_eq (keys_of self.now.members) }
    {
        let next = self.nodes[slot as usize].behind;
        if next == 0 {
            return None;
        }
        Some((next, self.nodes[next as usize].value))
    }
}
