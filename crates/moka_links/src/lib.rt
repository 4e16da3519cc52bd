//! Nodes in one table that are linked by their slots: rings, each closed at its head, and chains of free slots.
//!
//! The calls take a slice, so that several changes in a row load the table's address once.
//!
//! In the contracts `past` is the value that is read past the last node; they hold whichever it is.
#![tactic(auto)]

ghost use Rattle.std.specs.Prelude.{◌≡◌, ◌<◌, length};
ghost use Rattle.moka_links.specs.Links.{attached, befores, behinds, detached};

/// A value with the slots of its neighbours.
#[derive(Clone, Copy)]
pub struct Node<T> {
    /// What the node holds.
    pub value: T,
    /// The slot before this one in its ring.
    pub before: u32,
    /// The slot behind this one in its ring, or the next free one.
    pub behind: u32,
}

/// Takes the node at `slot` out of its ring. Its own links stay as they are.
#[inline(always)]
pub fn detach<T>(nodes: &mut [Node<T>], slot: u32)
    requires slot { slot < length nodes.old }
    requires before { (past : T) → befores past nodes.old slot < length nodes.old }
    requires behind { (past : T) → behinds past nodes.old slot < length nodes.old }
    ensures nodes { (past : T) → nodes.new ≡ detached past nodes.old slot }
{
    let before = nodes[slot as usize].before;
    let behind = nodes[slot as usize].behind;
    nodes[before as usize].behind = behind;
    nodes[behind as usize].before = before;
}

/// Puts the node at `slot` before `head`, which is behind all others of that ring.
#[inline(always)]
pub fn attach<T>(nodes: &mut [Node<T>], slot: u32, head: u32)
    requires slot { slot < length nodes.old }
    requires head { head < length nodes.old }
    requires last { (past : T) → befores past nodes.old head < length nodes.old }
    ensures nodes { (past : T) → nodes.new ≡ attached past nodes.old slot head }
{
    let last = nodes[head as usize].before;
    nodes[slot as usize].before = last;
    nodes[slot as usize].behind = head;
    nodes[last as usize].behind = slot;
    nodes[head as usize].before = slot;
}
