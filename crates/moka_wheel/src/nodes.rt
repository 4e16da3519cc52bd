//! The nodes of the wheel's lists, in one table.
ghost use Rattle.std.specs.Prelude.{◌≡◌, ◌<◌, vec_len};
ghost use Rattle.moka_links.specs.Links.{KeepsCapacity};
ghost use Rattle.moka_wheel.specs.Nodes.{at, detached, attached};

use moka_links::Node;

/// The head of the list of due timers, behind the heads of the buckets.
pub(crate) const DUE: u32 = 2048;

/// How many nodes are heads. It stands for no list where a node names its bucket: such a node is free.
pub(crate) const HEADS: u32 = 2049;

/// What a node holds: a timer, unless it is a head or free.
#[derive(Clone, Copy)]
pub(crate) struct Entry {
    /// What the timer is for.
    pub(crate) number: u64,
    /// When the timer is due, in nanoseconds.
    pub(crate) at: u64,
    /// The head of the list in which the node stands.
    pub(crate) bucket: u32,
}

/// Takes the timer in `slot` out of its list.
pub(crate) fn detach(nodes: &mut Vec<Node<Entry>>, slot: u32)
    requires slot { slot < vec_len nodes.old }
    requires before { (at nodes.old.items slot).before < vec_len nodes.old }
    requires behind { (at nodes.old.items slot).behind < vec_len nodes.old }
    ensures nodes { nodes.new.items ≡ detached nodes.old.items slot }
    ensures capacity { KeepsCapacity nodes.old nodes.new }
{
    let nodes = nodes.as_mut_slice();
    moka_links::detach(nodes, slot);
    nodes[slot as usize].value.bucket = HEADS;
}

/// Puts the timer in `slot` behind all others of a bucket.
pub(crate) fn attach(nodes: &mut Vec<Node<Entry>>, slot: u32, bucket: u32)
    requires slot { slot < vec_len nodes.old }
    requires bucket { bucket < vec_len nodes.old }
    requires last { (at nodes.old.items bucket).before < vec_len nodes.old }
    ensures nodes { nodes.new.items ≡ attached nodes.old.items slot bucket }
    ensures capacity { KeepsCapacity nodes.old nodes.new }
{
    let nodes = nodes.as_mut_slice();
    moka_links::attach(nodes, slot, bucket);
    nodes[slot as usize].value.bucket = bucket;
}
