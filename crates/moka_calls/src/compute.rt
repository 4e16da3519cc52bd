//! What entry calls that compute a key's value are answered by, and answer. moka: `ops::compute`.
use crate::entry::CacheEntry;
use crate::error::NotTold;
use moka_parts::error::{InsertRefused, OutOfMemory};
use std::error::Error;
use std::fmt;

/// What a closure of `and_compute_with` answers. moka: `ops::compute::Op`.
#[derive(Debug, Drop)]
pub enum Op<V> {
    /// Do no more than the look-up did.
    Nop,
    /// Put this value under the key.
    Put(V),
    /// Take the key out, if the closure saw a value.
    Remove,
}

/// What `and_compute_with` did. moka: `ops::compute::CompResult`.
#[derive(Debug, Drop)]
pub enum CompResult<K, V> {
    /// The value was put, and the closure had seen none. A cache of capacity 0 answers this too, and drops it.
    Inserted(CacheEntry<K, V>),
    /// The value was put, and the closure had seen another.
    ReplacedWith(CacheEntry<K, V>),
    /// The key was taken out, with this value.
    Removed(CacheEntry<K, V>),
    /// No value was put, and none was seen, or what was seen has left already. The key comes back.
    StillNone(K),
    /// Nothing was done, and the closure had seen this value.
    Unchanged(CacheEntry<K, V>),
}

/// Why `and_compute_with` did not do what its closure asked for.
#[derive(Debug, Drop)]
pub enum ComputeRefused<K, V> {
    /// Memory for a clone of the value that is there was refused. Nothing has changed, and the key comes back.
    Lookup(K),
    /// The value was not put, since memory for a clone of it or of the key, or for the insert, was refused, or tickets
    /// are used up. The look-up stands, and key and value come back.
    Insert(InsertRefused<K, V>),
    /// The key was taken out, and the listener was not notified, since memory for a clone was refused. Key and value
    /// come back.
    NotTold(K, NotTold<V>),
}

impl<K, V> fmt::Display for ComputeRefused<K, V> {
    ghost use Rattle.std.specs.Prelude.{Some};
    ghost use Rattle.moka_calls.specs.Compute.{compute_text};

    ghost output = { λ refused. Some (compute_text refused) };

    fn fmt<W: fmt::Write>(&self, f: &mut fmt::Formatter<W>) -> fmt::Result {
        match self {
            ComputeRefused::Lookup(_) => write!(f, "{OutOfMemory}"),
            ComputeRefused::Insert(refused) => write!(f, "{refused}"),
            ComputeRefused::NotTold(_, refused) => write!(f, "{refused}"),
        }
    }
}

impl<K: fmt::Debug + Drop, V: fmt::Debug + Drop> Error for ComputeRefused<K, V> {}

impl<K, V> From<InsertRefused<K, V>> for ComputeRefused<K, V> {
    ghost use Rattle.std.specs.Prelude.{◌≡◌};
    ghost use Rattle.moka_calls.specs.declared.compute.ComputeRefused.TheVariants.{Insert};

    ghost from_gives = { λ refused error. error ≡ Insert refused };

    fn from(refused: InsertRefused<K, V>) -> Self {
        ComputeRefused::Insert(refused)
    }
}
