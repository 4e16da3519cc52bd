//! What calls for many keys at once refuse.
use crate::error::NotTold;
use moka_parts::error::{InsertRefused, OutOfMemory};
use std::error::Error;
use std::fmt;
use std::vec::IntoIter;

/// A look-up of many keys that stopped at one, since memory was refused.
#[derive(Debug, Drop)]
pub struct GetManyRefused<V> {
    /// What the keys before it found, in order.
    pub found: Vec<Option<V>>,
}

impl<V> fmt::Display for GetManyRefused<V> {
    ghost use Rattle.std.specs.Prelude.{Some};
    ghost use Rattle.moka_types.specs.Texts.{out_of_memory_text};

    ghost output = { λ _. Some out_of_memory_text };

    fn fmt<W: fmt::Write>(&self, f: &mut fmt::Formatter<W>) -> fmt::Result {
        write!(f, "{OutOfMemory}")
    }
}

impl<V: fmt::Debug + Drop> Error for GetManyRefused<V> {}

/// An insert of many items that stopped at one.
#[derive(Debug, Drop)]
pub struct InsertManyRefused<K, V> {
    /// How many items were inserted.
    pub done: usize,
    /// The item that was refused, and why.
    pub refused: InsertRefused<K, V>,
    /// The items after it, in order.
    pub rest: IntoIter<(K, V)>,
}

impl<K, V> fmt::Display for InsertManyRefused<K, V> {
    ghost use Rattle.std.specs.Prelude.{Some};
    ghost use Rattle.moka_types.specs.Texts.{insert_text};

    ghost output = { λ e. Some (insert_text e.refused.error) };

    fn fmt<W: fmt::Write>(&self, f: &mut fmt::Formatter<W>) -> fmt::Result {
        write!(f, "{}", self.refused)
    }
}

impl<K: fmt::Debug + Drop, V: fmt::Debug + Drop> Error for InsertManyRefused<K, V> {}

/// An invalidation of many keys that stopped at one, whose listener was not notified.
#[derive(Debug, Drop)]
pub struct InvalidateManyRefused<V> {
    /// How many keys come before this one. They were taken out if they were there, and this one was as well.
    pub done: usize,
    /// The value that was taken out, and why its listener was not notified.
    pub refused: NotTold<V>,
}

impl<V> fmt::Display for InvalidateManyRefused<V> {
    ghost use Rattle.std.specs.Prelude.{Some};
    ghost use Rattle.moka_types.specs.Texts.{out_of_memory_text};

    ghost output = { λ _. Some out_of_memory_text };

    fn fmt<W: fmt::Write>(&self, f: &mut fmt::Formatter<W>) -> fmt::Result {
        write!(f, "{}", self.refused)
    }
}

impl<V: fmt::Debug + Drop> Error for InvalidateManyRefused<V> {}
