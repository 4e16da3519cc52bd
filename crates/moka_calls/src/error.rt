//! What calls of the synchronous cache refuse beside what the engine's do.
use moka_parts::error::{InsertRefused, OutOfMemory};
use std::error::Error;
use std::fmt;

/// A removal of which the listener was not notified, since memory for a clone was refused. The value is gone from the
/// cache, and comes back.
#[derive(Debug, Drop)]
pub struct NotTold<V> {
    /// Why the listener was not notified.
    pub error: OutOfMemory,
    /// The value that was taken out.
    pub value: V,
}

impl<V> fmt::Display for NotTold<V> {
    ghost use Rattle.std.specs.Prelude.{Some};
    ghost use Rattle.moka_types.specs.Texts.{out_of_memory_text};

    ghost output = { λ _. Some out_of_memory_text };

    fn fmt<W: fmt::Write>(&self, f: &mut fmt::Formatter<W>) -> fmt::Result {
        write!(f, "{}", self.error)
    }
}

impl<V: fmt::Debug + Drop> Error for NotTold<V> {}

/// Why a get with a maker gave no value.
#[derive(Debug, Drop)]
pub enum GetWithRefused<K, V> {
    /// Memory for a clone of the value that is there was refused. Nothing has changed, and the key comes back.
    Lookup(K),
    /// The value that was made was not inserted, since memory for its clone or for the insert was refused, or tickets
    /// are used up. The look-up stands, and key and value come back.
    Insert(InsertRefused<K, V>),
}

impl<K, V> fmt::Display for GetWithRefused<K, V> {
    ghost use Rattle.std.specs.Prelude.{Some};
    ghost use Rattle.moka_calls.specs.Texts.{get_with_text};

    ghost output = { λ refused. Some (get_with_text refused) };

    fn fmt<W: fmt::Write>(&self, f: &mut fmt::Formatter<W>) -> fmt::Result {
        match self {
            GetWithRefused::Lookup(_) => write!(f, "{OutOfMemory}"),
            GetWithRefused::Insert(refused) => write!(f, "{refused}"),
        }
    }
}

impl<K: fmt::Debug + Drop, V: fmt::Debug + Drop> Error for GetWithRefused<K, V> {}

impl<K, V> From<InsertRefused<K, V>> for GetWithRefused<K, V> {
    ghost use Rattle.std.specs.Prelude.{◌≡◌};
    ghost use Rattle.moka_calls.specs.declared.error.GetWithRefused.TheVariants.{Insert};

    ghost from_gives = { λ refused error. error ≡ Insert refused };

    fn from(refused: InsertRefused<K, V>) -> Self {
        GetWithRefused::Insert(refused)
    }
}
