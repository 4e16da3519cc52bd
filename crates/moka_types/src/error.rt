//! Why calls are refused. moka: `common::error`.
use std::alloc::AllocError;
use std::error::Error;
use std::fmt;

/// Memory was refused, or the limit of records, just below 2^32, is reached. Each call says what has changed then.
#[derive(Clone, Copy, Debug, PartialEq, Eq)]
pub struct OutOfMemory;

impl fmt::Display for OutOfMemory {
    ghost use Rattle.std.specs.Prelude.{Some};
    ghost use Rattle.moka_types.specs.Texts.{out_of_memory_text};

    ghost output = { λ _. Some out_of_memory_text };

    fn fmt<W: fmt::Write>(&self, f: &mut fmt::Formatter<W>) -> fmt::Result {
        f.write_str("Out of memory")
    }
}

impl Error for OutOfMemory {}

impl From<AllocError> for OutOfMemory {
    fn from(_error: AllocError) -> OutOfMemory {
        OutOfMemory
    }
}

/// Why an operation was not sent. It is kept under its ticket, if there is one.
#[derive(Clone, Copy, Debug, PartialEq, Eq)]
pub enum SendError {
    /// No operation waits under this ticket.
    UnknownTicket,
    /// The queue of writes is full; a run of maintenance empties it.
    QueueFull,
}

impl fmt::Display for SendError {
    ghost use Rattle.std.specs.Prelude.{Some};
    ghost use Rattle.moka_types.specs.Texts.{send_text};

    ghost output = { λ error. Some (send_text error) };

    fn fmt<W: fmt::Write>(&self, f: &mut fmt::Formatter<W>) -> fmt::Result {
        f.write_str(match self {
            SendError::UnknownTicket => "No operation waits under this ticket",
            SendError::QueueFull => "The queue of writes is full",
        })
    }
}

impl Error for SendError {}

/// Why an insert was refused.
#[derive(Clone, Copy, Debug, PartialEq, Eq)]
pub enum InsertError {
    /// Memory was refused, or the limit of records, just below 2^32, is reached. Each call says what has changed then.
    OutOfMemory,
    /// The tickets are used up, but for those that are kept for the removals of records.
    NumbersUsedUp,
}

impl fmt::Display for InsertError {
    ghost use Rattle.std.specs.Prelude.{Some};
    ghost use Rattle.moka_types.specs.Texts.{insert_text};

    ghost output = { λ error. Some (insert_text error) };

    fn fmt<W: fmt::Write>(&self, f: &mut fmt::Formatter<W>) -> fmt::Result {
        f.write_str(match self {
            InsertError::OutOfMemory => "Out of memory",
            InsertError::NumbersUsedUp => "All tickets are used up",
        })
    }
}

impl Error for InsertError {}

/// A refused insert, with the key and the value. Nothing was inserted.
#[derive(Debug, Drop)]
pub struct InsertRefused<K, V> {
    /// Why it was refused.
    pub error: InsertError,
    /// The key that was handed in.
    pub key: K,
    /// The value that was handed in.
    pub value: V,
}

impl<K, V> fmt::Display for InsertRefused<K, V> {
    ghost use Rattle.std.specs.Prelude.{Some};
    ghost use Rattle.moka_types.specs.Texts.{insert_text};

    ghost output = { λ refused. Some (insert_text refused.error) };

    fn fmt<W: fmt::Write>(&self, f: &mut fmt::Formatter<W>) -> fmt::Result {
        write!(f, "{}", self.error)
    }
}

impl<K: fmt::Debug + Drop, V: fmt::Debug + Drop> Error for InsertRefused<K, V> {}

/// Why a predicate was not registered. moka: `common::error::PredicateError`.
#[derive(Clone, Copy, Debug, PartialEq, Eq)]
pub enum PredicateError {
    /// The cache was built without `support_invalidation_closures`.
    InvalidationClosuresDisabled,
    /// One identifier after the other was asked for, and all were taken.
    NoFreeId,
    /// Memory for the registry was refused.
    OutOfMemory,
}

impl fmt::Display for PredicateError {
    ghost use Rattle.std.specs.Prelude.{Some};
    ghost use Rattle.moka_types.specs.Texts.{predicate_text};

    ghost output = { λ error. Some (predicate_text error) };

    fn fmt<W: fmt::Write>(&self, f: &mut fmt::Formatter<W>) -> fmt::Result {
        f.write_str(match self {
            PredicateError::InvalidationClosuresDisabled =>
                "Support for invalidation closures is disabled in this cache. Please enable it by calling the support_invalidation_closures method of the builder at the cache creation time",
            PredicateError::NoFreeId => "Cannot assign a new PredicateId to a predicate",
            PredicateError::OutOfMemory => "Out of memory",
        })
    }
}

impl Error for PredicateError {}

/// A refused predicate is handed back. Nothing has changed.
#[derive(Debug, Drop)]
pub struct PredicateRefused<P> {
    /// Why it was refused.
    pub error: PredicateError,
    /// The predicate that was handed in.
    pub predicate: P,
}

impl<P> fmt::Display for PredicateRefused<P> {
    ghost use Rattle.std.specs.Prelude.{Some};
    ghost use Rattle.moka_types.specs.Texts.{predicate_text};

    ghost output = { λ refused. Some (predicate_text refused.error) };

    fn fmt<W: fmt::Write>(&self, f: &mut fmt::Formatter<W>) -> fmt::Result {
        write!(f, "{}", self.error)
    }
}

impl<P: fmt::Debug + Drop> Error for PredicateRefused<P> {}

/// Why the capacity was not changed.
#[derive(Clone, Copy, Debug, PartialEq, Eq)]
pub enum CapacityError {
    /// A cache of capacity 0 is disabled, and stays so; no other becomes so.
    ZeroCapacity,
}

impl fmt::Display for CapacityError {
    ghost use Rattle.std.specs.Prelude.{Some};
    ghost use Rattle.moka_types.specs.Texts.{capacity_text};

    ghost output = { λ error. Some (capacity_text error) };

    fn fmt<W: fmt::Write>(&self, f: &mut fmt::Formatter<W>) -> fmt::Result {
        f.write_str(match self {
            CapacityError::ZeroCapacity => "A capacity cannot be changed from zero or to zero",
        })
    }
}

impl Error for CapacityError {}
