//! Entries that are put back as they were listed, and why one is not.

use crate::error::InsertError;
use crate::policy::Instant;
use std::error::Error;
use std::fmt;

/// An entry to be put back, with the moments and the expiry that it had.
#[derive(Debug, Drop)]
pub struct Restored<K, V> {
    /// The key under which it is put back.
    pub key: K,
    /// The value that it had.
    pub value: V,
    /// When it was last inserted.
    pub last_modified: Instant,
    /// When it was last inserted or read.
    pub last_accessed: Instant,
    /// When it expires by its own expiry, if it does.
    pub expires: Option<Instant>,
}

/// Why an entry was not put back.
#[derive(Clone, Copy, Debug, PartialEq, Eq)]
pub enum RestoreError {
    /// The key has an entry, visible or not.
    KeyPresent,
    /// The entry has an expiry of its own, and the cache has no expiry set.
    NoExpiry,
    /// There are not enough tickets left.
    NumbersUsedUp,
    /// Memory was refused, or the limit of records, just below 2^32, is reached.
    OutOfMemory,
}

impl fmt::Display for RestoreError {
    ghost use Rattle.std.specs.Prelude.{Some};
    ghost use Rattle.moka_types.specs.Restores.{restore_text};

    ghost output = { λ error. Some (restore_text error) };

    fn fmt<W: fmt::Write>(&self, f: &mut fmt::Formatter<W>) -> fmt::Result {
        f.write_str(match self {
            RestoreError::KeyPresent => "The key has an entry",
            RestoreError::NoExpiry => "The cache has no expiry for single entries",
            RestoreError::NumbersUsedUp => "All tickets are used up",
            RestoreError::OutOfMemory => "Out of memory",
        })
    }
}

impl Error for RestoreError {}

impl From<InsertError> for RestoreError {
    ghost use Rattle.std.specs.Prelude.{◌≡◌};
    ghost use Rattle.moka_types.specs.Restores.{restore_error};

    ghost from_gives = { λ error reason. reason ≡ restore_error error };

    fn from(error: InsertError) -> RestoreError {
        match error {
            InsertError::NumbersUsedUp => RestoreError::NumbersUsedUp,
            InsertError::OutOfMemory => RestoreError::OutOfMemory,
        }
    }
}

/// An entry that was not put back, and why. Nothing has changed.
#[derive(Debug, Drop)]
pub struct RestoreRefused<K, V> {
    /// Why it was not.
    pub error: RestoreError,
    /// The entry, as it was handed in.
    pub item: Restored<K, V>,
}

impl<K, V> fmt::Display for RestoreRefused<K, V> {
    ghost use Rattle.std.specs.Prelude.{Some};
    ghost use Rattle.moka_types.specs.Restores.{restore_text};

    ghost output = { λ refused. Some (restore_text refused.error) };

    fn fmt<W: fmt::Write>(&self, f: &mut fmt::Formatter<W>) -> fmt::Result {
        write!(f, "{}", self.error)
    }
}

impl<K: fmt::Debug + Drop, V: fmt::Debug + Drop> Error for RestoreRefused<K, V> {}
