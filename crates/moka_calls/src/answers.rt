//! What calls answer, of what the engine and makers do.
ghost use Rattle.std.specs.Prelude.{◌≡◌, false};
ghost use Rattle.moka_calls.specs.Given.{if_made, without_error};
ghost use Rattle.moka_calls.specs.Synchronous.{invalidated, removed, value_found};

use crate::entry::CacheEntry;
use crate::error::NotTold;
use moka_parts::calls::Entry;
use moka_parts::error::OutOfMemory;
use std::convert::Infallible;

/// The value of the entry that a get found.
///
/// # Errors
/// That of the get.
#[inline(always)]
pub fn value_of<K: Drop, V>(
    entry: Result<Option<Entry<K, V>>, OutOfMemory>,
) -> Result<Option<V>, OutOfMemory>
    ensures { result ≡ value_found entry }
{
    match entry? {
        Some(entry) => Ok(Some(entry.into_value())),
        None => Ok(None),
    }
}

/// What a maker that may decline answers, of one that fails in place of declining.
///
/// # Errors
/// That of the call.
#[inline(always)]
pub fn if_made<A: Drop, E>(answer: Result<Result<A, ()>, E>) -> Result<Option<A>, E>
    ensures { result ≡ if_made answer }
{
    Ok(answer?.ok())
}

/// What a maker that never fails answers.
///
/// # Errors
/// That of the call.
#[inline(always)]
pub fn always_made<A, E>(answer: Result<Result<A, Infallible>, E>) -> Result<A, E>
    ensures { answer ≡ without_error result }
{
    match answer? {
        Ok(made) => Ok(made),
        Err(never) => match never {},
    }
}

/// What a removal answers: the value that was taken out, or, if the listener could not be notified, the error with
/// it.
///
/// # Errors
/// `NotTold`, with the value, if the listener could not be notified.
pub fn removed<V>(taken: Option<(V, Result<(), OutOfMemory>)>) -> Result<Option<V>, NotTold<V>>
    ensures { result ≡ removed taken }
{
    let Some((value, told)) = taken else {
        return Ok(None);
    };
    match told {
        Ok(()) => Ok(Some(value)),
        Err(error) => Err(NotTold { error, value }),
    }
}

/// What an invalidation answers: the same, but for a value that the listener was notified of.
///
/// # Errors
/// As `removed`.
pub fn invalidated<V: Drop>(taken: Option<(V, Result<(), OutOfMemory>)>) -> Result<(), NotTold<V>>
    ensures { result ≡ invalidated taken }
{
    match removed(taken) {
        Ok(_) => Ok(()),
        Err(refused) => Err(refused),
    }
}

/// The entry of a value that is there.
pub fn found<K, V>(key: K, value: V) -> CacheEntry<K, V>
    ensures { result ≡ record { key = key; value = value; is_fresh = false; is_old_value_replaced = false } }
{
    CacheEntry {
        key,
        value,
        is_fresh: false,
        is_old_value_replaced: false,
    }
}
