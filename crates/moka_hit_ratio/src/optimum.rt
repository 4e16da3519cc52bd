//! The optimum: what a cache finds that knows the reads to come, and keeps what comes again soonest.
ghost use Rattle.std.specs.Prelude.{◌≡◌, ◌<◌, ℕ, IfOk, OnOk, length, get_or};
ghost use Rattle.moka_hit_ratio.specs.Optimum.{IsNextRead, kept_with, played};

use crate::tally::Tally;
use std::alloc::{AllocError, Global};
use std::collections::{BTreeSet, HashMap};

/// Stands for the next read of a key that is not read again.
const NEVER: u64 = u64::MAX;

/// For each read, at which place its key is read next.
///
/// # Errors
/// `AllocError` if memory for the places is refused.
pub fn next_reads(alloc: Global, keys: &[u64]) -> Result<Vec<u64>, AllocError>
    ensures length { IfOk result (λ nexts. length nexts.items ≡ length keys.now) }
    ensures next { IfOk result (λ nexts. (place : ℕ) → place < length keys.now
        → IsNextRead keys.now (length keys.now) place (get_or nexts.items place 0)) }
{
    let mut last: HashMap<u64, usize> = HashMap::new(alloc);
    let mut nexts = Vec::with_capacity(alloc, keys.len())?;
    for place in 0..keys.len() {
        nexts.push(NEVER)?;
        if let Some(before) = last.insert(keys[place], place)? {
            nexts[before] = place as u64;
        }
    }
    Ok(nexts)
}

/// Counts the reads from a place on. The keys that are kept stand by the places of their next reads, so the one to
/// evict, also if it is the one just read, is the last.
///
/// # Errors
/// `AllocError` if memory for a kept key is refused.
pub fn count(
    alloc: Global,
    nexts: &[u64],
    first_counted: u64,
    capacity: u64,
) -> Result<Tally, AllocError>
    ensures hits { IfOk result (λ tally. tally.hits
        ≡ (played first_counted capacity nexts.now (length nexts.now)).hits) }
    ensures reads { IfOk result (λ tally. tally.reads
        ≡ (played first_counted capacity nexts.now (length nexts.now)).reads) }
{
    let mut tally = Tally::new();
    let mut kept: BTreeSet<u64> = BTreeSet::new(alloc);
    for place in 0..nexts.len() {
        let is_hit = kept.remove(&(place as u64));
        tally.count_from(first_counted, place as u64, is_hit);
        keep(&mut kept, nexts[place], capacity)?;
    }
    Ok(tally)
}

// Keeps a key by the place of its next read, unless there is none, and lets the last one go if there are too many.
fn keep(kept: &mut BTreeSet<u64>, next: u64, capacity: u64) -> Result<(), AllocError>
    ensures { OnOk result (kept.new.keys ≡ kept_with capacity next kept.old.keys) }
{
    if next != NEVER {
        kept.insert(next)?;
    }
    if kept.len() as u64 > capacity {
        kept.pop_last();
    }
    Ok(())
}
