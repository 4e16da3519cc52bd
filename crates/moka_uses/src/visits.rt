//! Visits, counted by page.
ghost use Rattle.std.specs.Prelude.{◌≡◌, IfErr, IfOk, IfSome, Ok, option_copied};
ghost use Rattle.moka_cache.specs.Given.{ComesBack};
ghost use Rattle.moka_cache.specs.Keyed.{IsOfInsert};
ghost use Rattle.moka_uses.specs.Made.{LooksUp};
ghost use Rattle.moka_uses.specs.Visits.{HasLeft, IsFull, PutsCount, RefusesCount, RemovesCount, count_at, meaning, next_count, op_for};

use moka_cache::laws::hears_themselves;
use moka_cache::{Cache, CompResult, GetWithRefused, Op};
use moka_engine::{Clock, DefaultHasher, Instant, NoExpiry, NoListener, NoPredicate, NoWeigher};

/// Counts a visit of a page, and hands out how many there are now: one more than the count that is visible at the
/// moment `now`, or 1 if none is. The count stays at `u64::MAX`.
///
/// # Errors
/// `Insert`, with the page and the count that was not put. Cloning a number takes no memory, so no look-up is refused.
pub fn count<C: Clock>(
    visits: &mut Cache<u64, u64>,
    page: u64,
    now: Instant,
    clock: &mut C,
) -> Result<u64, GetWithRefused<u64, u64>>
    ensures counted { IfOk result (λ count. count ≡ next_count visits.old.engine.state page now.0) }
    ensures put { IfOk result
        (PutsCount (meaning C.reads) page now visits.old.engine clock.old visits.new.engine clock.new) }
    ensures back { IfErr result (ComesBack visits.old.engine.state visits.new.engine.state page
        (λ count. count ≡ next_count visits.old.engine.state page now.0)) }
    ensures refused { IfErr result
        (RefusesCount (meaning C.reads) page now visits.old.engine clock.old visits.new.engine clock.new) }
    ensures looks_up { IfErr result IsOfInsert }
{
    let one_more = |seen: Option<u64>| seen.unwrap_or(0).saturating_add(1);
    let entry = visits.entry(page).and_upsert_with(one_more, now, clock)?;
    Ok(entry.value)
}

/// Takes out a page whose count, visible at the moment `now`, has reached a limit, and hands out the count; `None` if
/// the run of maintenance that the look-up made had taken the page out already. A page that has not, or is not visible,
/// is only looked up, and the answer is `None`. Nothing is refused: cloning numbers takes no memory.
pub fn take_full<C: Clock>(
    visits: &mut Cache<u64, u64>,
    page: u64,
    limit: u64,
    now: Instant,
    clock: &mut C,
) -> Option<u64>
    ensures full { IfSome result (IsFull visits.old.engine.state page now.0 limit) }
    ensures left { (count : _) → IsFull visits.old.engine.state page now.0 limit count
        → HasLeft visits.new.engine.state page }
    ensures removed { (count : _) → IsFull visits.old.engine.state page now.0 limit count
        → RemovesCount (meaning C.reads) page now visits.old.engine clock.old visits.new.engine clock.new count result }
    ensures looked_up { ((count : _) → IsFull visits.old.engine.state page now.0 limit count → ⊥)
        → LooksUp (meaning C.reads) page now visits.old.engine clock.old visits.new.engine clock.new
        (Ok (count_at visits.old.engine.state page now.0)) }
{
    hears_themselves::<u64, u64, DefaultHasher, NoExpiry, NoListener, NoPredicate, NoWeigher, C>();
    let remove_full = move |seen: Option<&u64>| -> Op<u64>
        ensures { result ≡ op_for limit (option_copied seen.entry) }
    {
        match seen {
            Some(count) if *count >= limit => Op::Remove,
            _ => Op::Nop,
        }
    };
    let done = match visits.entry(page).and_compute_with(remove_full, now, clock) {
        Ok(done) => done,
        Err(_) => unreachable!(),
    };
    match done {
        CompResult::Removed(entry) => Some(entry.value),
        _ => None,
    }
}
