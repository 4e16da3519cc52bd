//! What hides a record, if anything does.
ghost use Rattle.std.specs.Prelude.{◌≡◌};
ghost use Rattle.moka_lookups.specs.Expirations.{expiring_by};
ghost use Rattle.moka_lookups.specs.Sights.{lapse_of};

use moka_parts::expiry::{is_expired_by_per_entry_ttl, is_invalid_entry};
use moka_parts::invalidator::PredicateId;
use moka_parts::policy::{ExpirationPolicy, Instant};
use moka_parts::record_ref::RecordRef;

/// What a look-up of a key meets at a moment. If several reasons hide a record, the first in this order is named.
#[derive(Clone, Copy)]
pub enum Sight {
    /// The key has no record.
    Absent,
    /// The record has expired by its own expiry.
    Expired,
    /// Its time to live has passed.
    PastTimeToLive,
    /// Its time to idle has passed.
    PastTimeToIdle,
    /// It was written or read before the moment of the last invalidation of all.
    Invalidated,
    /// The first registered predicate that covers it, by its identifier.
    Covered(PredicateId),
    /// The record is visible.
    Visible,
}

/// The first test by moments that hides a record, if one does.
pub fn lapse_of<K, V, X>(
    found: &RecordRef<'_, K, V>,
    policy: &ExpirationPolicy<X>,
    valid_after: Option<Instant>,
    now: Instant,
) -> Option<Sight>
    ensures { result ≡ lapse_of (expiring_by policy.now) valid_after found.now now.0 }
{
    if is_expired_by_per_entry_ttl(found.expires(), now) {
        Some(Sight::Expired)
    } else if policy.is_past_time_to_live(found.written(), now) {
        Some(Sight::PastTimeToLive)
    } else if policy.is_past_time_to_idle(found.read(), now) {
        Some(Sight::PastTimeToIdle)
    } else if is_invalid_entry(valid_after, found.written())
        || is_invalid_entry(valid_after, found.read())
    {
        Some(Sight::Invalidated)
    } else {
        None
    }
}
