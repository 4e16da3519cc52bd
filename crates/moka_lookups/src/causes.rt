//! The causes of which the listener is notified by callers' writes.
//!
//! moka: `sync::base_cache::Inner::notify_upsert`, `Inner::notify_invalidate`.
ghost use Rattle.std.specs.Prelude.{◌≡◌};
ghost use Rattle.moka_parts.specs.Causes.{cause_of_removal, cause_of_replacement};
ghost use Rattle.moka_lookups.specs.Expirations.{expiring_by};

use moka_parts::expiry::is_invalid_entry;
use moka_parts::notification::RemovalCause;
use moka_parts::policy::{ExpirationPolicy, Instant};
use moka_parts::record_ref::RecordRef;

// Why a value leaves that an insert replaces.
pub(crate) fn cause_of_replacement<K, V, X>(
    found: &RecordRef<'_, K, V>,
    policy: &ExpirationPolicy<X>,
    valid_after: Option<Instant>,
    now: Instant,
) -> RemovalCause
    ensures { result ≡ cause_of_replacement (expiring_by policy.now) valid_after found.now now.0 }
{
    if policy.is_past_time_to_live(found.written(), now) {
        RemovalCause::Expired
    } else if is_invalid_entry(valid_after, found.written()) {
        RemovalCause::Explicit
    } else if policy.is_past_time_to_idle(found.read(), now) {
        RemovalCause::Expired
    } else {
        RemovalCause::Replaced
    }
}

/// Why a value leaves that a caller removed.
pub fn cause_of_removal<X>(
    policy: &ExpirationPolicy<X>,
    written: Instant,
    read: Instant,
    now: Instant,
) -> RemovalCause
    ensures { result ≡ cause_of_removal (expiring_by policy.now) written.0 read.0 now.0 }
{
    if policy.is_past_time_to_live(written, now) || policy.is_past_time_to_idle(read, now) {
        RemovalCause::Expired
    } else {
        RemovalCause::Explicit
    }
}
