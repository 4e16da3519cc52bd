//! When entries expire: the tests by moments, what is left, and renewals.
//! moka: the free functions of `sync::base_cache`.
ghost use Rattle.std.specs.Prelude.{◌≡◌, ◌||◌, not, option_map, if◌then◌else◌};
ghost use Rattle.std.specs.Duration.{as_nanos};
ghost use Rattle.moka_records.specs.Time.{has_passed, is_before, deadline, earlier as earlier_of, moment_of, is_same_duration};
ghost use Rattle.moka_parts.specs.Expiry.{time_left, expires_after};

use crate::policy::{ExpirationPolicy, Instant};
use crate::record_ref::RecordRef;
use std::time::Duration;

/// Whether an entry's own moment of expiry has come.
/// moka: `sync::base_cache::is_expired_by_per_entry_ttl`.
pub fn is_expired_by_per_entry_ttl(expires: Option<Instant>, now: Instant) -> bool
    ensures { result ≡ has_passed (moment_of expires) now.0 }
{
    matches!(expires, Some(moment) if moment <= now)
}

/// Whether the time to live of an entry that was last written at the moment `written` is over.
/// moka: `sync::base_cache::is_expired_by_ttl`.
pub fn is_expired_by_ttl(time_to_live: Option<Duration>, written: Instant, now: Instant) -> bool
    ensures { result ≡ has_passed (deadline (option_map as_nanos time_to_live) written.0) now.0 }
{
    is_expired_by_per_entry_ttl(deadline_of(time_to_live, written), now)
}

/// Whether the time to idle of an entry that was last read at the moment `read` is over.
/// moka: `sync::base_cache::is_expired_by_tti`.
pub fn is_expired_by_tti(time_to_idle: Option<Duration>, read: Instant, now: Instant) -> bool
    ensures { result ≡ has_passed (deadline (option_map as_nanos time_to_idle) read.0) now.0 }
{
    is_expired_by_per_entry_ttl(deadline_of(time_to_idle, read), now)
}

/// Whether a moment lies before the one from which entries are valid, if that is set.
/// moka: `sync::base_cache::is_invalid_entry`.
pub fn is_invalid_entry(valid_after: Option<Instant>, moment: Instant) -> bool
    ensures { result ≡ is_before moment.0 (moment_of valid_after) }
{
    matches!(valid_after, Some(bound) if moment < bound)
}

/// Whether one of the tests by moments hides a record, whatever predicates say.
#[inline(always)]
pub fn has_lapsed<K, V, X>(
    entry: &RecordRef<'_, K, V>,
    policy: &ExpirationPolicy<X>,
    valid_after: Option<Instant>,
    now: Instant,
) -> bool
    ensures { result ≡ (has_passed (moment_of entry.now.expires) now.0
        || has_passed (deadline policy.now.time_to_live entry.now.written.0) now.0
        || has_passed (deadline policy.now.time_to_idle entry.now.read.0) now.0
        || is_before entry.now.written.0 (moment_of valid_after)
        || is_before entry.now.read.0 (moment_of valid_after)) }
{
    is_expired_by_per_entry_ttl(entry.expires(), now)
        || policy.is_past_time_to_live(entry.written(), now)
        || policy.is_past_time_to_idle(entry.read(), now)
        || is_invalid_entry(valid_after, entry.written())
        || is_invalid_entry(valid_after, entry.read())
}

/// The moment that lies a duration later, if one is given.
pub fn deadline_of(duration: Option<Duration>, moment: Instant) -> Option<Instant>
    ensures { result ≡ expires_after (option_map as_nanos duration) moment.0 }
{
    Some(moment.saturating_add(duration?))
}

/// The earlier of two moments, as far as they are given.
fn earlier(one: Option<Instant>, other: Option<Instant>) -> Option<Instant>
    ensures { moment_of result ≡ earlier_of (moment_of one) (moment_of other) }
{
    match (one, other) {
        (Some(one), Some(other)) => Some(one.min(other)),
        (Some(one), None) => Some(one),
        (None, other) => other,
    }
}

/// How long an entry still lasts at a moment, `None` if it does not expire.
pub fn remaining(
    expires: Option<Instant>,
    written: Instant,
    read: Instant,
    time_to_live: Option<Duration>,
    time_to_idle: Option<Duration>,
    now: Instant,
) -> Option<Duration>
    ensures { option_map as_nanos result
        ≡ time_left (option_map as_nanos time_to_live) (option_map as_nanos time_to_idle)
        (moment_of expires) written.0 read.0 now.0 }
{
    let by_policy = earlier(
        deadline_of(time_to_live, written),
        deadline_of(time_to_idle, read),
    );
    let moment = earlier(expires, by_policy)?;
    Some(moment.saturating_duration_since(now))
}

/// When an entry expires after an expiry's answer at a moment, and whether that is a change: an
/// answer that equals the time that was left changes nothing.
pub fn renewed(
    expires: Option<Instant>,
    left: Option<Duration>,
    answer: Option<Duration>,
    now: Instant,
) -> (Option<Instant>, bool)
    ensures expires { result.0
        ≡ (if result.1 then expires_after (option_map as_nanos answer) now.0 else expires) }
    ensures changed { result.1
        ≡ not (is_same_duration (option_map as_nanos answer) (option_map as_nanos left)) }
{
    let is_same = match (answer, left) {
        (Some(answer), Some(left)) => answer.as_nanos() == left.as_nanos(),
        (answer, left) => answer.is_none() && left.is_none(),
    };
    if is_same {
        (expires, false)
    } else {
        (deadline_of(answer, now), true)
    }
}
