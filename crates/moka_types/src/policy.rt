//! Moments, expiry and eviction policies. moka: `policy`.
ghost use Rattle.std.specs.Prelude.{◌≡◌, ◌-◌, Option, Some, None, option_map};
ghost use Rattle.std.specs.Duration.{as_nanos};

use std::fmt;
use std::marker::Model;
use std::time::Duration;

mod expiration_policy;
mod expire_after;
mod span;

pub use expiration_policy::ExpirationPolicy;
pub use expire_after::{
    ExpireAfter, ExpireAfterCreate, ExpireAfterRead, ExpireAfterUpdate, NoExpiry,
};
pub use moka_records::instant::Instant;

/// A cache's limits, as they are set. moka: `policy::Policy`.
#[derive(Clone, Debug, Drop)]
pub struct Policy {
    max_capacity: Option<u64>,
    time_to_live: Option<Duration>,
    time_to_idle: Option<Duration>,
}

impl Model for Policy {
    ghost use Rattle.std.specs.Prelude.{option_map};
    ghost use Rattle.std.specs.Duration.{as_nanos};
    ghost use Rattle.moka_types.specs.Policy.{Limits};

    ghost Value = { Limits };

    ghost view = { λ p. record {
      max_capacity = p.max_capacity;
      time_to_live = option_map as_nanos p.time_to_live;
      time_to_idle = option_map as_nanos p.time_to_idle;
    } };
}

impl Policy {
    /// A policy with these limits; `None` for one that is not set.
    pub fn new(
        max_capacity: Option<u64>,
        time_to_live: Option<Duration>,
        time_to_idle: Option<Duration>,
    ) -> Self
        ensures { result ≡ record {
          max_capacity = max_capacity;
          time_to_live = option_map as_nanos time_to_live;
          time_to_idle = option_map as_nanos time_to_idle;
        } }
    {
        Policy {
            max_capacity,
            time_to_live,
            time_to_idle,
        }
    }

    /// The greatest weight that the cache keeps, if there is a bound.
    pub fn max_capacity(&self) -> Option<u64>
        ensures { result ≡ self.now.max_capacity }
    {
        self.max_capacity
    }

    /// Always 1, also for a cache in segments, where moka returns how many there are.
    pub fn num_segments(&self) -> usize
        ensures { result ≡ 1 }
    {
        1
    }

    /// How long an entry stays after it was written.
    pub fn time_to_live(&self) -> Option<Duration>
        ensures { option_map as_nanos result ≡ self.now.time_to_live }
    {
        self.time_to_live
    }

    /// How long an entry stays after it was written or read.
    pub fn time_to_idle(&self) -> Option<Duration>
        ensures { option_map as_nanos result ≡ self.now.time_to_idle }
    {
        self.time_to_idle
    }
}

/// How a cache that is full chooses what stays. moka: `policy::EvictionPolicy`.
#[derive(Clone, Copy)]
pub enum EvictionPolicy {
    /// An entry is admitted if the sketch estimates that it was requested more often than the entries that it would
    /// evict, together; estimates stop at 15 for each.
    TinyLfu,
    /// The least recently used entries go.
    Lru,
}

impl EvictionPolicy {
    ghost use Rattle.std.specs.Prelude.{◌≡◌};
    ghost use Rattle.moka_types.specs.declared.policy.EvictionPolicy.TheVariants.{TinyLfu, Lru};

    /// Admission by frequency, and eviction from the least recently used end.
    pub fn tiny_lfu() -> Self
        ensures { result ≡ TinyLfu }
    {
        Self::TinyLfu
    }

    /// Eviction from the least recently used end alone.
    pub fn lru() -> Self
        ensures { result ≡ Lru }
    {
        Self::Lru
    }
}

impl Default for EvictionPolicy {
    ghost use Rattle.std.specs.Prelude.{◌≡◌};
    ghost use Rattle.moka_types.specs.declared.policy.EvictionPolicy.TheVariants.{TinyLfu};

    ghost is_default = { λ p. p ≡ TinyLfu };

    fn default() -> Self {
        EvictionPolicy::tiny_lfu()
    }
}

impl fmt::Debug for EvictionPolicy {
    ghost use Rattle.std.specs.Prelude.{Some};
    ghost use Rattle.moka_types.specs.Texts.{policy_text};

    ghost debug_output = { λ policy. Some (policy_text policy) };

    fn fmt<W: fmt::Write>(&self, f: &mut fmt::Formatter<W>) -> fmt::Result {
        f.write_str(match self {
            EvictionPolicy::TinyLfu => "EvictionPolicy::TinyLfu",
            EvictionPolicy::Lru => "EvictionPolicy::Lru",
        })
    }
}

/// Decides when an entry expires. moka: `policy::Expiry`.
///
/// The meanings, `created`, `read` and `updated`, count moments and durations in nanoseconds. Their
/// defaults are the answers of a type that sets no expiry: none at a creation, and the time that is
/// left at a read or an update. A type that keeps a default still writes the method, or is a part of
/// `ExpireAfter` beside `NoExpiry`.
pub trait Expiry<K, V> {
    ghost use Rattle.std.specs.Prelude.{◌≡◌, ℕ, Option, None, option_map};
    ghost use Rattle.std.specs.Duration.{as_nanos};

    ghost created: { Self → K → V → ℕ → Option ℕ } = { λ _ _ _ _. None };

    ghost read: { Self → K → V → ℕ → Option ℕ → ℕ → Option ℕ } = { λ _ _ _ _ left _. left };

    ghost updated: { Self → K → V → ℕ → Option ℕ → Option ℕ } = { λ _ _ _ _ left. left };

    /// How long an entry that is created now lasts, or `None` if it does not expire by itself.
    fn expire_after_create(&self, key: &K, value: &V, created_at: Instant) -> Option<Duration>
        ensures { option_map as_nanos result ≡ created self.now key.now value.now created_at.0 };

    /// How long an entry lasts after a read; to answer `duration_until_expiry`, what it has left, changes nothing.
    fn expire_after_read(
        &self,
        key: &K,
        value: &V,
        read_at: Instant,
        duration_until_expiry: Option<Duration>,
        last_modified_at: Instant,
    ) -> Option<Duration>
        ensures { option_map as_nanos result
            ≡ read self.now key.now value.now read_at.0
            (option_map as_nanos duration_until_expiry) last_modified_at.0 };

    /// How long an entry lasts after its value was replaced. To answer `duration_until_expiry`, which is what it has
    /// left, changes nothing.
    fn expire_after_update(
        &self,
        key: &K,
        value: &V,
        updated_at: Instant,
        duration_until_expiry: Option<Duration>,
    ) -> Option<Duration>
        ensures { option_map as_nanos result
            ≡ updated self.now key.now value.now updated_at.0
            (option_map as_nanos duration_until_expiry) };
}
