//! Expiries made of parts, each of which answers one question.
use super::{Expiry, Instant};
use std::time::Duration;

/// Answers the question of a creation alone; a part of `ExpireAfter`.
pub trait ExpireAfterCreate<K, V> {
    ghost use Rattle.std.specs.Prelude.{◌≡◌, ℕ, Option, None, option_map};
    ghost use Rattle.std.specs.Duration.{as_nanos};

    ghost created: { Self → K → V → ℕ → Option ℕ } = { λ _ _ _ _. None };

    /// As `Expiry::expire_after_create`.
    fn expire_after_create(&self, key: &K, value: &V, created_at: Instant) -> Option<Duration>
        ensures { option_map as_nanos result ≡ created self.now key.now value.now created_at.0 };
}

/// Answers the question of a read alone; a part of `ExpireAfter`.
pub trait ExpireAfterRead<K, V> {
    ghost use Rattle.std.specs.Prelude.{◌≡◌, ℕ, Option, option_map};
    ghost use Rattle.std.specs.Duration.{as_nanos};

    ghost read: { Self → K → V → ℕ → Option ℕ → ℕ → Option ℕ } = { λ _ _ _ _ left _. left };

    /// As `Expiry::expire_after_read`.
    fn expire_after_read(
        &self,
        key: &K,
        value: &V,
        read_at: Instant,
        duration_until_expiry: Option<Duration>,
        last_modified_at: Instant,
    ) -> Option<Duration>
        ensures { option_map as_nanos result
            ≡ read self.now key.now value.now read_at.0
            (option_map as_nanos duration_until_expiry) last_modified_at.0 };
}

/// Answers the question of an update alone; a part of `ExpireAfter`.
pub trait ExpireAfterUpdate<K, V> {
    ghost use Rattle.std.specs.Prelude.{◌≡◌, ℕ, Option, option_map};
    ghost use Rattle.std.specs.Duration.{as_nanos};

    ghost updated: { Self → K → V → ℕ → Option ℕ → Option ℕ } = { λ _ _ _ _ left. left };

    /// As `Expiry::expire_after_update`.
    fn expire_after_update(
        &self,
        key: &K,
        value: &V,
        updated_at: Instant,
        duration_until_expiry: Option<Duration>,
    ) -> Option<Duration>
        ensures { option_map as_nanos result
            ≡ updated self.now key.now value.now updated_at.0
            (option_map as_nanos duration_until_expiry) };
}

/// An expiry of three parts, each of which answers one question. `NoExpiry` stands for those that
/// one does not care about, as in `ExpireAfter { create: by_kind, read: NoExpiry, update: NoExpiry }`.
#[derive(Clone, Drop)]
pub struct ExpireAfter<C, R, U> {
    /// Answers at a creation.
    pub create: C,
    /// Answers at a read.
    pub read: R,
    /// Answers at an update.
    pub update: U,
}

impl<K, V, C: ExpireAfterCreate<K, V>, R: ExpireAfterRead<K, V>, U: ExpireAfterUpdate<K, V>> Expiry<
    K,
    V,
> for ExpireAfter<C, R, U> {
    ghost created = { λ x. C.created x.create };

    ghost read = { λ x. R.read x.read };

    ghost updated = { λ x. U.updated x.update };

    fn expire_after_create(&self, key: &K, value: &V, created_at: Instant) -> Option<Duration> {
        self.create.expire_after_create(key, value, created_at)
    }

    fn expire_after_read(
        &self,
        key: &K,
        value: &V,
        read_at: Instant,
        duration_until_expiry: Option<Duration>,
        last_modified_at: Instant,
    ) -> Option<Duration> {
        self.read.expire_after_read(key, value, read_at, duration_until_expiry, last_modified_at)
    }

    fn expire_after_update(
        &self,
        key: &K,
        value: &V,
        updated_at: Instant,
        duration_until_expiry: Option<Duration>,
    ) -> Option<Duration> {
        self.update
            .expire_after_update(key, value, updated_at, duration_until_expiry)
    }
}

/// Sets no expiry and leaves one that is set.
#[derive(Clone, Copy, Debug)]
pub struct NoExpiry;

impl<K, V> ExpireAfterCreate<K, V> for NoExpiry {
    fn expire_after_create(&self, _: &K, _: &V, _: Instant) -> Option<Duration> {
        None
    }
}

impl<K, V> ExpireAfterRead<K, V> for NoExpiry {
    fn expire_after_read(
        &self,
        _: &K,
        _: &V,
        _: Instant,
        left: Option<Duration>,
        _: Instant,
    ) -> Option<Duration> {
        left
    }
}

impl<K, V> ExpireAfterUpdate<K, V> for NoExpiry {
    fn expire_after_update(
        &self,
        _: &K,
        _: &V,
        _: Instant,
        kept: Option<Duration>,
    ) -> Option<Duration> {
        kept
    }
}

impl<K, V> Expiry<K, V> for NoExpiry {
    fn expire_after_create(&self, key: &K, value: &V, created_at: Instant) -> Option<Duration> {
        ExpireAfterCreate::expire_after_create(self, key, value, created_at)
    }

    fn expire_after_read(
        &self,
        key: &K,
        value: &V,
        read_at: Instant,
        duration_until_expiry: Option<Duration>,
        last_modified_at: Instant,
    ) -> Option<Duration> {
        let left = duration_until_expiry;
        ExpireAfterRead::expire_after_read(self, key, value, read_at, left, last_modified_at)
    }

    fn expire_after_update(
        &self,
        key: &K,
        value: &V,
        updated_at: Instant,
        duration_until_expiry: Option<Duration>,
    ) -> Option<Duration> {
        ExpireAfterUpdate::expire_after_update(self, key, value, updated_at, duration_until_expiry)
    }
}
