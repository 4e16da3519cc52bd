//! What an engine may be given: an expiry, a listener, a weigher; and a hasher by another name.
use moka_parts::closures::Weigher;
use moka_parts::notification::{Listener, NoListener, RemovalCause};
use moka_parts::policy::{ExpireAfter, ExpireAfterCreate, Instant, NoExpiry};
use std::hash::BuildHasher;
use std::time::Duration;

/// An expiry that goes by values.
pub const BY_VALUE: ExpireAfter<ByValue, NoExpiry, NoExpiry> = ExpireAfter {
    create: ByValue,
    read: NoExpiry,
    update: NoExpiry,
};

/// An entry expires so many nanoseconds after its creation as its value says.
#[derive(Clone, Copy)]
pub struct ByValue;

impl ExpireAfterCreate<u64, u64> for ByValue {
    ghost use Rattle.std.specs.Prelude.{Some};

    ghost created = { λ _ _ value _. Some value };

    fn expire_after_create(&self, _: &u64, value: &u64, _: Instant) -> Option<Duration> {
        Some(Duration::from_nanos(*value))
    }
}

/// An entry weighs 1 more than its value modulo 16.
#[derive(Clone, Copy)]
pub struct ByRemainder;

impl Weigher<u64, u64> for ByRemainder {
    ghost use Rattle.std.specs.Prelude.{◌≡◌, ◌+◌, ◌%◌};
    ghost use Rattle.std.proofs.Common.{sym, ◌∙◌};

    ghost weighs = { λ _ _ value weight. weight ≡ value % 16 + 1 };

    fn weigh(&self, _: &u64, value: &u64) -> u32 {
        (*value % 16) as u32 + 1
    }

    ghost one_weight = { λ _ _ _ _ _ first second. first ∙ sym second };
}

/// Counts what it is told.
#[derive(Clone, Copy)]
pub struct Heard(pub u64);

impl Listener<u64, u64> for Heard {
    ghost tells = { λ _ _ _ _ _. Unit {0} };

    fn notify(&mut self, _: u64, _: u64, _: RemovalCause) {
        self.0 = self.0.wrapping_add(1);
    }
}

/// A listener that says how much it was told.
pub trait Notices {
    fn notices(&self) -> u64;
}

impl Notices for NoListener {
    fn notices(&self) -> u64 {
        0
    }
}

impl Notices for Heard {
    fn notices(&self) -> u64 {
        self.0
    }
}

/// A hasher by another name: a cache with it has code of its own, as in a program that has no other cache.
#[derive(Drop)]
pub struct Apart<S>(pub S);

impl<S: BuildHasher> BuildHasher for Apart<S> {
    type Hasher = S::Hasher;

    ghost build_hasher = { λ apart. S.build_hasher apart.0 };

    fn build_hasher(&self) -> S::Hasher {
        self.0.build_hasher()
    }
}
