//! What a script gives to the cache from outside: moments and identifiers.
use moka_parts::housekeeper::Clock;
use moka_parts::invalidator::{IdSource, PredicateId};
use moka_parts::policy::Instant;
use std::marker::Model;
use uuid::Uuid;

/// A clock that tells listed readings, one after the other, and the last one again and again. Without any it stands at
/// 0.
#[derive(Drop)]
pub struct ListedClock {
    readings: Vec<u64>,
    next: usize,
}

impl Model for ListedClock {
    ghost use Rattle.std.specs.Prelude.{ℕ, List, drop};

    ghost Value = { List ℕ };

    ghost view = { λ c. drop c.next c.readings.items };
}

impl ListedClock {
    ghost use Rattle.std.specs.Prelude.{◌≡◌};

    /// A clock that tells these readings.
    pub fn new(readings: Vec<u64>) -> Self
        ensures { result ≡ readings.items }
    {
        ListedClock { readings, next: 0 }
    }
}

impl Clock for ListedClock {
    ghost use Rattle.std.specs.Prelude.{◌≡◌};
    ghost use Rattle.moka_script.specs.Clock.{next_reading, readings_left};

    ghost reads = { λ before moment after. (moment.0 ≡ next_reading before) × (after ≡ readings_left before) };

    fn now(&mut self) -> Instant {
        let Some(reading) = self.readings.get(self.next) else {
            return Instant(0);
        };
        let now = Instant(*reading);
        if self.next + 1 < self.readings.len() {
            self.next += 1;
        }
        now
    }
}

/// Counts identifiers up from 1, and gives the greatest again and again; or gives 1 each time.
#[derive(Clone, Copy)]
pub struct CountedIds {
    given: u64,
    repeats: bool,
}

impl CountedIds {
    ghost use Rattle.std.specs.Prelude.{◌≡◌};
    ghost use Rattle.moka_script.specs.Ids.{first_ids};

    /// None is given yet; whether each is to be 1.
    pub fn new(repeats: bool) -> Self
        ensures { result ≡ first_ids repeats }
    {
        CountedIds { given: 0, repeats }
    }
}

impl IdSource for CountedIds {
    ghost use Rattle.std.specs.Prelude.{◌≡◌};
    ghost use Rattle.std.specs.Int.{w128, to_be_bytes};
    ghost use Rattle.moka_script.specs.Ids.{next_given};

    ghost gives = { λ before id after. (after ≡ record before { given = next_given before })
        × (id ≡ to_be_bytes w128 after.given) };

    fn next_id(&mut self) -> PredicateId {
        self.given = if self.repeats {
            1
        } else {
            self.given.saturating_add(1)
        };
        Uuid::from_u128(u128::from(self.given))
    }
}
