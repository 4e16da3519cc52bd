//! How many reads there were, and how many of them found their key.
ghost use Rattle.std.specs.Prelude.{◌≡◌, ◌<◌, ◌≤◌, ◌+◌, ◌-◌, ◌^◌, ◌&&◌, nat_le, if◌then◌else◌};
ghost use Rattle.moka_hit_ratio.specs.Ratios.{share_of};

use std::fmt;

/// The parts of a whole that a ratio is counted in.
pub const WHOLE: u64 = 10_000;

/// Reads, and those of them that found their key.
#[derive(Clone, Copy)]
pub struct Tally {
    pub hits: u64,
    pub reads: u64,
    ghost within: { hits ≤ reads },
}

impl Tally {
    /// No read yet.
    pub fn new() -> Self
        ensures { (result.hits ≡ 0) × (result.reads ≡ 0) }
    {
        Tally { hits: 0, reads: 0 }
    }

    /// Counts a read, unless 2^64 - 1 are counted.
    pub fn count(&mut self, is_hit: bool)
        ensures read { self.old.reads < 2 ^ 64 - 1 → self.new.reads ≡ self.old.reads + 1 }
        ensures hit { self.old.reads < 2 ^ 64 - 1 → self.new.hits ≡ self.old.hits + (if is_hit then 1 else 0) }
        ensures full { self.old.reads ≡ 2 ^ 64 - 1 → self.new ≡ self.old }
    {
        if self.reads == u64::MAX {
            return;
        }
        *self = Tally {
            hits: self.hits + u64::from(is_hit),
            reads: self.reads + 1,
        };
    }

    /// Counts a read at this place, if it is not before the first one that counts.
    pub fn count_from(&mut self, first: u64, place: u64, is_hit: bool)
        ensures read { self.old.reads < 2 ^ 64 - 1
            → self.new.reads ≡ self.old.reads + (if nat_le first place then 1 else 0) }
        ensures hit { self.old.reads < 2 ^ 64 - 1
            → self.new.hits ≡ self.old.hits + (if nat_le first place && is_hit then 1 else 0) }
    {
        if place >= first {
            self.count(is_hit);
        }
    }

    /// The share of reads that found their key, in ten-thousandths.
    pub fn ratio(self) -> Ratio
        ensures share { result.0 ≡ share_of self.hits self.reads }
        ensures part { result.0 ≤ WHOLE }
    {
        let parts = match self.hits.saturating_mul(WHOLE).checked_div(self.reads) {
            Some(parts) => parts.min(WHOLE),
            None => 0,
        };
        Ratio(parts)
    }
}

/// A ratio in ten-thousandths.
#[derive(Clone, Copy)]
pub struct Ratio(pub u64);

impl fmt::Display for Ratio {
    fn fmt<W: fmt::Write>(&self, f: &mut fmt::Formatter<W>) -> fmt::Result {
        let ones = self.0 / WHOLE;
        let rest = self.0 % WHOLE;
        write!(f, "{ones}.{rest:04}")
    }
}
