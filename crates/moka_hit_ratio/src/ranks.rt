//! Ranks of keys by a Zipf law.
use rand::Rng;
use std::num::saturating_f64_to_u64;

/// 2^-53, by which a number of 53 bits becomes one from 0 to below 1.
const UNIT: f64 = 1.0 / 9_007_199_254_740_992.0;

/// Draws ranks as benchmarks of caches commonly do, by the method of Gray and others: the first two with the
/// frequencies of the law, and all others by a power of a random number, which comes near to it.
#[derive(Clone, Copy)]
pub struct Zipf {
    /// How many ranks there are.
    count: u32,
    /// A key of rank `r`, from 1 on, is read with a frequency in proportion to `r^-exponent`.
    exponent: f64,
    /// The sum of `r^-exponent` over all ranks.
    total: f64,
    /// What makes the law of the ranks behind the second one a whole.
    scale: f64,
}

impl Zipf {
    /// So many ranks, with an exponent below 1 in hundredths.
    pub fn new(count: u32, hundredths: u32) -> Self {
        let exponent = f64::from(hundredths) / 100.0;
        let mut total = 0.0;
        for rank in 1..=count {
            total += f64::from(rank).powf(-exponent);
        }
        let front = 1.0 + 0.5f64.powf(exponent);
        let behind = 1.0 - (2.0 / f64::from(count)).powf(1.0 - exponent);
        Zipf {
            count,
            exponent,
            total,
            scale: behind / (1.0 - front / total),
        }
    }

    /// A rank, from 0 on.
    pub fn draw<R: Rng>(&self, random: &mut R) -> u64 {
        let drawn = ((random.next_u64() >> 11) as f64) * UNIT;
        let height = drawn * self.total;
        if height < 1.0 {
            return 0;
        }
        if height < 1.0 + 0.5f64.powf(self.exponent) {
            return 1;
        }
        let power = (self.scale * drawn - self.scale + 1.0).powf(1.0 / (1.0 - self.exponent));
        let rank = saturating_f64_to_u64(f64::from(self.count) * power);
        rank.min(u64::from(self.count.saturating_sub(1)))
    }
}
