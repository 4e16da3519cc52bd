//! The traces that are made: which keys are read, one after the other.
use crate::ranks::Zipf;
use rand::rngs::SmallRng;
use rand::{Rng, SeedableRng};

/// How many reads of a working set there are for each key that it moves by.
const READS_A_MOVE: u64 = 8;

/// Of so many stretches of reads the last one is a scan.
const STRETCHES: u64 = 4;

/// What keys are read.
#[derive(Clone, Copy)]
pub enum Shape {
    /// Keys by a Zipf law, with an exponent in hundredths.
    Zipf(u32),
    /// All keys in turn, again and again.
    Loop,
    /// Keys by a Zipf law of exponent 0.9, and after each three times as many reads as there are keys,
    /// a scan of as many keys that were never read before.
    Scan,
    /// Keys of a working set, all as often, which moves on by one key with each eight reads.
    Moving,
}

/// A trace that is made.
#[derive(Drop)]
pub struct Trace {
    shape: Shape,
    keys: u32,
    ranks: Zipf,
    random: SmallRng,
    place: u64,
}

impl Trace {
    /// A trace over so many keys, from its beginning.
    pub fn new(shape: Shape, keys: u32) -> Self {
        let ranks = match shape {
            Shape::Zipf(hundredths) => Zipf::new(keys, hundredths),
            Shape::Scan => Zipf::new(keys, 90),
            Shape::Loop | Shape::Moving => Zipf::new(1, 90),
        };
        Trace {
            shape,
            keys: keys.max(1),
            ranks,
            random: SmallRng::seed_from_u64(1),
            place: 0,
        }
    }

    /// The key that is read next.
    pub fn next_key(&mut self) -> u64 {
        let place = self.place;
        self.place = place.wrapping_add(1);
        let keys = u64::from(self.keys.max(1));
        match self.shape {
            Shape::Zipf(_) => self.ranks.draw(&mut self.random),
            Shape::Loop => place % keys,
            Shape::Scan if place / keys % STRETCHES == STRETCHES - 1 => place.wrapping_add(keys),
            Shape::Scan => self.ranks.draw(&mut self.random),
            Shape::Moving => (place / READS_A_MOVE).wrapping_add(self.random.next_u64() % keys),
        }
    }
}
