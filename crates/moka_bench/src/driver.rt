//! A cache with what drives it.
use crate::config::Config;
use crate::subject::Subject;
use moka_parts::policy::Instant;

/// Why nothing was counted.
pub enum Failure {
    OutOfMemory,
    Malformed,
}

/// What was counted. Sums go around at 2^64.
#[derive(Clone, Copy, Default)]
pub struct Counts {
    pub hits: u64,
    pub misses: u64,
    pub inserts: u64,
    /// The sum of the values that were found.
    pub sum: u64,
    /// The entry count of the last run.
    pub entries: u64,
    /// How many removals a listener was told.
    pub notices: u64,
}

impl Counts {
    /// The counts as words, with the least byte first.
    pub fn words(&self) -> [[u8; 8]; 8] {
        [
            self.hits.to_le_bytes(),
            self.misses.to_le_bytes(),
            self.inserts.to_le_bytes(),
            self.sum.to_le_bytes(),
            self.entries.to_le_bytes(),
            self.notices.to_le_bytes(),
            [0; 8],
            [0; 8],
        ]
    }
}

/// A cache, the moment, and what was counted.
#[derive(Drop)]
pub struct Driver<T> {
    subject: T,
    config: Config,
    now: u64,
    counts: Counts,
    is_refused: bool,
}

impl<T: Subject> Driver<T> {
    /// Nothing was counted yet, at the moment 0.
    pub fn new(subject: T, config: Config) -> Self {
        Driver {
            subject,
            config,
            now: 0,
            counts: Counts::default(),
            is_refused: false,
        }
    }

    /// What was counted, unless memory was refused.
    pub fn counts(&self) -> Option<Counts> {
        if self.is_refused {
            return None;
        }
        Some(Counts {
            entries: self.subject.entry_count(),
            notices: self.subject.notices(),
            ..self.counts
        })
    }

    /// The clock goes on.
    pub fn tick(&mut self, nanoseconds: u64) {
        self.now = self.now.wrapping_add(nanoseconds);
    }

    /// The clock goes on by one step.
    pub fn step(&mut self) {
        self.tick(self.config.step);
    }

    /// A run of maintenance.
    pub fn run(&mut self, batch: u32) {
        self.subject.run(Instant(self.now), batch);
    }

    /// Gets a key. Whether it was found.
    #[inline(always)]
    pub fn get(&mut self, key: u64) -> bool {
        match self.subject.get(key, Instant(self.now)) {
            Ok(Some(value)) => {
                self.counts.hits = self.counts.hits.wrapping_add(1);
                self.counts.sum = self.counts.sum.wrapping_add(value);
                true
            }
            Ok(None) => {
                self.counts.misses = self.counts.misses.wrapping_add(1);
                false
            }
            Err(_) => {
                self.is_refused = true;
                true
            }
        }
    }

    /// Puts the number behind the key under it, if `may_run` after the run that is due.
    pub fn put_next(&mut self, key: u64, may_run: bool) {
        self.put(key, key.wrapping_add(1), may_run);
    }

    /// Puts a value under a key, if `may_run` after the run that is due.
    pub fn put(&mut self, key: u64, value: u64, may_run: bool) {
        match self.subject.put(key, value, Instant(self.now), may_run) {
            Ok(true) => self.counts.inserts = self.counts.inserts.wrapping_add(1),
            Ok(false) => {}
            Err(_) => self.is_refused = true,
        }
    }
}
