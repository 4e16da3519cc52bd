//! What a stream drives.
use moka_parts::error::OutOfMemory;
use moka_parts::policy::Instant;

mod numbers;
mod synchronous;
mod texts;

pub use synchronous::Synchronous;
pub use texts::Texts;

/// A cache whose keys and values are told by numbers.
pub trait Subject {
    /// What the value of a key counts as.
    fn get(&mut self, key: u64, now: Instant) -> Result<Option<u64>, OutOfMemory>;

    /// Puts a value under a key, if `may_run` after the run that is due. Whether the cache keeps anything.
    fn put(
        &mut self,
        key: u64,
        value: u64,
        now: Instant,
        may_run: bool,
    ) -> Result<bool, OutOfMemory>;

    /// A run of maintenance.
    fn run(&mut self, now: Instant, batch: u32);

    /// The entry count of the last run.
    fn entry_count(&self) -> u64;

    /// How many removals a listener was told.
    fn notices(&self) -> u64;
}
