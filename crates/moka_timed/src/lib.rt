//! The synchronous cache with a clock of its own, so that no call takes a moment.
#![tactic(auto)]

mod by_key_test;
pub mod cache;
pub mod clock;
pub mod entry_selector;
mod iter;
mod many;
mod removals;
mod saves;

pub use cache::TimedCache;
pub use clock::{ManualClock, Monotonic, SystemClock};
pub use entry_selector::TimedEntrySelector;
