//! The synchronous cache: each call sends the operations that it leaves.
#![tactic(auto)]

pub mod cache;
pub mod compute;
pub mod each;
pub mod entry;
pub mod entry_selector;
pub mod iter;
pub mod laws;
pub mod many;
pub mod removals;

pub use cache::{Cache, RestoreManyRefused};
pub use compute::{CompResult, ComputeRefused, Op};
pub use entry::CacheEntry;
pub use entry_selector::OwnedKeyEntrySelector;
pub use error::{GetWithRefused, NotTold};
pub use many::{GetManyRefused, InsertManyRefused, InvalidateManyRefused};
pub use moka_calls::error;
pub use moka_parts::stats;
pub use removals::{CountingListener, Removals};
pub use stats::Stats;
