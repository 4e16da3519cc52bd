//! A cache in segments: synchronous caches side by side, each with the keys that their hashes send to it.
#![tactic(auto)]

pub mod building;
pub mod iter;
pub mod laws;
pub mod predicates;
pub mod segmented;
pub mod whole;

pub use moka_router::Router;
pub use predicates::RegisterRefused;
pub use segmented::SegmentedCache;
