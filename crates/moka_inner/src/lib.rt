//! The inner part of the cache: its records, the operations that wait to be sent, and both queues.
#![tactic(auto)]

pub mod inner;

pub use inner::{Hashes, Inner, Layout};
