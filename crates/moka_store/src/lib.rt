//! The store of a cache: its records, found by key or by handle, and the orders in which they stand.
#![tactic(auto)]

pub mod store;
mod timers;
mod write_list;

pub use store::{Handle, IndexHash, MAX_PLACES, Store, Update};
