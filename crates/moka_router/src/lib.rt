//! Which segment of a cache a key belongs to, which part of a capacity is a segment's, and the capacity of all.
#![tactic(auto)]

pub mod capacity;
pub mod router;

pub use router::{Router, select_mut};
