//! What callers bring to a cache and read from it: policies, calls with their replies, and what is refused.
#![tactic(auto)]

pub mod calls;
pub mod error;
pub mod policy;
pub mod restores;
