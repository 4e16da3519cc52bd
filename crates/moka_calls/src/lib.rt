//! What the calls of the synchronous cache answer and refuse, what they count, and what they mean: chains of the
//! reference cache's steps, with the laws of lists of them. `moka_cache` makes the calls.
#![tactic(auto)]

pub mod answers;
pub mod compute;
pub mod entry;
pub mod error;
pub mod laws;
pub mod many;
pub mod removals;
