//! The parts of a cache engine: listeners, weighers and predicates, the tests by moments and the housekeeper, beside
//! the plain types of calls and replies from `moka_types` and those of records from `moka_records`.
//! The folder `specs/` holds the reference cache, which says what the engine does.
#![tactic(auto)]

pub mod closures;
pub mod expiry;
pub mod housekeeper;
pub mod invalidator;
pub mod notification;
pub mod records;
pub mod stats;

pub use moka_records::{key_test, record_ref};
pub use moka_types::{calls, error, policy, restores};
