//! The records of a cache by place, with how a row lies in memory.
#![tactic(auto)]

pub mod table;

pub use table::{Membership, RecordTable, Update};
