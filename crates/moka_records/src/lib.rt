//! What a cache keeps of a key: its record, and what stands for it in the orders and among the operations that wait.
#![tactic(auto)]

pub mod instant;
pub mod key_test;
pub mod record_ref;
pub mod records;
