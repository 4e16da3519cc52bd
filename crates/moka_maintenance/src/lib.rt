//! Maintenance: queued reads and writes are applied, and what has expired or exceeds the capacity is removed.
#![tactic(auto)]

pub mod admission;
pub mod bounds;
mod choice;
mod due;
mod expel;
pub mod passes;
pub mod queued;
mod scan;
pub mod sketch;
pub mod sweep;
