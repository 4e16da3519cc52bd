//! Lists of calls of the engine, made one after the other.
#![tactic(auto)]

pub mod driver;

pub use driver::drive;
