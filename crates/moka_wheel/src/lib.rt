//! Timers of records, in a wheel of eight levels.
//!
//! A change of one timer takes constant time. A move of the wheel's moment reads the bits of the buckets in use, the
//! heads of those that it passes, and the timers of those that it reaches or passes; each of these goes to a lower
//! level or to the due list, so that a timer moves at most eight times. Only `new` and `reserve` ask for memory.
#![tactic(auto)]

mod buckets;
mod levels;
mod nodes;
pub mod timer_wheel;

pub use timer_wheel::{Due, TimerWheel};
