//! The frequency sketch: how often each hash was seen, in a few bits.
#![tactic(auto)]

pub mod frequency_sketch;
mod words;
