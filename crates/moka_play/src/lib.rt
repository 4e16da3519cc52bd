//! Plays a script: makes a cache by its settings, and its calls on that cache. The programs that read scripts share it.
#![tactic(auto)]

pub mod play;
