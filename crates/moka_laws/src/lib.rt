//! Laws of the reference cache, and the lemmas that they and the crates above stand on.
#![tactic(auto)]

pub mod laws;
