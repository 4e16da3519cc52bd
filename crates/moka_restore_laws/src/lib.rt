//! Laws of caches that are made again, and of calls with entries put back among them, which callers may cite.
#![tactic(auto)]

pub mod laws;
