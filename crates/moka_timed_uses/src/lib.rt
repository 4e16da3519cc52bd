//! Callers of the cache that owns its clock and of the cache in segments, each proved, to be read and copied.
#![tactic(auto)]

pub mod borrowed;
pub mod joined;
pub mod logins;
pub mod profiles;
pub mod restarted;
pub mod sessions;
pub mod shared;
