//! Callers of the cache and of the engine, each proved, to be read and copied.
#![tactic(auto)]

pub mod asked;
pub mod batches;
pub mod bounded;
pub mod cached;
pub mod driven;
pub mod expiring;
pub mod handled;
pub mod invalidated;
pub mod late;
pub mod notified;
pub mod ordered;
pub mod read_through;
pub mod refused;
pub mod released;
pub mod resized;
pub mod selected;
pub mod texts;
pub mod visits;
pub mod weighed;
