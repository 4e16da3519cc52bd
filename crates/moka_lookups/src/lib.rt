//! What look-ups find in a store, what inserts are to make of their keys, why records leave, and snapshots. Nothing
//! here changes a record.
#![tactic(auto)]

pub mod causes;
pub mod gets;
pub mod inserts;
pub mod sights;
pub mod snapshot;
