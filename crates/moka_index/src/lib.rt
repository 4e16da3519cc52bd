//! An index of places, by the hashes of what lies there.
#![tactic(auto)]

mod group;
mod groups;
pub mod place_index;

pub use place_index::PlaceIndex;
