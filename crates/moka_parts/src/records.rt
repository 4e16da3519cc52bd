//! What the cache keeps: records, members of the access list and operations that wait, all of `moka_records`,
//! and registered predicates.
use crate::invalidator::PredicateId;
use crate::policy::Instant;
pub use moka_records::records::{Member, Operation, ReadOperation, Record, Ticketed};

/// A registered predicate with its identifier and the moment of its registration.
/// moka: `sync::invalidator::Predicate`.
#[derive(Drop)]
pub struct Registered<P> {
    /// The identifier, which no other registered predicate has.
    pub id: PredicateId,
    /// What tests entries.
    pub predicate: P,
    /// When it was registered. It covers only what was written then or before.
    pub registered: Instant,
}
