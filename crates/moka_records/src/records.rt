//! What the cache keeps: records, members of the access list, and operations that wait.
use crate::instant::Instant;

/// What the cache keeps of a key. moka: `common::concurrent::ValueEntry` with its `EntryInfo`.
#[derive(Drop)]
pub struct Record<K, V> {
    /// The key of the first insert.
    pub key: K,
    /// The hash that came with the first insert.
    pub hash: u64,
    /// The value of the last insert.
    pub value: V,
    /// When it was last inserted or read.
    pub read: Instant,
    /// When it expires by itself, if it does.
    pub expires: Option<Instant>,
    /// Counts up from 1; no number is used twice.
    pub number: u64,
    /// When it was last inserted.
    pub written: Instant,
    /// Counts the writes of the key, from 1.
    pub generation: u64,
    /// The highest generation of which an operation was applied, 0 before the first.
    pub applied: u64,
    /// The weight of the value that stands there, whether it is counted yet or not.
    pub weight: u32,
}

/// A record's number in the access list, with the weight that is counted for it.
#[derive(Clone, Copy)]
pub struct Member {
    /// The number of the record.
    pub number: u64,
    /// The weight that is counted for it.
    pub counted: u32,
}

/// A write that maintenance has still to apply. moka: `common::concurrent::WriteOp`.
#[derive(Clone, Copy)]
pub enum Operation {
    /// A value was put under a key.
    Upsert {
        /// The number of the record.
        number: u64,
        /// The generation that the insert gave it.
        generation: u64,
        /// The weight of the value.
        weight: u32,
        /// The hash that came with the insert.
        hash: u64,
    },
    /// A record was taken out.
    Removal {
        /// The number that the record had.
        number: u64,
        /// One more than the generation that it had.
        generation: u64,
    },
}

/// An operation with the ticket under which it was handed out.
#[derive(Clone, Copy)]
pub struct Ticketed {
    /// The ticket, which no other operation has.
    pub ticket: u64,
    /// The operation.
    pub operation: Operation,
}

/// A read that maintenance has still to apply. moka: `common::concurrent::ReadOp`.
#[derive(Clone, Copy)]
pub enum ReadOperation {
    /// A value was found.
    Hit {
        /// The number of its record.
        number: u64,
        /// The record's hash.
        hash: u64,
        /// Whether the read changed when the record expires.
        renewed: bool,
    },
    /// No value was found.
    Miss {
        /// The hash that came with the look-up.
        hash: u64,
    },
}
