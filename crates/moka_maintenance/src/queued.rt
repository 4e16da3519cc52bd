//! Operations and reads that wait, each with the place of its record's row.
ghost use Rattle.std.specs.Prelude.{◌≡◌};
ghost use Rattle.moka_maintenance.specs.Queued.{read_of};

use moka_parts::records::{Operation, ReadOperation};

/// A write operation with the place of its record's row.
#[derive(Clone, Copy)]
pub struct PlacedWrite {
    pub place: usize,
    pub operation: Operation,
}

/// A write operation that was sent, with its ticket.
#[derive(Clone, Copy)]
pub struct QueuedWrite {
    pub ticket: u64,
    pub write: PlacedWrite,
}

/// What a look-up found whose read is queued.
#[derive(Clone, Copy)]
pub enum Outcome {
    Hit,
    /// A hit that changed when the record expires.
    Renewal,
    Miss,
}

/// A read with the place of the row that it found, in three words: the queue is written at each look-up.
#[derive(Clone, Copy)]
pub struct QueuedRead {
    pub outcome: Outcome,
    pub place: u32,
    /// The record's number, and 0 if none was found.
    pub number: u64,
    pub hash: u64,
}

impl QueuedRead {
    /// The read, with this place.
    #[inline(always)]
    pub fn new(read: ReadOperation, place: u32) -> Self
        ensures { (read_of result ≡ read) × (result.place ≡ place) }
    {
        match read {
            ReadOperation::Hit {
                number,
                hash,
                renewed,
            } => QueuedRead {
                outcome: if renewed {
                    Outcome::Renewal
                } else {
                    Outcome::Hit
                },
                place,
                number,
                hash,
            },
            ReadOperation::Miss { hash } => QueuedRead {
                outcome: Outcome::Miss,
                place,
                number: 0,
                hash,
            },
        }
    }
}
