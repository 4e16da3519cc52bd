//! The calls of a cache as values, and what each answers.
ghost use Rattle.std.specs.Prelude.{◌≡◌, option_copied};

use crate::error::{CapacityError, InsertRefused, OutOfMemory, PredicateRefused, SendError};
use crate::policy::Instant;
use std::error::Error;
use std::fmt;
use std::time::Duration;
use uuid::Uuid;

/// Names a registered predicate. moka: `sync::PredicateId`.
pub type PredicateId = Uuid;

/// Names an operation that was handed out and waits to be sent.
#[derive(Clone, Copy, Debug, PartialEq, Eq)]
pub struct Ticket(pub u64);

/// What a get found. moka: `common::entry::Entry`.
#[derive(Debug, Drop)]
pub struct Entry<K, V> {
    /// The record's key, if it was asked for.
    pub key: Option<K>,
    /// A clone of the record's value.
    pub value: V,
}

impl<K, V> Entry<K, V> {
    /// The record's key, if it was asked for.
    pub fn key(&self) -> Option<&K>
        ensures { option_copied result ≡ self.now.key }
    {
        self.key.as_ref()
    }

    /// The value.
    pub fn value(&self) -> &V
        ensures { result.now ≡ self.now.value }
    {
        &self.value
    }

    /// The value, out of the entry.
    pub fn into_value(self) -> V
    where
        K: Drop,
        ensures { result ≡ self.value }
    {
        self.value
    }
}

/// What a removal took out. moka: `common::concurrent::KvEntry`.
#[derive(Debug, Drop)]
pub struct KvEntry<K, V> {
    /// The record's own key.
    pub key: K,
    /// The record's value.
    pub value: V,
    /// When the record was last inserted.
    pub last_modified: Instant,
    /// When the record was last inserted or read.
    pub last_accessed: Instant,
}

/// One call, with its arguments. Moments are in nanoseconds.
#[derive(Drop)]
pub enum Call<K, V, P> {
    /// Puts a value under a key; the operation waits under a ticket.
    Insert {
        key: K,
        hash: u64,
        value: V,
        now: Instant,
    },
    /// Moves an operation to the queue of writes.
    Send {
        ticket: Ticket,
    },
    /// Looks up a key, and records the read.
    Get {
        key: K,
        hash: u64,
        need_key: bool,
        now: Instant,
    },
    /// Looks up a key, and records nothing.
    GetUnrecorded {
        key: K,
        hash: u64,
        now: Instant,
    },
    /// Asks whether a key is there.
    Contains {
        key: K,
        hash: u64,
        now: Instant,
    },
    /// Asks for a clone of the key that the cache keeps.
    Key {
        key: K,
        hash: u64,
    },
    /// Looks up a key as a scan does, which changes nothing.
    Scan {
        key: K,
        now: Instant,
    },
    /// Takes a key out. If a moment is given, the listener is notified as of that moment.
    Remove {
        key: K,
        hash: u64,
        now: Option<Instant>,
    },
    /// Hides what was written or read before the moment.
    InvalidateAll {
        now: Instant,
    },
    /// Registers a predicate that hides what was written at that moment or before.
    InvalidateIf {
        predicate: P,
        now: Instant,
    },
    /// Runs maintenance.
    Run {
        now: Instant,
        /// After this time no further pass is made. It applies only if a listener is set.
        limit: Option<Duration>,
        /// How often the run may go back to its queues. With one owner it has no effect.
        repeats: u32,
        /// How many entries each step of a pass looks at, except the step by entries' own expiries.
        batch: u32,
    },
    /// Runs maintenance if the housekeeper says that it is due.
    RunIfDue {
        now: Instant,
    },
    /// From now on runs start by themselves only if more is left.
    DisableAutoRun,
    /// Asks for the keys of a segment.
    Keys {
        segment: usize,
    },
    /// Asks for the report of the last run.
    Report,
    /// Asks what waits to be sent or applied.
    Pending,
    /// Sets the greatest sum of weights that the cache keeps; `None` for no bound.
    SetCapacity {
        capacity: Option<u64>,
    },
}

impl<K, V, P> Call<K, V, P> {
    // Which call it is. The printing stands apart, since what follows a match is proved behind each of its arms.
    fn name(&self) -> &'static str {
        match self {
            Call::Insert { .. } => "Insert",
            Call::Send { .. } => "Send",
            Call::Get { .. } => "Get",
            Call::GetUnrecorded { .. } => "GetUnrecorded",
            Call::Contains { .. } => "Contains",
            Call::Key { .. } => "Key",
            Call::Scan { .. } => "Scan",
            Call::Remove { .. } => "Remove",
            Call::InvalidateAll { .. } => "InvalidateAll",
            Call::InvalidateIf { .. } => "InvalidateIf",
            Call::Run { .. } => "Run",
            Call::RunIfDue { .. } => "RunIfDue",
            Call::DisableAutoRun => "DisableAutoRun",
            Call::Keys { .. } => "Keys",
            Call::Report => "Report",
            Call::Pending => "Pending",
            Call::SetCapacity { .. } => "SetCapacity",
        }
    }
}

/// Prints which call it is. Its arguments are left out, so that keys and values need no `Debug`.
impl<K, V, P> fmt::Debug for Call<K, V, P> {
    fn fmt<W: fmt::Write>(&self, f: &mut fmt::Formatter<W>) -> fmt::Result {
        f.write_str(self.name())
    }
}

/// The answer of the call with the same name.
#[derive(Drop)]
pub enum Reply<K, V, P> {
    /// The ticket of the operation, and the moment at which the value was written, in nanoseconds.
    Insert(Result<(Ticket, Instant), InsertRefused<K, V>>),
    /// An insert into a cache of capacity 0 hands back key and value.
    Disabled {
        key: K,
        value: V,
    },
    /// Whether the operation was sent, or why it was not.
    Send(Result<(), SendError>),
    /// What was found, if anything was.
    Get(Result<Option<Entry<K, V>>, OutOfMemory>),
    /// A clone of the value, if one was found.
    GetUnrecorded(Result<Option<V>, OutOfMemory>),
    /// Whether the key is there.
    Contains(bool),
    /// A clone of the key, if it is there, hidden or not.
    Key(Result<Option<K>, OutOfMemory>),
    /// A clone of the value, if one was found.
    Scan(Result<Option<V>, OutOfMemory>),
    /// What was taken out, if anything was, and how notifying the listener of it went.
    Remove {
        /// What was taken out, with the ticket of the removal's operation.
        removed: Option<(KvEntry<K, V>, Ticket)>,
        /// How notifying the listener went, if that was asked for and something was taken out.
        told: Option<Result<(), OutOfMemory>>,
    },
    /// What was written or read before the moment is hidden.
    InvalidateAll,
    /// The identifier of the predicate.
    InvalidateIf(Result<PredicateId, PredicateRefused<P>>),
    /// Whether more is left.
    Run(bool),
    /// The run was made if it was due, and does not say what it left.
    RunIfDue,
    /// Runs start by themselves only if more is left.
    DisableAutoRun,
    /// Clones of all keys, hidden or not; `None` unless the segment is 0.
    Keys(Result<Option<Vec<K>>, OutOfMemory>),
    /// The report of the last run.
    Report {
        /// How many entries the last run counted.
        count: u64,
        /// The sum of their weights, saturating.
        weight: u64,
        /// How many predicates are registered now.
        predicates: u64,
    },
    /// What waits to be sent or applied.
    Pending {
        /// How many operations wait to be sent.
        handed: u64,
        /// The least of their tickets.
        oldest: Option<Ticket>,
        /// How many writes wait to be applied.
        writes: usize,
        /// How many reads wait to be applied.
        reads: usize,
    },
    /// Whether the capacity was changed, or why it was not.
    SetCapacity(Result<(), CapacityError>),
}

impl<K, V, P> Reply<K, V, P> {
    // Which call it answers.
    fn name(&self) -> &'static str {
        match self {
            Reply::Insert(_) => "Insert",
            Reply::Disabled { .. } => "Disabled",
            Reply::Send(_) => "Send",
            Reply::Get(_) => "Get",
            Reply::GetUnrecorded(_) => "GetUnrecorded",
            Reply::Contains(_) => "Contains",
            Reply::Key(_) => "Key",
            Reply::Scan(_) => "Scan",
            Reply::Remove { .. } => "Remove",
            Reply::InvalidateAll => "InvalidateAll",
            Reply::InvalidateIf(_) => "InvalidateIf",
            Reply::Run(_) => "Run",
            Reply::RunIfDue => "RunIfDue",
            Reply::DisableAutoRun => "DisableAutoRun",
            Reply::Keys(_) => "Keys",
            Reply::Report { .. } => "Report",
            Reply::Pending { .. } => "Pending",
            Reply::SetCapacity(_) => "SetCapacity",
        }
    }
}

/// Prints the name of the answered call. What it answered is left out, so that keys and values need no `Debug`.
impl<K, V, P> fmt::Debug for Reply<K, V, P> {
    fn fmt<W: fmt::Write>(&self, f: &mut fmt::Formatter<W>) -> fmt::Result {
        f.write_str(self.name())
    }
}

/// The calls come back if there is no room for their replies. None was made.
#[derive(Drop)]
pub struct DriveRefused<K, V, P> {
    /// Why they were refused.
    pub error: OutOfMemory,
    /// The calls that were handed in.
    pub calls: Vec<Call<K, V, P>>,
}

impl<K, V, P> fmt::Display for DriveRefused<K, V, P> {
    ghost use Rattle.std.specs.Prelude.{Some};
    ghost use Rattle.moka_types.specs.Texts.{out_of_memory_text};

    ghost output = { λ _. Some out_of_memory_text };

    fn fmt<W: fmt::Write>(&self, f: &mut fmt::Formatter<W>) -> fmt::Result {
        write!(f, "{}", self.error)
    }
}

/// Prints why they were refused, and how many calls came back.
impl<K, V, P> fmt::Debug for DriveRefused<K, V, P> {
    fn fmt<W: fmt::Write>(&self, f: &mut fmt::Formatter<W>) -> fmt::Result {
        f.debug_struct("DriveRefused")
            .field("error", &self.error)
            .field("calls", &self.calls.len())
            .finish()
    }
}

impl<K: Drop, V: Drop, P: Drop> Error for DriveRefused<K, V, P> {}
