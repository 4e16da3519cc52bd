//! The engine of the cache: `CacheConfig` builds a `BaseCache`, and the other names are those that its calls need, with
//! the laws and the structures. So a crate which uses a cache names this crate alone, also in its proofs: the folder
//! `specs/` hands on the definitions of the reference cache.
//!
//! A caller makes do with `hash`, `do_insert_with_own_hash`, `send`, `get_with_own_hash`, `contains_key_with_own_hash`,
//! `remove_entry_with_own_hash` with `notify_invalidate`, `invalidate_all`, `invalidate_entries_if` and
//! `run_pending_tasks`. Their namesakes `.._with_hash` and `remove_entry` take any hash, as moka's do, and hash the key
//! for the map themselves; `.._by` take a test in place of a key. `set_max_capacity`, `snapshot` with `restore`, and
//! `disable_auto_run` are calls of our own or of moka's housekeeper. The others report, or stand for what moka's layers
//! above the engine call: `apply_reads_writes_if_needed` before each send, and `keys`, `num_cht_segments` and
//! `scanning_get` in an iteration.
#![tactic(auto)]

pub mod base_cache;
pub mod config;
pub mod structures;

pub use base_cache::{
    BaseCache, RestoreError, RestoreRefused, Restored, Sight, Snapshot, SnapshotEntry,
};
pub use config::{CacheConfig, DefaultHasher, Engine};
pub use moka_laws::laws;
pub use moka_parts::calls::{Call, DriveRefused, Entry, KvEntry, Reply, Ticket};
pub use moka_parts::closures::{
    ByClosure, NoPredicate, NoTest, NoWeigher, PairFn, PredicateFn, ValueTest, Weigher,
};
pub use moka_parts::error::{
    CapacityError, InsertError, InsertRefused, OutOfMemory, PredicateError, PredicateRefused,
    SendError,
};
pub use moka_parts::expiry::remaining;
pub use moka_parts::housekeeper::{
    Clock, EVICTION_BATCH_SIZE, FixedClock, HousekeeperConfig, MAX_LOG_SYNC_REPEATS,
};
pub use moka_parts::invalidator::{IdSource, PredicateId};
pub use moka_parts::key_test::KeyTest;
pub use moka_parts::notification::{Listener, NoListener, RemovalCause};
pub use moka_parts::policy::{
    EvictionPolicy, ExpirationPolicy, ExpireAfter, ExpireAfterCreate, ExpireAfterRead,
    ExpireAfterUpdate, Expiry, Instant, NoExpiry, Policy,
};
