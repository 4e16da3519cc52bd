//! Reports of what waits. They take no memory, and change nothing.
ghost use Rattle.std.specs.Prelude.{◌≡◌, length, option_map};
ghost use Rattle.std.specs.FinMap as finite;
ghost use Rattle.moka_parts.specs.Calls.{oldest_ticket};

use super::BaseCache;
use moka_parts::calls::Ticket;
use moka_parts::policy::Expiry;
use std::hash::{BuildHasher, Hash};

impl<K: Eq + Hash, V, S: BuildHasher, X: Expiry<K, V>, L, P, W> BaseCache<K, V, S, X, L, P, W> {
    /// How many operations were handed out and not sent.
    pub fn outstanding(&self) -> u64
        ensures { result ≡ finite.len self.now.state.outstanding }
    {
        self.inner.outstanding_count() as u64
    }

    /// The least ticket whose operation was not sent, and `None` if all were sent.
    pub fn oldest_unsent(&self) -> Option<Ticket>
        ensures { option_map (λ t. t.0) result ≡ oldest_ticket self.now.state }
    {
        self.inner.oldest_outstanding()
    }

    /// How many operations were sent and wait to be applied.
    pub fn queued_writes(&self) -> usize
        ensures { result ≡ length self.now.state.writes }
    {
        self.inner.write_count()
    }

    /// How many reads wait to be applied.
    pub fn queued_reads(&self) -> usize
        ensures { result ≡ length self.now.state.reads }
    {
        self.inner.read_count()
    }
}
