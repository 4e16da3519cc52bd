//! What a hit leaves in its record and in the queue of reads.
ghost use Rattle.std.specs.Prelude.{◌≡◌, ◌<◌, ◌++◌, ◌∷◌, [], true, false, length, nat_lt, if◌then◌else◌};
ghost use Rattle.moka_parts.specs.Calls.{queue_length};
ghost use Rattle.moka_parts.specs.Housekeeping.{is_due};
ghost use Rattle.moka_records.specs.declared.records.ReadOperation.TheVariants as read_operation;
ghost use Rattle.moka_store.specs.Store.{ChangesRecord, ExpiresAsBefore, IsHandle};

use moka_inner::Inner;
use moka_lookups::gets::Hit;
use moka_parts::housekeeper::Housekeeper;
use moka_parts::records::ReadOperation;
use moka_store::Handle;
use std::hash::{BuildHasher, Hash};

// Notes a hit in its record, which has this first hash, and queues it unless a run is due first. Whether one is.
#[inline(always)]
pub(super) fn note_hit<K: Eq + Hash, V, S: BuildHasher>(
    inner: &mut Inner<K, V, S>,
    housekeeper: &Housekeeper,
    handle: Handle,
    hash: u64,
    hit: Hit,
) -> bool
    requires handle { IsHandle inner.old.kept handle }
    requires given { handle.number < inner.old.next_number }
    requires expires { ExpiresAsBefore inner.old.kept handle.number hit.expires hit.is_renewed }
    ensures due { result ≡ is_due housekeeper.now.housekeeping (length inner.old.reads) hit.read.0 }
    ensures step { ChangesRecord handle.number (λ r. record r { read = hit.read; expires = hit.expires })
        inner.old.kept inner.new.kept }
    ensures waits { result ≡ true → inner.new ≡ record inner.old { kept = inner.new.kept } }
    ensures queued { result ≡ false → inner.new ≡ record inner.old {
      kept = inner.new.kept;
      reads = if nat_lt (length inner.old.reads) queue_length
          then inner.old.reads ++ read_operation.Hit handle.number hash hit.is_renewed ∷ [] else inner.old.reads;
    } }
{
    inner.touch(handle, hit.read, hit.expires, hit.is_renewed);
    let queued = inner.read_count();
    if housekeeper.should_apply_reads(queued, hit.read) {
        return true;
    }
    let read = ReadOperation::Hit {
        number: handle.number,
        hash,
        renewed: hit.is_renewed,
    };
    inner.queue_read(handle.place, read);
    false
}
