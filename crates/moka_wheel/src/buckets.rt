//! The buckets of the wheel, and how its moment moves.
ghost use Rattle.std.specs.Prelude.{◌≡◌, ◌≢◌, ℕ, ◌+◌, ◌<◌, ◌≤◌, min, IsTrue, IfOk, IfSome, IfNone, length, vec_len, vec_capacity, false};
ghost use Rattle.moka_links.specs.Links.{KeepsCapacity};
ghost use Rattle.moka_wheel.specs.Nodes.{at, attached, befores, behinds, buckets, moments, numbers};
ghost use Rattle.moka_wheel.specs.Levels.{IsHome, bit_of, end_of, span_of, start_of};
ghost use Rattle.moka_wheel.specs.Buckets.{AreBuckets, IsTimer, Keeps, Puts, Takes};

use crate::levels::{first_marked, home, mark, unmark};
use crate::nodes::{DUE, Entry, HEADS, attach, detach};
use moka_links::Node;
use std::alloc::{AllocError, Global};

/// The lists of timers, by the bytes of their moments.
#[derive(Drop)]
pub(crate) struct Buckets {
    /// The heads of the buckets, the head of the due list, then timers and free nodes.
    pub(crate) nodes: Vec<Node<Entry>>,
    /// A bit for each bucket that may hold timers.
    pub(crate) occupied: [u64; 32],
    /// How far the wheel has come.
    pub(crate) moment: u64,
}

/// The first moment of a bucket that is ahead of `moment`.
fn start_of(moment: u64, bucket: u32) -> u64
    requires { bucket < 2048 }
    ensures { result ≡ start_of moment bucket }
{
    let level = bucket / 256;
    let above = (moment >> (8 * level)) / 256;
    (above * 256 + u64::from(bucket % 256)) << (8 * level)
}

/// How many moments a bucket has.
fn span_of(bucket: u32) -> u64
    requires { bucket < 2048 }
    ensures { result ≡ span_of bucket }
{
    1 << (8 * (bucket / 256))
}

impl Buckets {
    /// The heads of the lists, round each of which its list closes, with no timer.
    pub(crate) fn new(alloc: Global) -> Result<Self, AllocError>
        ensures heads { IfOk result (λ b. length b.nodes.items ≡ 2049) }
        ensures placed { IfOk result (λ b. AreBuckets b 2048) }
    {
        let mut nodes = Vec::with_capacity(alloc, HEADS as usize)?;
        for head in 0..HEADS {
            nodes.push_reserved(Node {
                value: Entry {
                    number: 0,
                    at: 0,
                    bucket: head,
                },
                before: head,
                behind: head,
            });
        }
        Ok(Buckets {
            nodes,
            occupied: [0; 32],
            moment: 0,
        })
    }

    /// Puts the free node in `slot` into the list where its moment belongs. The answer is that list's head.
    pub(crate) fn place(&mut self, slot: u32) -> u32
        requires slot { slot < vec_len self.old.nodes }
        requires heads { 2049 ≤ vec_len self.old.nodes }
        requires links { (h : ℕ) → h < 2049 → befores self.old.nodes.items h < vec_len self.old.nodes }
        ensures home { IsHome self.old.moment (moments self.old.nodes.items slot) result }
        ensures nodes { self.new.nodes.items ≡ attached self.old.nodes.items slot result }
        ensures marked { result < 2048 → bit_of self.new.occupied result ≡ 1 }
        ensures others { (k : ℕ) → k ≢ result → bit_of self.new.occupied k ≡ bit_of self.old.occupied k }
        ensures moment { self.new.moment ≡ self.old.moment }
        ensures capacity { KeepsCapacity self.old.nodes self.new.nodes }
    {
        let bucket = home(self.moment, self.nodes[slot as usize].value.at);
        attach(&mut self.nodes, slot, bucket);
        if bucket != DUE {
            mark(&mut self.occupied, bucket);
        }
        bucket
    }

    /// Puts each timer of the bucket that the wheel has reached where its moment belongs now.
    fn spread(&mut self, bucket: u32)
        requires within { bucket < 2048 }
        requires reached { AreBuckets self.old bucket }
        ensures placed { AreBuckets self.new 2048 }
        ensures keeps { Keeps self.old.nodes.items self.new.nodes.items }
        ensures moment { self.new.moment ≡ self.old.moment }
        ensures capacity { KeepsCapacity self.old.nodes self.new.nodes }
    {
        while self.nodes[bucket as usize].behind != bucket {
            let slot = self.nodes[bucket as usize].behind;
            detach(&mut self.nodes, slot);
            self.place(slot);
        }
        unmark(&mut self.occupied, bucket);
    }

    /// Moves the wheel to the end of the first marked bucket, at most to `now`, and spreads it. If none starts up to
    /// `now`, moves the wheel to `now`; the answer is then false.
    fn step(&mut self, now: u64) -> bool
        requires placed { AreBuckets self.old 2048 }
        requires late { self.old.moment ≤ now }
        ensures placed { AreBuckets self.new 2048 }
        ensures keeps { Keeps self.old.nodes.items self.new.nodes.items }
        ensures capacity { KeepsCapacity self.old.nodes self.new.nodes }
        ensures at_most { self.new.moment ≤ now }
        ensures moved { IsTrue result → self.old.moment < self.new.moment }
        ensures far { IsTrue result → (bucket : ℕ) × (bit_of self.old.occupied bucket ≡ 1)
            × (self.new.moment ≡ min now (end_of self.old.moment bucket)) }
        ensures end { result ≡ false → self.new.moment ≡ now }
        ensures kept { result ≡ false → self.new.nodes.items ≡ self.old.nodes.items }
    {
        let Some(bucket) = first_marked(&self.occupied) else {
            self.moment = now;
            return false;
        };
        let start = start_of(self.moment, bucket);
        if now < start {
            self.moment = now;
            return false;
        }
        self.moment = start + (now - start).min(span_of(bucket) - 1);
        self.spread(bucket);
        true
    }

    /// A timer of the due list whose moment is at or before `now`.
    fn overdue(&self, now: u64) -> Option<u32>
        requires { AreBuckets self.now 2048 }
        ensures some { IfSome result (λ s. IsTimer self.now.nodes.items s) }
        ensures due { IfSome result (λ s. moments self.now.nodes.items s ≤ now) }
        ensures none { IfNone result ((i : ℕ) → IsTimer self.now.nodes.items i → buckets self.now.nodes.items i ≡ 2048
            → now < moments self.now.nodes.items i) }
    {
        let mut slot = self.nodes[DUE as usize].behind;
        // No list is longer than the table.
        for _ in 0..self.nodes.len() {
            if slot == DUE {
                return None;
            }
            if self.nodes[slot as usize].value.at <= now {
                return Some(slot);
            }
            slot = self.nodes[slot as usize].behind;
        }
        None
    }

    /// Moves the wheel forward as far as a timer is due, at most to `now`. The answer is the slot of a timer whose
    /// moment is at or before `now`.
    pub(crate) fn due(&mut self, now: u64) -> Option<u32>
        requires { AreBuckets self.old 2048 }
        ensures placed { AreBuckets self.new 2048 }
        ensures keeps { Keeps self.old.nodes.items self.new.nodes.items }
        ensures capacity { KeepsCapacity self.old.nodes self.new.nodes }
        ensures forward { self.old.moment ≤ self.new.moment }
        ensures some { IfSome result (λ s. IsTimer self.new.nodes.items s) }
        ensures due { IfSome result (λ s. moments self.new.nodes.items s ≤ now) }
        ensures none { IfNone result ((i : ℕ) → IsTimer self.new.nodes.items i → now < moments self.new.nodes.items i) }
    {
        if now < self.moment {
            // The wheel's moment stays, and no bucket starts up to it: only the due list can have such a timer.
            return self.overdue(now);
        }
        while self.nodes[DUE as usize].behind == DUE {
            if !self.step(now) {
                return None;
            }
        }
        Some(self.nodes[DUE as usize].behind)
    }

    /// Puts a timer into the free node in `slot`. The answer is the slot that was free behind it.
    pub(crate) fn reuse(&mut self, slot: u32, number: u64, at: u64) -> u32
        requires placed { AreBuckets self.old 2048 }
        requires past { 2049 ≤ slot }
        requires within { slot < vec_len self.old.nodes }
        requires free { 2049 ≤ buckets self.old.nodes.items slot }
        ensures next { result ≡ behinds self.old.nodes.items slot }
        ensures placed { AreBuckets self.new 2048 }
        ensures puts { Puts self.old.nodes.items self.new.nodes.items slot (record { number = number; at = at }) }
        ensures len { vec_len self.new.nodes ≡ vec_len self.old.nodes }
        ensures capacity { KeepsCapacity self.old.nodes self.new.nodes }
    {
        let next = self.nodes[slot as usize].behind;
        self.nodes[slot as usize] = Node {
            value: Entry {
                number,
                at,
                bucket: HEADS,
            },
            before: 0,
            behind: 0,
        };
        self.place(slot);
        next
    }

    /// Puts a timer into a new node. The answer is its slot.
    pub(crate) fn append(&mut self, number: u64, at: u64) -> u32
        requires placed { AreBuckets self.old 2048 }
        requires room { vec_len self.old.nodes < vec_capacity self.old.nodes }
        requires small { vec_len self.old.nodes < 4294967296 }
        ensures slot { result ≡ vec_len self.old.nodes }
        ensures placed { AreBuckets self.new 2048 }
        ensures puts { Puts self.old.nodes.items self.new.nodes.items result (record { number = number; at = at }) }
        ensures len { vec_len self.new.nodes ≡ vec_len self.old.nodes + 1 }
        ensures capacity { KeepsCapacity self.old.nodes self.new.nodes }
    {
        let slot = self.nodes.len() as u32;
        self.nodes.push_reserved(Node {
            value: Entry {
                number,
                at,
                bucket: HEADS,
            },
            before: 0,
            behind: 0,
        });
        self.place(slot);
        slot
    }

    /// Gives the timer in `slot` another moment.
    pub(crate) fn reset(&mut self, slot: u32, at: u64)
        requires placed { AreBuckets self.old 2048 }
        requires timer { IsTimer self.old.nodes.items slot }
        ensures placed { AreBuckets self.new 2048 }
        ensures puts { Puts self.old.nodes.items self.new.nodes.items slot
            (record { number = numbers self.old.nodes.items slot; at = at }) }
        ensures len { vec_len self.new.nodes ≡ vec_len self.old.nodes }
        ensures capacity { KeepsCapacity self.old.nodes self.new.nodes }
    {
        detach(&mut self.nodes, slot);
        self.nodes[slot as usize].value.at = at;
        self.place(slot);
    }

    /// Takes the timer in `slot` out, and puts its node before the free one in `free`.
    pub(crate) fn release(&mut self, slot: u32, free: u32) -> u64
        requires placed { AreBuckets self.old 2048 }
        requires timer { IsTimer self.old.nodes.items slot }
        ensures number { result ≡ numbers self.old.nodes.items slot }
        ensures placed { AreBuckets self.new 2048 }
        ensures takes { Takes self.old.nodes.items self.new.nodes.items slot free }
        ensures len { vec_len self.new.nodes ≡ vec_len self.old.nodes }
        ensures capacity { KeepsCapacity self.old.nodes self.new.nodes }
    {
        detach(&mut self.nodes, slot);
        self.nodes[slot as usize].behind = free;
        self.nodes[slot as usize].value.number
    }
}
