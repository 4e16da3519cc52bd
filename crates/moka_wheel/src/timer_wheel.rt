//! A hierarchical timer wheel.
ghost use Rattle.std.specs.Prelude.{◌≡◌, ◌+◌, ◌-◌, ◌*◌, ◌^◌, ◌<◌, ◌≤◌, ℕ, min, IsOk, IsSome, OnOk, IfOk, IfSome, IfNone, Some, None, nat_eq, option_map, if◌then◌else◌};
ghost use Rattle.std.specs.FinMap.{empty, get, insert, len, remove};
ghost use Rattle.moka_wheel.specs.TimerWheel.{Timer};

use crate::buckets::Buckets;
use crate::nodes::HEADS;
use std::alloc::{AllocError, Global};
use std::marker::Model;

/// Slots have 32 bits, so there are never more nodes.
const MOST: usize = 1 << 32;

/// A timer that is due.
#[derive(Clone, Copy)]
pub struct Due {
    /// The slot that it had.
    pub slot: u32,
    /// What it was for.
    pub number: u64,
    /// When it was due, in nanoseconds.
    pub at: u64,
}

/// Timers, each with a number and a moment, by slots that the wheel hands out.
///
/// A wheel has eight levels of 256 buckets. A timer later than the wheel's moment stands at the level of the highest
/// byte in which the two moments differ, in the bucket of that byte's value; timers at or before it stand in one list
/// of due timers.
///
/// moka: `common::timer_wheel::TimerWheel`
pub struct TimerWheel {
    buckets: Buckets,
    // How many timers there are.
    len: usize,
    // The first free node, if there is one.
    free: u32,
}

// Written out so that an owner's drop is one call.
impl Drop for TimerWheel {
    fn drop(self) {
        let TimerWheel {
            buckets: _,
            len: _,
            free: _,
        } = self;
    }
}

impl Model for TimerWheel {
    ghost use Rattle.moka_wheel.specs.TimerWheel.{Timers, timers_code};

    ghost Value = { Timers };

    ghost coded = { timers_code };

    ghost use Rattle.moka_wheel.specs.Nodes.{timers_of};
    ghost use Rattle.moka_wheel.specs.Invariant.{IsWheel, room_of};

    ghost view = { λ w. record { timers = timers_of w.buckets.nodes.items; room = room_of w.buckets w.len } };

    ghost invariant = { λ w. IsWheel w.buckets w.len w.free };
}

impl TimerWheel {
    /// An empty wheel. It makes the heads of its lists.
    pub fn new(alloc: Global) -> Result<Self, AllocError>
        ensures { IfOk result (λ wheel. wheel.timers ≡ empty) }
    {
        Ok(TimerWheel {
            buckets: Buckets::new(alloc)?,
            len: 0,
            free: 0,
        })
    }

    /// How many timers there are.
    pub fn len(&self) -> usize
        ensures { result ≡ len self.now.timers }
    {
        self.len
    }

    /// Makes room for `additional` more timers, and changes nothing if there is room. If there is too little, the
    /// timers that fit are afterwards at least twice as many as before, or 2^32 - 2049, so a wheel grows seldom as it
    /// fills. It refuses more than 32-bit slots can name, as it does for want of memory.
    pub fn reserve(&mut self, additional: usize) -> Result<(), AllocError>
        ensures room { OnOk result (additional ≤ self.new.room) }
        ensures succeeds { additional ≤ self.old.room → IsOk result }
        ensures enough { additional ≤ self.old.room → self.new ≡ self.old }
        ensures timers { self.new.timers ≡ self.old.timers }
        ensures grows { self.old.room ≤ self.new.room }
        ensures doubles { OnOk result (self.old.room < additional
            → min (2 * (len self.old.timers + self.old.room)) (2 ^ 32 - 2049)
            ≤ len self.new.timers + self.new.room) }
    {
        let used = HEADS as usize + self.len;
        if additional > MOST - used {
            return Err(AllocError);
        }
        let wanted = used + additional;
        let fit = self.buckets.nodes.capacity();
        if wanted <= fit {
            return Ok(());
        }
        // A vector promises no more than it is asked for.
        let more = wanted.max(2 * fit) - self.buckets.nodes.len();
        self.buckets.nodes.reserve(more)
    }

    /// Starts a timer. The answer is its slot, which is not 0.
    pub fn schedule(&mut self, number: u64, at: u64) -> u32
        requires { 0 < self.old.room }
        ensures fresh { get self.old.timers result ≡ None }
        ensures positive { 0 < result }
        ensures timers { self.new.timers ≡ insert self.old.timers result (record { number = number; at = at }) }
        ensures lookups { (other : ℕ) → get self.new.timers other
            ≡ (if nat_eq other result then Some (record { number = number; at = at }) else get self.old.timers other) }
        ensures room { self.new.room + 1 ≡ self.old.room }
    {
        let count = self.len;
        self.len += 1;
        if count + HEADS as usize == self.buckets.nodes.len() {
            return self.buckets.append(number, at);
        }
        let slot = self.free;
        self.free = self.buckets.reuse(slot, number, at);
        slot
    }

    /// Gives the timer in `slot` another moment.
    pub fn reschedule(&mut self, slot: u32, at: u64)
        requires { IsSome (get self.old.timers slot) }
        ensures timers { (timer : Timer) → get self.old.timers slot ≡ Some timer
            → self.new.timers ≡ insert self.old.timers slot (record timer { at = at }) }
        ensures lookups { (other : ℕ) →
            get self.new.timers other ≡ (if nat_eq other slot
            then option_map (λ (timer : Timer). record timer { at = at }) (get self.old.timers slot)
            else get self.old.timers other) }
        ensures room { self.new.room ≡ self.old.room }
    {
        self.buckets.reset(slot, at);
    }

    /// Takes the timer in `slot` out. The answer is its number.
    pub fn deschedule(&mut self, slot: u32) -> u64
        requires { IsSome (get self.old.timers slot) }
        ensures number { option_map (λ (timer : Timer). timer.number) (get self.old.timers slot) ≡ Some result }
        ensures timers { self.new.timers ≡ remove self.old.timers slot }
        ensures lookups { (other : ℕ)
            → get self.new.timers other ≡ (if nat_eq other slot then None else get self.old.timers other) }
        ensures room { self.new.room ≡ self.old.room + 1 }
    {
        let number = self.buckets.release(slot, self.free);
        self.free = slot;
        self.len -= 1;
        number
    }

    /// Takes out a timer whose moment is at or before `now`, and returns it; `None` exactly if there is none.
    ///
    /// `now` may be earlier than at the last call. Which of several timers comes first is open.
    pub fn advance(&mut self, now: u64) -> Option<Due>
        ensures due { IfSome result (λ d. get self.old.timers d.slot ≡ Some (record { number = d.number; at = d.at })) }
        ensures late { IfSome result (λ d. d.at ≤ now) }
        ensures timers { IfSome result (λ d. self.new.timers ≡ remove self.old.timers d.slot) }
        ensures lookups { IfSome result (λ d. (other : ℕ)
            → get self.new.timers other ≡ (if nat_eq other d.slot then None else get self.old.timers other)) }
        ensures room { IfSome result (λ d. self.new.room ≡ self.old.room + 1) }
        ensures none { IfNone result ((slot : ℕ) (timer : Timer) → get self.old.timers slot ≡ Some timer
            → now < timer.at) }
        ensures unchanged { IfNone result (self.new ≡ self.old) }
    {
        let slot = self.buckets.due(now)?;
        let at = self.buckets.nodes[slot as usize].value.at;
        let number = self.deschedule(slot);
        Some(Due { slot, number, at })
    }
}
