//! The timers of rows, if an expiry is set.
ghost use Rattle.std.specs.Prelude.{◌≡◌, ◌+◌, ◌<◌, ◌≤◌, ◌&&◌, ◌⊎◌, ℕ, false, OnOk, IfOk, IsOk, IfSome, IfNone, is_some, None, Some, option_map};
ghost use Rattle.std.specs.FinMap.{empty, get, len};
ghost use Rattle.moka_records.specs.Time.{moment_of};
ghost use Rattle.moka_store.specs.Timers.{timer_after};
ghost use Rattle.moka_table.specs.Slots.{IsSlot};
ghost use Rattle.moka_wheel.specs.TimerWheel.{Timer};

use moka_records::instant::Instant;
use moka_wheel::{Due, TimerWheel};
use std::alloc::{AllocError, Global};
use std::marker::Model;

/// Timers of places, if an expiry is set. If none is, each call does nothing.
///
/// moka: `common::timer_wheel::TimerWheel`, which is enabled if an expiry is set.
pub(crate) struct Timers {
    wheel: Option<TimerWheel>,
}

// Written out so that an owner's drop is one call.
impl Drop for Timers {
    fn drop(self) {
        let Timers { wheel: _ } = self;
    }
}

impl Model for Timers {
    ghost use Rattle.moka_store.specs.Timers.{Timing, timing_code};

    ghost Value = { Timing };

    ghost coded = { timing_code };

    ghost use Rattle.moka_store.specs.Timers.{timing_of};

    ghost view = { λ a. timing_of a.wheel };
}

impl Timers {
    /// An empty set of timers; none is ever kept unless `timed` is set.
    pub fn new(alloc: Global, timed: bool) -> Result<Self, AllocError>
        ensures { IfOk result (λ t. t ≡ record { timers = empty; most = t.most; timed = timed }) }
    {
        let wheel = if timed {
            Some(TimerWheel::new(alloc)?)
        } else {
            None
        };
        Ok(Timers { wheel })
    }

    /// Whether timers are kept. If not, there is none.
    #[inline(always)]
    pub fn are_kept(&self) -> bool
        ensures kept { result ≡ self.now.timed }
        ensures none { result ≡ false → self.now.timers ≡ empty }
    {
        self.wheel.is_some()
    }

    /// Makes room for so many timers in all, and changes nothing if there is room.
    #[inline(always)]
    pub fn reserve(&mut self, places: usize) -> Result<(), AllocError>
        ensures room { OnOk result (places ≤ self.new.most) }
        ensures succeeds { places ≤ self.old.most → IsOk result }
        ensures enough { places ≤ self.old.most → self.new ≡ self.old }
        ensures rest { self.new ≡ record self.old { most = self.new.most } }
        ensures kept { self.old.most ≤ self.new.most }
    {
        let Some(wheel) = &mut self.wheel else {
            return Ok(());
        };
        wheel.reserve(places.saturating_sub(wheel.len()))
    }

    /// Gives a place, whose timer is in `before`, a timer at this moment, or none. The answer is its slot.
    #[inline(always)]
    pub fn set(&mut self, before: Option<u32>, place: u64, at: Option<Instant>) -> Option<u32>
        requires held { IfSome before
            (λ slot. option_map (λ (t : Timer). t.number) (get self.old.timers slot) ≡ Some place) }
        requires room { IfNone before (IfSome at (λ _. len self.old.timers < self.old.most)) }
        requires slot { IsSlot before }
        ensures slot { IsSlot result }
        ensures kept { is_some result ≡ (self.old.timed && is_some at) }
        ensures fresh { IfSome result (λ slot. (before ≡ Some slot) ⊎ (get self.old.timers slot ≡ None)) }
        ensures lookups { (other : ℕ)
            → get self.new.timers other ≡ timer_after self.old.timers before result place (moment_of at) other }
        ensures rest { self.new ≡ record self.old { timers = self.new.timers } }
        ensures untimed { self.old.timed ≡ false → (slot : ℕ) → get self.old.timers slot ≡ None }
    {
        set_in(self.wheel.as_mut()?, before, place, at)
    }

    /// Takes out a timer whose moment is at or before `now`, and returns it; `None` exactly if there is none.
    pub fn due(&mut self, now: Instant) -> Option<Due>
        ensures due { IfSome result (λ d. get self.old.timers d.slot ≡ Some (record { number = d.number; at = d.at })) }
        ensures late { IfSome result (λ d. d.at ≤ now.0) }
        ensures lookups { IfSome result (λ d. (other : ℕ)
            → get self.new.timers other ≡ timer_after self.old.timers (Some d.slot) None d.number None other) }
        ensures rest { self.new ≡ record self.old { timers = self.new.timers } }
        ensures none { IfNone result ((slot : ℕ) (timer : Timer) → get self.old.timers slot ≡ Some timer
            → now.0 < timer.at) }
        ensures unchanged { IfNone result (self.new ≡ self.old) }
    {
        self.wheel.as_mut()?.advance(now.0)
    }
}

// Gives a place, whose timer is in `before`, a timer at this moment, or none. The answer is its slot.
fn set_in(
    wheel: &mut TimerWheel,
    before: Option<u32>,
    place: u64,
    at: Option<Instant>,
) -> Option<u32>
    requires held { IfSome before
        (λ slot. option_map (λ (t : Timer). t.number) (get wheel.old.timers slot) ≡ Some place) }
    requires room { IfNone before (IfSome at (λ _. 0 < wheel.old.room)) }
    requires slot { IsSlot before }
    ensures slot { IsSlot result }
    ensures kept { is_some result ≡ is_some at }
    ensures fresh { IfSome result (λ slot. (before ≡ Some slot) ⊎ (get wheel.old.timers slot ≡ None)) }
    ensures lookups { (other : ℕ)
        → get wheel.new.timers other ≡ timer_after wheel.old.timers before result place (moment_of at) other }
    ensures most { len wheel.new.timers + wheel.new.room ≡ len wheel.old.timers + wheel.old.room }
{
    match (before, at) {
        (Some(slot), Some(at)) => {
            wheel.reschedule(slot, at.0);
            Some(slot)
        }
        (Some(slot), None) => {
            let _place = wheel.deschedule(slot);
            None
        }
        (None, Some(at)) => Some(wheel.schedule(place, at.0)),
        (None, None) => None,
    }
}
