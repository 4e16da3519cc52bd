//! A place of the table, in as few bytes as it takes.
ghost use Rattle.std.specs.Prelude.{◌≡◌, false, IfSome, IsSome, None, Some, option_copied};
ghost use Rattle.std.specs.Option.{option_and_then, option_map};
ghost use Rattle.slab.specs.declared.Entry.TheVariants.{Vacant, Occupied};
ghost use Rattle.slab.specs.Entry.{value_of};
ghost use Rattle.moka_table.specs.RecordTable.{Row};
ghost use Rattle.moka_table.specs.Slots.{membership_of, slot_of, counted_as, IsSlot, HasSlots};
ghost use Rattle.moka_table.specs.States.{front_of, touched, rewritten};

use super::Update;
use super::membership::{Membership, membership_of, slot_of, word_of, write_membership};
use moka_records::instant::Instant;
use moka_records::record_ref::{Front, Hot};
use std::marker::Model;
use std::mem;

/// A row of the table but for the cold part of its record, or a vacant place with the next one. A row has a record,
/// until it leaves the map; a membership, while it is a member, whose weight lies with the cold part; and a slot among
/// the timers, while it has one.
pub(crate) struct Slot<K, V> {
    state: State<K, V>,
}

// Written out so that an owner's drop is one call.
impl<K: Drop, V: Drop> Drop for Slot<K, V> {
    fn drop(self) {
        let Slot { state: _ } = self;
    }
}

// With keys and values of a word each, a line of memory, of which the first 48 bytes are what look-ups read, the
// first 56 with a time to live.
#[derive(Drop)]
enum State<K, V> {
    Live {
        expiring: bool,
        access: u32,
        number: u64,
        hot: Hot<K, V>,
        written: u32,
        timer: u32,
    },
    // The record left the map.
    Gone {
        access: u32,
        number: u64,
        written: u32,
        timer: u32,
    },
    Vacant {
        next: usize,
    },
}

/// A record that is lent, but for its number and its cold part.
#[derive(Drop)]
pub(crate) struct FrontRef<'a, K, V> {
    pub(crate) hot: &'a Hot<K, V>,
    pub(crate) expiring: bool,
}

impl<K, V> Model for Slot<K, V> {
    ghost use Rattle.slab.specs.declared.Entry.{Entry};
    ghost use Rattle.moka_records.specs.RecordParts.{front_code};
    ghost use Rattle.moka_records.specs.declared.record_ref.Front.{Front};
    ghost use Rattle.moka_table.specs.RecordTable.{Row, row_code};
    ghost use Rattle.moka_table.specs.Slots.{entry_code};
    ghost use Rattle.moka_table.specs.States.{entry_of};

    ghost Value = { Entry (Row (Front K V)) };

    ghost coded = { entry_code (row_code (front_code K.code V.code)) };

    ghost view = { λ a. entry_of a.state };
}

impl<K, V> Slot<K, V> {
    /// The row of a number whose record is in the map.
    #[inline(always)]
    pub(crate) fn full(number: u64, front: Front<K, V>) -> Self
        ensures { result ≡ Occupied (record { number = number; stored = Some front; membership = None; timer = None }) }
    {
        let Front { hot, expiring } = front;
        Slot {
            state: State::Live {
                expiring,
                access: 0,
                number,
                hot,
                written: 0,
                timer: 0,
            },
        }
    }

    /// A vacant place before this one.
    #[inline(always)]
    pub(crate) fn vacant(next: usize) -> Self
        ensures { result ≡ Vacant next }
    {
        Slot {
            state: State::Vacant { next },
        }
    }

    /// The vacant place behind this one, which is vacant.
    #[inline(always)]
    pub(crate) fn into_next(self) -> usize
        requires { value_of self ≡ None }
        ensures { self ≡ Vacant result }
    {
        let Slot { state } = self;
        match state {
            State::Vacant { next } => next,
            State::Live { .. } | State::Gone { .. } => unreachable!(),
        }
    }

    /// The row's number, if there is a row.
    #[inline(always)]
    pub(crate) fn number(&self) -> Option<u64>
        ensures { result ≡ option_map (λ row. row.number) (value_of self.now) }
    {
        match &self.state {
            State::Live { number, .. } | State::Gone { number, .. } => Some(*number),
            State::Vacant { .. } => None,
        }
    }

    /// The row's number and its record, if it is in the map.
    #[inline(always)]
    pub(crate) fn live(&self) -> Option<(u64, FrontRef<'_, K, V>)>
        ensures number { IfSome result (λ f. option_map (λ row. row.number) (value_of self.now) ≡ Some f.0) }
        ensures stored { option_map (λ f. front_of f.1) result
            ≡ option_and_then (λ row. row.stored) (value_of self.now) }
    {
        match &self.state {
            State::Live {
                expiring,
                number,
                hot,
                ..
            } => {
                let front = FrontRef {
                    hot,
                    expiring: *expiring,
                };
                Some((*number, front))
            }
            State::Gone { .. } | State::Vacant { .. } => None,
        }
    }

    /// The key of the record, if it is in the map.
    #[inline(always)]
    pub(crate) fn key(&self) -> Option<&K>
        ensures { option_copied result ≡ option_map (λ f. f.hot.key)
            (option_and_then (λ row. row.stored) (value_of self.now)) }
    {
        match &self.state {
            State::Live { hot, .. } => Some(&hot.key),
            State::Gone { .. } | State::Vacant { .. } => None,
        }
    }

    /// The row's membership, with no weight.
    #[inline(always)]
    pub(crate) fn membership(&self) -> Option<Membership>
        ensures membership { result ≡ option_and_then (λ row. row.membership) (value_of self.now) }
        ensures slots { IfSome result HasSlots }
    {
        match &self.state {
            State::Live {
                access,
                written,
                ..
            }
            | State::Gone {
                access,
                written,
                ..
            } => membership_of(*access, *written),
            State::Vacant { .. } => None,
        }
    }

    /// The row's slot among the timers.
    #[inline(always)]
    pub(crate) fn timer(&self) -> Option<u32>
        ensures timer { result ≡ option_and_then (λ row. row.timer) (value_of self.now) }
        ensures slot { IsSlot result }
    {
        match &self.state {
            State::Live { timer, .. } | State::Gone { timer, .. } => slot_of(*timer),
            State::Vacant { .. } => None,
        }
    }

    /// The record, which is in the map, was read at this moment, and now expires by itself or does not: as before,
    /// unless that is renewed.
    #[inline(always)]
    pub(crate) fn touch(&mut self, moment: Instant, is_expiring: bool, is_renewed: bool)
        requires stored { IsSome (option_and_then (λ row. row.stored) (value_of self.old)) }
        requires kept { is_renewed ≡ false → (row : Row (Front K V)) (f : Front K V) → self.old ≡ Occupied row
            → row.stored ≡ Some f → is_expiring ≡ f.expiring }
        ensures { (row : Row (Front K V)) (f : Front K V) → self.old ≡ Occupied row → row.stored ≡ Some f
            → self.new ≡ Occupied (record row { stored = Some (touched moment is_expiring f) }) }
    {
        let State::Live { hot, expiring, .. } = &mut self.state else {
            unreachable!()
        };
        hot.read = moment;
        if is_renewed {
            *expiring = is_expiring;
        }
    }

    /// The record, which is in the map, gets another value, with what comes with it. The answer is the old value.
    #[inline(always)]
    pub(crate) fn replace_value(&mut self, update: Update<V>) -> V
        requires { IsSome (option_and_then (λ row. row.stored) (value_of self.old)) }
        ensures value { (row : Row (Front K V)) (f : Front K V) → self.old ≡ Occupied row → row.stored ≡ Some f
            → result ≡ f.hot.value }
        ensures new { (row : Row (Front K V)) (f : Front K V) → self.old ≡ Occupied row → row.stored ≡ Some f
            → self.new ≡ Occupied (record row { stored = Some (rewritten update f) }) }
    {
        let State::Live { expiring, hot, .. } = &mut self.state else {
            unreachable!()
        };
        *expiring = update.expires.is_some();
        hot.read = update.now;
        hot.written = update.now;
        mem::replace(&mut hot.value, update.value)
    }

    /// The record leaves the row.
    #[inline(always)]
    pub(crate) fn take(&mut self) -> (u64, Front<K, V>)
        requires { IsSome (option_and_then (λ row. row.stored) (value_of self.old)) }
        ensures number { (row : Row (Front K V)) → self.old ≡ Occupied row → row.number ≡ result.0 }
        ensures taken { option_and_then (λ row. row.stored) (value_of self.old) ≡ Some result.1 }
        ensures left { (row : Row (Front K V)) → self.old ≡ Occupied row
            → self.new ≡ Occupied (record row { stored = None }) }
    {
        let State::Live {
            access,
            number,
            written,
            timer,
            ..
        } = &self.state
        else {
            unreachable!()
        };
        let gone = State::Gone {
            access: *access,
            number: *number,
            written: *written,
            timer: *timer,
        };
        match mem::replace(&mut self.state, gone) {
            State::Live {
                expiring,
                number,
                hot,
                ..
            } => {
                let front = Front { hot, expiring };
                (number, front)
            }
            State::Gone { .. } | State::Vacant { .. } => unreachable!(),
        }
    }

    /// The row gets another membership but for its weight, or none.
    #[inline(always)]
    pub(crate) fn set_membership(&mut self, membership: Option<Membership>)
        requires row { IsSome (value_of self.old) }
        requires slots { IfSome membership HasSlots }
        ensures { (row : Row (Front K V)) → self.old ≡ Occupied row
            → self.new ≡ Occupied (record row { membership = option_map (counted_as 0) membership }) }
    {
        match &mut self.state {
            State::Live {
                access,
                written,
                ..
            } => write_membership(access, written, membership),
            State::Gone {
                access,
                written,
                ..
            } => write_membership(access, written, membership),
            State::Vacant { .. } => unreachable!(),
        }
    }

    /// The row gets another slot among the timers, or none.
    #[inline(always)]
    pub(crate) fn set_timer(&mut self, slot: Option<u32>)
        requires row { IsSome (value_of self.old) }
        requires slot { IsSlot slot }
        ensures { (row : Row (Front K V)) → self.old ≡ Occupied row
            → self.new ≡ Occupied (record row { timer = slot }) }
    {
        match &mut self.state {
            State::Live { timer, .. } => *timer = word_of(slot),
            State::Gone { timer, .. } => *timer = word_of(slot),
            State::Vacant { .. } => unreachable!(),
        }
    }
}
