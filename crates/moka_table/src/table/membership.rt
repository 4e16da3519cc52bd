//! A row's membership, and the words that stand for it.
ghost use Rattle.std.specs.Prelude.{◌≡◌, IfSome};
ghost use Rattle.std.specs.Option.{option_map};
ghost use Rattle.moka_table.specs.Slots.{slot_of, membership_of, counted_as, IsSlot, HasSlots};

/// What is kept of a member: its counted weight and its slots in both orders. No slot is 0.
#[derive(Clone, Copy)]
pub struct Membership {
    /// The weight that is counted for it.
    pub counted: u32,
    /// Its slot in the access list.
    pub access: u32,
    /// Its slot in the write list, if that list is kept.
    pub written: Option<u32>,
}

// Slots are kept as words in which 0 stands for none, since an `Option` would take a word more for each.

/// The slot for which a word stands.
#[inline(always)]
pub(crate) fn slot_of(word: u32) -> Option<u32>
    ensures slot { result ≡ slot_of word }
    ensures positive { IsSlot result }
{
    if word == 0 {
        return None;
    }
    Some(word)
}

/// The word that stands for a slot.
#[inline(always)]
pub(crate) fn word_of(slot: Option<u32>) -> u32
    requires { IsSlot slot }
    ensures { slot_of result ≡ slot }
{
    match slot {
        Some(slot) => slot,
        None => 0,
    }
}

// The weight of a membership lies with the cold part of a row's record. So a row knows none, and says 0.

/// The membership for which the words stand, with no weight.
#[inline(always)]
pub(crate) fn membership_of(access: u32, written: u32) -> Option<Membership>
    ensures membership { result ≡ membership_of access written }
    ensures slots { IfSome result HasSlots }
{
    if access == 0 {
        return None;
    }
    Some(Membership {
        counted: 0,
        access,
        written: slot_of(written),
    })
}

/// Writes the words that stand for a membership but for its weight, or for none.
#[inline(always)]
pub(crate) fn write_membership(access: &mut u32, written: &mut u32, membership: Option<Membership>)
    requires { IfSome membership HasSlots }
    ensures { membership_of access.new written.new ≡ option_map (counted_as 0) membership }
{
    let Some(membership) = membership else {
        *access = 0;
        return;
    };
    *access = membership.access;
    *written = word_of(membership.written);
}

/// The membership with this weight.
#[inline(always)]
pub(crate) fn counted_as(counted: u32, membership: Option<Membership>) -> Option<Membership>
    ensures { result ≡ option_map (counted_as counted) membership }
{
    let Membership {
        counted: _,
        access,
        written,
    } = membership?;
    Some(Membership {
        counted,
        access,
        written,
    })
}
