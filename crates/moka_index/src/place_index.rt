//! An index of places by the hashes of what lies there. It keeps no keys.
ghost use Rattle.std.specs.Prelude.{◌≡◌, ℕ, ◌+◌, ◌*◌, ◌^◌, ◌<◌, ◌≤◌, min, max, true, false, IfSome, IfNone, OnOk, OnErr, IsOk, None, Some, nat_eq};
ghost use Rattle.std.specs.FinMap as finite;

use crate::group::Group;
use crate::groups::{
    MAX_GROUPS, PLACES_PER_GROUP, empty_groups, find_entry, insert_entry, move_entries,
    remove_entry,
};
use std::alloc::{AllocError, Global};
use std::marker::Model;

/// Places, each of which is found by a hash and a test of what lies there.
///
/// The keys stay with the caller, who tests whether a place has the one that is looked for. A hash has 32 bits; of a
/// longer one the caller hands in any 32. A look-up reads one cache line for nearly every hash, and tests only places
/// with the very hash. Growth moves the hashes that are stored, so nothing is hashed again. Only `reserve` asks for
/// memory.
pub struct PlaceIndex {
    alloc: Global,
    groups: Vec<Group>,
    len: usize,
}

// Written out so that an owner's drop is one call.
impl Drop for PlaceIndex {
    fn drop(self) {
        let PlaceIndex {
            alloc: _,
            groups: _,
            len: _,
        } = self;
    }
}

impl Model for PlaceIndex {
    ghost use Rattle.std.specs.Prelude.{◌-◌, ◌*◌, length};
    ghost use Rattle.moka_index.specs.PlaceIndex.{Index, index_code};

    ghost Value = { Index };

    ghost coded = { index_code };

    ghost use Rattle.moka_index.specs.Groups.{entries_of, IsPlaceIndex};

    ghost view = { λ a. record { entries = entries_of a.groups.items; room = 4 * length a.groups.items - a.len } };

    ghost invariant = { λ a. IsPlaceIndex a.groups.items a.len };
}

impl PlaceIndex {
    /// An empty index, which takes no memory.
    pub fn new(alloc: Global) -> Self
        ensures entries { result.entries ≡ finite.empty }
        ensures room { result.room ≡ 0 }
    {
        PlaceIndex {
            alloc,
            groups: Vec::new(alloc),
            len: 0,
        }
    }

    /// How many places there are.
    pub fn len(&self) -> usize
        ensures { result ≡ finite.len self.now.entries }
    {
        self.len
    }

    /// Whether there is no place.
    pub fn is_empty(&self) -> bool
        ensures { result ≡ nat_eq (finite.len self.now.entries) 0 }
    {
        self.len() == 0
    }

    /// Makes room for `additional` more places, and changes nothing if there is room. If there is too little, the
    /// places that fit are afterwards at least twice as many as before, or 2^34, so an index grows seldom as it fills;
    /// they are at most twice as many, or three more than were asked for. An error leaves the index as it was: there is
    /// no memory, or the index would have more than 2^34 places.
    #[inline(always)]
    pub fn reserve(&mut self, additional: usize) -> Result<(), AllocError>
        ensures room { OnOk result (additional ≤ self.new.room) }
        ensures succeeds { additional ≤ self.old.room → IsOk result }
        ensures enough { additional ≤ self.old.room → self.new ≡ self.old }
        ensures err { OnErr result (self.new ≡ self.old) }
        ensures entries { self.new.entries ≡ self.old.entries }
        ensures kept { self.old.room ≤ self.new.room }
        ensures doubles { OnOk result (self.old.room < additional
            → min (2 * (finite.len self.old.entries + self.old.room))
            (2 ^ 34) ≤ finite.len self.new.entries + self.new.room) }
        ensures at_most { finite.len self.new.entries + self.new.room
            ≤ max (2 * (finite.len self.old.entries + self.old.room)) (finite.len self.old.entries + additional + 3) }
    {
        let room = PLACES_PER_GROUP * self.groups.len() - self.len;
        if additional <= room {
            return Ok(());
        }
        self.grow(additional)
    }

    // The same if there is no room for so many.
    #[cold]
    fn grow(&mut self, additional: usize) -> Result<(), AllocError>
        requires { self.old.room < additional }
        ensures room { OnOk result (additional ≤ self.new.room) }
        ensures err { OnErr result (self.new ≡ self.old) }
        ensures entries { self.new.entries ≡ self.old.entries }
        ensures kept { self.old.room ≤ self.new.room }
        ensures doubles { OnOk result (min (2 * (finite.len self.old.entries + self.old.room))
            (2 ^ 34) ≤ finite.len self.new.entries + self.new.room) }
        ensures at_most { finite.len self.new.entries + self.new.room
            ≤ max (2 * (finite.len self.old.entries + self.old.room)) (finite.len self.old.entries + additional + 3) }
    {
        if additional > PLACES_PER_GROUP * MAX_GROUPS - self.len {
            return Err(AllocError);
        }
        let needed = (self.len + additional).div_ceil(PLACES_PER_GROUP);
        let count = needed.max((2 * self.groups.len()).min(MAX_GROUPS));
        let mut groups = empty_groups(self.alloc, count)?;
        move_entries(&self.groups, &mut groups);
        self.groups = groups;
        Ok(())
    }

    /// A place with this hash that passes the test. Only places with this hash are tested.
    #[inline(always)]
    pub fn find<F: Fn(usize) -> bool>(&self, hash: u32, is_match: F) -> Option<usize>
        requires callable { (p : ℕ) → finite.get self.now.entries p ≡ Some hash → F.pre is_match p }
        ensures found { IfSome result (λ p. finite.get self.now.entries p ≡ Some hash) }
        ensures passes { IfSome result (λ p. F.post is_match p true) }
        ensures absent { IfNone result ((p : ℕ) → finite.get self.now.entries p ≡ Some hash → F.post is_match p false) }
    {
        match find_entry(&self.groups, hash, is_match) {
            Some(found) => Some(found.place),
            None => None,
        }
    }

    /// Adds a new place under its hash, if there is room.
    pub fn insert(&mut self, hash: u32, place: usize)
        requires room { 0 < self.old.room }
        requires fresh { finite.get self.old.entries place ≡ None }
        requires small { place < 2 ^ 32 }
        ensures entries { self.new.entries ≡ finite.insert self.old.entries place hash }
        ensures room { self.old.room ≡ self.new.room + 1 }
    {
        insert_entry(&mut self.groups, hash, place as u32);
        self.len += 1;
    }

    /// Removes a place, which has this hash.
    #[inline(always)]
    pub fn remove(&mut self, hash: u32, place: usize)
        requires { finite.get self.old.entries place ≡ Some hash }
        ensures entries { self.new.entries ≡ finite.remove self.old.entries place }
        ensures room { self.new.room ≡ self.old.room + 1 }
    {
        remove_entry(&mut self.groups, hash, place);
        self.len -= 1;
    }
}
