//! The groups of an index as one table, in which a hash is searched from its home on.
ghost use Rattle.std.specs.Prelude.{◌≡◌, ℕ, ◌+◌, ◌*◌, ◌^◌, ◌<◌, ◌≤◌, true, false, IfSome, IfNone, IfOk, None, Some, length, replicate};
ghost use Rattle.std.specs.FinMap as finite;
ghost use Rattle.moka_index.specs.Group.{home, empty_group, entry_in, HasLanes};
ghost use Rattle.moka_index.specs.Groups.{probe, behind, group_at, entry_at, entries_of, pushed, with_reach, IsGroups, IsTight, StaysExact, AreExactBut};

use crate::group::{Group, LANES, home, lowest_set_bit, without_lowest_bit};
use std::alloc::{AllocError, Global};

/// At most 2^32 groups, since a hash has 32 bits.
pub(crate) const MAX_GROUPS: usize = 1 << 32;

/// How many places a group has at most on average: the fewer, the fewer searches go on to a second group.
pub(crate) const PLACES_PER_GROUP: usize = 4;

/// A place, and the lane that it is in.
#[derive(Clone, Copy)]
pub(crate) struct Found {
    pub(crate) group: usize,
    pub(crate) lane: usize,
    pub(crate) place: usize,
}

// The group that is `step` groups past the first, of `count`, going round at the end.
#[inline(always)]
fn probe(first: usize, step: usize, count: usize) -> usize
    requires first { first < count }
    requires step { step < count }
    requires count { count ≤ 2 ^ 32 }
    ensures value { result ≡ probe count first step }
    ensures within { result < count }
{
    let at = first + step;
    if at < count { at } else { at - count }
}

// The group behind one, of `count`, going round at the end.
#[inline(always)]
fn behind(at: usize, count: usize) -> usize
    requires { at < count }
    ensures value { result ≡ behind count at }
    ensures within { result < count }
{
    let next = at + 1;
    if next < count { next } else { 0 }
}

/// Groups with no places, or an error if there is no memory.
pub(crate) fn empty_groups(alloc: Global, count: usize) -> Result<Vec<Group>, AllocError>
    ensures { IfOk result (λ groups. groups.items ≡ replicate count empty_group) }
{
    let empty = Group {
        hashes: [0; 7],
        count: 0,
        places: [0; 7],
        reach: 0,
    };
    Vec::from_elem(alloc, empty, count)
}

// The lane and the place of one in this group with this hash that passes the test.
#[inline(always)]
fn find_in_group<F: Fn(usize) -> bool>(
    group: &Group,
    hash: u32,
    is_match: &F,
) -> Option<(usize, usize)>
    requires lanes { HasLanes group.now }
    requires callable { (lane p : ℕ) → entry_in group.now lane ≡ Some (p, hash) → F.pre is_match.now p }
    ensures found { IfSome result (λ f. entry_in group.now f.0 ≡ Some (f.1, hash)) }
    ensures passes { IfSome result (λ f. F.post is_match.now f.1 true) }
    ensures absent { IfNone result ((lane p : ℕ) → entry_in group.now lane ≡ Some (p, hash)
        → F.post is_match.now p false) }
{
    let mut matches = group.matches(hash);
    while matches != 0 {
        let lane = lowest_set_bit(matches);
        if lane < group.count as usize {
            let place = group.places[lane] as usize;
            if is_match(place) {
                return Some((lane, place));
            }
        }
        matches = without_lowest_bit(matches);
    }
    None
}

/// A place with this hash that passes the test.
#[inline(always)]
pub(crate) fn find_entry<F: Fn(usize) -> bool>(
    groups: &[Group],
    hash: u32,
    is_match: F,
) -> Option<Found>
    requires groups { IsGroups groups.now }
    requires callable { (q p : ℕ) → entry_at groups.now q ≡ Some (p, hash) → F.pre is_match p }
    ensures found { IfSome result (λ f. entry_at groups.now (7 * f.group + f.lane) ≡ Some (f.place, hash)) }
    ensures lane { IfSome result (λ f. f.lane < 7) }
    ensures group { IfSome result (λ f. f.group < length groups.now) }
    ensures passes { IfSome result (λ f. F.post is_match f.place true) }
    ensures absent { IfNone result ((q p : ℕ) → entry_at groups.now q ≡ Some (p, hash) → F.post is_match p false) }
{
    let count = groups.len();
    if count == 0 {
        return None;
    }
    let first = home(hash, count);
    let reach = groups[first].reach as usize;
    let mut at = first;
    for _step in 0..reach + 1 {
        if let Some((lane, place)) = find_in_group(&groups[at], hash, &is_match) {
            return Some(Found {
                group: at,
                lane,
                place,
            });
        }
        at = behind(at, count);
    }
    None
}

/// Adds a new place under its hash.
pub(crate) fn insert_entry(groups: &mut Vec<Group>, hash: u32, place: u32)
    requires groups { IsGroups groups.old.items }
    requires fresh { finite.get (entries_of groups.old.items) place ≡ None }
    requires room { finite.len (entries_of groups.old.items) < 7 * length groups.old.items }
    ensures groups { IsGroups groups.new.items }
    ensures entries { entries_of groups.new.items ≡ finite.insert (entries_of groups.old.items) place hash }
    ensures len { length groups.new.items ≡ length groups.old.items }
    ensures tight { IsTight groups.old.items → IsTight groups.new.items }
{
    let count = groups.len();
    let first = home(hash, count);
    for step in 0..count {
        let at = probe(first, step, count);
        if (groups[at].count as usize) < LANES {
            push_at(groups, at, hash, place);
            raise_reach(groups, first, step as u32);
            return;
        }
    }
    unreachable!()
}

// Adds a place to a group.
#[inline(always)]
fn push_at(groups: &mut Vec<Group>, at: usize, hash: u32, place: u32)
    requires at { at < length groups.old.items }
    requires count { (group_at groups.old.items at).count < 7 }
    ensures { groups.new.items ≡ pushed groups.old.items at hash place }
{
    groups[at].push(hash, place);
}

// Notes in a group that a place whose home it is stands so many groups past it.
#[inline(always)]
fn raise_reach(groups: &mut Vec<Group>, first: usize, step: u32)
    requires { first < length groups.old.items }
    ensures { groups.new.items ≡ with_reach groups.old.items first step }
{
    let group = &mut groups[first];
    group.reach = group.reach.max(step);
}

// Removes a place, which is in this lane.
#[inline(always)]
fn remove_found(groups: &mut Vec<Group>, found: Found)
    requires groups { IsGroups groups.old.items }
    requires group { found.group < length groups.old.items }
    requires lane { found.lane < 7 }
    requires there { (hash : ℕ)
        × (entry_at groups.old.items (7 * found.group + found.lane) ≡ Some (found.place, hash)) }
    ensures groups { IsGroups groups.new.items }
    ensures entries { entries_of groups.new.items ≡ finite.remove (entries_of groups.old.items) found.place }
    ensures len { length groups.new.items ≡ length groups.old.items }
    ensures exact { StaysExact groups.old.items groups.new.items found.group found.lane }
{
    groups[found.group].swap_remove(found.lane);
}

/// Removes a place, which has this hash.
#[inline(always)]
pub(crate) fn remove_entry(groups: &mut Vec<Group>, hash: u32, place: usize)
    requires groups { IsGroups groups.old.items }
    requires there { finite.get (entries_of groups.old.items) place ≡ Some hash }
    ensures groups { IsGroups groups.new.items }
    ensures entries { entries_of groups.new.items ≡ finite.remove (entries_of groups.old.items) place }
    ensures len { length groups.new.items ≡ length groups.old.items }
    ensures tight { IsTight groups.old.items → IsTight groups.new.items }
{
    let Some(found) = find_entry(groups, hash, |p| p == place) else {
        unreachable!()
    };
    remove_found(groups, found);
    let count = groups.len();
    let first = home(hash, count);
    let reach = groups[first].reach;
    if reach > 0 && probe(first, reach as usize, count) == found.group {
        lower_reach(groups, first);
    }
}

// Lowers the reach of a group as far as the stored hashes allow.
fn lower_reach(groups: &mut Vec<Group>, first: usize)
    requires groups { IsGroups groups.old.items }
    requires first { first < length groups.old.items }
    ensures groups { IsGroups groups.new.items }
    ensures entries { entries_of groups.new.items ≡ entries_of groups.old.items }
    ensures len { length groups.new.items ≡ length groups.old.items }
    ensures tight { AreExactBut groups.old.items first → IsTight groups.new.items }
{
    let count = groups.len();
    let mut reach = groups[first].reach;
    while reach > 0 && !groups[probe(first, reach as usize, count)].has_home(first, count) {
        reach -= 1;
    }
    groups[first].reach = reach;
}

/// Adds all places of `from` to the empty groups `to`.
pub(crate) fn move_entries(from: &[Group], to: &mut Vec<Group>)
    requires from { IsGroups from.now }
    requires to { to.old.items ≡ replicate (length to.old.items) empty_group }
    requires few { length to.old.items ≤ 2 ^ 32 }
    requires room { finite.len (entries_of from.now) < 7 * length to.old.items }
    ensures groups { IsGroups to.new.items }
    ensures entries { entries_of to.new.items ≡ entries_of from.now }
    ensures len { length to.new.items ≡ length to.old.items }
    ensures tight { IsTight to.new.items }
{
    for q in 0..LANES * from.len() {
        let group = &from[q / LANES];
        let lane = q % LANES;
        if lane < group.count as usize {
            insert_entry(to, group.hashes[lane], group.places[lane]);
        }
    }
}
