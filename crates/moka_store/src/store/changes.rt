//! Changes and reads at one place of the table.
ghost use Rattle.std.specs.Prelude.{◌≡◌, ◌^◌, ◌<◌, ◌≤◌, IsOk, IsSome, OnOk, Some, option_map};
ghost use Rattle.moka_store.specs.Rows.{member_in, row_room, timer_at, written_slot_at};
ghost use Rattle.moka_records.specs.declared.records.Record.{Record};
ghost use Rattle.moka_records.specs.Records.{member};
ghost use Rattle.moka_table.specs.RecordTable.{Row, number_at, row_at, stored_at};
ghost use Rattle.moka_table.specs.Slots.{IsSlot};

use super::Handle;
use moka_records::instant::Instant;
use moka_records::record_ref::RecordRef;
use moka_table::RecordTable;
use std::alloc::AllocError;

/// How many places there are at most: the index keeps 32 bits of each.
pub const MAX_PLACES: usize = 1 << 32;

// How many more rows fit with no memory, at places of 32 bits.
fn row_room<K, V>(table: &RecordTable<K, V>) -> usize
    ensures { result ≡ row_room table.now.rows table.now.room }
{
    let (capacity, rows) = (table.capacity(), table.len());
    if capacity <= MAX_PLACES {
        capacity - rows
    } else {
        0
    }
}

// Makes room for `additional` more rows at places of 32 bits.
#[inline(always)]
pub(crate) fn reserve_rows<K, V>(
    table: &mut RecordTable<K, V>,
    additional: usize,
) -> Result<(), AllocError>
    ensures room { OnOk result (additional ≤ row_room table.new.rows table.new.room) }
    ensures succeeds { additional ≤ row_room table.old.rows table.old.room → IsOk result }
    ensures enough { additional ≤ row_room table.old.rows table.old.room → table.new ≡ table.old }
    ensures rows { table.new.rows ≡ table.old.rows }
    ensures kept { OnOk result (row_room table.old.rows table.old.room ≤ row_room table.new.rows table.new.room) }
{
    if row_room(table) >= additional {
        return Ok(());
    }
    table.reserve(additional)?;
    if row_room(table) < additional {
        return Err(AllocError);
    }
    Ok(())
}

// The handle of the record at this place, and that record.
#[inline(always)]
pub(crate) fn live_at<K, V>(
    table: &RecordTable<K, V>,
    place: usize,
) -> (Handle, RecordRef<'_, K, V>)
    requires { IsSome (stored_at table.now.rows place) }
    ensures place { result.0.place ≡ place }
    ensures number { result.0.number ≡ number_at table.now.rows place }
    ensures stored { Some result.1 ≡ stored_at table.now.rows place }
{
    let Some((number, stored)) = table.live(place) else {
        unreachable!()
    };
    (Handle { number, place }, stored)
}

// The handle of the row at this place, with its counted weight.
pub(crate) fn member_at<K, V>(table: &RecordTable<K, V>, place: usize) -> (Handle, u32)
    requires { IsSome (row_at table.now.rows place) }
    ensures place { result.0.place ≡ place }
    ensures member { (row : Row (Record K V)) → row_at table.now.rows place ≡ Some row
        → member result.0.number result.1 ≡ member_in row }
{
    let handle = handle_at(table, place);
    (handle, table.counted(place).unwrap_or(0))
}

// The handle of the row at this place.
pub(crate) fn handle_at<K, V>(table: &RecordTable<K, V>, place: usize) -> Handle
    requires { IsSome (row_at table.now.rows place) }
    ensures place { result.place ≡ place }
    ensures number { (row : Row (Record K V)) → row_at table.now.rows place ≡ Some row → result.number ≡ row.number }
{
    let Some(number) = table.number(place) else {
        unreachable!()
    };
    Handle { number, place }
}

// The slot in the write list of the row at this place.
pub(crate) fn written_slot<K, V>(table: &RecordTable<K, V>, place: usize) -> Option<u32>
    ensures { result ≡ written_slot_at table.now.rows place }
{
    table.membership(place)?.written
}

// The node of the write list that leads to the row at this place.
pub(crate) fn written_node<K, V>(table: &RecordTable<K, V>, place: usize) -> Option<(u32, u32)>
    requires { place < 2 ^ 32 }
    ensures { result ≡ option_map (λ slot. (slot, place)) (written_slot_at table.now.rows place) }
{
    let slot = written_slot(table, place)?;
    Some((slot, place as u32))
}

// The timer of the row at this place, and when its record expires.
pub(crate) fn timing_at<K, V>(
    table: &RecordTable<K, V>,
    place: usize,
) -> (Option<u32>, Option<Instant>)
    ensures timer { result.0 ≡ timer_at table.now.rows place }
    ensures slot { IsSlot result.0 }
    ensures expires { (r : Record K V) → stored_at table.now.rows place ≡ Some r → result.1 ≡ r.expires }
{
    let expires = match table.record(place) {
        Some(stored) => stored.expires(),
        None => None,
    };
    (table.timer(place), expires)
}
