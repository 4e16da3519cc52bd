//! What the caches found, as a table.
use crate::row::{POLICIES, Row};
use std::io;

/// Prints a table by capacity, with a column for each policy that was played.
///
/// # Errors
/// A write that was refused.
pub fn print_table(rt: &impl Print, name: &str, rows: &[Row]) -> io::Result<()> {
    println!(rt; "{name}")?;
    let Some(first) = rows.first() else {
        return Ok(());
    };
    print_head(rt, first)?;
    for row in rows {
        print_row(rt, row)?;
    }
    Ok(())
}

/// Prints the names of the columns.
fn print_head(rt: &impl Print, row: &Row) -> io::Result<()> {
    print!(rt; "  capacity")?;
    for policy in POLICIES {
        if row.ratio(policy).is_some() {
            let name = policy.name();
            print!(rt; "{name:>9}")?;
        }
    }
    println!(rt; "")
}

/// Prints the hit ratios at a capacity.
fn print_row(rt: &impl Print, row: &Row) -> io::Result<()> {
    let capacity = row.capacity;
    print!(rt; "{capacity:>10}")?;
    for policy in POLICIES {
        if let Some(ratio) = row.ratio(policy) {
            print!(rt; "   {ratio}")?;
        }
    }
    println!(rt; "")
}
