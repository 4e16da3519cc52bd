//! The axes of a chart: how far ticks are from one another, and where a value lies.
ghost use Rattle.std.specs.Prelude.{◌≡◌, ◌<◌, ◌≤◌, ◌+◌, ◌-◌, ◌*◌, ◌/◌, ◌%◌, ◌^◌, ℕ, max, min};

use std::fmt;

/// At most so many ticks stand on an axis, beside that of 0.
pub const MAX_TICKS: u64 = 8;

/// More powers of ten than a number of 64 bits has.
const POWERS: u32 = 20;

/// What the groups of three digits of a number count, from the highest one on.
const UNITS: [u64; 7] = [
    1_000_000_000_000_000_000,
    1_000_000_000_000_000,
    1_000_000_000_000,
    1_000_000_000,
    1_000_000,
    1_000,
    1,
];

/// The distance between ticks on an axis up to a value: the first of 1, 2, 5, 10, 20, 50 and so on by which there are
/// few enough of them.
pub fn tick_step(top: u64) -> u64
    ensures { 0 < result }
{
    let mut unit: u64 = 1;
    for _ in 0..POWERS {
        if top / unit.max(1) <= 5 * MAX_TICKS {
            break;
        }
        unit = unit.saturating_mul(10);
    }
    let unit = unit.max(1);
    if top / unit <= MAX_TICKS {
        unit
    } else if top / unit / 2 <= MAX_TICKS {
        unit.saturating_mul(2)
    } else {
        unit.saturating_mul(5)
    }
}

/// The first tick, beside that of 0, at or above a value, which is where its axis ends; 2^64 - 1 if that is less.
pub fn axis_end(top: u64, step: u64) -> u64
    requires { 0 < step }
    ensures some { 0 < result }
    ensures above { top ≤ result }
    ensures near { result ≤ top + step }
    ensures first { (ticks : ℕ) → 0 < ticks → top ≤ ticks * step → result ≤ ticks * step }
    ensures tick { result < 2 ^ 64 - 1 → result % step ≡ 0 }
{
    let ticks = (top / step).saturating_add(u64::from(top % step > 0));
    ticks.saturating_mul(step).max(step)
}

/// How far along a length a value lies, on an axis from 0 to `end`.
pub fn place(value: u64, end: u64, length: u64) -> u64
    ensures share { result ≡ min (value * length / max end 1) length }
    ensures within { result ≤ length }
{
    let shares = u128::from(value).saturating_mul(u128::from(length));
    let along = shares / u128::from(end.max(1));
    u64::try_from(along).unwrap_or(length).min(length)
}

/// A number with commas between its thousands.
#[derive(Clone, Copy)]
pub struct Grouped(pub u64);

impl fmt::Display for Grouped {
    fn fmt<W: fmt::Write>(&self, f: &mut fmt::Formatter<W>) -> fmt::Result {
        let mut is_begun = false;
        for unit in UNITS {
            let group = self.0 / unit.max(1) % 1000;
            if is_begun {
                write!(f, ",{group:03}")?;
            } else if group > 0 || unit == 1 {
                write!(f, "{group}")?;
                is_begun = true;
            }
        }
        Ok(())
    }
}
