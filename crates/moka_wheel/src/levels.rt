//! The levels of the wheel: where a timer stands, and which buckets are in use.
ghost use Rattle.std.specs.Prelude.{◌≡◌, ◌≢◌, ℕ, ◌<◌, IfSome, IfNone};
ghost use Rattle.moka_wheel.specs.Levels.{IsHome, bit_of};

use crate::nodes::DUE;

/// The head of the list in which a timer stands while the wheel is at `moment`.
pub(crate) fn home(moment: u64, at: u64) -> u32
    ensures { IsHome moment at result }
{
    if at <= moment {
        return DUE;
    }
    let level = (63 - (moment ^ at).leading_zeros()) / 8;
    let byte = (at >> (8 * level)) & 255;
    level * 256 + byte as u32
}

/// Notes that a bucket may hold timers.
pub(crate) fn mark(occupied: &mut [u64; 32], bucket: u32)
    requires { bucket < 2048 }
    ensures here { bit_of occupied.new bucket ≡ 1 }
    ensures others { (k : ℕ) → k ≢ bucket → bit_of occupied.new k ≡ bit_of occupied.old k }
{
    occupied[(bucket / 64) as usize] |= 1 << (bucket % 64);
}

/// Notes that a bucket is empty.
pub(crate) fn unmark(occupied: &mut [u64; 32], bucket: u32)
    requires { bucket < 2048 }
    ensures here { bit_of occupied.new bucket ≡ 0 }
    ensures others { (k : ℕ) → k ≢ bucket → bit_of occupied.new k ≡ bit_of occupied.old k }
{
    occupied[(bucket / 64) as usize] &= !(1 << (bucket % 64));
}

/// The first bucket that may hold timers: of the lowest level, and there of the least byte.
pub(crate) fn first_marked(occupied: &[u64; 32]) -> Option<u32>
    ensures within { IfSome result (λ b. b < 2048) }
    ensures marked { IfSome result (λ b. bit_of occupied.now b ≡ 1) }
    ensures first { IfSome result (λ b. (k : ℕ) → k < b → bit_of occupied.now k ≡ 0) }
    ensures none { IfNone result ((k : ℕ) → k < 2048 → bit_of occupied.now k ≡ 0) }
{
    for index in 0..32 {
        let word = occupied[index];
        if word != 0 {
            return Some(64 * index as u32 + word.trailing_zeros());
        }
    }
    None
}
